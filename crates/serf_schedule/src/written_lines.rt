//! Writes the lines of a schedule, the words for the pipe to an agent under test, and the text of a whole schedule.

ghost use Rattle.std.specs.Prelude.{◌≡◌, ◌++◌, All, Ok, OnOk};
ghost use Rattle.std.specs.List.{flat_map};
ghost use Rattle.std.specs.Option.{option_copied};
ghost use Rattle.serf_schedule.specs.Schedule.{parsed_of, schedule_of};
ghost use Rattle.serf_schedule.specs.Sayable.{HasByteName, IsSayable};
ghost use Rattle.serf_schedule.specs.ScheduleText.{act_words, action_text, agent_text, config_words, limit_words, packet_word, schedule_text, spaced};
ghost use Rattle.serf_schedule.specs.Words.{word_text};

use crate::command::verb_word;
use crate::laws::text_reads_back;
use crate::modes::mode_word;
use crate::sayable::has_byte_name;
use crate::schedule::Schedule;
use crate::written_words::Word::{Hex, Number, Plain, Signed};
use crate::written_words::{
    Word, flags, join, sink_call, write_hex_words, write_line, write_words,
};
use serf_agent::{Config, DEFAULT_QUERY_LIMIT, DEFAULT_RESPONSE_LIMIT};
use serf_model::{Act, Action, NewQuery};
use serf_text::flag;
use std::alloc::AllocError;

/// Appends the query limit and the response limit of `config`, unless both are the default.
fn write_limit_words(out: &mut Vec<u8>, config: &Config) -> Result<(), AllocError>
    ensures { OnOk result (out.new.items ≡ out.old.items ++ spaced (limit_words config.now)) }
{
    if config.query_limit == DEFAULT_QUERY_LIMIT
        && config.response_limit == DEFAULT_RESPONSE_LIMIT
    {
        return Ok(());
    }
    write_words(
        out,
        &[Number(config.query_limit), Number(config.response_limit)],
    )
}

/// Appends the settings `config`, with a space before each word. The limits on packets are left out if both are the
/// default. If memory runs out, `out` may have a part of the words.
pub fn write_config_words(out: &mut Vec<u8>, config: &Config) -> Result<(), AllocError>
    ensures { OnOk result (out.new.items ≡ out.old.items ++ spaced (config_words config.now)) }
{
    let words = [
        Hex(config.name.as_slice()),
        Number(config.event_buffer),
        Number(config.query_buffer),
        Number(config.event_limit),
        Number(config.responders),
        Plain(mode_word(config)),
        Number(config.per_time),
    ];
    write_words(out, &words)?;
    write_limit_words(out, config)
}

/// Appends the line of the agent with the settings `config`. If memory runs out, `out` may have a part of the line.
#[tactic(auto, unfolding(crate::specs::ScheduleText::agent_text))]
pub fn write_agent_line(out: &mut Vec<u8>, config: &Config) -> Result<(), AllocError>
    ensures { OnOk result (out.new.items ≡ out.old.items ++ agent_text config.now) }
{
    out.extend_from_slice(b"agent")?;
    write_config_words(out, config)?;
    out.extend_from_slice(b"\n")
}

/// Returns the word for packet number `packet`: the packet's bytes if `given` has them, and its number otherwise.
fn packet_word<'a>(given: Option<&'a [u8]>, packet: u64) -> Word<'a>
    ensures { word_text result ≡ packet_word (option_copied given.entry) packet }
{
    match given {
        Some(bytes) => Hex(bytes),
        None => Number(packet),
    }
}

/// Appends the words of `query` that follow the agent in a `query` line, from the moment to the filters.
fn write_query_words(out: &mut Vec<u8>, query: &NewQuery) -> Result<(), AllocError>
    ensures { OnOk result (out.new.items ≡ out.old.items
        ++ spaced (act_words None (Act.Query query.now))) }
{
    let words = [
        Number(query.moment),
        Number(u64::from(query.id)),
        Hex(query.name.as_slice()),
        Hex(query.payload.as_slice()),
        Signed(query.params.timeout),
        Number(flags(&query.params)),
    ];
    write_words(out, &words)?;
    write_hex_words(out, query.params.filters.as_slice())
}

/// Appends the words of `act` that follow the agent in its line, with a space before each. A packet that the agent
/// receives is written as its bytes if `given` has them, and as its number otherwise. If memory runs out, `out` may
/// have a part of the words.
///
/// The words of a query don't state whether tag filters pass, or to which address the answers are sent
/// ([`crate::is_sayable`]).
pub fn write_act_words(out: &mut Vec<u8>, act: &Act, given: Option<&[u8]>) -> Result<(), AllocError>
    ensures { OnOk result (out.new.items ≡ out.old.items
        ++ spaced (act_words (option_copied given.entry) act.now)) }
{
    match act {
        Act::Fire {
            name,
            payload,
            coalesce,
        } => {
            write_words(
                out,
                &[
                    Hex(name.as_slice()),
                    Hex(payload.as_slice()),
                    Plain(flag(*coalesce)),
                ],
            )
        }
        Act::Deliver { packet, now } => {
            write_words(out, &[packet_word(given, *packet), Number(*now)])
        }
        Act::Merge { packet, join: mode } => {
            write_words(out, &[packet_word(given, *packet), Plain(join(*mode))])
        }
        Act::Query(query) => write_query_words(out, query.get()),
        Act::Respond {
            handed,
            now,
            payload,
        } => {
            write_words(
                out,
                &[Number(*handed), Number(*now), Hex(payload.as_slice())],
            )
        }
        Act::Restart { tail } => write_words(out, &[Hex(tail.as_slice())]),
        Act::Break { call, count } => {
            write_words(out, &[Plain(sink_call(*call)), Number(*count)])
        }
        Act::Close { now } => write_words(out, &[Number(*now)]),
        _ => Ok(()),
    }
}

/// Appends the line of `action`. If memory runs out, `out` may have a part of the line.
///
/// The line of a query doesn't state whether tag filters pass, or to which address the answers are sent, because no
/// line can express this ([`crate::is_sayable`]).
#[tactic(auto, unfolding(crate::specs::ScheduleText::action_text))]
pub fn write_action_line(out: &mut Vec<u8>, action: &Action) -> Result<(), AllocError>
    ensures { OnOk result (out.new.items ≡ out.old.items ++ action_text action.now) }
{
    match action {
        Action::Inject { bytes } => write_line(out, b"inject", &[Hex(bytes.as_slice())]),
        Action::Of { agent, act } => {
            out.extend_from_slice(verb_word(act))?;
            write_words(out, &[Number(*agent)])?;
            write_act_words(out, act, None)?;
            out.extend_from_slice(b"\n")
        }
    }
}

/// Appends a line for each of `agents`.
fn write_agents(out: &mut Vec<u8>, agents: &[Config]) -> Result<(), AllocError>
    ensures { OnOk result (out.new.items ≡ out.old.items ++ flat_map agent_text agents.now) }
{
    for agent in agents {
        write_agent_line(out, agent)?;
    }
    Ok(())
}

/// Appends a line for each of `actions`.
fn write_actions(out: &mut Vec<u8>, actions: &[Action]) -> Result<(), AllocError>
    ensures { OnOk result (out.new.items ≡ out.old.items ++ flat_map action_text actions.now) }
{
    for action in actions {
        write_action_line(out, action)?;
    }
    Ok(())
}

/// States for the prover that the names of `agents` are bytes. Does nothing.
fn have_byte_names(agents: &[Config])
    ensures { All HasByteName agents.now }
{
    for agent in agents {
        has_byte_name(agent);
    }
}

/// States for the prover that the text of `schedule` is read back as `schedule` if a line can express each of its
/// actions. Does nothing.
pub fn know_read_back(schedule: &Schedule)
    ensures { All IsSayable schedule.now.actions.items
        → schedule_of (schedule_text (parsed_of schedule.now)) ≡ Ok (parsed_of schedule.now) }
{
    text_reads_back(); // for the prover: states the law
    have_byte_names(schedule.agents.as_slice()); // for the prover: the law requires that names are bytes
}

/// Appends the text of `schedule`: a line for each agent, and then one for each action.
///
/// If a line can express each action ([`crate::is_sayable`]), the text stands for exactly this schedule. Returns
/// `AllocError` if memory runs out. In that case, `out` may have a prefix of the text.
pub fn write_schedule(out: &mut Vec<u8>, schedule: &Schedule) -> Result<(), AllocError>
    ensures text { OnOk result (out.new.items ≡ out.old.items
        ++ schedule_text (parsed_of schedule.now)) }
    ensures reads_back { All IsSayable schedule.now.actions.items
        → schedule_of (schedule_text (parsed_of schedule.now)) ≡ Ok (parsed_of schedule.now) }
{
    know_read_back(schedule); // for the prover: the text is read back if a line can express each action
    write_agents(out, schedule.agents.as_slice())?;
    write_actions(out, &schedule.actions)
}
