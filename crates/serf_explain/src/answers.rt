//! Explains why an action got its answer.

ghost use Rattle.std.specs.Prelude.{◌≡◌, ◌++◌, OnOk};
ghost use Rattle.serf_explain.specs.Leaving.{buffers_words};

use crate::deliveries::Event;
use crate::ignored::write_ignored;
use crate::left::write_mark;
use crate::marks::Mark;
use crate::memory::Firing;
use crate::quoted::say;
use crate::refusals::write_refusal;
use crate::turn_context::{Actor, TurnContext, actor_at, message_of, moment_of, named, number_in};
use serf_agent::Agent;
use serf_model::{Act, Action, Answer, SinkCall};
use serf_snapshot::MemorySink;
use serf_text::{Part, write_template};
use serf_wire::{Message, Query, QueryResponse, passes};
use std::alloc::AllocError;

/// Appends the reason why a delivered event is new.
fn write_new<'a>(out: &mut Vec<u8>, actor: &Actor<'a>, event: Event<'a>) -> Result<(), AllocError> {
    let lowest = Part::Number(actor.agent.event_minimum());
    let clock = Part::Number(actor.before.numbers.event_clock.value);
    let (name, payload) = (Part::Quoted(event.name), Part::Quoted(event.payload));
    write_template(
        out,
        b"event ~ ~ ~: ~ takes events from time ~ on, its event clock was ~, and it had not been handed this one",
        &[
            Part::Number(event.time),
            name,
            payload,
            named(actor.agent),
            lowest,
            clock,
        ],
    )
}

/// Appends the reason why a delivered query is new. If one of the query's filters excludes this node, the reason also
/// names the number of this filter. Filters are numbered from 0.
fn write_new_query<'a>(
    out: &mut Vec<u8>,
    actor: &Actor<'a>,
    query: &Query<'a>,
) -> Result<(), AllocError> {
    let time = Part::Number(query.time.get());
    let id = Part::Number(u64::from(query.id));
    let (name, payload) = (Part::Quoted(query.name), Part::Quoted(query.payload));
    write_template(
        out,
        b"query ~ with ID ~ ~ ~ is new to ~",
        &[time, id, name, payload, named(actor.agent)],
    )?;
    let mut number: u64 = 0;
    for filter in query.filters {
        if !passes(filter, actor.agent.config().name.as_slice()) {
            let words = b", and is not handed out: filter ~ ~ excludes this node";
            return write_template(out, words, &[Part::Number(number), Part::Quoted(filter)]);
        }
        number = number.saturating_add(1);
    }
    out.extend_from_slice(b", and each of its filters lets this node pass")
}

/// Appends a text that names the query for which `answer` was counted, and the action that fired this query.
fn write_counted(
    out: &mut Vec<u8>,
    context: &TurnContext,
    actor: &Actor,
    answer: &QueryResponse,
) -> Result<(), AllocError> {
    let what: &[u8] = match context.line.answer {
        Answer::Ack => b"ack",
        _ => b"response",
    };
    let (time, id) = (
        Part::Number(answer.time),
        Part::Number(u64::from(answer.id)),
    );
    write_template(
        out,
        b"the first ~ of ~ to query ~ with ID ~",
        &[Part::Text(what), Part::Quoted(answer.from), time, id],
    )?;
    match context
        .past
        .memory
        .fired_query_at(actor.number, answer.time)
    {
        Some(Firing { action, .. }) => {
            let fired_queries = [named(actor.agent), Part::Number(action)];
            write_template(out, b", which ~ asked at action ~", &fired_queries)
        }
        None => Ok(()),
    }
}

/// Appends a description of the buffers of `agent` after a restart. The agent has to be one that keeps its events
/// across restarts.
fn write_buffers(out: &mut Vec<u8>, agent: &Agent<MemorySink>) -> Result<(), AllocError>
    ensures { OnOk result (out.new.items ≡ out.old.items ++ buffers_words agent.now.concrete) }
{
    say(
        out,
        b", and its buffers are restored, events held: ",
        agent.held_events(),
    )?;
    say(out, b", event clock ", agent.event_time())?;
    say(out, b", query clock ", agent.query_time())
}

/// Appends the clocks and the minimums that `agent` has restored from its snapshot.
fn write_restarted(out: &mut Vec<u8>, agent: &Agent<MemorySink>) -> Result<(), AllocError> {
    let (events, queries) = (agent.event_minimum(), agent.query_minimum());
    let clock = agent.member_time().saturating_sub(1);
    say(out, b"its snapshot keeps clock ", clock)?;
    if agent.config().keep_events {
        write_buffers(out, agent)?;
    } else {
        say(out, b", event-clock ", events.saturating_sub(1))?;
        say(out, b", query-clock ", queries.saturating_sub(1))?;
    }
    say(out, b": it takes events from ", events)?;
    say(out, b" and queries from ", queries)?;
    out.extend_from_slice(b" on")
}

/// Returns the words for the disk call `call`.
fn call_words(call: SinkCall) -> &'static [u8] {
    match call {
        SinkCall::Append => b"append",
        SinkCall::Flush => b"flush",
        SinkCall::ReplaceOld => b"replace, which keeps the old text,",
        SinkCall::ReplaceNew => b"replace, which keeps the new text,",
    }
}

/// Appends the statement that `agent` fired an event or a query. `clock` is the name of the clock that the agent used
/// to fire it, and `mark` is the mark of this clock.
fn write_fired(
    out: &mut Vec<u8>,
    agent: &Agent<MemorySink>,
    clock: &'static [u8],
    mark: &Mark,
) -> Result<(), AllocError> {
    let parts = [named(agent), Part::Text(clock)];
    write_template(out, b"~ fired it at its ~ clock ", &parts)?;
    write_mark(out, mark)
}

/// Appends the clocks that `agent` sends in its state.
fn write_state(out: &mut Vec<u8>, agent: &Agent<MemorySink>) -> Result<(), AllocError> {
    write_template(
        out,
        b"~ sends its clock ~, its event clock ~, its query clock ~ and the events that its buffer has",
        &[
            named(agent),
            Part::Number(agent.member_time()),
            Part::Number(agent.event_time()),
            Part::Number(agent.query_time()),
        ],
    )
}

/// Appends a statement of which call to the agent's disk will fail.
fn write_broken(out: &mut Vec<u8>, actor: &Actor) -> Result<(), AllocError> {
    let Act::Break { call, count } = actor.act else {
        return Ok(());
    };
    let (call, count) = (Part::Text(call_words(*call)), Part::Number(*count));
    let words = b"of the calls from now on, ~ number ~ of the disk of ~ fails";
    write_template(out, words, &[call, count, named(actor.agent)])
}

/// Appends a description of the lines that the snapshot of `agent` contains after a compaction.
fn write_compacted(out: &mut Vec<u8>, agent: &Agent<MemorySink>) -> Result<(), AllocError> {
    let words: &[u8] = if agent.config().keep_events {
        b"its snapshot has the last line of each kind, the minimum times, and the lines of what its buffers hold"
    } else {
        b"its snapshot has the last line of each kind alone"
    };
    out.extend_from_slice(words)
}

/// Appends the number of queries that the agent closed because their deadlines had passed.
fn write_closed(out: &mut Vec<u8>, actor: &Actor, count: u64) -> Result<(), AllocError> {
    let now = Part::Number(moment_of(actor.act));
    let words = b"~ of the open queries of ~ had a deadline before ~";
    write_template(out, words, &[Part::Number(count), named(actor.agent), now])
}

/// Appends the reason for an answer that isn't a verdict on a delivered message. The agent either acted by itself, or
/// refused the action.
fn write_own(out: &mut Vec<u8>, context: &TurnContext, actor: &Actor) -> Result<(), AllocError> {
    let (agent, before) = (actor.agent, actor.before.numbers);
    match context.line.answer {
        Answer::Fired(_) => write_fired(out, agent, b"event", &before.event_clock),
        Answer::Queried(_) => write_fired(out, agent, b"query", &before.query_clock),
        Answer::State => write_state(out, agent),
        Answer::Replied => write_template(
            out,
            b"~ had query number ~ of this life open, and its deadline is not past",
            &[named(agent), Part::Number(number_in(actor.act))],
        ),
        Answer::Broken => write_broken(out, actor),
        Answer::Saved => {
            let kept = agent.member_time().saturating_sub(1);
            say(out, b"its snapshot has clock ", kept)
        }
        Answer::Compacted => write_compacted(out, agent),
        Answer::Restarted { .. } => write_restarted(out, agent),
        Answer::Closed(count) => write_closed(out, actor, count),
        Answer::Refused(refusal) => write_refusal(out, context, actor, refusal),
        _ => Ok(()),
    }
}

/// Appends the reason for the answer to an action that passed `message` to its agent.
fn write_given(
    out: &mut Vec<u8>,
    context: &TurnContext,
    actor: &Actor,
    message: &Message,
) -> Result<(), AllocError> {
    match context.line.answer {
        Answer::New | Answer::Query | Answer::Ack | Answer::Response => match message {
            Message::UserEvent(event) => write_new(out, actor, Event::of(event)),
            Message::Query(query) => write_new_query(out, actor, query),
            Message::QueryResponse(answer) => write_counted(out, context, actor, answer),
            _ => Ok(()),
        },
        Answer::Ignored(reason) => write_ignored(out, context, actor, message, reason),
        Answer::Foreign(kind) => write_template(
            out,
            b"a message of type ~ is another part's of Serf, and is not read here",
            &[Part::Number(u64::from(kind))],
        ),
        Answer::PushPull => {
            out.extend_from_slice(
                b"a whole state that arrives as a packet is ignored: only a merge accepts it",
            )
        }
        _ => write_own(out, context, actor),
    }
}

/// Appends the reason for the answer to an action.
pub(crate) fn write_reason(out: &mut Vec<u8>, context: &TurnContext) -> Result<(), AllocError> {
    match context.action {
        Action::Inject { bytes } => write_template(
            out,
            b"~ bytes were sent as a stranger could send them: no agent made them",
            &[Part::Number(bytes.as_slice().len() as u64)],
        ),
        Action::Of { agent, act } => match actor_at(context, *agent, act) {
            Some(actor) => match message_of(context) {
                Some(message) => write_given(out, context, &actor, &message),
                None => write_own(out, context, &actor),
            },
            None => write_template(
                out,
                b"no agent has the number ~: agents count from 0",
                &[Part::Number(*agent)],
            ),
        },
    }
}
