//! Explains why a delivered packet is ignored.

ghost use Rattle.std.specs.Prelude.{◌≡◌, ◌++◌, OnOk};
ghost use Rattle.serf_explain.specs.Leaving.{took_words, uncounted_words};

use crate::left::{Takes, first_words, write_ignored_detail};
use crate::memory::{Ended, open_query};
use crate::quoted::say;
use crate::turn_context::{Actor, TurnContext, moment_of};
use serf_agent::Reason;
use serf_text::{Part, write_number, write_quoted, write_template};
use serf_wire::{Message, Query, QueryResponse};
use std::alloc::AllocError;

/// Appends a statement of how the agent called `name` already knew a query. If `entered` is the number of an action,
/// the agent accepted the query at this action. If `entered` is `None`, an agent that keeps its events (`keeps`) was
/// opened on a text that contains the query's line, and any other agent accepted the query earlier.
#[tactic(auto, unfolding(crate::specs::Leaving::took_words))]
fn write_known_query(
    out: &mut Vec<u8>,
    name: &[u8],
    entered: Option<u64>,
    keeps: bool,
) -> Result<(), AllocError>
    ensures { OnOk result
        (out.new.items ≡ out.old.items ++ took_words name.now entered keeps) }
{
    write_quoted(out, name)?;
    match entered {
        Some(action) => say(out, b" took it at action ", action),
        None => {
            if keeps {
                out.extend_from_slice(b" was opened on a text with its line")
            } else {
                out.extend_from_slice(b" took it before")
            }
        }
    }
}

/// Appends an explanation of `reason`, the reason why the delivered `query` is ignored.
fn write_query_ignored(
    out: &mut Vec<u8>,
    context: &TurnContext,
    actor: &Actor,
    query: &Query,
    reason: Reason,
) -> Result<(), AllocError> {
    let time = query.time.get();
    let parts = [Part::Number(time), Part::Number(u64::from(query.id))];
    write_template(out, b"query ~ with ID ~: ", &parts)?;
    if reason == Reason::Seen {
        let config = actor.agent.config();
        let entered = context.past.memory.entered_at(actor.number, time, query.id);
        return write_known_query(out, config.name.as_slice(), entered, config.keep_events);
    }
    out.extend_from_slice(first_words(reason))?;
    let before = &actor.before.numbers.query_minimum;
    let takes = Takes::queries(actor.agent, before, context.number);
    write_ignored_detail(out, &takes, b"query", time, 0, reason)
}

/// Appends an explanation of why the agent has no open query with this time. Either the agent fired no query with this
/// time, or it closed or lost the query. If the agent closed or lost the query, the explanation also names the action
/// at which this happened.
fn write_not_open(
    out: &mut Vec<u8>,
    context: &TurnContext,
    actor: &Actor,
    time: u64,
) -> Result<(), AllocError> {
    write_quoted(out, actor.agent.config().name.as_slice())?;
    let Some(fired_queries) = context.past.memory.fired_query_at(actor.number, time) else {
        return say(out, b" never asked a query of time ", time);
    };
    say(out, b" asked query ", time)?;
    say(out, b" at action ", fired_queries.action)?;
    match fired_queries.ended {
        Ended::Closed(action) => say(out, b" and closed it at action ", action),
        Ended::Lost(action) => say(out, b" and lost it by the restart at action ", action),
        Ended::Not => Ok(()),
    }
}

/// Returns the words for `reason`, the reason why an answer to an open query is ignored. The caller may append a number
/// or a name to these words.
fn uncounted_words(reason: Reason) -> &'static [u8]
    ensures { result.now ≡ uncounted_words reason }
{
    match reason {
        Reason::OtherId => b" has ID ",
        Reason::Closed => b" took answers until ",
        Reason::AckNotRequested => b" requested no acks",
        Reason::AckTwice => b" has an ack of ",
        _ => b" has a response of ",
    }
}

/// Appends an explanation of `reason`, the reason why `answer` is ignored although its query is open.
fn write_answer_reason(
    out: &mut Vec<u8>,
    actor: &Actor,
    answer: &QueryResponse,
    reason: Reason,
) -> Result<(), AllocError> {
    let Some(open) = open_query(actor.agent, answer.time) else {
        return out.extend_from_slice(b"no query of its time is open");
    };
    say(out, b"query ", answer.time)?;
    out.extend_from_slice(uncounted_words(reason))?;
    match reason {
        Reason::OtherId => {
            write_number(out, u64::from(open.id))?;
            say(out, b", and the answer names ID ", u64::from(answer.id))
        }
        Reason::Closed => {
            write_number(out, open.deadline)?;
            say(out, b", and it is ", moment_of(actor.act))
        }
        Reason::AckNotRequested => Ok(()),
        _ => write_quoted(out, answer.from),
    }
}

/// Appends an explanation of `reason`, the reason why the delivered `message` is ignored.
pub(crate) fn write_ignored(
    out: &mut Vec<u8>,
    context: &TurnContext,
    actor: &Actor,
    message: &Message,
    reason: Reason,
) -> Result<(), AllocError> {
    match message {
        Message::Query(query) => write_query_ignored(out, context, actor, query, reason),
        Message::QueryResponse(response) => match reason {
            Reason::NotOpen => write_not_open(out, context, actor, response.time),
            _ => write_answer_reason(out, actor, response, reason),
        },
        Message::UserEvent(_) | Message::PushPull(_) | Message::Foreign(_) => Ok(()),
    }
}
