//! Makes the replies of the reference, which the agent under test is expected to return too.

ghost use Rattle.std.specs.Prelude.{◌≡◌, ◌++◌, IfOk, OnOk, map};
ghost use Rattle.std.specs.Option.{option_to_list};
ghost use Rattle.serf_wire.specs.Decoded.{decoded};
ghost use Rattle.serf_conform.specs.declared.reply_line.ReplyLine.TheVariants.{Sent};
ghost use Rattle.serf_conform.specs.Reply.{said_in};
ghost use Rattle.serf_conform.specs.ExpectedReply.{ack_of, counted_lines, event_said, handed_said, opening as opening_of, response_of, expected_lines, expected_reply_of};

use crate::reply::Reply;
use crate::reply_line::ReplyLine;
use serf_model::{Answer, Boxed, EventLine, Line, QueryLine};
use serf_schedule::write_answer;
use serf_wire::{Bytes, Message, decode};
use std::alloc::{AllocError, Global};

/// Adds the `counted ack` line for the ack in the packet `given`. If the packet is neither an ack nor a response, adds
/// nothing.
fn add_ack(alloc: Global, lines: &mut Vec<ReplyLine>, given: &[u8]) -> Result<(), AllocError>
    ensures { OnOk result (lines.new.items ≡ lines.old.items ++ ack_of (decoded given.now)) }
{
    match decode(given) {
        Ok(Message::QueryResponse(ack)) => {
            let (time, id) = (ack.time, u64::from(ack.id));
            let from = Bytes::copy_of(alloc, ack.from)?;
            lines.push(ReplyLine::CountedAck { time, id, from })?;
            Ok(())
        }
        _ => Ok(()),
    }
}

/// Adds the `counted response` line for the response in the packet `given`. If the packet is neither an ack nor a
/// response, adds nothing.
fn add_response(alloc: Global, lines: &mut Vec<ReplyLine>, given: &[u8]) -> Result<(), AllocError>
    ensures { OnOk result (lines.new.items ≡ lines.old.items ++ response_of (decoded given.now)) }
{
    match decode(given) {
        Ok(Message::QueryResponse(response)) => {
            let (time, id) = (response.time, u64::from(response.id));
            let from = Bytes::copy_of(alloc, response.from)?;
            let payload = Bytes::copy_of(alloc, response.payload)?;
            lines.push(ReplyLine::CountedResponse {
                time,
                id,
                from,
                payload,
            })?;
            Ok(())
        }
        _ => Ok(()),
    }
}

/// If `answer` is `Ack` or `Response`, the packet `given` was counted, and the function adds the `counted` line for the
/// packet.
fn add_counted(
    alloc: Global,
    lines: &mut Vec<ReplyLine>,
    answer: Answer,
    given: &[u8],
) -> Result<(), AllocError>
    ensures { OnOk result (lines.new.items ≡ lines.old.items ++ counted_lines answer given.now) }
{
    match answer {
        Answer::Ack => add_ack(alloc, lines, given),
        Answer::Response => add_response(alloc, lines, given),
        _ => Ok(()),
    }
}

/// Adds a `sent` line for each packet in `packets`.
fn add_sent(alloc: Global, lines: &mut Vec<ReplyLine>, packets: &[Bytes]) -> Result<(), AllocError>
    ensures { OnOk result (lines.new.items ≡ lines.old.items ++ map (λ p. Sent p) packets.now) }
{
    for packet in packets {
        let packet = Bytes::copy_of(alloc, packet.as_slice())?;
        lines.push(ReplyLine::Sent(packet))?;
    }
    Ok(())
}

/// Returns the `event` line for an event that was handed out.
fn event_line(alloc: Global, event: &EventLine) -> Result<ReplyLine, AllocError>
    ensures { IfOk result (λ line. line ≡ event_said event.now) }
{
    let name = Bytes::copy_of(alloc, event.name.as_slice())?;
    let payload = Bytes::copy_of(alloc, event.payload.as_slice())?;
    Ok(ReplyLine::Event {
        time: event.time.get(),
        name,
        payload,
        coalesce: event.coalesce,
    })
}

/// Adds an `event` line for each event in `events`, the events that were handed out.
fn add_events(
    alloc: Global,
    lines: &mut Vec<ReplyLine>,
    events: &[EventLine],
) -> Result<(), AllocError>
    ensures { OnOk result (lines.new.items ≡ lines.old.items ++ map event_said events.now) }
{
    for event in events {
        lines.push(event_line(alloc, event)?)?;
    }
    Ok(())
}

/// Returns the `handed` line for a query that was handed out.
fn handed_line(alloc: Global, query: &QueryLine) -> Result<ReplyLine, AllocError>
    ensures { IfOk result (λ line. line ≡ handed_said query.now) }
{
    let name = Bytes::copy_of(alloc, query.name.as_slice())?;
    let payload = Bytes::copy_of(alloc, query.payload.as_slice())?;
    Ok(ReplyLine::DeliveredQuery {
        index: query.index,
        time: query.time.get(),
        id: u64::from(query.id),
        name,
        payload,
    })
}

/// If a query was handed out, adds the `handed` line for that query.
fn add_handed(
    alloc: Global,
    lines: &mut Vec<ReplyLine>,
    handed: &Option<Boxed<QueryLine>>,
) -> Result<(), AllocError>
    ensures { OnOk result (lines.new.items ≡ lines.old.items
        ++ map handed_said (option_to_list handed.now)) }
{
    match handed {
        Some(query) => {
            lines.push(handed_line(alloc, query.get())?)?;
            Ok(())
        }
        None => Ok(()),
    }
}

/// Returns the reference's reply to a call. `line` is the action's line in the trace, and `packets` are the packets
/// that the action sent. `given` is the packet that a delivery or a merge carries.
///
/// If an ack or a response was counted, the reply also contains a line with the values of the ack or response, which
/// the function reads from `given`. Returns an `AllocError` only if there isn't enough memory for the reply.
pub fn wanted(
    alloc: Global,
    line: &Line,
    given: &[u8],
    packets: &[Bytes],
) -> Result<Reply, AllocError>
    ensures { IfOk result (λ reply. said_in reply
        ≡ expected_reply_of line.now given.now packets.now) }
{
    let mut answer = Vec::new(alloc);
    write_answer(&mut answer, line.answer)?;
    let mut lines = Vec::new(alloc);
    add_counted(alloc, &mut lines, line.answer, given)?;
    add_sent(alloc, &mut lines, packets)?;
    add_events(alloc, &mut lines, line.events.as_slice())?;
    add_handed(alloc, &mut lines, &line.handed)?;
    let answer = Bytes::from_vec(answer);
    Ok(Reply { answer, lines })
}

/// Returns the reply that is expected of an agent that was opened on an empty snapshot: all three clocks are 1. Returns
/// an `AllocError` only if there isn't enough memory for the reply.
pub fn opening(alloc: Global) -> Result<Reply, AllocError>
    ensures { IfOk result (λ reply. said_in reply ≡ opening_of) }
{
    let answer = Bytes::copy_of(alloc, b"opened 1 1 1")?;
    let lines = Vec::new(alloc);
    Ok(Reply { answer, lines })
}
