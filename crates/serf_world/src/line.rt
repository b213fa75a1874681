//! Makes each line of a trace while its packets are sent. `sent` has all packets of a cluster, numbered from 0.

ghost use Rattle.std.specs.Prelude.{◌≡◌, ◌+◌, ◌^◌, ◌-◌, ◌≤◌, ◌++◌, ◌∷◌, [], IfOk, OnOk, OnErr, None, Some, length, map};
ghost use Rattle.std.specs.Option.{option_map, option_to_list};
ghost use Rattle.serf_model.specs.Cluster.{event_line, handed_line, line_only, numbers_from};
ghost use Rattle.serf_world.specs.Turns.{Shows};

use serf_agent::{BytesList, EventOut, PendingQuery};
use serf_model::{Answer, Boxed, EventLine, EventLines, Line, Numbers, QueryLine, Refusal};
use serf_wire::Bytes;
use std::alloc::{AllocError, Global};

/// Makes a line that has only `answer`: nothing is sent or handed out.
#[inline(always)]
pub(crate) fn line_only(alloc: Global, answer: Answer) -> Line
    ensures { result ≡ line_only answer }
{
    Line {
        answer,
        sent: Numbers::from_vec(Vec::new(alloc)),
        events: EventLines::from_vec(Vec::new(alloc)),
        handed: None,
    }
}

/// Makes a line that has only the refusal `refusal`: nothing is sent or handed out.
#[inline(always)]
pub(crate) fn refused(alloc: Global, refusal: Refusal) -> Line
    ensures { result ≡ line_only (Answer.Refused refusal) }
{
    line_only(alloc, Answer::Refused(refusal))
}

/// Appends `packet` to `sent`, and returns a line with `answer` and the packet's number. After an `AllocError`, `sent`
/// is unchanged.
#[inline(always)]
pub(crate) fn line_with_packet(
    alloc: Global,
    sent: &mut Vec<Bytes>,
    answer: Answer,
    packet: Bytes,
) -> Result<Line, AllocError>
    ensures line { IfOk result (λ line. line
        ≡ record {
          answer = answer;
          sent = length sent.old.items ∷ [];
          events = [];
          handed = None;
        }) }
    ensures sent { OnOk result (sent.new.items ≡ sent.old.items ++ packet ∷ []) }
    ensures err { OnErr result (sent.new.items ≡ sent.old.items) }
{
    let number = sent.len() as u64;
    sent.push(packet)?;
    Ok(Line {
        answer,
        sent: Numbers::one(alloc, number),
        events: EventLines::from_vec(Vec::new(alloc)),
        handed: None,
    })
}

/// Appends `packet` to `sent`, and returns a line with `answer`, the packet's number, and `event`, which agent number
/// `agent` hands out. After an `AllocError`, `sent` is unchanged.
#[inline(always)]
pub(crate) fn line_with_event(
    alloc: Global,
    agent: u64,
    sent: &mut Vec<Bytes>,
    answer: Answer,
    packet: Bytes,
    event: EventOut,
) -> Result<Line, AllocError>
    ensures line { IfOk result (λ line. line
        ≡ record {
          answer = answer;
          sent = length sent.old.items ∷ [];
          events = event_line agent event ∷ [];
          handed = None;
        }) }
    ensures sent { OnOk result (sent.new.items ≡ sent.old.items ++ packet ∷ []) }
    ensures err { OnErr result (sent.new.items ≡ sent.old.items) }
{
    let mut events = Vec::with_capacity(alloc, 1)?;
    let shown = EventLine {
        agent,
        time: event.time,
        name: event.name,
        payload: event.payload,
        coalesce: event.coalesce,
    };
    events.push(shown)?;
    let number = sent.len() as u64;
    sent.push(packet)?;
    Ok(Line {
        answer,
        sent: Numbers::one(alloc, number),
        events: EventLines::from_vec(events),
        handed: None,
    })
}

/// Makes a line with `answer` and `events`, which agent number `agent` hands out. Nothing is sent.
pub(crate) fn line_with_events(
    alloc: Global,
    agent: u64,
    answer: Answer,
    events: Vec<EventOut>,
) -> Result<Line, AllocError>
    ensures { IfOk result (λ line. line
        ≡ record {
          answer = answer;
          sent = [];
          events = map (event_line agent) events.items;
          handed = None;
        }) }
{
    let mut lines = Vec::with_capacity(alloc, events.len())?;
    for event in events {
        lines.push(EventLine {
            agent,
            time: event.time,
            name: event.name,
            payload: event.payload,
            coalesce: event.coalesce,
        })?;
    }
    Ok(Line {
        answer,
        sent: Numbers::from_vec(Vec::new(alloc)),
        events: EventLines::from_vec(lines),
        handed: None,
    })
}

/// Returns the numbers that `packets` get as they are sent: `first` for the first packet, and one more for each packet
/// after it.
fn numbers_of(alloc: Global, first: u64, packets: &[Bytes]) -> Result<Numbers, AllocError>
    requires { first + length packets.now ≤ 2 ^ 64 - 1 }
    ensures { IfOk result (λ numbers. numbers ≡ numbers_from first packets.now) }
{
    let mut numbers = Vec::with_capacity(alloc, packets.len())?;
    let mut next = first;
    for _packet in packets {
        numbers.push(next)?;
        next += 1;
    }
    Ok(Numbers::from_vec(numbers))
}

/// Appends `packets` to `sent`, and returns their numbers there. After an `AllocError`, `sent` is unchanged.
fn send(alloc: Global, sent: &mut Vec<Bytes>, packets: BytesList) -> Result<Numbers, AllocError>
    ensures numbers { IfOk result (λ numbers. numbers
        ≡ numbers_from (length sent.old.items) packets) }
    ensures sent { OnOk result (sent.new.items ≡ sent.old.items ++ packets) }
    ensures err { OnErr result (sent.new.items ≡ sent.old.items) }
{
    let mut packets = packets.into_vec();
    sent.reserve(packets.len())?; // makes room, so that the append below can't fail
    let numbers = numbers_of(alloc, sent.len() as u64, packets.as_slice())?;
    sent.append(&mut packets)?;
    Ok(numbers)
}

/// Returns the packets that a query's action sends: `query`, if there is one, and then `ack`, if there is one.
pub(crate) fn query_packets(
    alloc: Global,
    query: Option<Bytes>,
    ack: Option<Bytes>,
) -> Result<BytesList, AllocError>
    ensures { IfOk result (λ packets. packets ≡ option_to_list query ++ option_to_list ack) }
{
    let mut packets = BytesList::new(alloc);
    if let Some(query) = query {
        packets.push(query)?;
    }
    if let Some(ack) = ack {
        packets.push(ack)?;
    }
    Ok(packets)
}

/// Appends `query`, if there is one, to `handed`, the queries that agent number `agent` keeps. Returns the query's
/// line.
fn record_delivery(
    alloc: Global,
    agent: u64,
    handed: &mut Vec<Option<PendingQuery>>,
    query: Option<PendingQuery>,
) -> Result<Option<Boxed<QueryLine>>, AllocError>
    ensures line { IfOk result (λ line. line
        ≡ option_map (handed_line agent (length handed.old.items)) query) }
    ensures kept { OnOk result (handed.new.items ≡ handed.old.items
        ++ map (λ q. Some q) (option_to_list query)) }
{
    let Some(query) = query else {
        return Ok(None);
    };
    let line = QueryLine {
        agent,
        index: handed.len() as u64,
        time: query.time(),
        id: query.id(),
        name: Bytes::copy_of(alloc, query.name())?,
        payload: Bytes::copy_of(alloc, query.payload())?,
    };
    let boxed = Boxed::new(alloc, line)?;
    handed.push(Some(query))?;
    Ok(Some(boxed))
}

/// Appends `packets` to `sent`, and returns a line with `answer`, the packets' numbers, and `query`, if agent number
/// `agent` hands one out. The query is appended to `handed` too, so that it can be answered later. After an
/// `AllocError`, `sent` is unchanged.
pub(crate) fn line_with_query(
    alloc: Global,
    agent: u64,
    sent: &mut Vec<Bytes>,
    handed: &mut Vec<Option<PendingQuery>>,
    answer: Answer,
    packets: BytesList,
    query: Option<PendingQuery>,
) -> Result<Line, AllocError>
    ensures shows { IfOk result
        (Shows agent sent.old.items sent.new.items handed.old.items handed.new.items
        (record { answer = answer; packets = packets; events = []; handed = query })) }
    ensures err { OnErr result (sent.new.items ≡ sent.old.items) }
{
    let line = record_delivery(alloc, agent, handed, query)?;
    let numbers = send(alloc, sent, packets)?;
    Ok(Line {
        answer,
        sent: numbers,
        events: EventLines::from_vec(Vec::new(alloc)),
        handed: line,
    })
}
