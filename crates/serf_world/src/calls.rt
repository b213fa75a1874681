//! The acts that an agent does without a packet. `node` holds the agent, `number` is its number in the cluster, and
//! `sent` has all packets of the cluster. A clause `turn` states that the node takes the same turn as each ideal node
//! `m` of which it is the view, and that the result is the line of this turn.

ghost use Rattle.std.specs.Prelude.{◌≡◌, ◌≢◌, ◌++◌, ℕ, List, [], IfOk, OnErr, unwrap_or, true, Err};
ghost use Rattle.serf_window.specs.Texts.{event_of};
ghost use Rattle.serf_agent.specs.Ideal.{IdealAgent};
ghost use Rattle.serf_snapshot.specs.Device.{fresh_device};
ghost use Rattle.serf_snapshot.specs.AppendsLine.{opened};
ghost use Rattle.serf_agent.specs.Restart.{HasPast, unopened};
ghost use Rattle.serf_agent.specs.Config.{is_sound};
ghost use Rattle.serf_agent.specs.Sound.{IsSound};
ghost use Rattle.serf_agent.specs.View.{view_of};
ghost use Rattle.serf_model.specs.Cluster.{IdealNode, breaks, closes, compacts, fires_event, fires_query, line_only, append_line_gives, reopened, restarts, saves, sends_state};
ghost use Rattle.serf_model.specs.Ready.{IsRepresentable};
ghost use Rattle.serf_world.specs.Turns.{TakesTurn};
ghost use Rattle.serf_world.specs.View.{node_of};

use crate::line::{
    line_only, line_with_event, line_with_packet, line_with_query, query_packets, refused,
};
use crate::refusal::{append_line_refusal, fire_refusal, query_refusal, state_refusal};
use crate::world::Node;
use serf_agent::{Agent, Config, Fired, FiredQuery, OpenError};
use serf_model::{Answer, Line, NewQuery, SinkCall, representable_agents};
use serf_snapshot::{AppendLineError, MemorySink};
use serf_wire::Bytes;
use std::alloc::{AllocError, Global};

/// Fires the event `name` with `payload`, and appends its packet to `sent`. `coalesce` is true if hosts may coalesce
/// the event.
#[inline(always)]
pub(crate) fn fire_at(
    alloc: Global,
    number: u64,
    node: &mut Node,
    sent: &mut Vec<Bytes>,
    name: &[u8],
    payload: &[u8],
    coalesce: bool,
) -> Result<Line, AllocError>
    ensures turn { (m : IdealNode) → IsRepresentable m.agent → node.old ≡ node_of m
        → IfOk result (TakesTurn number sent.old.items sent.new.items
        (fires_event m (event_of name.now payload.now) coalesce) node.new) }
    ensures err { OnErr result (sent.new.items ≡ sent.old.items) }
{
    let fired = node.agent.fire(alloc, name, payload, coalesce);
    let Fired { packet, handed } = match fired {
        Ok(fired) => fired,
        Err(error) => return Ok(refused(alloc, fire_refusal(error)?)),
    };
    let line = line_with_event(
        alloc,
        number,
        sent,
        Answer::Fired(handed.time),
        packet,
        handed,
    )?;
    Ok(line)
}

/// Appends a push/pull packet with the agent's clocks and events to `sent`. The packet lists no members.
pub(crate) fn state_at(
    alloc: Global,
    number: u64,
    node: &Node,
    sent: &mut Vec<Bytes>,
) -> Result<Line, AllocError>
    ensures turn { (m : IdealNode) → node.now ≡ node_of m
        → IfOk result (TakesTurn number sent.old.items sent.new.items (sends_state m) node.now) }
    ensures err { OnErr result (sent.new.items ≡ sent.old.items) }
{
    let agent = &node.agent;
    match agent.local_state(alloc, &[], &[]) {
        Ok(packet) => {
            let line = line_with_packet(alloc, sent, Answer::State, packet)?;
            Ok(line)
        }
        Err(error) => Ok(refused(alloc, state_refusal(error)?)),
    }
}

/// Fires `query`. Appends the query's packet to `sent`, and then the agent's ack, if there is one. If the query is
/// handed out, `node` keeps it.
pub(crate) fn query_at(
    alloc: Global,
    number: u64,
    node: &mut Node,
    sent: &mut Vec<Bytes>,
    query: &NewQuery,
) -> Result<Line, AllocError>
    ensures turn { (m : IdealNode) → IsRepresentable m.agent → node.old ≡ node_of m
        → IfOk result (TakesTurn number sent.old.items sent.new.items
        (fires_query m query.now) node.new) }
    ensures err { OnErr result (sent.new.items ≡ sent.old.items) }
{
    let fired = node.agent.query(
        alloc,
        query.moment,
        query.id,
        query.name.as_slice(),
        query.payload.as_slice(),
        &query.params,
    );
    let FiredQuery {
        time,
        packet,
        handed,
        ack,
    } = match fired {
        Ok(fired) => fired,
        Err(error) => return Ok(refused(alloc, query_refusal(error)?)),
    };
    let packets = query_packets(alloc, Some(packet), ack)?;
    let answer = Answer::Queried(time);
    let line = line_with_query(
        alloc,
        number,
        sent,
        &mut node.handed,
        answer,
        packets,
        handed,
    )?;
    Ok(line)
}

/// Returns the line of a save or a compaction that ended with `noted`. The line has `answer`, or the refusal if the
/// call failed.
fn append_lines(
    alloc: Global,
    answer: Answer,
    noted: Result<(), AppendLineError>,
) -> Result<Line, AllocError>
    ensures { IfOk result (λ line. (line ≡ line_only (append_line_gives answer noted).answer)
        × (noted ≢ Err AppendLineError.OutOfMemory)) }
{
    match noted {
        Ok(()) => Ok(line_only(alloc, answer)),
        Err(error) => Ok(refused(alloc, append_line_refusal(error)?)),
    }
}

/// Writes the line of the agent's member clock to its snapshot.
pub(crate) fn save_at(alloc: Global, node: &mut Node) -> Result<Line, AllocError>
    ensures { (m : IdealNode) (number : ℕ) (sent : List (List ℕ)) → IsRepresentable m.agent
        → node.old ≡ node_of m → IfOk result (TakesTurn number sent sent (saves m) node.new) }
{
    let noted = node.agent.save_member_clock(alloc);
    let line = append_lines(alloc, Answer::Saved, noted)?;
    Ok(line)
}

/// Compacts the agent's snapshot, so that its text has only the lines that are still needed.
pub(crate) fn compact_at(alloc: Global, node: &mut Node) -> Result<Line, AllocError>
    ensures { (m : IdealNode) (number : ℕ) (sent : List (List ℕ)) → IsRepresentable m.agent
        → node.old ≡ node_of m → IfOk result (TakesTurn number sent sent (compacts m) node.new) }
{
    let noted = node.agent.compact(alloc);
    let line = append_lines(alloc, Answer::Compacted, noted)?;
    Ok(line)
}

/// Closes the agent's open queries whose deadlines are past at the moment `now`, in nanoseconds.
pub(crate) fn close_at(alloc: Global, node: &mut Node, now: u64) -> Line
    ensures { (m : IdealNode) (number : ℕ) (sent : List (List ℕ)) → IsRepresentable m.agent
        → node.old ≡ node_of m → TakesTurn number sent sent (closes m now) node.new result }
{
    let closed = node.agent.close_due(now);
    line_only(alloc, Answer::Closed(closed as u64))
}

/// Plans a failure of the agent's sink: of its next calls of the kind `call`, call number `count`, counted from 1, will
/// fail. If `count` is 0, none will.
pub(crate) fn break_at(alloc: Global, node: &mut Node, call: SinkCall, count: u64) -> Line
    ensures { (m : IdealNode) (number : ℕ) (sent : List (List ℕ)) → node.old ≡ node_of m
        → TakesTurn number sent sent (breaks m call count) node.new result }
{
    let agent = &mut node.agent;
    match call {
        SinkCall::Append => agent.fail_append(count),
        SinkCall::Flush => agent.fail_flush(count),
        SinkCall::ReplaceOld => agent.fail_replace(count, false),
        SinkCall::ReplaceNew => agent.fail_replace(count, true),
    }
    line_only(alloc, Answer::Broken)
}

/// Opens an agent with the settings `config` over a new sink that has `text` and never fails. The only error is that
/// memory runs out.
pub(crate) fn open_on(
    alloc: Global,
    config: Config,
    text: &[u8],
) -> Result<Agent<MemorySink>, AllocError>
    requires { is_sound config ≡ true }
    // If the text has everything that an ideal agent entered, the result is the view of this ideal agent, opened again.
    ensures opened { (i : IdealAgent) → IsSound i → i.config ≡ config → HasPast config i text.now
        → IfOk result (λ agent. agent.concrete ≡ view_of (reopened i text.now)) }
    // On any text, the result is the view of an agent that has no past and was opened on this text.
    ensures first { IfOk result (λ agent. agent.concrete
        ≡ view_of (reopened (unopened config (opened text.now (fresh_device text.now))) text.now)) }
{
    let sink = MemorySink::with(alloc, text)?;
    match Agent::open(alloc, config, text, sink) {
        Ok(agent) => Ok(agent),
        Err(not_opened) => match not_opened.error {
            OpenError::OutOfMemory => Err(AllocError),
            // (`config` is sound, and no call of the new sink is planned to fail)
            OpenError::BadConfig | OpenError::SinkError => unreachable!(),
        },
    }
}

/// Returns the text on which `agent` is opened again: the durable text of its sink, followed by `tail`.
fn text_of(alloc: Global, agent: &Agent<MemorySink>, tail: &[u8]) -> Result<Vec<u8>, AllocError>
    ensures { IfOk result (λ text. text.items
        ≡ unwrap_or agent.now.concrete.snapshot.durable [] ++ tail.now) }
{
    let mut text = Vec::from_slice(alloc, agent.sink().durable())?;
    text.extend_from_slice(tail)?;
    Ok(text)
}

/// Opens the agent again, on its sink's durable text followed by `tail`. The queries of its previous life can't be
/// answered any more.
pub(crate) fn restart_at(alloc: Global, node: &mut Node, tail: &[u8]) -> Result<Line, AllocError>
    ensures { (m : IdealNode) (number : ℕ) (sent : List (List ℕ))
        → IsRepresentable m.agent → node.old ≡ node_of m
        → IfOk result (TakesTurn number sent sent (restarts m tail.now) node.new) }
{
    representable_agents(); // for the prover: the sink's text has everything that the next life needs
    node.handed.clear();
    let agent = &mut node.agent;
    let text = text_of(alloc, agent, tail)?;
    let config = agent.config().try_clone(alloc)?;
    let opened = open_on(alloc, config, text.as_slice())?;
    *agent = opened;
    Ok(line_only(
        alloc,
        Answer::Restarted {
            member_clock: agent.member_time(),
            event_clock: agent.event_time(),
            query_clock: agent.query_time(),
        },
    ))
}
