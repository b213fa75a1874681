//! A cluster of real agents over sinks in memory, with the packets that were sent. It does one action after another.

ghost use Rattle.std.specs.Prelude.{◌≡◌, ◌++◌, ◌∷◌, ℕ, List, [], false, true, map, IfOk, IsErr, OnErr, OnOk};
ghost use Rattle.std.specs.List.{AllByRecursion};
ghost use Rattle.std.specs.Option.{option_map};
ghost use Rattle.serf_agent.specs.Config.{is_sound};
ghost use Rattle.serf_agent.specs.declared.config.Config.{Config};
ghost use Rattle.serf_model.specs.declared.action.Action.{Action};
ghost use Rattle.serf_model.specs.declared.line.Line.{Line};
ghost use Rattle.serf_model.specs.Cluster.{Cluster, IdealNode, apply, first_node, start, step};
ghost use Rattle.serf_model.specs.Ready.{AreRepresentable, IsRepresentable};
ghost use Rattle.serf_model.specs.Runs.{AreConfigs};
ghost use Rattle.serf_world.specs.Turns.{TakesTurn};
ghost use Rattle.serf_world.specs.View.{HasDone, IsViewed, TakesStep, agent_at, node_of};

use crate::calls::{
    break_at, close_at, compact_at, fire_at, open_on, query_at, restart_at, save_at, state_at,
};
use crate::delivery::{deliver_at, merge_at};
use crate::known_sizes::{inspect_action, inspect_given, read_numbers};
use crate::line::{line_with_packet, refused};
use crate::respond::respond_at;
use crate::roster::Roster;
use serf_agent::{Agent, BytesList, Config, PendingQuery};
use serf_model::{
    Act, Action, Answer, Line, Refusal, representable_agents, run_promises, turns_shown,
};
use serf_snapshot::MemorySink;
use serf_wire::Bytes;
use std::alloc::{AllocError, Global};
use std::marker::Model;

/// An agent, and the queries that were handed to it in this life, in order. A query that was answered is replaced by
/// `None`.
#[derive(Drop)]
pub(crate) struct Node {
    pub(crate) agent: Agent<MemorySink>,
    pub(crate) handed: Vec<Option<PendingQuery>>,
}

impl Model for Node {
    ghost use Rattle.serf_world.specs.View.{NodeState};

    ghost Value = { NodeState };

    ghost view = { λ s. record { concrete = s.agent.concrete; handed = s.handed.items } };
}

/// A cluster: its agents, each over a sink in memory, and all packets that were sent. Contracts see the part of an
/// ideal cluster that this cluster stores. Agents (`nodes`) and packets (`sent`) are numbered from 0. If memory ran out
/// in a step, the cluster has failed (`has_failed`) and does no further action.
pub struct World {
    nodes: Vec<Node>,
    sent: Vec<Bytes>,
    has_failed: bool,
}

/// Implemented by hand, so that dependent crates need not prove again that the fields can be dropped.
impl Drop for World {
    fn drop(self) {
        let World {
            nodes: _,
            sent: _,
            has_failed: _,
        } = self;
    }
}

impl Model for World {
    ghost use Rattle.serf_world.specs.View.{WorldState};

    ghost Value = { WorldState };

    ghost view = { λ w.
        record { nodes = w.nodes.items; sent = w.sent.items; has_failed = w.has_failed } };
}

/// Opens an agent over an empty sink for each of the settings `configs`, in order.
fn open_all(alloc: Global, configs: Vec<Config>) -> Result<Vec<Node>, AllocError>
    requires { AllByRecursion (λ c. is_sound c ≡ true) configs.items }
    ensures { IfOk result (λ nodes. nodes.items ≡ map (λ c. node_of (first_node c)) configs.items) }
{
    let mut nodes = Vec::with_capacity(alloc, configs.len())?;
    for config in configs {
        let agent = open_on(alloc, config, b"")?;
        nodes.push(Node {
            agent,
            handed: Vec::new(alloc),
        })?;
    }
    Ok(nodes)
}

/// Does `act` on `node`, agent number `number` of the cluster, and returns its line. What the agent sends is appended
/// to `sent`, the cluster's packets. After an `AllocError`, `sent` is unchanged.
fn take_turn(
    alloc: Global,
    number: u64,
    node: &mut Node,
    sent: &mut Vec<Bytes>,
    act: &Act,
) -> Result<Line, AllocError>
    ensures turn { (m : IdealNode) → IsRepresentable m.agent → node.old ≡ node_of m
        → IfOk result (TakesTurn number sent.old.items sent.new.items
        (apply m sent.old.items act.now) node.new) }
    ensures err { OnErr result (sent.new.items ≡ sent.old.items) }
{
    match act {
        Act::Fire {
            name,
            payload,
            coalesce,
        } => {
            fire_at(
                alloc,
                number,
                node,
                sent,
                name.as_slice(),
                payload.as_slice(),
                *coalesce,
            )
        }
        Act::Deliver { packet, now } => deliver_at(alloc, number, node, sent, *packet, *now),
        Act::State => state_at(alloc, number, node, sent),
        Act::Merge { packet, join } => {
            merge_at(alloc, number, node, sent.as_slice(), *packet, *join)
        }
        Act::Query(query) => query_at(alloc, number, node, sent, query.get()),
        Act::Respond {
            handed,
            now,
            payload,
        } => { respond_at(alloc, number, node, sent, *handed, *now, payload.as_slice()) }
        Act::Restart { tail } => restart_at(alloc, node, tail.as_slice()),
        Act::Break { call, count } => Ok(break_at(alloc, node, *call, *count)),
        Act::Close { now } => Ok(close_at(alloc, node, *now)),
        Act::Save => save_at(alloc, node),
        Act::Compact => compact_at(alloc, node),
    }
}

impl World {
    /// Opens a cluster of the agents in `roster`. They are numbered from 0 in the roster's order, and have done nothing
    /// yet.
    pub fn new(alloc: Global, roster: Roster) -> Result<World, AllocError>
        ensures start { IfOk result (IsViewed (start roster).cluster) }
        ensures fresh { IfOk result (λ world. world.has_failed ≡ false) }
        ensures configs { OnOk result (AreConfigs roster) }
        ensures representable { OnOk result (AreRepresentable (start roster).cluster) }
        ensures done { IfOk result (λ world. HasDone roster [] [] world) }
    {
        representable_agents(); // for the prover: agents that did nothing are representable
        run_promises(); // a run without actions keeps the promises
        turns_shown(); // the turns of a run are exactly those that its trace shows
        Ok(World {
            nodes: open_all(alloc, roster.into_vec())?,
            sent: Vec::new(alloc),
            has_failed: false,
        })
    }

    /// Does `action`, and returns its line of the trace. A refused action has a line, too.
    ///
    /// Returns an `AllocError` if memory runs out. The agent may then have done the action without a line, so the
    /// cluster has failed. From then on, each step returns an `AllocError` and changes nothing (`failed`).
    ///
    /// If each step so far returned a line, these lines are those of a run that keeps all promises, and the open
    /// queries of the agents hold the answers that were counted (`done`).
    #[inline(always)]
    pub fn step(&mut self, alloc: Global, action: &Action) -> Result<Line, AllocError>
        ensures step { (c : Cluster) → IsViewed c self.old → AreRepresentable c
            → IfOk result (TakesStep (step c action.now) self.new) }
        ensures failed { self.old.has_failed ≡ true → IsErr result × (self.new ≡ self.old) }
        ensures ok { OnOk result (self.new.has_failed ≡ false) }
        ensures err { OnErr result (self.new.has_failed ≡ true) }
        ensures kept { OnErr result (self.new.sent ≡ self.old.sent) }
        ensures done { (configs : List Config) (actions : List Action) (lines : List Line)
            → HasDone configs actions lines self.old
            → IfOk result (λ line.
            HasDone configs (actions ++ action.now ∷ []) (lines ++ line ∷ []) self.new) }
    {
        if self.has_failed {
            return Err(AllocError);
        }
        match self.try_step(alloc, action) {
            Ok(line) => Ok(line),
            Err(error) => {
                self.has_failed = true;
                Err(error)
            }
        }
    }

    /// Does `action`, and returns its line of the trace, or an `AllocError` if memory runs out.
    #[inline(always)]
    fn try_step(&mut self, alloc: Global, action: &Action) -> Result<Line, AllocError>
        ensures step { (c : Cluster) → IsViewed c self.old → AreRepresentable c
            → IfOk result (TakesStep (step c action.now) self.new) }
        ensures failed { self.new.has_failed ≡ self.old.has_failed }
        ensures kept { OnErr result (self.new.sent ≡ self.old.sent) }
        ensures done { (configs : List Config) (actions : List Action) (lines : List Line)
            → HasDone configs actions lines self.old
            → IfOk result (λ line.
            HasDone configs (actions ++ action.now ∷ []) (lines ++ line ∷ []) self.new) }
    {
        run_promises(); // for the prover: every run of the model keeps the promises
        turns_shown(); // the turns of a run are exactly those that its trace shows
        representable_agents(); // every act leaves its agent representable
        read_numbers(action); // the action's numbers fit into their types
        inspect_action(action); // the action's texts are bytes, and its query's ID has 32 bits
        match action {
            Action::Inject { bytes } => {
                let packet = Bytes::copy_of(alloc, bytes.as_slice())?;
                let line = line_with_packet(alloc, &mut self.sent, Answer::Injected, packet)?;
                Ok(line)
            }
            Action::Of { agent, act } => {
                let number = *agent as usize;
                if number >= self.nodes.len() {
                    return Ok(refused(alloc, Refusal::NoAgent));
                }
                inspect_given(self.sent.as_slice(), act); // for the prover: the texts in the act's packet are bytes
                let line = take_turn(alloc, *agent, &mut self.nodes[number], &mut self.sent, act)?;
                Ok(line)
            }
        }
    }

    /// Borrows agent number `number`, counted from 0, for reading. Returns `None` if there is no agent with this
    /// number. Allocates no memory.
    pub fn agent(&self, number: u64) -> Option<&Agent<MemorySink>>
        ensures { option_map (λ a. a.now.concrete) result ≡ agent_at self.now number }
    {
        match self.nodes.get(number as usize) {
            Some(node) => Some(&node.agent),
            None => None,
        }
    }

    /// Borrows all packets that were sent, in order and numbered from 0, for reading. Allocates no memory.
    pub fn sent(&self) -> &[Bytes]
        ensures { result.now ≡ self.now.sent }
    {
        let sent = &self.sent;
        sent.as_slice()
    }

    /// Consumes the cluster and returns all packets that were sent, in order. Allocates no memory.
    pub(crate) fn into_sent(self) -> BytesList
        ensures { result ≡ self.sent }
    {
        let World {
            nodes: _,
            sent,
            has_failed: _,
        } = self;
        BytesList::from_vec(sent)
    }
}
