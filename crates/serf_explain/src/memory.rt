//! Remembers the queries of a run, so that later reasons can name earlier actions.

ghost use Rattle.std.specs.Prelude.{◌≡◌, ◌++◌, ◌∷◌, [], OnOk, Some, filter, if◌then◌else◌};
ghost use Rattle.std.specs.Option.{option_copied};
ghost use Rattle.indexmap.specs.IndexMap.{get};
ghost use Rattle.serf_wire.specs.Message.{message_of};
ghost use Rattle.serf_model.specs.Trace.{packet_given};
ghost use Rattle.serf_explain.specs.Recorded.{message_given};
ghost use Rattle.serf_explain.specs.Remembered.{Remembers, RemembersNothing, asked_after, ended_among, entered_after, open_at, pending_with, query_new, query_of, query_read, same_moment, same_query, stays_open};

use crate::deliveries::Moment;
use crate::turn_context::message_given;
use indexmap::IndexMap;
use serf_agent::{Agent, OpenQuery};
use serf_lamport::Time;
use serf_model::{Act, Action, Answer, Line};
use serf_snapshot::MemorySink;
use serf_wire::Message;
use serf_world::World;
use std::alloc::{AllocError, Global};
use std::hash::Hash;
use std::mem;

/// A query that agent number `agent` accepted, identified by the query's time and ID.
#[derive(Clone, Copy, PartialEq, Eq, Hash)]
pub(crate) struct QueryKey {
    pub(crate) agent: u64,
    pub(crate) time: u64,
    pub(crate) id: u32,
}

/// Whether a query that an agent fired has ended, and how it ended.
#[derive(Clone, Copy)]
pub(crate) enum Ended {
    /// The query is still open.
    Not,
    /// The action with this number closed the query.
    Closed(u64),
    /// The agent lost the query when the action with this number opened the agent again.
    Lost(u64),
}

/// The number of the action that fired a query, and how the query ended.
#[derive(Clone, Copy)]
pub(crate) struct Firing {
    pub(crate) action: u64,
    pub(crate) ended: Ended,
}

/// The queries of a run, to which the reasons for later actions can refer.
#[derive(Drop)]
pub(crate) struct Memory {
    /// For each query of an agent, the number of the last action at which the agent accepted or fired the query.
    queries: IndexMap<QueryKey, u64>,
    /// For each agent and each time, the action at which the agent fired a query with this time, and how the query
    /// ended.
    fired_queries: IndexMap<Moment, Firing>,
    /// The fired queries that are still open.
    pending: Vec<Moment>,
}

/// Sets the value of `key` in `map`.
pub(crate) fn set<K: Eq + Hash + Drop, V: Drop>(
    map: &mut IndexMap<K, V>,
    key: K,
    value: V,
) -> Result<(), AllocError>
    ensures { OnOk result ((k : K) → get K.eq map.new k
        ≡ if K.eq key k then Some value else get K.eq map.old k) }
{
    match map.insert(key, value) {
        Ok(_) => Ok(()),
        Err(_) => Err(AllocError),
    }
}

/// If `message` is a query, returns it as a query of agent number `agent`, and otherwise returns `None`.
fn query_read(agent: u64, message: &Message) -> Option<QueryKey>
    ensures { result ≡ query_read agent (Some (message_of message.now)) }
{
    match message {
        Message::Query(query) => Some(QueryKey {
            agent,
            time: query.time.get(),
            id: query.id,
        }),
        Message::UserEvent(_)
        | Message::QueryResponse(_)
        | Message::PushPull(_)
        | Message::Foreign(_) => None,
    }
}

/// Returns the query that `action` passed to its agent, but only if `answer` shows that the query was new to the agent.
fn query_new(world: &World, action: &Action, agent: u64, answer: Answer) -> Option<QueryKey>
    ensures { result ≡ query_new agent answer
        (message_given (packet_given world.now.sent action.now)) }
{
    let Answer::Query = answer else {
        return None;
    };
    match message_given(action, world.sent()) {
        Some(message) => query_read(agent, &message),
        None => None,
    }
}

/// Returns the open query that `agent` fired at `time`, or `None` if there is no such query.
pub(crate) fn open_query(agent: &Agent<MemorySink>, time: u64) -> Option<&OpenQuery>
    ensures { option_copied result ≡ open_at time agent.now.concrete.fired_queries }
{
    agent.open_query(Time::new(time)?)
}

/// Returns whether a query is still open after an action of agent number `agent`. The query was fired at `moment`, and
/// was open before the action.
fn stays_open(world: &World, agent: u64, moment: Moment) -> bool
    ensures { result ≡ stays_open world.now agent moment }
{
    if moment.agent != agent {
        return true;
    }
    match world.agent(moment.agent) {
        Some(agent) => open_query(agent, moment.time).is_some(),
        None => false,
    }
}

impl Memory {
    /// Creates an empty memory. Allocates no memory.
    pub(crate) fn new(alloc: Global) -> Memory
        ensures { RemembersNothing result }
    {
        Memory {
            queries: IndexMap::new(alloc),
            fired_queries: IndexMap::new(alloc),
            pending: Vec::new(alloc),
        }
    }

    /// Returns the number of the action at which an agent accepted or fired a query, or `None` if this number isn't
    /// known.
    pub(crate) fn entered_at(&self, agent: u64, time: u64, id: u32) -> Option<u64>
        ensures { result ≡ get same_query self.now.queries
            (record { agent = agent; time = time; id = id }) }
    {
        self.queries.get(&QueryKey { agent, time, id }).copied()
    }

    /// Returns which action fired the query of agent number `agent` with the time `time`, and how this query ended.
    /// Returns `None` if the agent fired no query with this time.
    pub(crate) fn fired_query_at(&self, agent: u64, time: u64) -> Option<Firing>
        ensures { result ≡ get same_moment self.now.fired_queries
            (record { agent = agent; time = time }) }
    {
        self.fired_queries.get(&Moment { agent, time }).copied()
    }

    /// Records that an agent fired a query.
    fn ask(&mut self, agent: u64, time: u64, id: u32, action: u64) -> Result<(), AllocError>
        ensures entered { OnOk result ((q : QueryKey) → get same_query self.new.queries q
            ≡ entered_after action (Some (query_of agent time id)) q
            (get same_query self.old.queries q)) }
        ensures fired_queries { OnOk result ((m : Moment) → get same_moment self.new.fired_queries m
            ≡ asked_after action (Some (query_of agent time id)) m
            (get same_moment self.old.fired_queries m)) }
        ensures pending { OnOk result (self.new.pending.items
            ≡ pending_with (Some (query_of agent time id)) self.old.pending.items) }
    {
        let (moment, ended) = (Moment { agent, time }, Ended::Not);
        set(&mut self.queries, QueryKey { agent, time, id }, action)?;
        set(&mut self.fired_queries, moment, Firing { action, ended })?;
        self.pending.push(moment)?;
        Ok(())
    }

    /// Keeps the query of `moment` in the list of open queries if the query is still open after an action of agent
    /// number `agent`. If the query is no longer open, the function records `ended` as the way in which the query
    /// ended.
    fn end_or_keep(
        &mut self,
        world: &World,
        agent: u64,
        ended: Ended,
        moment: Moment,
    ) -> Result<(), AllocError>
        ensures entered { OnOk result (self.new.queries ≡ self.old.queries) }
        ensures fired_queries { OnOk result ((m : Moment) → get same_moment self.new.fired_queries m
            ≡ ended_among
            world.now agent ended (moment ∷ []) m (get same_moment self.old.fired_queries m)) }
        ensures pending { OnOk result (self.new.pending.items
            ≡ self.old.pending.items ++ filter (stays_open world.now agent) (moment ∷ [])) }
    {
        if stays_open(world, agent, moment) {
            self.pending.push(moment)?;
            return Ok(());
        }
        match self.fired_queries.get(&moment).copied() {
            Some(Firing { action, .. }) => set(
                &mut self.fired_queries,
                moment,
                Firing { action, ended },
            ),
            None => Ok(()),
        }
    }

    /// Records which of the queries that an agent fired are no longer open.
    fn end_queries(
        &mut self,
        alloc: Global,
        world: &World,
        agent: u64,
        ended: Ended,
    ) -> Result<(), AllocError>
        ensures entered { OnOk result (self.new.queries ≡ self.old.queries) }
        ensures fired_queries { OnOk result ((m : Moment) → get same_moment self.new.fired_queries m
            ≡ ended_among
            world.now agent ended self.old.pending.items m
            (get same_moment self.old.fired_queries m)) }
        ensures pending { OnOk result (self.new.pending.items
            ≡ filter (stays_open world.now agent) self.old.pending.items) }
    {
        let before = mem::replace(&mut self.pending, Vec::new(alloc));
        let moments = before.as_slice();
        for moment in moments {
            self.end_or_keep(world, agent, ended, *moment)?;
        }
        Ok(())
    }

    /// Records the effect of an action on the queries of its agent.
    #[tactic(auto, using(crate::proofs::MemoryLaws::injected_is, crate::proofs::MemoryLaws::brought_is, crate::proofs::MemoryLaws::nothing_brought, crate::proofs::MemoryLaws::fired_is, crate::proofs::MemoryLaws::nothing_fired, crate::proofs::MemoryLaws::closed_is, crate::proofs::MemoryLaws::lost_is))]
    pub(crate) fn record_turn(
        &mut self,
        alloc: Global,
        world: &World,
        number: u64,
        action: &Action,
        line: &Line,
    ) -> Result<(), AllocError>
        ensures { OnOk result
            (Remembers world.now number action.now line.now.answer self.old self.new) }
    {
        let Action::Of { agent, act } = action else {
            return Ok(());
        };
        match act {
            Act::Deliver { .. } => match query_new(world, action, *agent, line.answer) {
                Some(query) => set(&mut self.queries, query, number),
                None => Ok(()),
            },
            Act::Query(query) => match line.answer {
                Answer::Queried(time) => self.ask(*agent, time.get(), query.get().id, number),
                _ => Ok(()),
            },
            Act::Close { .. } => self.end_queries(alloc, world, *agent, Ended::Closed(number)),
            Act::Restart { .. } => self.end_queries(alloc, world, *agent, Ended::Lost(number)),
            _ => Ok(()),
        }
    }
}
