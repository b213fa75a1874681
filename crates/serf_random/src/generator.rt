//! The generator chooses the actions of a cluster, one after another, and prefers actions that exercise edge cases of
//! the agents' decisions.

use crate::draft::{ActionSource, done_by};
use crate::kind::Kind;
use crate::own;
use crate::random_options::RandomOptions;
use crate::rng::Rng;
use crate::strangers::{foreign, spelled, stranger};
use crate::tracks::{NO_TRACKS, Track, Tracks, edge_of_track, tracks_of};
use crate::verb::{Verb, verbs};
use serf_model::{Act, Action, Line};
use serf_wire::Bytes;
use serf_world::World;
use std::alloc::{AllocError, Global};

/// A plan for the next action. In most cases, agent number `to` receives the packet that the previous action sent.
#[derive(Clone, Copy)]
pub(crate) enum Next {
    /// Agent number `to` receives the packet that was sent last.
    Deliver { to: u64 },
    /// Agent number `to` merges the packet that was sent last. If `join` is true, this merge is part of a join.
    Merge { to: u64, join: bool },
    /// Agent number `to` receives an older packet, and `more` other packets after it.
    Again { to: u64, more: u64 },
    /// An agent sends its state, and after that, agent number `to` merges this state as part of a join.
    Join { to: u64 },
}

/// The last query that an agent fired.
#[derive(Clone, Copy)]
pub(crate) struct LastQuery {
    pub(crate) agent: u64,
    pub(crate) time: u64,
    pub(crate) id: u64,
    /// The moment, in nanoseconds, after which acks and responses are no longer accepted.
    pub(crate) deadline: u64,
}

/// The query that was handed out last.
#[derive(Clone, Copy)]
pub(crate) struct LastHanded {
    pub(crate) agent: u64,
    /// How many queries had been handed out to the agent earlier in the same life.
    pub(crate) index: u64,
    pub(crate) time: u64,
    pub(crate) id: u32,
}

/// A generator of actions. The generator stores its plan, and those facts about its cluster that the agents' own states
/// don't contain.
#[derive(Drop)]
pub(crate) struct Generator {
    pub(crate) alloc: Global,
    pub(crate) rng: Rng,
    pub(crate) kind: Kind,
    /// How many agents are in the cluster.
    agents: u64,
    /// How many packets have been sent so far.
    sent: u64,
    /// The current moment, in nanoseconds.
    pub(crate) now: u64,
    pub(crate) next: Option<Next>,
    /// The tracks of the agent for which a packet or a tail is made. The times in a new packet or tail are at the edges
    /// of these tracks.
    pub(crate) tracks: Tracks,
    /// The number (counted from 0) of the first packet that some agents haven't received yet, and how many agents have
    /// received it.
    passed: (u64, u64),
    pub(crate) query: LastQuery,
    pub(crate) last_handed: LastHanded,
    /// The largest number of queries that were handed out to one agent in one life.
    pub(crate) handed: u64,
}

/// A number that is combined with the seed, so that the generator's random numbers differ from those that determine the
/// agents' settings.
const SALT: u64 = 0x5eed;

impl Generator {
    /// Creates a generator for a schedule that has the options `ask` and a cluster of `agents` agents. The new
    /// generator has chosen no action yet.
    pub(crate) fn new(alloc: Global, ask: &RandomOptions, agents: u64) -> Generator {
        let query = LastQuery {
            agent: 0,
            time: 1,
            id: 0,
            deadline: 0,
        };
        let last_handed = LastHanded {
            agent: 0,
            index: 0,
            time: 1,
            id: 0,
        };
        Generator {
            alloc,
            rng: Rng::new(ask.seed ^ SALT),
            kind: ask.kind,
            agents,
            sent: 0,
            now: 0,
            next: None,
            tracks: NO_TRACKS,
            passed: (0, 0),
            query,
            last_handed,
            handed: 0,
        }
    }

    /// Returns the action that the plan `next` describes.
    fn follow(&mut self, next: Next) -> Action {
        let packet = self.sent.saturating_sub(1);
        match next {
            Next::Deliver { to } => self.deliver(to, packet),
            Next::Merge { to, join } => done_by(to, Act::Merge { packet, join }),
            Next::Again { to, more } => self.again(to, more),
            Next::Join { to } => self.join(to),
        }
    }

    /// Returns the action in which agent number `agent` receives packet number `packet`.
    fn deliver(&mut self, agent: u64, packet: u64) -> Action {
        let now = self.moment();
        done_by(agent, Act::Deliver { packet, now })
    }

    /// Lets an agent send its state, and plans that agent number `to` merges this state next, as part of a join.
    fn join(&mut self, to: u64) -> Action {
        self.next = Some(Next::Merge { to, join: true });
        done_by(self.agent(), Act::State)
    }

    /// Lets agent number `to` receive an older packet, and plans that the same agent receives `more` other packets
    /// next.
    fn again(&mut self, to: u64, more: u64) -> Action {
        if more > 0 {
            self.next = Some(Next::Again {
                to,
                more: more.saturating_sub(1),
            });
        }
        let packet = self.older();
        self.deliver(to, packet)
    }

    /// Returns an action of the kind that `verb` names, for the cluster `world`.
    fn act(&mut self, world: &World, verb: Verb) -> Result<Action, AllocError> {
        match verb {
            Verb::Pass => Ok(self.pass()),
            Verb::Repeat => Ok(self.repeat()),
            Verb::Merge => Ok(self.merge()),
            Verb::Exchange => Ok(self.exchange()),
            Verb::Fire => own::fire(self, world),
            Verb::FireQuery => own::ask(self, world),
            Verb::Respond => own::respond(self, world),
            Verb::Restart => own::restart(self, world),
            Verb::Break => Ok(own::fail(self)),
            Verb::Close => Ok(own::close(self)),
            Verb::Bare(bare) => Ok(done_by(self.agent(), bare.act())),
            strange => self.inject(world, strange),
        }
    }

    /// Injects a packet of the kind `verb` from outside the cluster, and plans that an agent receives this packet next.
    fn inject(&mut self, world: &World, verb: Verb) -> Result<Action, AllocError> {
        let kinds = [Verb::Event, Verb::Query, Verb::Answer, Verb::State];
        let message = match verb {
            Verb::Spelled => self.rng.pick(&kinds, Verb::Event),
            other => other,
        };
        self.aim(world, message);
        let packet = match verb {
            Verb::Spelled => spelled(self, message)?,
            Verb::Foreign => foreign(self.alloc, &mut self.rng)?,
            other => stranger(self, world.sent(), other)?,
        };
        Ok(Action::Inject {
            bytes: Bytes::from_vec(packet),
        })
    }

    /// Plans that an agent receives an injected packet next or, for a state, that an agent merges it. The times in the
    /// packet will be at the edges of the receiving agent's tracks. The receiving agent of an ack or a response is the
    /// agent that fired the last query.
    fn aim(&mut self, world: &World, message: Verb) {
        let to = match message {
            Verb::Answer => self.query.agent,
            _ => self.agent(),
        };
        let next = match message {
            Verb::State => Next::Merge {
                to,
                join: self.rng.one_in(2),
            },
            _ => Next::Deliver { to },
        };
        self.next = Some(next);
        self.tracks = tracks_of(world, to);
    }

    /// Returns the number of a random agent or, from time to time, a number that no agent has.
    pub(crate) fn agent(&mut self) -> u64 {
        if self.rng.one_in(200) {
            return self.agents;
        }
        self.rng.below(self.agents)
    }

    /// Returns a moment, in nanoseconds. In most cases, the function advances the current moment and returns it. In the
    /// other cases, the function returns a moment near the deadline of the last query, 0, or the largest moment.
    pub(crate) fn moment(&mut self) -> u64 {
        match self.rng.below(8) {
            0 | 1 => self.rng.near(self.query.deadline),
            2 => self.rng.pick(&[0, u64::MAX], 0),
            _ => {
                self.now = self.now.saturating_add(self.rng.below(20));
                self.now
            }
        }
    }

    /// Returns a time at an edge of the track of events.
    pub(crate) fn event_edge(&mut self) -> u64 {
        self.edge(self.tracks.events)
    }

    /// Returns a time at an edge of the track of queries.
    pub(crate) fn query_edge(&mut self) -> u64 {
        self.edge(self.tracks.queries)
    }

    /// Returns a time at an edge of `track` or, from time to time, a time near the largest possible time.
    fn edge(&mut self, track: Track) -> u64 {
        let is_great = match self.kind {
            Kind::Exhaustion => !self.rng.one_in(3),
            _ => self.rng.one_in(60),
        };
        if is_great {
            u64::MAX.saturating_sub(self.rng.below(5))
        } else {
            edge_of_track(&mut self.rng, &track)
        }
    }

    /// Lets the next agent receive the first packet that some agents haven't received yet. After all agents have
    /// received a packet, and whenever no packet is left, a random agent receives one of the most recent packets
    /// instead. In schedules of the kind `gossip`, the packet for the next agent is lost one time in four, and the
    /// agent after it receives the packet instead.
    fn pass(&mut self) -> Action {
        let (packet, got) = self.passed;
        let got = if self.kind == Kind::Gossip && self.rng.one_in(4) {
            got.saturating_add(1)
        } else {
            got
        };
        if packet >= self.sent {
            return self.repeat();
        }
        if got >= self.agents {
            self.passed = (packet.saturating_add(1), 0);
            return self.repeat();
        }
        self.passed = (packet, got.saturating_add(1));
        self.deliver(got, packet)
    }

    /// Returns the number of one of the most recent packets or, from time to time, a number that no packet has.
    fn recent(&mut self) -> u64 {
        if self.rng.one_in(100) {
            return self.sent;
        }
        let back = self.rng.pick(&[2, 4, 8, 40], 8);
        self.sent
            .saturating_sub(1)
            .saturating_sub(self.rng.below(back))
    }

    /// Returns the number of one of the most recent packets or, from time to time, the number of any packet that was
    /// sent.
    pub(crate) fn older(&mut self) -> u64 {
        if self.rng.one_in(6) {
            return self.rng.below(self.sent);
        }
        self.recent()
    }

    /// Lets an agent receive one of the most recent packets.
    fn repeat(&mut self) -> Action {
        let agent = self.agent();
        let packet = self.recent();
        self.deliver(agent, packet)
    }

    /// Lets an agent merge one of the most recent packets, whatever the packet's type is.
    fn merge(&mut self) -> Action {
        let agent = self.agent();
        let packet = self.recent();
        let join = self.rng.one_in(3);
        done_by(agent, Act::Merge { packet, join })
    }

    /// Lets an agent send its state, and plans that an agent merges this state next. In schedules of the kind `gossip`,
    /// three times in four, the generator lets an agent receive a packet instead.
    fn exchange(&mut self) -> Action {
        if self.kind == Kind::Gossip && !self.rng.one_in(4) {
            return self.pass();
        }
        self.next = Some(Next::Merge {
            to: self.agent(),
            join: self.rng.one_in(3),
        });
        done_by(self.agent(), Act::State)
    }
}

impl ActionSource for Generator {
    /// Returns the next action, which a generator always has.
    fn next_action(&mut self, world: &World) -> Result<Option<Action>, AllocError> {
        self.sent = world.sent().len() as u64;
        let action = match self.next.take() {
            Some(next) => self.follow(next),
            None => {
                let verb = self.rng.pick(verbs(self.kind), Verb::Fire);
                self.act(world, verb)?
            }
        };
        Ok(Some(action))
    }

    /// If `line` shows that `action` fired a query or that a query was handed out, remembers this query.
    fn observe_turn(&mut self, action: &Action, line: &Line) -> Result<(), AllocError> {
        own::record_query(self, action, line);
        if let Some(handed) = &line.handed {
            let handed = handed.get();
            self.handed = self.handed.max(handed.index.saturating_add(1));
            self.last_handed = LastHanded {
                agent: handed.agent,
                index: handed.index,
                time: handed.time.get(),
                id: handed.id,
            };
        }
        Ok(())
    }
}
