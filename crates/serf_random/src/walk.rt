//! Rounds of gossip, in which packets spread as broadcasts do in Serf's memberlist. In each round, agents pass on the
//! packets that are new to them.

use crate::draft::{ActionSource, done_by};
use crate::random_options::{MAX_FANOUT, MAX_ROUNDS, RandomOptions};
use crate::rng::Rng;
use serf_model::{Act, Action, Answer, Line};
use serf_text::write_number;
use serf_wire::Bytes;
use serf_world::World;
use std::alloc::{AllocError, Global};
use std::mem;

/// A number that is combined with the seed, so that the random numbers of the rounds differ from those that determine
/// the agents' settings.
const SALT: u64 = 0x60551b;

/// The duration of a round, in nanoseconds (memberlist's `GossipInterval` in a local network).
const ROUND: u64 = 200_000_000;

/// The number of rounds in which agents fire events, starting with the first round.
const FIRING_ROUNDS: u64 = 3;

/// The maximum number of events that are fired in each of the first [`FIRING_ROUNDS`] rounds.
const MAX_FIRED: u64 = 2;

/// The number of rounds from one exchange of states to the next.
const EXCHANGE_ROUNDS: u64 = 4;

/// How many times an agent sends a packet for each digit in the number of agents (memberlist's `RetransmitMult`).
const SENDS_PER_DIGIT: u64 = 4;

/// The maximum number of random attempts for each agent that has to be found (memberlist's `kRandomNodes` has the same
/// limit).
const DRAWS: u64 = 3;

/// A packet that an agent still has to send to others. Packets are numbered from 0.
#[derive(Clone, Copy)]
struct Rumor {
    agent: u64,
    packet: u64,
    /// How many more times the agent has to send the packet.
    left: u64,
}

/// A planned action in a round.
#[derive(Clone, Copy)]
enum Step {
    /// An agent fires an event.
    Fire { agent: u64 },
    /// An agent receives a packet.
    Deliver { agent: u64, packet: u64 },
    /// An agent sends its state.
    State { agent: u64 },
    /// An agent merges one of the packets that were sent last. The field `back` is the packet's position, counted from
    /// the end: the last packet has position 1.
    Merge { agent: u64, back: u64 },
}

/// The state of a schedule of rounds: the packets that agents still have to send, and the remaining steps of the
/// current round.
#[derive(Drop)]
pub(crate) struct Walk {
    alloc: Global,
    rng: Rng,
    /// How many agents are in the cluster.
    agents: u64,
    /// The number of other agents to which an agent sends a packet in a round.
    fanout: u64,
    /// How many of every hundred packets are lost.
    loss: u64,
    /// How many times an agent sends each packet, in all rounds together.
    sends: u64,
    /// The number of the last round, counted from 1.
    rounds: u64,
    /// The number of the current round, counted from 1, or 0 before the first round.
    round: u64,
    /// How many events have been fired so far.
    fired: u64,
    rumors: Vec<Rumor>,
    /// The remaining steps of the current round, in reverse order.
    steps: Vec<Step>,
}

/// Returns how many times an agent sends each packet in a cluster of `agents` agents: four times for each digit in the
/// number of agents.
fn sends_of(agents: u64) -> u64 {
    let digits: u64 = match agents {
        0..=9 => 1,
        10..=99 => 2,
        100..=999 => 3,
        1_000..=9_999 => 4,
        _ => 5,
    };
    digits.saturating_mul(SENDS_PER_DIGIT)
}

/// Returns the number of a random agent other than `agent`. The number of agents in the cluster, `agents`, has to be at
/// least two.
fn other_than(rng: &mut Rng, agents: u64, agent: u64) -> u64 {
    let other = rng.below(agents.saturating_sub(1));
    if other >= agent {
        other.saturating_add(1)
    } else {
        other
    }
}

/// Returns the numbers of `maximum` random agents other than `agent`. The number of agents in the cluster, `agents`,
/// has to be at least two. If too many random numbers repeat earlier ones, the result contains fewer than `maximum`
/// numbers.
fn others(
    alloc: Global,
    rng: &mut Rng,
    agents: u64,
    agent: u64,
    maximum: u64,
) -> Result<Vec<u64>, AllocError> {
    let mut others = Vec::new(alloc);
    for _draw in 0..maximum.saturating_mul(DRAWS) {
        if others.len() as u64 >= maximum {
            break;
        }
        let other = other_than(rng, agents, agent);
        if !others.contains(&other) {
            others.push(other)?;
        }
    }
    Ok(others)
}

impl Walk {
    /// Creates the state of a schedule of rounds that has the options `ask` and a cluster of `agents` agents. The first
    /// round has not begun yet.
    pub(crate) fn new(alloc: Global, ask: &RandomOptions, agents: u64) -> Walk {
        Walk {
            alloc,
            rng: Rng::new(ask.seed ^ SALT),
            agents,
            fanout: ask.fanout.min(MAX_FANOUT),
            loss: ask.loss,
            sends: sends_of(agents),
            rounds: ask.rounds.min(MAX_ROUNDS),
            round: 0,
            fired: 0,
            rumors: Vec::new(alloc),
            steps: Vec::new(alloc),
        }
    }

    /// If no step is left, plans one round after another until a round contains a step or the last round is planned.
    fn plan_next(&mut self) -> Result<(), AllocError> {
        for _round in self.round..self.rounds {
            if !self.steps.is_empty() {
                return Ok(());
            }
            self.plan_round()?;
        }
        Ok(())
    }

    /// Begins the next round, and plans its steps.
    fn plan_round(&mut self) -> Result<(), AllocError> {
        self.round = self.round.saturating_add(1);
        if self.agents == 0 {
            return Ok(());
        }
        if self.round <= FIRING_ROUNDS {
            self.plan_events()?;
        }
        if self.agents >= 2 {
            self.plan_sends()?;
            if self.round % EXCHANGE_ROUNDS == 0 {
                self.plan_exchange()?;
            }
        }
        self.steps.reverse();
        Ok(())
    }

    /// Plans that agents fire at least one event, and at most [`MAX_FIRED`] events.
    fn plan_events(&mut self) -> Result<(), AllocError> {
        let fired = self.rng.below(MAX_FIRED).saturating_add(1);
        for _event in 0..fired {
            let agent = self.rng.below(self.agents);
            self.steps.push(Step::Fire { agent })?;
        }
        Ok(())
    }

    /// For each packet that an agent still has to send, plans that the agent sends it to some other agents.
    fn plan_sends(&mut self) -> Result<(), AllocError> {
        let rumors = mem::replace(&mut self.rumors, Vec::new(self.alloc));
        for rumor in rumors {
            let sent = self.plan_rumor(rumor)?;
            let left = rumor.left.saturating_sub(sent);
            if left > 0 {
                self.rumors.push(Rumor { left, ..rumor })?;
            }
        }
        Ok(())
    }

    /// Plans that the packet in `rumor` is sent to some other agents. Each of these agents receives the packet unless
    /// the packet is lost. Returns how many times the packet is sent, whether it is lost or not.
    fn plan_rumor(&mut self, rumor: Rumor) -> Result<u64, AllocError> {
        let maximum = self.fanout.min(rumor.left);
        let targets = others(self.alloc, &mut self.rng, self.agents, rumor.agent, maximum)?;
        for target in &targets {
            if self.rng.below(100) >= self.loss {
                self.steps.push(Step::Deliver {
                    agent: *target,
                    packet: rumor.packet,
                })?;
            }
        }
        Ok(targets.len() as u64)
    }

    /// Plans that two agents send their states, and that each of the two merges the other's state.
    fn plan_exchange(&mut self) -> Result<(), AllocError> {
        let one = self.rng.below(self.agents);
        let other = other_than(&mut self.rng, self.agents, one);
        self.steps.extend_from_slice(&[
            Step::State { agent: one },
            Step::State { agent: other },
            Step::Merge {
                agent: other,
                back: 2,
            },
            Step::Merge {
                agent: one,
                back: 1,
            },
        ])
    }

    /// Returns the action that carries out `step` in the cluster `world`.
    fn action_of(&mut self, world: &World, step: Step) -> Result<Action, AllocError> {
        Ok(match step {
            Step::Fire { agent } => done_by(agent, self.fire()?),
            Step::Deliver { agent, packet } => {
                let now = self.round.saturating_mul(ROUND);
                done_by(agent, Act::Deliver { packet, now })
            }
            Step::State { agent } => done_by(agent, Act::State),
            Step::Merge { agent, back } => {
                let packet = (world.sent().len() as u64).saturating_sub(back);
                let join = false;
                done_by(agent, Act::Merge { packet, join })
            }
        })
    }

    /// Returns the act of firing the next event. The payload of an event is the event's number, counted from 1, so no
    /// two events are the same.
    fn fire(&mut self) -> Result<Act, AllocError> {
        self.fired = self.fired.saturating_add(1);
        let mut payload = Vec::new(self.alloc);
        write_number(&mut payload, self.fired)?;
        Ok(Act::Fire {
            name: Bytes::copy_of(self.alloc, b"deploy")?,
            payload: Bytes::from_vec(payload),
            coalesce: false,
        })
    }
}

impl ActionSource for Walk {
    /// Returns the next action, or `None` after the last round.
    fn next_action(&mut self, world: &World) -> Result<Option<Action>, AllocError> {
        self.plan_next()?;
        match self.steps.pop() {
            Some(step) => Ok(Some(self.action_of(world, step)?)),
            None => Ok(None),
        }
    }

    /// If `line` shows that an agent fired an event or received one for the first time, the agent will send this event
    /// to others from the next round on.
    fn observe_turn(&mut self, action: &Action, line: &Line) -> Result<(), AllocError> {
        let Action::Of { agent, .. } = action else {
            return Ok(());
        };
        match line.answer {
            Answer::Fired(_) | Answer::New => {}
            _ => return Ok(()),
        }
        let Some(packet) = line.sent.as_slice().first() else {
            return Ok(());
        };
        self.rumors.push(Rumor {
            agent: *agent,
            packet: *packet,
            left: self.sends,
        })?;
        Ok(())
    }
}
