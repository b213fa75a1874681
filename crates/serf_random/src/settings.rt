//! Makes the agents of a random cluster: chooses how many there are, and the settings of each agent.

ghost use Rattle.std.specs.Prelude.{◌≡◌, [], IfOk};
ghost use Rattle.serf_random.specs.Draft.{AddsAgents};

use crate::draft::add_agent;
use crate::kind::Kind;
use crate::random_options::{MAX_AGENTS, MAX_ROUNDS_AGENTS, RandomOptions};
use crate::rng::Rng;
use serf_agent::{Config, DEFAULT_QUERY_LIMIT, DEFAULT_RESPONSE_LIMIT};
use serf_text::write_number;
use serf_wire::Bytes;
use serf_world::Roster;
use std::alloc::{AllocError, Global};

/// Returns the number of slots in an agent's window of events or of queries. Each slot holds the entries of one time.
fn slots(rng: &mut Rng, kind: Kind) -> u64 {
    match kind {
        Kind::Tiny => rng.below(3).saturating_add(1),
        Kind::Kept => rng.below(8).saturating_add(1),
        Kind::Gossip | Kind::Rounds => 64,
        _ => rng.pick(&[1, 2, 3, 4, 4, 8, 8, 16, 512], 4),
    }
}

/// Returns the maximum number of events (or of queries) with the same time that an agent accepts.
fn per_time(rng: &mut Rng, kind: Kind) -> u64 {
    match kind {
        Kind::PerTime => rng.below(4).saturating_add(1),
        Kind::Kept => rng.pick(&[1, 1, 2, 2, 3, 4, 1_024], 1_024),
        Kind::Gossip | Kind::Rounds => 1_024,
        _ => rng.pick(&[1, 2, 3, 1_024, 1_024, 1_024, 65_536], 1_024),
    }
}

/// Returns the maximum length, in bytes, of the packet for an event that an agent fires.
fn event_limit(rng: &mut Rng, kind: Kind) -> u64 {
    match kind {
        Kind::Limits => rng.pick(&[0, 36, 37, 64, 512, 512, 1_024, 9_216, 9_216], 512),
        Kind::Rounds => 512,
        _ => rng.pick(&[512, 512, 512, 512, 36, 9_216], 512),
    }
}

/// Returns the maximum number of different nodes from which an agent accepts acks to a query. The same maximum applies
/// to responses.
fn responders(rng: &mut Rng, kind: Kind) -> u64 {
    match kind {
        Kind::Rounds => 1_024,
        _ => rng.pick(&[1, 2, 3, 8, 8, 8], 8),
    }
}

/// Returns the name of the agent with this `number`, counted from 0. The names of the first 26 agents consist of one
/// letter, and all other names consist of two. In schedules of rounds, a name consists of the letter `n` and the
/// agent's number.
fn node_name(alloc: Global, kind: Kind, number: u64) -> Result<Vec<u8>, AllocError> {
    if kind == Kind::Rounds {
        let mut name = Vec::from_slice(alloc, b"n")?;
        write_number(&mut name, number)?;
        return Ok(name);
    }
    let letter = b'a'.saturating_add((number % 26) as u8);
    let mut name = Vec::from_slice(alloc, &[letter])?;
    if number >= 26 {
        name.push(b'a'.saturating_add((number / 26 % 26) as u8))?;
    }
    Ok(name)
}

/// Returns the settings of the agent with this `number`, counted from 0. In schedules of rounds, agents have Serf's own
/// settings, but smaller windows.
fn config(alloc: Global, rng: &mut Rng, kind: Kind, number: u64) -> Result<Config, AllocError> {
    Ok(Config {
        name: Bytes::from_vec(node_name(alloc, kind, number)?),
        event_buffer: slots(rng, kind),
        query_buffer: slots(rng, kind),
        event_limit: event_limit(rng, kind),
        query_limit: DEFAULT_QUERY_LIMIT,
        response_limit: DEFAULT_RESPONSE_LIMIT,
        responders: responders(rng, kind),
        per_time: per_time(rng, kind),
        ignore_old: kind != Kind::Rounds && rng.one_in(3),
        keep_events: kind == Kind::Kept && !rng.one_in(4),
    })
}

/// Returns the number of agents in the cluster of a schedule with the options `ask`.
fn agent_count(rng: &mut Rng, ask: &RandomOptions) -> u64 {
    match ask.kind {
        Kind::Rounds if ask.agents > 0 => ask.agents.min(MAX_ROUNDS_AGENTS),
        _ if ask.agents > 0 => ask.agents.min(MAX_AGENTS),
        Kind::Gossip | Kind::Rounds => rng.below(5).saturating_add(4),
        _ => rng.below(3).saturating_add(2),
    }
}

/// Makes the agents of a schedule with the options `ask`, and appends the agents' lines to `text`.
pub(crate) fn add_agents(
    alloc: Global,
    ask: &RandomOptions,
    text: &mut Vec<u8>,
) -> Result<Roster, AllocError>
    ensures { IfOk result (λ roster. AddsAgents text.old.items text.new.items [] roster) }
{
    let mut rng = Rng::new(ask.seed);
    let mut roster = Roster::new(alloc);
    let agents = agent_count(&mut rng, ask);
    for number in 0..agents {
        let config = config(alloc, &mut rng, ask.kind, number)?;
        add_agent(alloc, text, &mut roster, config)?;
    }
    Ok(roster)
}
