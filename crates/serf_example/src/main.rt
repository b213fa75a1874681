//! Runs two agents whose snapshots are files. An event arrives twice, and once more after a crash, and its handler runs
//! once. One agent fires a query, and the other answers it.
//!
//! The program shows how to embed the agent in Rattle: open a [`FileStore`] for each agent, open the agent on the
//! store's text with [`Agent::open`], pass packets in and out, and run a handler for each event that a call hands out.
//! The snapshots are in the current folder, and each run starts without them.
#![tactic(auto)]

mod lives;

use anyhow::{Context, Result, bail};
use lives::over_a_file;
use serf_agent::{
    Agent, BytesList, Config, DEFAULT_SNAPSHOT_LIMIT, EventOut, OpenQuery, Outcome, QueryParams,
    answer_in, is_ack,
};
use serf_store::{FileStore, SystemFile};
use serf_wire::Bytes;
use std::fs::Files;
use std::io::ErrorKind;

/// An agent of this program, whose snapshot is a file.
type OnFile<'a> = Agent<FileStore<SystemFile<'a, HostRuntime>>>;

/// Removes the snapshot of an earlier run, if there is one.
fn forget(rt: &HostRuntime, path: &str) -> Result<()> {
    match rt.remove_file(path) {
        Err(error) if error.kind() != ErrorKind::NotFound => Err(error.into()),
        _ => Ok(()),
    }
}

/// Opens the agent `name` over the file at `path`.
fn open_over<'a>(rt: &'a HostRuntime, name: &str, path: &str) -> Result<OnFile<'a>> {
    let (store, text) = FileStore::open(rt.alloc(), rt, path)?;
    let config = Config::new(rt.alloc(), name.as_bytes())?;
    Ok(Agent::open(rt.alloc(), config, &text, store).map_err(|refused| refused.error)?)
}

/// Opens the agent `name` for its first life or its next one, depending on its snapshot at `path`. An error begins with
/// the agent's name.
fn open<'a>(rt: &'a HostRuntime, name: &'static str, path: &str) -> Result<OnFile<'a>> {
    open_over(rt, name, path).context(name)
}

/// Handles an event. This is where a deployment tool would do its work, once for each event.
fn handle(rt: &HostRuntime, agent: &str, event: &EventOut) -> Result<()> {
    println!(rt;
        "{agent} runs its handler for the event of time {}",
        event.time.get()
    )?;
    Ok(())
}

/// Prints an ack or a response that an agent counted.
fn tell_answer(rt: &HostRuntime, agent: &str, packet: &Bytes) -> Result<()> {
    if let Some(answer) = answer_in(packet.as_slice()) {
        let kind = if is_ack(&answer) {
            "an ack"
        } else {
            "a response"
        };
        println!(rt;
            "{agent} counts {kind} to its query of time {}",
            answer.time
        )?;
    }
    Ok(())
}

/// Prints what an agent did with a packet, and runs its handler for an event.
fn tell(rt: &HostRuntime, name: &str, packet: &Bytes, outcome: &Outcome) -> Result<()> {
    match outcome {
        Outcome::Event(event) => handle(rt, name, event),
        Outcome::Ack | Outcome::Response => tell_answer(rt, name, packet),
        Outcome::Ignored(reason) => Ok(println!(rt; "{name} ignores a packet: {reason:?}")?),
        _ => Ok(println!(rt; "{name} has another packet")?),
    }
}

/// Passes a packet that arrived over the network at moment 0 to an agent.
fn deliver(rt: &HostRuntime, agent: &mut OnFile<'_>, name: &str, packet: &Bytes) -> Result<()> {
    let outcome = agent.receive(rt.alloc(), 0, packet.as_slice(), false)?;
    tell(rt, name, packet, &outcome)
}

/// Runs the first life of the agent `beta`, which receives a packet twice. It stops as in a crash: no further call is
/// made.
fn first_life(rt: &HostRuntime, packet: &Bytes) -> Result<()> {
    let mut beta = open(rt, "beta", "beta.snapshot")?;
    deliver(rt, &mut beta, "beta", packet)?;
    deliver(rt, &mut beta, "beta", packet)
}

/// Returns the parameters of a query that goes to every node and accepts answers for 1,000 nanoseconds.
fn of_every_node(rt: &HostRuntime) -> Result<QueryParams> {
    Ok(QueryParams {
        filters: BytesList::new(rt.alloc()),
        want_ack: true,
        no_broadcast: false,
        tags_pass: false,
        timeout: 1_000,
        addr: Bytes::copy_of(rt.alloc(), b"")?,
        port: 0,
        relay_factor: 0,
    })
}

/// Passes a query to the agent `beta`, and returns its ack and its response.
fn answer(rt: &HostRuntime, beta: &mut OnFile<'_>, packet: &Bytes) -> Result<(Bytes, Bytes)> {
    let Outcome::Query { handed, ack, .. } = beta.receive(rt.alloc(), 0, packet.as_slice(), false)?
    else {
        bail!("beta isn't asked");
    };
    let Some(ack) = ack else {
        bail!("beta sends no ack");
    };
    let Some(handed) = handed else {
        bail!("beta is handed no query");
    };
    match handed.respond(rt.alloc(), 0, b"idle") {
        Ok(reply) => Ok((ack, reply.packet)),
        Err((_, error)) => Err(error.into()),
    }
}

/// Prints that a query's deadline has passed, and how many acks and responses the query had.
fn tell_closed(rt: &HostRuntime, time: u64, query: &OpenQuery) -> Result<()> {
    println!(rt;
        "alpha closes its query of time {time}: {} acks, {} responses",
        query.acks.as_slice().len(),
        query.responses.as_slice().len()
    )?;
    Ok(())
}

/// Closes the queries of the agent `alpha` whose deadlines have passed, and prints a line about each of them.
fn close(rt: &HostRuntime, alpha: &mut OnFile<'_>) -> Result<()> {
    for (time, query) in alpha.take_due(rt.alloc(), 1_001)? {
        tell_closed(rt, time, &query)?;
    }
    Ok(())
}

/// Lets the agent `alpha` fire a query for the load of every node, and returns the query's packet.
fn ask(rt: &HostRuntime, alpha: &mut OnFile<'_>) -> Result<Bytes> {
    let params = of_every_node(rt)?;
    let asked = alpha.query(rt.alloc(), 0, 7, b"load", b"", &params)?;
    Ok(asked.packet)
}

/// Passes the ack and the response to the agent `alpha`, and then closes its query.
fn hear(rt: &HostRuntime, alpha: &mut OnFile<'_>, ack: &Bytes, response: &Bytes) -> Result<()> {
    deliver(rt, alpha, "alpha", ack)?;
    deliver(rt, alpha, "alpha", response)?;
    close(rt, alpha)
}

/// Lets the agent `alpha` fire a query and the agent `beta` answer it.
fn talk(rt: &HostRuntime, alpha: &mut OnFile<'_>, beta: &mut OnFile<'_>) -> Result<()> {
    let question = ask(rt, alpha)?;
    let (ack, response) = answer(rt, beta, &question)?;
    hear(rt, alpha, &ack, &response)
}

/// Compacts an agent's snapshot, if that is worth doing.
fn tidy(rt: &HostRuntime, agent: &mut OnFile<'_>) -> Result<()> {
    if agent.should_compact(DEFAULT_SNAPSHOT_LIMIT) {
        agent.compact(rt.alloc())?;
    }
    Ok(())
}

/// Runs the second life of the agent `beta`, after its crash. It receives `packet` once more, and answers the query of
/// `alpha`.
fn second_life(rt: &HostRuntime, alpha: &mut OnFile<'_>, packet: &Bytes) -> Result<()> {
    println!(rt; "beta crashes and comes back")?;
    let mut beta = open(rt, "beta", "beta.snapshot")?;
    deliver(rt, &mut beta, "beta", packet)?;
    talk(rt, alpha, &mut beta)
}

/// Lets the agent `alpha` fire an event and run its own handler for it, and returns the packet of the event.
fn fire(rt: &HostRuntime, alpha: &mut OnFile<'_>) -> Result<Bytes> {
    let fired = alpha.fire(rt.alloc(), b"deploy", b"v2", false)?;
    handle(rt, "alpha", &fired.handed)?;
    Ok(fired.packet)
}

/// Runs the whole life of the agent `alpha`, during which `beta` has two lives.
fn live(rt: &HostRuntime, alpha: &mut OnFile<'_>) -> Result<()> {
    let packet = fire(rt, alpha)?;
    first_life(rt, &packet)?;
    second_life(rt, alpha, &packet)?;
    deliver(rt, alpha, "alpha", &packet)?;
    tidy(rt, alpha)
}

fn main(rt: HostRuntime) -> Result<()> {
    over_a_file();
    forget(&rt, "alpha.snapshot")?;
    forget(&rt, "beta.snapshot")?;
    let mut alpha = open(&rt, "alpha", "alpha.snapshot")?;
    live(&rt, &mut alpha)
}
