//! Facts about an action that the prover learns from its types: its numbers fit into their types, its texts are bytes,
//! and its query's ID has 32 bits. No function here does anything at run time: after the call, the caller may use the
//! function's clause.

ghost use Rattle.std.specs.Prelude.{All};
ghost use Rattle.serf_window.specs.Texts.{event_of};
ghost use Rattle.serf_agent.specs.KeptTexts.{IsIdWritable, IsWritable};
ghost use Rattle.serf_model.specs.HandOuts.{events_given};
ghost use Rattle.serf_model.specs.Sizes.{HasSizes, IsSized};
ghost use Rattle.serf_model.specs.Tails.{BringsTold, BringsToldBy};
ghost use Rattle.serf_model.specs.Trace.{events_in_packet, given_by};

use serf_model::{Act, Action, told_packets};
use serf_wire::Bytes;

/// Shows the prover that the numbers of a query fit into their types. Does nothing at run time.
#[tactic(auto, using(crate::proofs::SizeLaws::fits_signed))]
fn know_sizes(id: u32, port: u16, relay_factor: u8, timeout: i64)
    ensures { IsSized id port relay_factor timeout }
{}

/// Shows the prover that the numbers of `action` fit into their types. Does nothing at run time.
pub(crate) fn read_numbers(action: &Action)
    ensures { HasSizes action.now }
{
    match action {
        Action::Of {
            act: Act::Query(query),
            ..
        } => {
            let query = query.get();
            let params = &query.params;
            know_sizes(query.id, params.port, params.relay_factor, params.timeout);
        }
        _ => {}
    }
}

/// Shows the prover that the numbers of all `actions` fit into their types. Does nothing at run time.
pub(crate) fn read_all_numbers(actions: &[Action])
    ensures { All HasSizes actions.now }
{
    for action in actions {
        read_numbers(action);
    }
}

/// Shows the prover that an event's name and payload are bytes, so that a snapshot's line can hold them. Does nothing
/// at run time.
fn know_texts(name: &[u8], payload: &[u8])
    ensures { IsWritable (event_of name.now payload.now) }
{
    let _name = name;
    let _payload = payload;
}

/// Shows the prover that a query's ID has 32 bits. Does nothing at run time.
fn know_id(id: u32)
    ensures { IsIdWritable id }
{}

/// Shows the prover that the texts of the events in `packet` are bytes. Does nothing at run time.
pub(crate) fn know_packet(packet: &[u8])
    ensures { All (λ e. IsWritable e.key) (events_in_packet packet.now) }
{
    told_packets(); // for the prover: if a packet consists of bytes, so do the texts of its events
    let _bytes = packet;
}

/// Shows the prover that a snapshot's lines can hold the event or the query that `act` fires. Does nothing at run time.
fn inspect_act(act: &Act)
    ensures { BringsToldBy act.now }
{
    match act {
        Act::Fire { name, payload, .. } => know_texts(name.as_slice(), payload.as_slice()),
        Act::Query(query) => know_id(query.get().id),
        _ => {}
    }
}

/// Shows the prover that the texts of all events in a packet are bytes. The packet is in `sent`, and `act` passes it to
/// its agent. Does nothing at run time.
pub(crate) fn inspect_given(sent: &[Bytes], act: &Act)
    ensures { All (λ e. IsWritable e.key) (events_given (given_by sent.now act.now)) }
{
    match act.given(sent) {
        Some(packet) => know_packet(packet),
        None => {}
    }
}

/// Shows the prover that a snapshot's lines can hold what `action` injects or fires. Does nothing at run time.
pub fn inspect_action(action: &Action)
    ensures { BringsTold action.now }
{
    match action {
        Action::Inject { bytes } => know_packet(bytes.as_slice()),
        Action::Of { act, .. } => inspect_act(act),
    }
}

/// Shows the prover that a snapshot's lines can hold what `actions` inject or fire. Does nothing at run time.
pub(crate) fn inspect_all(actions: &[Action])
    ensures { All BringsTold actions.now }
{
    for action in actions {
        inspect_action(action);
    }
}
