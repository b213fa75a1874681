//! Encodes each intent as its one canonical packet, in a new vector.

ghost use Rattle.std.specs.Prelude.{◌≡◌, ◌<◌, ◌^◌, ◌++◌, ◌↔◌, IsTrue, false, codes, length, IfOk, OnOk, Ok, Err, Some};
ghost use Rattle.serf_lamport.specs.Clock.{max_clock};
ghost use Rattle.serf_pack.specs.Canonical.{raw_bytes, uint_bytes};
ghost use Rattle.serf_wire.specs.Canonical.{entry, is_long};
ghost use Rattle.serf_wire.specs.Intent.{join_of, leave_of, intent_of, intent_node, intent_time, intent_read, canonical_intent, SpellsIntent};

use crate::encode::EncodeError;
use crate::intent::{Intent, Join, Leave};
use crate::laws::laws_below;
use crate::length::{number_len, text_len};
use crate::long::is_long_text;
use crate::put::{write_flag_field, write_number_field, write_text_field};
use serf_lamport::Time;
use serf_pack::write_map;
use std::alloc::{AllocError, Global};

/// The type byte of a leave.
const LEAVE: u8 = 0;

/// The type byte of a join.
const JOIN: u8 = 1;

/// Returns the length of the canonical packet of an intent, in bytes. If a name is longer than 4,294,967,295
/// bytes, no packet can contain it. The header of this name then counts as five bytes. Allocates no memory.
pub fn intent_len(intent: &Intent) -> u128
    ensures { result ≡ length (canonical_intent (intent_of intent.now)) }
{
    // The constants 13 and 20 are the length of the parts that every packet of this type contains: the type
    // byte, the map's header, the keys, and a leave's truth value.
    match *intent {
        Intent::Join(Join { time, node }) => 13 + number_len(time.get()) + text_len(node),
        Intent::Leave(Leave { time, node, .. }) => 20 + number_len(time.get()) + text_len(node),
    }
}

/// Appends the fields that joins and leaves share: the time and the node's name.
fn write_time_and_node(out: &mut Vec<u8>, time: Time, node: &[u8]) -> Result<(), AllocError>
    requires { length node.now < 2 ^ 32 }
    ensures time { OnOk result (time < max_clock) }
    ensures bytes { OnOk result (out.new.items ≡ out.old.items
        ++ entry (codes "LTime") (uint_bytes time)
        ++ entry (codes "Node") (raw_bytes node.now)) }
{
    write_number_field(out, b"LTime", time.get())?;
    write_text_field(out, b"Node", node)
}

/// Returns the canonical packet of a join, in a new vector.
fn write_join(alloc: Global, time: Time, node: &[u8]) -> Result<Vec<u8>, AllocError>
    requires { length node.now < 2 ^ 32 }
    ensures time { OnOk result (time < max_clock) }
    ensures bytes { IfOk result (λ packet. packet.items
        ≡ canonical_intent (join_of time node.now)) }
{
    let mut out = Vec::new(alloc);
    out.extend_from_slice(&[JOIN])?;
    write_map(&mut out, 2)?;
    write_time_and_node(&mut out, time, node)?;
    Ok(out)
}

/// Returns the canonical packet of a leave, in a new vector.
fn write_leave(alloc: Global, time: Time, node: &[u8], prune: bool) -> Result<Vec<u8>, AllocError>
    requires { length node.now < 2 ^ 32 }
    ensures time { OnOk result (time < max_clock) }
    ensures bytes { IfOk result (λ packet. packet.items
        ≡ canonical_intent (leave_of time node.now prune)) }
{
    let mut out = Vec::new(alloc);
    out.extend_from_slice(&[LEAVE])?;
    write_map(&mut out, 3)?;
    write_time_and_node(&mut out, time, node)?;
    write_flag_field(&mut out, b"Prune", prune)?;
    Ok(out)
}

/// Returns the name of the node that joins or leaves.
fn node_of<'a>(intent: &Intent<'a>) -> &'a [u8]
    ensures { result.now ≡ intent_node (intent_of intent.now) }
{
    match *intent {
        Intent::Join(Join { node, .. }) => node,
        Intent::Leave(Leave { node, .. }) => node,
    }
}

/// Returns the canonical packet of an intent in a new vector. The name must fit in a packet.
fn write_intent(alloc: Global, intent: &Intent) -> Result<Vec<u8>, AllocError>
    requires { is_long (intent_node (intent_of intent.now)) ≡ false }
    ensures time { OnOk result (intent_time (intent_of intent.now) < max_clock) }
    ensures bytes { IfOk result (λ packet. packet.items
        ≡ canonical_intent (intent_of intent.now)) }
{
    match *intent {
        Intent::Join(Join { time, node }) => write_join(alloc, time, node),
        Intent::Leave(Leave { time, node, prune }) => write_leave(alloc, time, node, prune),
    }
}

/// Returns the canonical packet of an intent. Its fields are the time, the name and, for a leave, the prune
/// flag, in this order. Returns `TooLong` if the name is longer than 4,294,967,295 bytes. Otherwise, the call
/// returns `OutOfMemory` if there is no memory for the packet.
pub fn encode_intent(alloc: Global, intent: &Intent) -> Result<Vec<u8>, EncodeError>
    ensures canonical { IfOk result (λ packet. packet.items
        ≡ canonical_intent (intent_of intent.now)) }
    ensures spells { IfOk result (λ packet. SpellsIntent (intent_of intent.now) packet.items) }
    // Reading the packet returns the intent that was written.
    ensures read_back { IfOk result (λ packet. intent_read packet.items
        ≡ Ok (Some (intent_of intent.now))) }
    ensures too_long { (result ≡ Err EncodeError.TooLong)
        ↔ IsTrue (is_long (intent_node (intent_of intent.now))) }
{
    laws_below();
    if is_long_text(node_of(intent)) {
        return Err(EncodeError::TooLong);
    }
    Ok(write_intent(alloc, intent)?)
}
