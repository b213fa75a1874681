//! Reads and makes the packets of join and leave intents, for C.

ghost use Rattle.std.specs.Prelude.{◌≡◌, ◌≢◌, ◌<◌, true, false, length};
ghost use Rattle.serf_lamport.specs.Clock.{max_clock};
ghost use Rattle.serf_wire.specs.Canonical.{is_long};
ghost use Rattle.serf_wire.specs.Intent.{intent_of, intent_node, intent_read, canonical_intent, join_of, leave_of};
ghost use Rattle.serf_agent_c.specs.Codes.{number_of};
ghost use Rattle.serf_agent_c.specs.Intents.{encode_code, ReadsIntent, ReadsIntentError, WritesIntent, intent_head, said_intent};
ghost use Rattle.serf_agent_c.specs.Texts.{copied};

use crate::code::Code;
use crate::copies::copy_into;
use crate::errors::head_of_error;
use crate::heads::ErrorHead;
use serf_lamport::Time;
use serf_wire::{EncodeError, Intent, Join, Leave, encode_intent, read_intent};
use std::alloc::Global;

/// An intent as C reads it, without the node's name: its time by the member clock, the length of the name in bytes,
/// whether the node leaves (otherwise it joins), and whether members have to forget the node at once.
#[repr(C)]
#[derive(Clone, Copy)]
pub struct IntentHead {
    pub time: u64,
    pub node_len: usize,
    pub leave: bool,
    pub prune: bool,
}

/// Makes the struct that C reads for `intent`. It doesn't contain the node's name.
fn head_of_intent(intent: &Intent) -> IntentHead
    ensures { result ≡ intent_head (intent_of intent.now) }
{
    match *intent {
        Intent::Join(Join { time, node }) => IntentHead {
            time: time.get(),
            node_len: node.len(),
            leave: false,
            prune: false,
        },
        Intent::Leave(Leave { time, node, prune }) => IntentHead {
            time: time.get(),
            node_len: node.len(),
            leave: true,
            prune,
        },
    }
}

/// The name of the node whose join or leave `intent` announces.
fn node_of<'a>(intent: &Intent<'a>) -> &'a [u8]
    ensures { result.now ≡ intent_node (intent_of intent.now) }
{
    match *intent {
        Intent::Join(Join { node, .. }) => node,
        Intent::Leave(Leave { node, .. }) => node,
    }
}

/// If `packet` is an intent, fills `intent` with its contents, and `node` with as much of the node's name as fits.
fn read(packet: &[u8], intent: &mut IntentHead, node: &mut [u8]) -> Code
    ensures reads { ReadsIntent (intent_read packet.now) (λ i. (intent.new ≡ intent_head i)
        × (node.new ≡ copied (intent_node i) node.old)) result }
    ensures same { result ≢ Code.Done → (intent.new ≡ intent.old) × (node.new ≡ node.old) }
{
    match read_intent(packet) {
        Ok(Some(said)) => {
            *intent = head_of_intent(&said);
            copy_into(node, node_of(&said));
            Code::Done
        }
        Ok(None) => Code::Nothing,
        Err(_) => Code::NoMessage,
    }
}

/// If `packet` is a faulty intent or not a message, fills `error` with its first error. Otherwise, the code is
/// `Nothing`.
fn read_error(packet: &[u8], error: &mut ErrorHead) -> Code
    ensures { ReadsIntentError (intent_read packet.now) error.old error.new result }
{
    match read_intent(packet) {
        Ok(_) => Code::Nothing,
        Err(found) => {
            *error = head_of_error(found);
            Code::Done
        }
    }
}

/// The code that C gets if the packet of an intent can't be made because of `error`.
fn code_of(error: EncodeError) -> Code
    ensures { result ≡ encode_code error }
{
    match error {
        EncodeError::TooLong => Code::TooLong,
        EncodeError::OutOfMemory => Code::OutOfMemory,
    }
}

/// Makes the packet of `intent`. Sets `len` to the packet's length in bytes, and fills `to` with as much of it as fits.
fn write(alloc: Global, intent: &Intent, len: &mut usize, to: &mut [u8]) -> Code
    ensures too_long { is_long (intent_node (intent_of intent.now)) ≡ true
        → result ≡ Code.TooLong }
    ensures memory { is_long (intent_node (intent_of intent.now)) ≡ false → result ≢ Code.Done
        → result ≡ Code.OutOfMemory }
    ensures writes { result ≡ Code.Done
        → (len.new ≡ length (canonical_intent (intent_of intent.now)))
        × (to.new ≡ copied (canonical_intent (intent_of intent.now)) to.old) }
    ensures same { result ≢ Code.Done → (len.new ≡ len.old) × (to.new ≡ to.old) }
{
    match encode_intent(alloc, intent) {
        Ok(packet) => {
            *len = packet.len();
            copy_into(to, packet.as_slice());
            Code::Done
        }
        Err(error) => code_of(error),
    }
}

/// Makes the packet of an intent of `node` at `time`. If `prune` is `None`, the intent is a join intent. Otherwise it
/// is a leave intent, and `prune` contains whether members have to forget the node at once.
fn write_said(
    alloc: Global,
    time: u64,
    node: &[u8],
    prune: Option<bool>,
    len: &mut usize,
    to: &mut [u8],
) -> Code
    ensures { WritesIntent (said_intent time node.now prune) len.old len.new to.old to.new result }
{
    let Some(time) = Time::new(time) else {
        return Code::Exhausted;
    };
    match prune {
        None => write(alloc, &Intent::Join(Join { time, node }), len, to),
        Some(prune) => write(alloc, &Intent::Leave(Leave { time, node, prune }), len, to),
    }
}

/// If `packet` is an intent, fills `intent` with its contents, and `node` with as much of the node's name as fits. The
/// code is `NOTHING` if the packet is another message, and `NO_MESSAGE` if it is a faulty intent or not a message.
#[unsafe(no_mangle)]
pub extern "C" fn serf_agent_intent(packet: &[u8], intent: &mut IntentHead, node: &mut [u8]) -> u32
    ensures { (code : Code) × (result ≡ number_of code)
        × ReadsIntent (intent_read packet.now) (λ i. (intent.new ≡ intent_head i)
        × (node.new ≡ copied (intent_node i) node.old)) code
        × (code ≢ Code.Done → (intent.new ≡ intent.old) × (node.new ≡ node.old)) }
{
    read(packet, intent, node).number()
}

/// If `serf_agent_intent` returns `NO_MESSAGE` for `packet`, fills `error` with the packet's first error. In all other
/// cases, the code is `NOTHING`, and `error` stays as it was.
#[unsafe(no_mangle)]
pub extern "C" fn serf_agent_intent_error(packet: &[u8], error: &mut ErrorHead) -> u32
    ensures { (code : Code) × (result ≡ number_of code)
        × ReadsIntentError (intent_read packet.now) error.old error.new code }
{
    read_error(packet, error).number()
}

/// Makes the packet of a join intent, which announces that `node` joins at `time`. Sets `len` to the packet's length in
/// bytes, and fills `to` with as much of it as fits.
#[unsafe(no_mangle)]
pub extern "C" fn serf_agent_join_packet(
    alloc: Global,
    time: u64,
    node: &[u8],
    len: &mut usize,
    to: &mut [u8],
) -> u32
    ensures { (code : Code) × (result ≡ number_of code)
        × WritesIntent (join_of time node.now) len.old len.new to.old to.new code }
{
    write_said(alloc, time, node, None, len, to).number()
}

/// Makes the packet of a leave intent, which announces that `node` leaves at `time`. Sets `len` to the packet's length
/// in bytes, and fills `to` with as much of it as fits. `prune` is true if members have to forget the node at once.
#[unsafe(no_mangle)]
pub extern "C" fn serf_agent_leave_packet(
    alloc: Global,
    time: u64,
    node: &[u8],
    prune: bool,
    len: &mut usize,
    to: &mut [u8],
) -> u32
    ensures { (code : Code) × (result ≡ number_of code)
        × WritesIntent (leave_of time node.now prune) len.old len.new to.old to.new code }
{
    write_said(alloc, time, node, Some(prune), len, to).number()
}
