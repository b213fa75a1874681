//! Makes the lines about handlers, in which a host records what became of the events that were handed to it.

ghost use Rattle.std.specs.Prelude.{◌≡◌, IfOk, length};
ghost use Rattle.serf_snapshot.specs.Handlers.{begun_line, done_line, done_up_to_line, open_line};
ghost use Rattle.serf_agent_c.specs.Codes.{number_of};
ghost use Rattle.serf_agent_c.specs.HandlerLines.{WritesLine, line_of};
ghost use Rattle.serf_agent_c.specs.Texts.{copied};

use crate::code::Code;
use crate::copies::copy_into;
use serf_lamport::Time;
use serf_snapshot::{write_begun_line, write_done_line, write_done_up_to_line, write_open_line};
use std::alloc::{AllocError, Global};

/// The state of an event that a line records.
#[derive(Clone, Copy)]
pub enum EventState {
    /// The event was handed out, and it isn't done.
    Open,
    /// The event's handler has begun.
    Begun,
    /// The event is done.
    Done,
    /// All events of the lines above this one are done, up to its time. The line has no name and no payload.
    DoneUpTo,
}

/// Makes the line that records `state` for the event with this `time`, `name` and `payload`.
fn line_of(
    alloc: Global,
    state: EventState,
    time: Time,
    name: &[u8],
    payload: &[u8],
) -> Result<Vec<u8>, AllocError>
    ensures { IfOk result (λ line. line.items ≡ line_of state time name.now payload.now) }
{
    let mut line = Vec::new(alloc);
    match state {
        EventState::Open => write_open_line(&mut line, time, name, payload)?,
        EventState::Begun => write_begun_line(&mut line, time, name, payload)?,
        EventState::Done => write_done_line(&mut line, time, name, payload)?,
        EventState::DoneUpTo => write_done_up_to_line(&mut line, time.get())?,
    }
    Ok(line)
}

/// Sets `len` to the length of `line` in bytes, and fills `to` with as much of it as fits.
fn fill(line: &[u8], len: &mut usize, to: &mut [u8])
    ensures len { len.new ≡ length line.now }
    ensures to { to.new ≡ copied line.now to.old }
{
    *len = line.len();
    copy_into(to, line);
}

/// Makes the line that records `state` for the event with this `time`, `name` and `payload`. Sets `len` to the line's
/// length in bytes, and fills `to` with as much of it as fits.
fn write(
    alloc: Global,
    state: EventState,
    time: u64,
    name: &[u8],
    payload: &[u8],
    len: &mut usize,
    to: &mut [u8],
) -> Code
    ensures { WritesLine time (line_of state time name.now payload.now)
        len.old len.new to.old to.new result }
{
    let Some(time) = Time::new(time) else {
        return Code::Exhausted;
    };
    let Ok(line) = line_of(alloc, state, time, name, payload) else {
        return Code::OutOfMemory;
    };
    fill(line.as_slice(), len, to);
    Code::Done
}

/// Makes the line that lists the event with this `time`, `name` and `payload` as open, for a text that replaces the
/// file's text. Sets `len` to the line's length in bytes, and fills `to` with as much of it as fits.
#[unsafe(no_mangle)]
pub extern "C" fn serf_agent_open_line(
    alloc: Global,
    time: u64,
    name: &[u8],
    payload: &[u8],
    len: &mut usize,
    to: &mut [u8],
) -> u32
    ensures { (code : Code) × (result ≡ number_of code)
        × WritesLine time (open_line time name.now payload.now)
        len.old len.new to.old to.new code }
{
    write(alloc, EventState::Open, time, name, payload, len, to).number()
}

/// Makes the line that records that the handler of the event with this `time`, `name` and `payload` has begun. Sets
/// `len` to the line's length in bytes, and fills `to` with as much of it as fits.
#[unsafe(no_mangle)]
pub extern "C" fn serf_agent_begun_line(
    alloc: Global,
    time: u64,
    name: &[u8],
    payload: &[u8],
    len: &mut usize,
    to: &mut [u8],
) -> u32
    ensures { (code : Code) × (result ≡ number_of code)
        × WritesLine time (begun_line time name.now payload.now)
        len.old len.new to.old to.new code }
{
    write(alloc, EventState::Begun, time, name, payload, len, to).number()
}

/// Makes the line that records that the event with this `time`, `name` and `payload` is done. Sets `len` to the line's
/// length in bytes, and fills `to` with as much of it as fits.
#[unsafe(no_mangle)]
pub extern "C" fn serf_agent_done_line(
    alloc: Global,
    time: u64,
    name: &[u8],
    payload: &[u8],
    len: &mut usize,
    to: &mut [u8],
) -> u32
    ensures { (code : Code) × (result ≡ number_of code)
        × WritesLine time (done_line time name.now payload.now)
        len.old len.new to.old to.new code }
{
    write(alloc, EventState::Done, time, name, payload, len, to).number()
}

/// Makes the line that records that all events of the lines above it are done, up to `time`. Sets `len` to the line's
/// length in bytes, and fills `to` with as much of it as fits.
#[unsafe(no_mangle)]
pub extern "C" fn serf_agent_done_up_to_line(
    alloc: Global,
    time: u64,
    len: &mut usize,
    to: &mut [u8],
) -> u32
    ensures { (code : Code) × (result ≡ number_of code)
        × WritesLine time (done_up_to_line time) len.old len.new to.old to.new code }
{
    write(alloc, EventState::DoneUpTo, time, b"", b"", len, to).number()
}
