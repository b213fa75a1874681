//! Lets C read the events that a text leaves open: those that were handed out and aren't done.

ghost use Rattle.std.specs.Prelude.{◌≡◌, ◌≢◌, ◌++◌, ◌∷◌, [], IfOk, OnOk};
ghost use Rattle.serf_snapshot.specs.Handlers.{open_events};
ghost use Rattle.serf_agent_c.specs.Codes.{number_of};
ghost use Rattle.serf_agent_c.specs.OpenEvents.{open_event_head, open_event_heads, open_event_text, open_event_texts, open_events_head};
ghost use Rattle.serf_agent_c.specs.Texts.{copied};

use crate::code::Code;
use crate::copies::copy_into;
use serf_snapshot::{OpenEvent, is_tracked, read_open_events};
use std::alloc::{AllocError, Global};

/// The number of events that a text leaves open, the total length of their names and payloads in bytes, and whether the
/// text records what became of handlers.
#[repr(C)]
#[derive(Clone, Copy)]
pub struct OpenEventsHead {
    pub events: usize,
    pub texts_len: usize,
    pub tracked: bool,
}

/// An open event, apart from its texts: its time, the lengths of its name and its payload in bytes, and whether its
/// handler has begun.
#[repr(C)]
#[derive(Clone, Copy)]
pub struct OpenEventHead {
    pub time: u64,
    pub name_len: usize,
    pub payload_len: usize,
    pub begun: bool,
}

/// Makes the struct that C reads for `entry`. It doesn't contain the event's texts.
fn head_of(entry: &OpenEvent) -> OpenEventHead
    ensures { result ≡ open_event_head entry.now }
{
    OpenEventHead {
        time: entry.event.time().get(),
        name_len: entry.event.name().len(),
        payload_len: entry.event.payload().len(),
        begun: entry.has_begun,
    }
}

/// Appends `head`, the struct of an open event, to `out`.
fn write_head(out: &mut Vec<OpenEventHead>, head: OpenEventHead) -> Result<(), AllocError>
    ensures { OnOk result (out.new.items ≡ out.old.items ++ head ∷ []) }
{
    out.push(head)?;
    Ok(())
}

/// The heads of `events`, in order.
fn heads_of(alloc: Global, events: &[OpenEvent]) -> Result<Vec<OpenEventHead>, AllocError>
    ensures { IfOk result (λ heads. heads.items ≡ open_event_heads events.now) }
{
    let mut heads = Vec::new(alloc);
    for entry in events {
        write_head(&mut heads, head_of(entry))?;
    }
    Ok(heads)
}

/// Appends the name of `entry`, and then its payload.
fn write_event_texts(out: &mut Vec<u8>, entry: &OpenEvent) -> Result<(), AllocError>
    ensures { OnOk result (out.new.items ≡ out.old.items ++ open_event_text entry.now) }
{
    out.extend_from_slice(entry.event.name())?;
    out.extend_from_slice(entry.event.payload())
}

/// The names and payloads of `events`, one event after another.
fn texts_of(alloc: Global, events: &[OpenEvent]) -> Result<Vec<u8>, AllocError>
    ensures { IfOk result (λ texts. texts.items ≡ open_event_texts events.now) }
{
    let mut texts = Vec::new(alloc);
    for entry in events {
        write_event_texts(&mut texts, entry)?;
    }
    Ok(texts)
}

/// The heads of the events that `text` leaves open, and their names and payloads.
fn heads_and_texts(alloc: Global, text: &[u8]) -> Result<(Vec<OpenEventHead>, Vec<u8>), AllocError>
    ensures { IfOk result (λ r. (r.0.items ≡ open_event_heads (open_events text.now))
        × (r.1.items ≡ open_event_texts (open_events text.now))) }
{
    let found = read_open_events(alloc, text)?;
    let heads = heads_of(alloc, found.as_slice())?;
    let texts = texts_of(alloc, found.as_slice())?;
    Ok((heads, texts))
}

/// Fills `all`, `events` and `texts` with the events that `text` leaves open (see `serf_agent_open_events`).
fn read(
    alloc: Global,
    text: &[u8],
    all: &mut OpenEventsHead,
    events: &mut [OpenEventHead],
    texts: &mut [u8],
) -> Code
    ensures memory { result ≢ Code.Done → result ≡ Code.OutOfMemory }
    ensures reads { result ≡ Code.Done → (all.new ≡ open_events_head text.now)
        × (events.new ≡ copied (open_event_heads (open_events text.now)) events.old)
        × (texts.new ≡ copied (open_event_texts (open_events text.now)) texts.old) }
    ensures same { result ≢ Code.Done
        → (all.new ≡ all.old) × (events.new ≡ events.old) × (texts.new ≡ texts.old) }
{
    let Ok((heads, all_texts)) = heads_and_texts(alloc, text) else {
        return Code::OutOfMemory;
    };
    *all = OpenEventsHead {
        events: heads.len(),
        texts_len: all_texts.len(),
        tracked: is_tracked(text),
    };
    copy_into(events, heads.as_slice());
    copy_into(texts, all_texts.as_slice());
    Code::Done
}

/// Reads the events that `text` leaves open. Fills `all` with their number, with the total length of their texts, and
/// with whether the text records what became of handlers. Fills `events` with as many of these events as fit, in the
/// order in which they were handed out, and `texts` with as much of their names and payloads as fits, one event after
/// another.
#[unsafe(no_mangle)]
pub extern "C" fn serf_agent_open_events(
    alloc: Global,
    text: &[u8],
    all: &mut OpenEventsHead,
    events: &mut [OpenEventHead],
    texts: &mut [u8],
) -> u32
    ensures { (code : Code) × (result ≡ number_of code)
        × (code ≢ Code.Done → code ≡ Code.OutOfMemory)
        × (code ≡ Code.Done → (all.new ≡ open_events_head text.now)
        × (events.new ≡ copied (open_event_heads (open_events text.now)) events.old)
        × (texts.new ≡ copied (open_event_texts (open_events text.now)) texts.old))
        × (code ≢ Code.Done
        → (all.new ≡ all.old) × (events.new ≡ events.old) × (texts.new ≡ texts.old)) }
{
    read(alloc, text, all, events, texts).number()
}
