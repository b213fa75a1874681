//! Writes the line that contains a reason, and the words that describe an event.

ghost use Rattle.std.specs.Prelude.{◌≡◌, ◌++◌, decimal, true, OnOk};
ghost use Rattle.serf_text.specs.Quoted.{stands};
ghost use Rattle.serf_window.specs.Texts.{event_of};
ghost use Rattle.serf_explain.specs.Because.{because_line};
ghost use Rattle.serf_explain.specs.Words.{event_words, standing_texts};

use serf_text::{write_number, write_printable, write_quoted};
use std::alloc::AllocError;

/// Appends the line that contains `reason`, a reason for action number `number`. The newline at the end is the only
/// control byte in the line.
#[tactic(auto, unfolding(crate::specs::Because::because_line))]
pub(crate) fn write_because(out: &mut Vec<u8>, number: u64, reason: &[u8]) -> Result<(), AllocError>
    ensures { OnOk result (out.new.items ≡ out.old.items ++ because_line number reason.now) }
{
    write_number(out, number)?;
    out.extend_from_slice(b" because ")?;
    write_printable(out, reason)?;
    out.extend_from_slice(b"\n")
}

/// Appends `text`, followed by `number`.
pub(crate) fn say(out: &mut Vec<u8>, text: &[u8], number: u64) -> Result<(), AllocError>
    ensures { OnOk result (out.new.items ≡ out.old.items ++ text.now ++ decimal number) }
{
    out.extend_from_slice(text)?;
    write_number(out, number)
}

/// Appends an event in the form `event 3 "deploy" "v2"`.
#[tactic(auto, unfolding(crate::specs::Words::event_words))]
pub(crate) fn write_event(
    out: &mut Vec<u8>,
    time: u64,
    name: &[u8],
    payload: &[u8],
) -> Result<(), AllocError>
    ensures { OnOk result (out.new.items ≡ out.old.items
        ++ event_words time (event_of name.now payload.now)) }
{
    say(out, b"event ", time)?;
    out.extend_from_slice(b" ")?;
    write_quoted(out, name)?;
    out.extend_from_slice(b" ")?;
    write_quoted(out, payload)
}

/// Appends `name` and `payload`, each in quotes, with every byte unchanged.
#[tactic(auto, unfolding(crate::specs::Words::standing_texts))]
fn write_standing_texts(out: &mut Vec<u8>, name: &[u8], payload: &[u8]) -> Result<(), AllocError>
    ensures { OnOk result (out.new.items ≡ out.old.items ++ standing_texts name.now payload.now) }
{
    out.extend_from_slice(b" \"")?;
    out.extend_from_slice(name)?;
    out.extend_from_slice(b"\" \"")?;
    out.extend_from_slice(payload)?;
    out.extend_from_slice(b"\"")
}

/// Appends an event in the form `event 3 "deploy" "v2"`. Both the name and the payload of the event are shown
/// unchanged.
pub(crate) fn write_unescaped_event(
    out: &mut Vec<u8>,
    time: u64,
    name: &[u8],
    payload: &[u8],
) -> Result<(), AllocError>
    requires name { stands name.now ≡ true }
    requires payload { stands payload.now ≡ true }
    ensures { OnOk result (out.new.items ≡ out.old.items
        ++ event_words time (event_of name.now payload.now)) }
{
    say(out, b"event ", time)?;
    write_standing_texts(out, name, payload)
}
