//! Writes a picture as a sequence diagram in Mermaid's language.

ghost use Rattle.std.specs.Prelude.{◌≡◌, ◌++◌, ◌==◌, ℕ, List, IfOk, OnOk, true};
ghost use Rattle.std.specs.List.{flat_map, list_all, list_any};
ghost use Rattle.serf_draw.specs.Mermaid.{arrow_word as word_of, coded, coded_byte, is_coded, is_plain as is_plain_byte, mermaid_of, message_line, note_line, participant, participant_line, row_line};

use crate::filled::{PicturePart, write_between, write_each, write_each_with_lanes};
use crate::label::short_name;
use crate::picture::{Arrow, Lane, Picture, Row, Tone};
use serf_text::write_template;
use std::alloc::{AllocError, Global};

/// Returns whether `byte` is a letter, a digit, a space, a full stop, an `@` or a `_`.
fn is_plain(byte: u8) -> bool
    ensures { result ≡ is_plain_byte byte }
{
    (97 <= byte && byte <= 122)
        || (65 <= byte && byte <= 90)
        || (48 <= byte && byte <= 57)
        || byte == b' '
        || byte == b'.'
        || byte == b'@'
        || byte == b'_'
}

/// Appends `byte` unchanged if it is plain, and as an entity code otherwise.
#[tactic(auto, unfolding(crate::specs::Svg::between))]
fn write_coded_byte(out: &mut Vec<u8>, byte: &u8) -> Result<(), AllocError>
    ensures { OnOk result (out.new.items ≡ out.old.items ++ coded_byte byte.now) }
{
    let byte = *byte;
    if is_plain(byte) {
        out.extend_from_slice(&[byte])
    } else if 32 <= byte && byte <= 126 {
        write_between(out, b"#", u64::from(byte), b";")
    } else {
        out.extend_from_slice(b"#65533;")
    }
}

/// Codes `text` for Mermaid, and appends the result.
pub(crate) fn write_coded(out: &mut Vec<u8>, text: &[u8]) -> Result<(), AllocError>
    ensures { OnOk result (out.new.items ≡ out.old.items ++ coded text.now) }
{
    write_each(out, text, write_coded_byte)
}

/// States that a coded text contains only letters, digits, spaces, full stops, `@`, `_`, `#` and `;`, and therefore no
/// line break, no `%`, no `:` and no `-`. By definition, each `#` and each `;` in a coded text belongs to an entity
/// code. This function does nothing; its contract is the law.
#[tactic(auto, using(crate::proofs::CodedLemmas::all_coded))]
pub fn coded_laws()
    ensures coded { (text : List ℕ) → list_all is_coded (coded text) ≡ true }
{}

/// Returns whether agent number `agent` has a lane in `lanes`.
fn has_lane(lanes: &[Lane], agent: u64) -> bool
    ensures { result ≡ list_any (λ l. l.agent == agent) lanes.now }
{
    lanes.iter().any(|lane| lane.agent == agent)
}

/// Appends the participant of an agent. An agent with a lane in `lanes` has the participant of this lane, and any other
/// agent has the participant `outside`.
#[tactic(auto, unfolding(crate::specs::Svg::between))]
pub(crate) fn write_participant(
    out: &mut Vec<u8>,
    lanes: &[Lane],
    agent: Option<u64>,
) -> Result<(), AllocError>
    ensures { OnOk result (out.new.items ≡ out.old.items ++ participant lanes.now agent) }
{
    match agent {
        Some(agent) if has_lane(lanes, agent) => write_between(out, b"a", agent, b""),
        _ => out.extend_from_slice(b"outside"),
    }
}

/// Appends the line that names a lane.
#[tactic(auto, unfolding(crate::specs::Mermaid::participant_line, crate::specs::Svg::between))]
fn write_participant_line(alloc: Global, out: &mut Vec<u8>, lane: &Lane) -> Result<(), AllocError>
    ensures { OnOk result (out.new.items ≡ out.old.items ++ participant_line lane.now) }
{
    let number = PicturePart::Number(lane.agent);
    let name = short_name(alloc, lane.name.as_slice())?;
    let parts = [number, number, PicturePart::Coded(&name)];
    write_template(out, b"participant a~ as ~ ~\n", &parts)
}

/// Returns the arrow that Mermaid draws for a tone.
fn arrow_word(tone: Tone) -> &'static [u8]
    ensures { result.now ≡ word_of tone }
{
    match tone {
        Tone::Taken => b"->>",
        Tone::Ignored => b"-->>",
        Tone::Refused => b"-x",
    }
}

/// Appends the arrow of `row`, together with the row's label. The arrow begins at agent number `sender`.
#[tactic(auto, unfolding(crate::specs::Mermaid::message_line, crate::specs::Mermaid::words_of, crate::specs::Svg::between))]
fn write_message<'a>(
    out: &mut Vec<u8>,
    lanes: &'a [Lane],
    row: &'a Row,
    sender: Option<u64>,
) -> Result<(), AllocError>
    ensures { OnOk result (out.new.items ≡ out.old.items ++ message_line lanes.now row.now sender) }
{
    let parts = [
        PicturePart::Participant(lanes, sender),
        PicturePart::Text(arrow_word(row.tone)),
        PicturePart::Participant(lanes, row.agent),
        PicturePart::Number(row.action),
        PicturePart::Coded(row.label.as_slice()),
    ];
    write_template(out, b"~~~: ~ ~\n", &parts)
}

/// Appends the label of `row` as a note over the lane of the row's agent.
#[tactic(auto, unfolding(crate::specs::Mermaid::note_line, crate::specs::Mermaid::words_of, crate::specs::Svg::between))]
fn write_note<'a>(out: &mut Vec<u8>, lanes: &'a [Lane], row: &'a Row) -> Result<(), AllocError>
    ensures { OnOk result (out.new.items ≡ out.old.items ++ note_line lanes.now row.now) }
{
    let parts = [
        PicturePart::Participant(lanes, row.agent),
        PicturePart::Number(row.action),
        PicturePart::Coded(row.label.as_slice()),
    ];
    write_template(out, b"Note over ~: ~ ~\n", &parts)
}

/// Appends the line for `row`, which is either a note or a message.
fn write_row_line(out: &mut Vec<u8>, lanes: &[Lane], row: &Row) -> Result<(), AllocError>
    ensures { OnOk result (out.new.items ≡ out.old.items ++ row_line lanes.now row.now) }
{
    match row.arrow {
        Arrow::NoPacket => write_note(out, lanes, row),
        Arrow::Unsent => write_message(out, lanes, row, None),
        Arrow::From(sender) => write_message(out, lanes, row, sender.agent),
    }
}

/// Returns a picture as the text of a sequence diagram in Mermaid's language. The diagram contains a participant for
/// each lane. For each packet that is passed to an agent, the diagram contains a message from the packet's sender, and
/// for each other action, a note. The diagram doesn't show packets that no agent received.
///
/// Names and labels are coded, so that no byte in a name or a label can be mistaken for Mermaid's language. The
/// function returns an `AllocError` only if there isn't enough memory for the text.
#[tactic(auto, unfolding(crate::specs::Mermaid::mermaid_of))]
pub fn mermaid_text(alloc: Global, picture: &Picture) -> Result<Vec<u8>, AllocError>
    ensures { IfOk result (λ text. text.items ≡ mermaid_of picture.now) }
{
    let mut out = Vec::new(alloc);
    let lanes = picture.lanes.as_slice();
    let rows = picture.rows.as_slice();
    out.extend_from_slice(b"sequenceDiagram\n")?;
    write_each(
        &mut out,
        lanes,
        |out, lane| write_participant_line(alloc, out, lane),
    )?;
    write_each_with_lanes(&mut out, lanes, rows, write_row_line)?;
    Ok(out)
}
