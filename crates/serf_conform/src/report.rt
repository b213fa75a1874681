//! Writes the report on the compared agents as one JSON object per line, for other programs to read.

ghost use Rattle.std.specs.Prelude.{◌≡◌, ◌++◌, ◌<◌, OnOk};
ghost use Rattle.std.specs.List.{flat_map};
ghost use Rattle.std.specs.Option.{option_copied};
ghost use Rattle.serf_conform.specs.Report.{disagreement_text, hex_digit as hex_digit_of, json_byte, json_text, kind_member, kind_text, name_text, object_text, seed_text, sums_text};
ghost use Rattle.serf_conform.specs.ReportMembers.{member_text};

use serf_text::write_number;
use std::alloc::AllocError;

/// The call at which an agent differed from the reference or ended.
#[derive(Clone, Copy)]
pub struct Disagreement<'a> {
    /// The seed of the schedule, or `None` if the schedule was read from a file.
    pub seed: Option<u64>,
    /// The name of the schedule's kind if schedules of several kinds are compared, and otherwise `None`.
    pub kind: Option<&'a [u8]>,
    /// The agent's number.
    pub agent: u64,
    /// The number of the agent's calls that agreed before this call.
    pub agreed: u64,
    /// The number of the action, counted from 1, or 0 for the opening.
    pub action: u64,
    /// The number of the line in the schedule, counted from 1, or 0 for the opening.
    pub line: u64,
    /// The line of the call, without its newline.
    pub call: &'a [u8],
    /// The lines of the expected reply, with newlines between them.
    pub wanted: &'a [u8],
    /// The lines of the reply that was read, or nothing if the agent ended.
    pub got: &'a [u8],
    /// Whether the agent ended instead of replying.
    pub has_ended: bool,
}

/// The sums over all agents that were compared.
#[derive(Clone, Copy)]
pub struct Sums {
    /// The number of seeds whose schedules were compared to the end, or 1 if the schedule was read from a file.
    pub schedules: u64,
    /// The number of calls whose replies agree.
    pub calls: u64,
    /// The number of agents that differed from the reference or ended.
    pub disagreements: u64,
    /// The exit status of the command.
    pub status: u64,
}

/// A member of a JSON object, with its name and its value.
#[derive(Clone, Copy)]
pub(crate) enum Member<'a> {
    Number(&'a [u8], u64),
    Text(&'a [u8], &'a [u8]),
    Null(&'a [u8]),
    /// The object doesn't have this member.
    Absent,
}

/// Returns the ASCII code of the hex digit `digit`, in lower case.
fn hex_digit(digit: u8) -> u8
    requires { digit < 16 }
    ensures { result ≡ hex_digit_of digit }
{
    if digit < 10 { 48 + digit } else { 87 + digit }
}

/// Appends `byte` as it is written in a JSON string. A quote or a backslash is preceded by a backslash, and a byte that
/// isn't printable ASCII is written as `\u00` followed by two hex digits.
fn write_json_byte(out: &mut Vec<u8>, byte: u8) -> Result<(), AllocError>
    ensures { OnOk result (out.new.items ≡ out.old.items ++ json_byte byte) }
{
    if byte == b'"' || byte == b'\\' {
        out.extend_from_slice(&[b'\\', byte])
    } else if byte < 32 || 126 < byte {
        let (high, low) = (hex_digit(byte / 16), hex_digit(byte % 16));
        out.extend_from_slice(&[b'\\', b'u', b'0', b'0', high, low])
    } else {
        out.extend_from_slice(&[byte])
    }
}

/// Appends `text` in quotes, as a JSON string.
fn write_json_text(out: &mut Vec<u8>, text: &[u8]) -> Result<(), AllocError>
    ensures { OnOk result (out.new.items ≡ out.old.items ++ json_text text.now) }
{
    out.extend_from_slice(b"\"")?;
    for byte in text {
        write_json_byte(out, *byte)?;
    }
    out.extend_from_slice(b"\"")
}

/// Appends a comma, the name of a member in quotes, and a colon.
fn write_name(out: &mut Vec<u8>, name: &[u8]) -> Result<(), AllocError>
    ensures { OnOk result (out.new.items ≡ out.old.items ++ name_text name.now) }
{
    out.extend_from_slice(b",\"")?;
    out.extend_from_slice(name)?;
    out.extend_from_slice(b"\":")
}

/// Appends a comma, followed by the name and the value of `member`. If the member is absent, appends nothing.
fn write_member(out: &mut Vec<u8>, member: Member) -> Result<(), AllocError>
    ensures { OnOk result (out.new.items ≡ out.old.items ++ member_text member.entry) }
{
    match member {
        Member::Number(name, number) => {
            write_name(out, name)?;
            write_number(out, number)
        }
        Member::Text(name, text) => {
            write_name(out, name)?;
            write_json_text(out, text)
        }
        Member::Null(name) => {
            write_name(out, name)?;
            out.extend_from_slice(b"null")
        }
        Member::Absent => Ok(()),
    }
}

/// Appends a line that contains a JSON object of the kind `kind` with the members in `members`.
fn write_object(out: &mut Vec<u8>, kind: &[u8], members: &[Member]) -> Result<(), AllocError>
    ensures { OnOk result (out.new.items ≡ out.old.items
        ++ object_text kind.now (flat_map member_text members.now)) }
{
    out.extend_from_slice(b"{\"report\":")?;
    write_json_text(out, kind)?;
    for member in members {
        write_member(out, *member)?;
    }
    out.extend_from_slice(b"}\n")
}

/// Returns the member `seed`, whose value is null if the schedule was read from a file.
fn seed_in<'a>(seed: Option<u64>) -> Member<'a>
    ensures { member_text result ≡ seed_text seed }
{
    match seed {
        Some(seed) => Member::Number(b"seed", seed),
        None => Member::Null(b"seed"),
    }
}

/// Returns the member `kind`, which is absent if there is no kind to report.
fn kind_in<'a>(kind: Option<&'a [u8]>) -> Member<'a>
    ensures { member_text result ≡ kind_member (option_copied kind.entry) }
{
    match kind {
        Some(kind) => Member::Text(b"kind", kind),
        None => Member::Absent,
    }
}

/// Returns the kind of the object that reports a disagreement: `ended` if the agent ended, and `differs` if it replied
/// differently.
fn kind_of(has_ended: bool) -> &'static [u8]
    ensures { result.now ≡ kind_text has_ended }
{
    if has_ended { b"ended" } else { b"differs" }
}

/// Appends the line that reports a disagreement: a JSON object with the members `report` (`differs` or `ended`),
/// `seed`, `kind` (only if there is one), `agent`, `agreed`, `action`, `line`, `call`, `wanted` and `got`. If memory
/// runs out (`AllocError`), only a part of the line may have been appended to `out`.
#[tactic(auto, unfolding(crate::specs::Report::disagreement_text))]
pub fn write_disagreement(out: &mut Vec<u8>, told: &Disagreement) -> Result<(), AllocError>
    ensures { OnOk result (out.new.items ≡ out.old.items ++ disagreement_text told.now) }
{
    let members = [
        seed_in(told.seed),
        kind_in(told.kind),
        Member::Number(b"agent", told.agent),
        Member::Number(b"agreed", told.agreed),
        Member::Number(b"action", told.action),
        Member::Number(b"line", told.line),
        Member::Text(b"call", told.call),
        Member::Text(b"wanted", told.wanted),
        Member::Text(b"got", told.got),
    ];
    write_object(out, kind_of(told.has_ended), &members)
}

/// Appends the line that ends a report: a JSON object with the members `report` (`end`), `schedules`, `calls`,
/// `disagreements` and `status`. If memory runs out (`AllocError`), only a part of the line may have been appended to
/// `out`.
#[tactic(auto, unfolding(crate::specs::Report::sums_text))]
pub fn write_sums(out: &mut Vec<u8>, sums: &Sums) -> Result<(), AllocError>
    ensures { OnOk result (out.new.items ≡ out.old.items ++ sums_text sums.now) }
{
    let members = [
        Member::Number(b"schedules", sums.schedules),
        Member::Number(b"calls", sums.calls),
        Member::Number(b"disagreements", sums.disagreements),
        Member::Number(b"status", sums.status),
    ];
    write_object(out, b"end", &members)
}
