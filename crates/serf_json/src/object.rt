//! Appends objects, each on its own line.

ghost use Rattle.std.specs.Prelude.{◌≡◌, ◌++◌, OnOk};
ghost use Rattle.std.specs.List.{flat_map};
ghost use Rattle.serf_json.specs.Json.{bytes_member, hex_name, hex_string, json_string, name_start};
ghost use Rattle.serf_json.specs.Object.{end_text, head_text, member_text, members_text, object_text};

use crate::member::Member;
use crate::text::{flag_text, is_ascii, write_hex_text, write_number, write_numbers, write_text};
use std::alloc::AllocError;

/// Appends a comma, `name` in quotes, and a colon.
fn write_name(out: &mut Vec<u8>, name: &[u8]) -> Result<(), AllocError>
    ensures { OnOk result (out.new.items ≡ out.old.items ++ name_start name.now) }
{
    out.extend_from_slice(b",\"")?;
    out.extend_from_slice(name)?;
    out.extend_from_slice(b"\":")
}

/// Appends a comma, `name` followed by `_hex` in quotes, and a colon.
fn write_hex_name(out: &mut Vec<u8>, name: &[u8]) -> Result<(), AllocError>
    ensures { OnOk result (out.new.items ≡ out.old.items ++ hex_name name.now) }
{
    out.extend_from_slice(b",\"")?;
    out.extend_from_slice(name)?;
    out.extend_from_slice(b"_hex\":")
}

/// Appends a member whose value is `text`.
fn write_text_member(out: &mut Vec<u8>, name: &[u8], text: &[u8]) -> Result<(), AllocError>
    ensures { OnOk result (out.new.items ≡ out.old.items
        ++ (name_start name.now ++ json_string text.now)) }
{
    write_name(out, name)?;
    write_text(out, text)
}

/// Appends a member whose value is `bytes` in hex.
fn write_hex_member(out: &mut Vec<u8>, name: &[u8], bytes: &[u8]) -> Result<(), AllocError>
    ensures { OnOk result (out.new.items ≡ out.old.items
        ++ (hex_name name.now ++ hex_string bytes.now)) }
{
    write_hex_name(out, name)?;
    write_hex_text(out, bytes)
}

/// Appends the members for `bytes`: the text, only if all bytes are ASCII, and then the hex.
fn write_bytes_member(out: &mut Vec<u8>, name: &[u8], bytes: &[u8]) -> Result<(), AllocError>
    ensures { OnOk result (out.new.items ≡ out.old.items ++ bytes_member name.now bytes.now) }
{
    if is_ascii(bytes) {
        write_text_member(out, name, bytes)?;
    }
    write_hex_member(out, name, bytes)
}

/// Appends a comma, and a member's name and value. Appends nothing for a member that is absent.
fn write_member(out: &mut Vec<u8>, member: Member) -> Result<(), AllocError>
    ensures { OnOk result (out.new.items ≡ out.old.items ++ member_text member.entry) }
{
    match member {
        Member::Number(name, number) => {
            write_name(out, name)?;
            write_number(out, number)
        }
        Member::Numbers(name, numbers) => {
            write_name(out, name)?;
            write_numbers(out, numbers)
        }
        Member::Flag(name, flag) => {
            write_name(out, name)?;
            out.extend_from_slice(flag_text(flag))
        }
        Member::Text(name, text) => write_text_member(out, name, text),
        Member::Bytes(name, bytes) => write_bytes_member(out, name, bytes),
        Member::Hex(name, bytes) => write_hex_member(out, name, bytes),
        Member::Null(name) => {
            write_name(out, name)?;
            out.extend_from_slice(b"null")
        }
        Member::Absent => Ok(()),
    }
}

/// Appends each of `members`.
#[tactic(auto, unfolding(crate::specs::Object::members_text))]
fn write_members(out: &mut Vec<u8>, members: &[Member]) -> Result<(), AllocError>
    ensures { OnOk result (out.new.items ≡ out.old.items ++ members_text members.now) }
{
    for member in members {
        write_member(out, *member)?;
    }
    Ok(())
}

/// Appends the beginning of an object, which contains the version and the kind `kind`.
#[tactic(auto, unfolding(crate::specs::Object::head_text))]
fn write_head(out: &mut Vec<u8>, kind: &[u8]) -> Result<(), AllocError>
    ensures { OnOk result (out.new.items ≡ out.old.items ++ head_text kind.now) }
{
    out.extend_from_slice(b"{\"version\":1,\"kind\":")?;
    write_text(out, kind)
}

/// Appends the end of an object.
#[tactic(auto, unfolding(crate::specs::Object::end_text))]
fn write_end(out: &mut Vec<u8>) -> Result<(), AllocError>
    ensures { OnOk result (out.new.items ≡ out.old.items ++ end_text) }
{
    out.extend_from_slice(b"}\n")
}

/// Appends a line with an object, which contains the version, the kind `kind`, and these members. If memory runs out,
/// the call returns an `AllocError`, and `out` may then end in a part of the line.
pub fn write_object(out: &mut Vec<u8>, kind: &[u8], members: &[Member]) -> Result<(), AllocError>
    ensures { OnOk result (out.new.items ≡ out.old.items
        ++ object_text kind.now (members_text members.now)) }
{
    write_head(out, kind)?;
    write_members(out, members)?;
    write_end(out)
}

/// Appends a line with an object, as [`write_object`] does, with the members of both lists.
pub fn write_joined(
    out: &mut Vec<u8>,
    kind: &[u8],
    first: &[Member],
    rest: &[Member],
) -> Result<(), AllocError>
    ensures { OnOk result (out.new.items ≡ out.old.items
        ++ object_text kind.now (members_text first.now ++ members_text rest.now)) }
{
    write_head(out, kind)?;
    write_members(out, first)?;
    write_members(out, rest)?;
    write_end(out)
}
