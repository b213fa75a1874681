//! Lets C read the members that a push/pull's packet lists. The agent keeps no members, but a host may.

ghost use Rattle.std.specs.Prelude.{◌≡◌, ◌≢◌, ◌++◌, ◌∷◌, [], map, IfOk, OnOk};
ghost use Rattle.std.specs.List.{flat_map};
ghost use Rattle.std.specs.Option.{option_map};
ghost use Rattle.serf_wire.specs.Decoded.{decoded};
ghost use Rattle.serf_wire.specs.Lists.{status_left, status_of, texts_left};
ghost use Rattle.serf_wire.specs.Message.{message_of};
ghost use Rattle.serf_agent_c.specs.Codes.{number_of};
ghost use Rattle.serf_agent_c.specs.Texts.{copied};
ghost use Rattle.serf_agent_c.specs.Written.{ReadsMembers, left_head, member_heads, member_names, members_head, members_in, members_borrowed, members_of, status_head};

use crate::code::Code;
use crate::copies::copy_into;
use serf_wire::{Message, StatusTimes, Texts, decode};
use std::alloc::{AllocError, Global};

/// A member in a push/pull: one that left, or one with the time of its status by the member clock.
#[repr(C)]
#[derive(Clone, Copy)]
pub struct MemberHead {
    pub status_time: u64,
    pub name_len: usize,
    pub left: bool,
}

/// The member clock of a push/pull's sender, how many members the push/pull lists, and the total length of their names
/// in bytes.
#[repr(C)]
#[derive(Clone, Copy)]
pub struct MembersHead {
    pub member_clock: u64,
    pub members: usize,
    pub names_len: usize,
}

/// The members in a push/pull, borrowed from its packet: the sender's member clock, the members with a status time, and
/// those that left.
#[derive(Clone, Copy)]
pub struct BorrowedMembers<'a> {
    clock: u64,
    status: StatusTimes<'a>,
    left: Texts<'a>,
}

/// The members in `message`, if it is a push/pull.
fn members_of<'a>(message: &Message<'a>) -> Option<BorrowedMembers<'a>>
    ensures { option_map members_borrowed result ≡ members_of (message_of message.now) }
{
    match *message {
        Message::PushPull(state) => Some(BorrowedMembers {
            clock: state.member_clock,
            status: state.status,
            left: state.left,
        }),
        _ => None,
    }
}

/// The members in `packet`, if it is a push/pull; `None` if it is another message, or not a message.
fn borrowed_members(packet: &[u8]) -> Option<BorrowedMembers<'_>>
    ensures { option_map members_borrowed result ≡ members_in (decoded packet.now) }
{
    match decode(packet) {
        Ok(message) => members_of(&message),
        Err(_) => None,
    }
}

/// Appends `head`, the struct of a member, to `out`.
fn write_head(out: &mut Vec<MemberHead>, head: MemberHead) -> Result<(), AllocError>
    ensures { OnOk result (out.new.items ≡ out.old.items ++ head ∷ []) }
{
    out.push(head)?;
    Ok(())
}

/// Appends the heads of the members in `status`, each with its status time.
fn write_status_heads(out: &mut Vec<MemberHead>, status: StatusTimes) -> Result<(), AllocError>
    ensures { OnOk result (out.new.items ≡ out.old.items
        ++ map status_head (status_left status.entry)) }
{
    for entry in status {
        write_head(
            out,
            MemberHead {
                status_time: entry.time,
                name_len: entry.name.len(),
                left: false,
            },
        )?;
    }
    Ok(())
}

/// Appends the heads of the members that left. `left` has their names.
fn write_left_heads(out: &mut Vec<MemberHead>, left: Texts) -> Result<(), AllocError>
    ensures { OnOk result (out.new.items ≡ out.old.items ++ map left_head (texts_left left.entry)) }
{
    for name in left {
        write_head(
            out,
            MemberHead {
                status_time: 0,
                name_len: name.len(),
                left: true,
            },
        )?;
    }
    Ok(())
}

/// Appends the names of the members in `status`, one after another.
fn write_status_names(out: &mut Vec<u8>, status: StatusTimes) -> Result<(), AllocError>
    ensures { OnOk result (out.new.items ≡ out.old.items
        ++ flat_map (λ p. p.0) (status_left status.entry)) }
{
    for entry in status {
        out.extend_from_slice(entry.name)?;
    }
    Ok(())
}

/// Appends the bytes of `texts`, one text after another.
pub(crate) fn write_texts(out: &mut Vec<u8>, texts: Texts) -> Result<(), AllocError>
    ensures { OnOk result (out.new.items ≡ out.old.items
        ++ flat_map (λ text. text) (texts_left texts.entry)) }
{
    for text in texts {
        out.extend_from_slice(text)?;
    }
    Ok(())
}

/// The heads of the members in `borrowed`: first those with a status time, then those that left.
fn heads_of(alloc: Global, borrowed: &BorrowedMembers) -> Result<Vec<MemberHead>, AllocError>
    ensures { IfOk result (λ heads. heads.items ≡ member_heads (members_borrowed borrowed.now)) }
{
    let mut heads = Vec::new(alloc);
    write_status_heads(&mut heads, borrowed.status)?;
    write_left_heads(&mut heads, borrowed.left)?;
    Ok(heads)
}

/// The names of the members in `borrowed`, one after another, in the order of their heads.
fn names_of(alloc: Global, borrowed: &BorrowedMembers) -> Result<Vec<u8>, AllocError>
    ensures { IfOk result (λ names. names.items ≡ member_names (members_borrowed borrowed.now)) }
{
    let mut names = Vec::new(alloc);
    write_status_names(&mut names, borrowed.status)?;
    write_texts(&mut names, borrowed.left)?;
    Ok(names)
}

/// If `packet` is a push/pull, fills `all`, `members` and `names` with the members in it.
fn read_members(
    alloc: Global,
    packet: &[u8],
    all: &mut MembersHead,
    members: &mut [MemberHead],
    names: &mut [u8],
) -> Code
    ensures reads { ReadsMembers (members_in (decoded packet.now))
        (λ m. (all.new ≡ members_head m) × (members.new ≡ copied (member_heads m) members.old)
        × (names.new ≡ copied (member_names m) names.old)) result }
    ensures same { result ≢ Code.Done
        → (all.new ≡ all.old) × (members.new ≡ members.old) × (names.new ≡ names.old) }
{
    let Some(borrowed) = borrowed_members(packet) else {
        return Code::Nothing;
    };
    let Ok(heads) = heads_of(alloc, &borrowed) else {
        return Code::OutOfMemory;
    };
    let Ok(all_names) = names_of(alloc, &borrowed) else {
        return Code::OutOfMemory;
    };
    *all = MembersHead {
        member_clock: borrowed.clock,
        members: heads.len(),
        names_len: all_names.len(),
    };
    copy_into(members, heads.as_slice());
    copy_into(names, all_names.as_slice());
    Code::Done
}

/// Reads the members in `packet`, a push/pull. Fills `all` with the sender's member clock, the number of members, and
/// the total length of their names. Fills `members` with as many of the members as fit, those with a status time first,
/// and `names` with as much of their names as fits, one after another. If the packet is not a push/pull, the code is
/// `NOTHING`.
#[unsafe(no_mangle)]
pub extern "C" fn serf_agent_state_members(
    alloc: Global,
    packet: &[u8],
    all: &mut MembersHead,
    members: &mut [MemberHead],
    names: &mut [u8],
) -> u32
    ensures { (code : Code) × (result ≡ number_of code)
        × ReadsMembers (members_in (decoded packet.now))
        (λ m. (all.new ≡ members_head m) × (members.new ≡ copied (member_heads m) members.old)
        × (names.new ≡ copied (member_names m) names.old)) code
        × (code ≢ Code.Done
        → (all.new ≡ all.old) × (members.new ≡ members.old) × (names.new ≡ names.old)) }
{
    read_members(alloc, packet, all, members, names).number()
}
