//! The members that the host adds for the next state, and the packet of the state that names them.

ghost use Rattle.std.specs.Prelude.{◌≡◌, ◌≢◌, ◌++◌, ◌∷◌, [], map, Err, IfOk, OnOk, OnErr};
ghost use Rattle.serf_wire.specs.Lists.{status_of};
ghost use Rattle.serf_agent.specs.States.{send_state};
ghost use Rattle.serf_agent_c.specs.Calls.{Waits};
ghost use Rattle.serf_agent_c.specs.Members.{AddsLeft, AddsStatus, named};
ghost use Rattle.serf_agent_c.specs.Sessions.{KeepsBurst, KeepsFilters, KeepsMembers};

use crate::code::Code;
use crate::session::Session;
use serf_agent::{BytesList, PushPullError};
use serf_wire::{Bytes, StatusTime};
use std::alloc::{AllocError, Global};

/// A member, and the time of its status by the member clock.
#[derive(Drop)]
pub struct Member {
    pub(crate) name: Bytes,
    pub(crate) time: u64,
}

/// Appends `member`, or changes nothing if there is no memory for it.
fn add_member(members: &mut Vec<Member>, member: Member) -> Result<(), AllocError>
    ensures ok { OnOk result (members.new.items ≡ members.old.items ++ member ∷ []) }
    ensures err { OnErr result (members.new.items ≡ members.old.items) }
{
    members.push(member)?;
    Ok(())
}

/// Borrows the names and the status times of `members`, in order.
fn borrow_status<'a>(
    alloc: Global,
    members: &'a [Member],
) -> Result<Vec<StatusTime<'a>>, AllocError>
    ensures { IfOk result (λ borrowed. map status_of borrowed.items ≡ map named members.now) }
{
    let mut borrowed = Vec::new(alloc);
    for member in members {
        let status = StatusTime {
            name: member.name.as_slice(),
            time: member.time,
        };
        borrowed.push(status)?;
    }
    Ok(borrowed)
}

/// Borrows the bytes of `names`, in order.
fn borrow_names<'a>(alloc: Global, names: &'a [Bytes]) -> Result<Vec<&'a [u8]>, AllocError>
    ensures { IfOk result (λ borrowed. map (λ t. t.now) borrowed.items ≡ names.now) }
{
    let mut borrowed = Vec::new(alloc);
    for name in names {
        borrowed.push(name.as_slice())?;
    }
    Ok(borrowed)
}

impl Session {
    /// Adds the member `name` to the next state, with the `time` of its status. The code is `Pending` while bytes are
    /// pending for the host's file.
    pub(crate) fn add_status(&mut self, alloc: Global, name: &[u8], time: u64) -> Code
        ensures waits { Waits self.old self.new result }
        ensures adds { AddsStatus name.now time self.old self.new result }
    {
        if !self.is_ready() {
            return Code::Pending;
        }
        let Ok(name) = Bytes::copy_of(alloc, name) else {
            return Code::OutOfMemory;
        };
        match add_member(&mut self.status, Member { name, time }) {
            Ok(()) => Code::Done,
            Err(_) => Code::OutOfMemory,
        }
    }

    /// Adds the member `name` to the members that the next state lists as left. The code is `Pending` while bytes are
    /// pending for the host's file.
    pub(crate) fn add_left(&mut self, alloc: Global, name: &[u8]) -> Code
        ensures waits { Waits self.old self.new result }
        ensures adds { AddsLeft name.now self.old self.new result }
    {
        if !self.is_ready() {
            return Code::Pending;
        }
        let Ok(name) = Bytes::copy_of(alloc, name) else {
            return Code::OutOfMemory;
        };
        match self.left.push(name) {
            Ok(()) => Code::Done,
            Err(_) => Code::OutOfMemory,
        }
    }

    /// Makes the push/pull packet with the agent's whole state, and with the members that the host added for it.
    pub(crate) fn state(&self, alloc: Global) -> Result<Bytes, PushPullError>
        ensures { result ≢ Err PushPullError.OutOfMemory → result
            ≡ send_state self.now.agent.concrete (map named self.now.status.items) self.now.left }
    {
        let Ok(status) = borrow_status(alloc, self.status.as_slice()) else {
            return Err(PushPullError::OutOfMemory);
        };
        let Ok(left) = borrow_names(alloc, self.left.as_slice()) else {
            return Err(PushPullError::OutOfMemory);
        };
        self.agent
            .local_state(alloc, status.as_slice(), left.as_slice())
    }

    /// Forgets the members that the host added, after a call has tried to make a state with them. If memory ran out
    /// (`code`), they stay.
    pub(crate) fn forget_members(&mut self, alloc: Global, code: Code)
        ensures kept { code ≡ Code.OutOfMemory → KeepsMembers self.old self.new }
        ensures forgotten { code ≢ Code.OutOfMemory
            → (self.new.status.items ≡ []) × (self.new.left ≡ []) }
        ensures rest { (self.new.agent ≡ self.old.agent)
            × (self.new.call_result ≡ self.old.call_result)
            × (self.new.written ≡ self.old.written) × (self.new.replaces ≡ self.old.replaces)
            × (self.new.waiting ≡ self.old.waiting) × KeepsFilters self.old self.new
            × KeepsBurst self.old self.new }
    {
        match code {
            Code::OutOfMemory => {}
            _ => {
                self.status = Vec::new(alloc);
                self.left = BytesList::new(alloc);
            }
        }
    }
}
