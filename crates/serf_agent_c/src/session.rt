//! The session of a handle: an agent, the result of its last call, and a record of the bytes that are pending for the
//! host's file.

ghost use Rattle.std.specs.Prelude.{◌≡◌, false, true, length, Err, IsOk, None, OnOk, OnErr};
ghost use Rattle.serf_agent_c.specs.ResultParts.{unsettled_in};
ghost use Rattle.serf_agent_c.specs.Numbered.{numbered};
ghost use Rattle.serf_agent_c.specs.Sessions.{Appends, KeepsBurst, KeepsFilters, KeepsMembers, Numbers, Rests, is_ready, settled};
ghost use Rattle.serf_agent_c.specs.Texts.{is_written, pending_bytes, text_of};

use crate::burst_outcome::BurstOutcome;
use crate::call_result::CallResult;
use crate::code::Code;
use crate::members::Member;
use crate::waiting::Waiting;
use serf_agent::{Agent, BytesList};
use serf_snapshot::MemorySink;
use std::alloc::AllocError;
use std::collections::VecDeque;

/// An agent, the results that the host has yet to read, and the items that the host added for a later call. The agent's
/// sink is in memory and keeps the text of the host's file.
#[derive(Drop)]
pub struct Session {
    pub(crate) agent: Agent<MemorySink>,
    /// The result of the last call.
    pub(crate) call_result: CallResult,
    /// The number of bytes of the agent's text that the host's file has.
    pub(crate) written: usize,
    /// Whether the bytes that are pending for the host's file replace its text. Otherwise they are appended.
    pub(crate) replaces: bool,
    /// The queries that earlier calls handed out, and that are neither answered nor forgotten. The query of the last
    /// call is in `call_result`.
    pub(crate) waiting: Waiting,
    /// The filters that the host added for the next query.
    pub(crate) filters: BytesList,
    /// The members with a status time that the host added for the next state.
    pub(crate) status: Vec<Member>,
    /// The names of the members that left, which the host added for the next state.
    pub(crate) left: BytesList,
    /// The outcomes of a burst that the host hasn't read yet, in the order of the calls.
    pub(crate) burst: VecDeque<BurstOutcome>,
}

impl Session {
    /// The bytes that are pending for the host's file: the agent's text after its first `written` bytes.
    pub(crate) fn pending_bytes(&self) -> &[u8]
        ensures { result.now ≡ pending_bytes self.now.agent.device self.now.written }
    {
        let text = self.agent.sink().durable();
        match text.get(self.written..) {
            Some(bytes) => bytes,
            None => b"",
        }
    }

    /// Whether the host's file has all of the agent's text, and no text is to replace it.
    pub(crate) fn is_ready(&self) -> bool
        ensures { result ≡ is_ready self.now }
    {
        !self.replaces && self.pending_bytes().is_empty()
    }

    /// Records that the host's file has all of the agent's text: no byte is pending, and no text is to replace the
    /// file's.
    pub(crate) fn mark_flushed(&mut self)
        ensures written { self.new.written ≡ length (text_of self.old.agent.device) }
        ensures replaces { self.new.replaces ≡ false }
        ensures rest { (self.new.agent ≡ self.old.agent)
            × (self.new.call_result ≡ self.old.call_result)
            × (self.new.waiting ≡ self.old.waiting) × KeepsFilters self.old self.new
            × KeepsMembers self.old self.new × KeepsBurst self.old self.new }
    {
        self.written = self.agent.sink().durable().len();
        self.replaces = false;
    }

    /// Forgets the result of the last call. If this call handed out a query, adds the query to those that wait. If
    /// there is no memory for that, `call_result` keeps the query.
    fn settle(&mut self) -> Result<(), AllocError>
        ensures ok { OnOk result ((numbered self.new.waiting ≡ settled self.old)
            × (self.new.call_result ≡ CallResult.Nothing)) }
        ensures rests { Rests self.old self.new }
        ensures rest { (self.new.agent ≡ self.old.agent) × (self.new.written ≡ self.old.written)
            × (self.new.replaces ≡ self.old.replaces) × KeepsFilters self.old self.new
            × KeepsMembers self.old self.new × KeepsBurst self.old self.new }
        ensures none { unsettled_in self.old.call_result ≡ None → IsOk result }
    {
        let call_result = std::mem::replace(&mut self.call_result, CallResult::Nothing);
        let Some(query) = call_result.into_unsettled() else {
            return Ok(());
        };
        match self.waiting.push(query) {
            Ok(()) => Ok(()),
            Err(query) => {
                self.call_result = CallResult::Kept(Some(query));
                Err(AllocError)
            }
        }
    }

    /// Prepares for a call of the agent: forgets the result of the last call, but not its query (see `settle`). While
    /// bytes are pending for the host's file, returns `Pending` and changes nothing.
    pub(crate) fn begin(&mut self) -> Result<(), Code>
        ensures ok { OnOk result ((is_ready self.old ≡ true)
            × (numbered self.new.waiting ≡ settled self.old)
            × (self.new.call_result ≡ CallResult.Nothing)) }
        ensures agent { self.new.agent ≡ self.old.agent }
        ensures keeps { KeepsFilters self.old self.new × KeepsMembers self.old self.new
            × KeepsBurst self.old self.new }
        ensures pending { is_ready self.old ≡ false
            → (result ≡ Err Code.Pending) × (self.new ≡ self.old) }
        ensures text { is_ready self.old ≡ true → Appends self.old self.new }
        ensures rests { is_ready self.old ≡ true → Rests self.old self.new }
        ensures numbers { is_ready self.old ≡ true → Numbers self.old self.new }
        ensures refused { is_ready self.old ≡ true → OnErr result (result ≡ Err Code.OutOfMemory) }
        ensures none { is_ready self.old ≡ true
            → unsettled_in self.old.call_result ≡ None → IsOk result }
    {
        if !self.is_ready() {
            return Err(Code::Pending);
        }
        // (the file has all of the text; `written` may have been larger than the text's length, and is set to it here)
        self.mark_flushed();
        match self.settle() {
            Ok(()) => Ok(()),
            Err(_) => Err(Code::OutOfMemory),
        }
    }
}
