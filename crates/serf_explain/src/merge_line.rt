//! Describes a merge that is about to be carried out, and the words that all lines about this merge have in common.

ghost use Rattle.std.specs.Prelude.{◌≡◌, ◌++◌, codes, decimal, IfOk, OnOk};
ghost use Rattle.serf_explain.specs.Leaving.{numbers_of};
ghost use Rattle.serf_text.specs.Quoted.{quoted, stands};

use crate::history::History;
use crate::marks::Mark;
use serf_agent::Agent;
use serf_snapshot::MemorySink;
use serf_text::{stands, write_number, write_quoted};
use std::alloc::{AllocError, Global};

/// A merge that is about to be carried out: the agent, the agent's number, the mark of its minimum for events, the
/// history of the earlier actions, and the words that all lines about the merge have in common.
#[derive(Drop)]
pub(crate) struct Merging<'a> {
    /// The number of the action that merges the state.
    pub(crate) number: u64,
    pub(crate) agent_number: u64,
    pub(crate) agent: &'a Agent<MemorySink>,
    pub(crate) lowest: Mark,
    pub(crate) history: &'a History,
    /// The beginning of each line, for example `7 because slot `.
    pub(crate) front: Vec<u8>,
    /// The words that precede an event that the agent has seen, for example `"b" was handed `.
    pub(crate) named: Vec<u8>,
    /// Whether the agent's name is shown unchanged, that is, in full and without escaped bytes.
    pub(crate) is_plain: bool,
    ghost front_is: { front.items ≡ decimal number ++ codes " because slot " },
    ghost named_is: { named.items ≡ quoted agent.now.concrete.config.name ++ codes " was handed " },
    ghost plain_is: { is_plain ≡ stands agent.now.concrete.config.name },
}

/// Appends the words with which each line about the merge begins. `number` is the number of the action that merges the
/// state.
fn write_front(out: &mut Vec<u8>, number: u64) -> Result<(), AllocError>
    ensures { OnOk result
        (out.new.items ≡ out.old.items ++ (decimal number ++ codes " because slot ")) }
{
    write_number(out, number)?;
    out.extend_from_slice(b" because slot ")
}

/// Appends the words `"NAME" was handed `, which precede an event that the agent NAME has seen.
fn write_named(out: &mut Vec<u8>, name: &[u8]) -> Result<(), AllocError>
    ensures { OnOk result
        (out.new.items ≡ out.old.items ++ (quoted name.now ++ codes " was handed ")) }
{
    write_quoted(out, name)?;
    out.extend_from_slice(b" was handed ")
}

impl<'a> Merging<'a> {
    /// Prepares the words that all lines about a merge have in common. Action number `number` merges a state into
    /// `agent`, whose number is `agent_number`.
    pub(crate) fn new(
        alloc: Global,
        history: &'a History,
        number: u64,
        agent_number: u64,
        agent: &'a Agent<MemorySink>,
    ) -> Result<Merging<'a>, AllocError>
        ensures { IfOk result (λ m. (m.number ≡ number) × (m.agent_number ≡ agent_number)
            × (m.agent.now.concrete ≡ agent.now.concrete) × (m.history.now ≡ history.now)
            × (m.lowest ≡ (numbers_of history.now.marks agent_number).event_minimum)) }
    {
        let name = agent.config().name.as_slice();
        let mut front = Vec::new(alloc);
        write_front(&mut front, number)?;
        let mut named = Vec::new(alloc);
        write_named(&mut named, name)?;
        Ok(Merging {
            number,
            agent_number,
            agent,
            lowest: history.marks.of(agent_number).numbers.event_minimum,
            history,
            front,
            named,
            is_plain: stands(name),
        })
    }
}
