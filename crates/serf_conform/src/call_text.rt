//! Writes calls as lines of text.
ghost use Rattle.std.specs.Prelude.{◌≡◌, ◌++◌, OnOk};
ghost use Rattle.serf_conform.specs.CallText.{call_line, open_line};

use crate::put::write_hex_word;
use serf_agent::Config;
use serf_model::Action;
use serf_schedule::{verb_word, write_act_words, write_config_words};
use std::alloc::AllocError;

/// Appends the line of the call `open`, which opens an agent with the settings `config` on a snapshot whose text is
/// `text`.
///
/// If memory runs out, which is the only reason for an `AllocError`, only a part of the line may have been appended to
/// `out`.
#[tactic(auto, unfolding(crate::specs::CallText::open_line))]
pub fn write_open(out: &mut Vec<u8>, config: &Config, text: &[u8]) -> Result<(), AllocError>
    ensures { OnOk result (out.new.items ≡ out.old.items ++ open_line config.now text.now) }
{
    out.extend_from_slice(b"open")?;
    write_config_words(out, config)?;
    write_hex_word(out, text)?;
    out.extend_from_slice(b"\n")
}

/// Appends the line of the call for `action`. The line leaves out the agent's number, and contains the packet's bytes
/// in place of the packet's number. `given` is the packet that a delivery or a merge carries. If `action` is an
/// injection, which isn't a call to any agent, nothing is appended.
///
/// If memory runs out, which is the only reason for an `AllocError`, only a part of the line may have been appended to
/// `out`.
pub fn write_call(out: &mut Vec<u8>, action: &Action, given: &[u8]) -> Result<(), AllocError>
    ensures { OnOk result (out.new.items ≡ out.old.items ++ call_line action.now given.now) }
{
    match action {
        Action::Inject { .. } => Ok(()),
        Action::Of { act, .. } => {
            out.extend_from_slice(verb_word(act))?;
            write_act_words(out, act, Some(given))?;
            out.extend_from_slice(b"\n")
        }
    }
}
