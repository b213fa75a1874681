//! Makes one trial: opens an agent again, makes each call in a list, and checks whether the agent fails.

ghost use Rattle.std.specs.Prelude.{◌≡◌, IfOk, IfSome};
ghost use Rattle.serf_conform.specs.Rules.{is_serf};
ghost use Rattle.serf_conform.specs.Trials.{IsTried, outcome_of, trial};

use crate::agent_calls::{Call, alone_schedule};
use crate::session::hold;
use crate::subject::{Pipe, Subject};
use crate::sweep::case_of;
use crate::verdict::{ConformError, End, Rules};
use serf_agent::Config;
use std::alloc::Global;
use std::io::{Read, Write};

/// The outcome of a trial.
#[derive(Clone, Copy, PartialEq, Eq)]
pub enum Outcome {
    /// Every reply that was compared agrees. The comparison may have ended early, before a turn that isn't compared.
    Agrees,
    /// A reply differs from the expected reply.
    Fails,
    /// The agent ended.
    Ended,
}

/// Returns the outcome of a trial whose comparison with the reference ended for the reason `end`.
fn outcome_at(end: &End) -> Outcome
    ensures { result ≡ outcome_of end.now }
{
    match end {
        End::AllAgree | End::OwnRule | End::Unsupported => Outcome::Agrees,
        End::Differs(_) => Outcome::Fails,
        End::Ended => Outcome::Ended,
    }
}

/// Opens the agent again with the settings `config`, and compares it with the reference in a run that makes only
/// `calls` ([`hold`]). If the function returns an error, the agent may have received only part of a call.
pub fn try_calls<R: Read, W: Write>(
    alloc: Global,
    pipe: &mut Pipe<R, W>,
    rules: Rules,
    config: &Config,
    calls: &[Call],
) -> Result<Outcome, ConformError>
    ensures { IfOk result (λ outcome. IfSome (R.remaining pipe.old.reader) (λ input.
        IsTried (trial (is_serf rules) config.now calls.now input) outcome
        (R.remaining pipe.new.reader) (W.contents pipe.old.writer) (W.contents pipe.new.writer))) }
{
    let schedule = alone_schedule(alloc, config, calls)?;
    let Ok(case) = case_of(alloc, schedule) else {
        return Err(ConformError::OutOfMemory);
    };
    let subject = Subject {
        rules,
        agent: 0,
        config,
    };
    let verdict = hold(alloc, pipe, &subject, &case.actions, &case.trace)?;
    Ok(outcome_at(&verdict.end))
}
