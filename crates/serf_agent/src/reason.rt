//! Converts a window's verdict to a reason to ignore an entry.

ghost use Rattle.std.specs.Prelude.{◌≡◌};
ghost use Rattle.serf_agent.specs.Reasons.{reason_for};

use crate::outcome::Reason;
use serf_window::Verdict;

/// The reason to ignore an entry that a window judged with `verdict`, or `None` if the entry is new.
pub(crate) fn reason_of(verdict: Verdict) -> Option<Reason>
    ensures { result ≡ reason_for verdict }
{
    match verdict {
        Verdict::BelowMinimum => Some(Reason::BelowMinimum),
        Verdict::TooOld => Some(Reason::TooOld),
        Verdict::Seen => Some(Reason::Seen),
        Verdict::TimeFull => Some(Reason::TimeFull),
        Verdict::New => None,
    }
}
