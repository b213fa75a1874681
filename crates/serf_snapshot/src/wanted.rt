//! Decides whether a filter selects an event or a query of a text.

ghost use Rattle.std.specs.Prelude.{◌≡◌};
ghost use Rattle.serf_snapshot.specs.EventLines.{is_event_wanted, is_time_wanted};

use crate::kept::{EntryFilter, KeptEvent};
use serf_lamport::Time;

impl EntryFilter {
    /// Returns whether the filter selects `time`.
    pub(crate) fn has_time(self, time: Time) -> bool
        ensures { result ≡ is_time_wanted self time }
    {
        self.from <= time.get() && time.get() < self.below
    }

    /// Returns whether the filter selects `event`. It does if it selects the event's time, and if the name and the
    /// payload together are short enough.
    pub(crate) fn has_event(self, event: &KeptEvent) -> bool
        ensures { result ≡ is_event_wanted self event.now }
    {
        let name = event.name().len() as u128;
        let payload = event.payload().len() as u128;
        self.has_time(event.time()) && name + payload <= self.longest as u128
    }
}
