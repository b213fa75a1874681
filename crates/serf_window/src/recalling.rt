//! Fills a new window with the entries that were kept before a restart.

ghost use Rattle.std.specs.Prelude.{◌≡◌, ◌<◌, List, length, All, IfOk, OnOk};
ghost use Rattle.serf_window.specs.Recall.{entries_offered, entry_offered, recalled, recalled_one};
ghost use Rattle.serf_window.specs.Window.{TimedEntry, TimesBelow, slots_of};

use crate::borrowed_key::BorrowedKey;
use crate::recall::Offer;
use crate::verdict::Verdict;
use crate::window::Window;
use std::alloc::{AllocError, Global};

impl<K: Drop> Window<K> {
    /// Restores the entry `offer` if the window's verdict is `New`. Returns the smallest time that may be
    /// accepted from then on. Before the call, the smallest time was `minimum`.
    fn take_back<L: BorrowedKey<K>>(
        &mut self,
        alloc: Global,
        clock: u64,
        minimum: u64,
        offer: &Offer<L>,
    ) -> Result<u64, AllocError>
        requires time { offer.now.time < clock }
        requires below { TimesBelow clock self.old.slots }
        ensures entries { (entries : List (TimedEntry K))
            → self.old.slots ≡ slots_of (length self.old.slots) entries
            → OnOk result (self.new.slots ≡ slots_of (length self.old.slots)
            (recalled_one L.same (length self.old.slots) self.old.per_time clock
            (record { entries = entries; minimum = minimum })
            (entry_offered L.key offer.now)).entries) }
        ensures minimum { (entries : List (TimedEntry K))
            → self.old.slots ≡ slots_of (length self.old.slots) entries
            → IfOk result (λ m. m ≡ (recalled_one L.same (length self.old.slots)
            self.old.per_time clock (record { entries = entries; minimum = minimum })
            (entry_offered L.key offer.now)).minimum) }
        ensures below { TimesBelow clock self.new.slots }
        ensures size { length self.new.slots ≡ length self.old.slots }
        ensures per_time { self.new.per_time ≡ self.old.per_time }
    {
        match self.offer(clock, minimum, offer.time, &offer.key) {
            Verdict::New => {
                let entry = self.prepare(alloc, offer.time, &offer.key)?;
                self.insert_new(entry);
                Ok(minimum)
            }
            Verdict::TimeFull => Ok(minimum.max(offer.time.get() + 1)),
            Verdict::Seen | Verdict::TooOld | Verdict::BelowMinimum => Ok(minimum),
        }
    }

    /// Restores `offers`, in order. Each offer enters if the window would accept it as new, given that
    /// `minimum` is the smallest time and `clock` is above the times of all offers. If an offer's time is
    /// full, the offer is left out, and from then on no entry up to this time may be accepted. Returns the
    /// smallest time that may be accepted from then on.
    ///
    /// If there is no memory, the call returns `AllocError`. The window then holds the offers that entered
    /// before the one that failed.
    pub fn recall<L: BorrowedKey<K>>(
        &mut self,
        alloc: Global,
        clock: u64,
        minimum: u64,
        offers: &[Offer<L>],
    ) -> Result<u64, AllocError>
        requires times { All (λ offer. offer.time < clock) offers.now }
        requires below { TimesBelow clock self.old.slots }
        ensures entries { (entries : List (TimedEntry K))
            → self.old.slots ≡ slots_of (length self.old.slots) entries
            → OnOk result (self.new.slots ≡ slots_of (length self.old.slots)
            (recalled L.same (length self.old.slots) self.old.per_time clock
            (record { entries = entries; minimum = minimum })
            (entries_offered L.key offers.now)).entries) }
        ensures minimum { (entries : List (TimedEntry K))
            → self.old.slots ≡ slots_of (length self.old.slots) entries
            → IfOk result (λ m. m ≡ (recalled L.same (length self.old.slots)
            self.old.per_time clock (record { entries = entries; minimum = minimum })
            (entries_offered L.key offers.now)).minimum) }
        ensures below { TimesBelow clock self.new.slots }
        ensures size { length self.new.slots ≡ length self.old.slots }
        ensures per_time { self.new.per_time ≡ self.old.per_time }
    {
        let mut lowest = minimum;
        for offer in offers {
            lowest = self.take_back(alloc, clock, lowest, offer)?;
        }
        Ok(lowest)
    }
}
