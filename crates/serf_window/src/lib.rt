//! The buffers of recent events and queries. They store which entries an agent has recently seen, in slots by
//! time.
//!
//! A window has N slots, and an entry of time t enters slot t modulo N. A slot is made when a time first
//! enters this slot or a slot with a higher index, so an empty window uses no memory. An entry of a later
//! time takes over the slot, so a window forgets entries. Still, its verdicts are those of a window that
//! forgets nothing, because a time whose slot was taken over is always too old. These are the buffers of
//! Serf's `handleUserEvent` and `handleQuery` (`serf.go`). A window accepts at most M entries of one time, so
//! it never holds more than N * M entries. This limit is a rule of this project's own.
//!
//! A `Window` is generic in the key by which it distinguishes the entries of one time. The keys of an
//! `EventWindow` are the names and payloads of events, and the keys of a `QueryWindow` are the IDs of
//! queries. A caller offers an entry as a `BorrowedKey`, and the window copies this key only if the entry is
//! going to enter. After a restart, a new window restores the entries that were kept ([`Window::recall`]).
#![tactic(auto)]

mod borrowed_key;
mod growth;
mod laws;
mod place;
mod recall;
mod recalling;
mod verdict;
mod window;

pub use borrowed_key::BorrowedKey;
pub use laws::{recall_laws, slot_laws};
pub use recall::Offer;
pub use verdict::{MAX_PER_TIME, MAX_SLOTS, NewWindowError, Verdict};
pub use window::{Entry, EventWindow, IdSlot, Ids, QueryWindow, Window};
