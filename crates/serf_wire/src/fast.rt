//! Reads maps in compact spellings in one pass. The keys of these maps are short, no key appears twice, and
//! no key is unknown.
//!
//! Nearly every user event and every push/pull has such a map. For these maps, the readers here return the
//! same result as the general readers. For a map in any other spelling, they return `None`.

mod event;
mod slots;
mod state;
mod status;

pub use event::read_user_event;
pub use slots::{read_event, read_slot};
pub use state::read_push_pull;
