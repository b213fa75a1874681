//! Keeps a snapshot's text in a real file, which only one agent can have open at a time.
//!
//! Use [`FileStore`] as the sink of an agent in a program. It appends lines and syncs them to the device, and it
//! replaces the text in one step, so that a crash at any moment leaves either the old text or the new one, as a
//! whole. It is proved for every [`TextFile`]. [`SystemFile`] is a file of the operating system. Only one store at a
//! time holds the file's lock, and a crash releases it. [`MemoryFile`] is a file in memory, which fails in the call
//! that the caller chose.
#![tactic(auto)]

mod bytes;
mod error;
mod file;
mod lock;
mod memory;
mod opening;
mod paths;
mod store;
mod system;

pub use error::StoreError;
pub use file::TextFile;
pub use lock::LockFile;
pub use memory::MemoryFile;
pub use store::FileStore;
pub use system::SystemFile;
