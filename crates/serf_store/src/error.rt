//! Why a store was not opened.

ghost use Rattle.std.specs.Prelude.{◌≡◌};
ghost use Rattle.serf_store.specs.declared.error.StoreError.TheVariants.{OutOfMemory};

use std::alloc::AllocError;
use std::io;
use thiserror::Error;

/// Why a store was not opened. After the error, this call holds no lock on the file, and the text is as it was
/// before.
#[derive(Debug, Drop, Error)]
pub enum StoreError {
    /// Memory ran out for the text or for the paths.
    #[error("out of memory")]
    OutOfMemory,
    /// Another store has the file open, in this process or in another one, under the same name or under another.
    #[error("another agent has this snapshot open")]
    InUse,
    /// The path can't be resolved to a place for a file: its folder is missing, or its links form a loop.
    #[error("can't resolve the path: {0}")]
    Path(io::Error),
    /// The path names something other than a regular file: a folder, a device, or a link that leads nowhere.
    #[error("the path doesn't name a regular file")]
    NotAFile,
    /// The file can't be opened or created, for example because it or its folder isn't writable.
    #[error("can't open the file: {0}")]
    Open(io::Error),
    /// The file can't be locked.
    #[error("can't lock the file: {0}")]
    Lock(io::Error),
    /// The new text that a crash left next to the file can't be removed.
    #[error("can't remove the new file that a crash left: {0}")]
    Leftover(io::Error),
    /// The file can't be read.
    #[error("can't read the file: {0}")]
    Read(io::Error),
    /// The file can't be synced to the device, so the text that was read might not survive a crash.
    #[error("can't sync the file: {0}")]
    Sync(io::Error),
    /// The folder can't be synced to the device, so a file that was just created might not survive a crash.
    #[error("can't sync the folder: {0}")]
    Folder(io::Error),
}

impl From<AllocError> for StoreError {
    ghost from_gives = { λ _ error. error ≡ OutOfMemory };

    fn from(_fault: AllocError) -> Self {
        StoreError::OutOfMemory
    }
}
