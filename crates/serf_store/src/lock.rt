//! Locks a file, so that only one opening of it holds the lock at a time.

use std::fs::{File, TryLockError};

/// A file that can be locked against every other opening of it.
///
/// The lock is released when the file is closed, and so also when its process crashes.
pub trait LockFile {
    /// Locks the file without waiting. Returns [`TryLockError::WouldBlock`] if another opening holds the lock.
    fn lock_now(&self) -> Result<(), TryLockError>;
}

impl LockFile for File {
    fn lock_now(&self) -> Result<(), TryLockError> {
        self.try_lock()
    }
}
