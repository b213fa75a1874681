//! Opens the file at a path: follows links, opens and locks the file, and removes the new text that a crash left.

ghost use Rattle.std.specs.Prelude.{◌≡◌, ◌≢◌, ◌↔◌, IfErr, IfOk, IsErrOf, IsOk};
ghost use Rattle.std.specs.IoError.{error_kind};
ghost use Rattle.std.specs.Fs.{IsFile, file_type};
ghost use Rattle.serf_store.specs.Errors.{IsOfFile, IsOfLeftover, IsOfOpen, IsOfPath, locked_as};

use crate::error::StoreError;
use crate::lock::LockFile;
use crate::paths::folder_of;
use std::alloc::Global;
use std::fs::{Files, Metadata, OpenFile, OpenOptions, TryLockError};
use std::io;
use std::io::ErrorKind;
use std::os::unix::fs::{MetadataExt, OpenOptionsExt};
use std::path::{Path, PathBuf};

/// How many times the store tries to open and lock a file. It tries again if the file was replaced after it was
/// opened and before it was locked.
const TRIES: usize = 100;

/// Resolves the links of `path`. The file itself doesn't have to exist.
pub fn real_path<R: Files>(alloc: Global, files: &R, path: &str) -> Result<PathBuf, StoreError>
    ensures { IfErr result IsOfPath }
{
    match files.canonicalize(alloc, path) {
        Ok(real) => Ok(real),
        Err(error) if error.kind() == ErrorKind::NotFound => real_place(alloc, files, path),
        Err(error) => Err(path_error(error)),
    }
}

/// Resolves the links of `path` if there is no file yet. The folder has to exist.
fn real_place<R: Files>(alloc: Global, files: &R, path: &str) -> Result<PathBuf, StoreError>
    ensures { IfErr result IsOfPath }
{
    let Some(name) = Path::new(path).file_name() else {
        return Err(StoreError::NotAFile);
    };
    let mut real = files
        .canonicalize(alloc, folder_of(path))
        .map_err(path_error)?;
    real.push(name)?;
    Ok(real)
}

/// Returns the store's error for `error`, which the system returned for a path.
fn path_error(error: io::Error) -> StoreError
    ensures memory { error_kind error ≡ ErrorKind.OutOfMemory → result ≡ StoreError.OutOfMemory }
    ensures other { error_kind error ≢ ErrorKind.OutOfMemory → result ≡ StoreError.Path error }
{
    if error.kind() == ErrorKind::OutOfMemory {
        StoreError::OutOfMemory
    } else {
        StoreError::Path(error)
    }
}

/// Opens the file at `path` or creates it, and locks it. If the file was replaced before it was locked, the call
/// tries again. Returns `InUse` if this happened [`TRIES`] times, or if another opening has the lock.
pub fn open_locked<R: Files>(files: &R, path: &str) -> Result<R::File, StoreError>
where
    R::File: LockFile,
    ensures { IfErr result IsOfFile }
{
    for _ in 0..TRIES {
        refuse_other(files, path)?;
        let file = open_text(files, path)?;
        lock(&file)?;
        if is_current(files, path, &file).map_err(StoreError::Open)? {
            return Ok(file);
        }
    }
    Err(StoreError::InUse)
}

/// Returns an error if there is something other than a regular file at `path`. Call this before the file is opened.
fn refuse_other<R: Files>(files: &R, path: &str) -> Result<(), StoreError>
    ensures { IfErr result IsOfFile }
{
    plain(files.symlink_metadata(path))
}

/// Returns an error if the file that `named` describes isn't a regular file. If there is nothing at the path, this
/// isn't an error.
fn plain(named: io::Result<Metadata>) -> Result<(), StoreError>
    ensures file { IfOk named (λ m. IsOk result ↔ IsFile (file_type m)) }
    ensures other { IfOk named (λ _. IfErr result (λ f. f ≡ StoreError.NotAFile)) }
    ensures missing { IfErr named (λ e. error_kind e ≡ ErrorKind.NotFound → IsOk result) }
    ensures error { IfErr named (λ e. error_kind e ≢ ErrorKind.NotFound
        → IsErrOf result (StoreError.Open e)) }
{
    match named {
        Ok(named) if named.is_file() => Ok(()),
        Ok(_) => Err(StoreError::NotAFile),
        Err(error) if error.kind() == ErrorKind::NotFound => Ok(()),
        Err(error) => Err(StoreError::Open(error)),
    }
}

/// Opens the file with the text at `path` for reading and appending, or creates it. Only the owner may open a file
/// that was created in this way.
fn open_text<R: Files>(files: &R, path: &str) -> Result<R::File, StoreError>
    ensures { IfErr result IsOfOpen }
{
    OpenOptions::new()
        .read(true)
        .append(true)
        .create(true)
        .mode(0o600)
        .open(files, path)
        .map_err(StoreError::Open)
}

/// Locks `file`, unless another opening has the lock.
fn lock<F: LockFile>(file: &F) -> Result<(), StoreError>
    ensures { IfErr result IsOfFile }
{
    locked(file.lock_now())
}

/// Turns the result of a lock into the store's result, which is `InUse` if another opening has the lock.
fn locked(answer: Result<(), TryLockError>) -> Result<(), StoreError>
    ensures { result ≡ locked_as answer }
{
    match answer {
        Ok(()) => Ok(()),
        Err(TryLockError::WouldBlock) => Err(StoreError::InUse),
        Err(TryLockError::Error(error)) => Err(StoreError::Lock(error)),
    }
}

/// Returns whether `path` still names `file` directly, and not through a link.
fn is_current<R: Files>(files: &R, path: &str, file: &R::File) -> io::Result<bool> {
    let own = file.metadata()?;
    match files.symlink_metadata(path) {
        Ok(named) => Ok(named.dev() == own.dev() && named.ino() == own.ino()),
        Err(error) if error.kind() == ErrorKind::NotFound => Ok(false),
        Err(error) => Err(error),
    }
}

/// Removes the file that a crash left at `path`, if there is one.
pub fn remove_leftover<R: Files>(files: &R, path: &str) -> Result<(), StoreError>
    ensures { IfErr result IsOfLeftover }
{
    remove_if_there(files, path).map_err(StoreError::Leftover)
}

/// Removes the file at `path`, if there is one.
pub fn remove_if_there<R: Files>(files: &R, path: &str) -> io::Result<()> {
    match files.remove_file(path) {
        Err(error) if error.kind() != ErrorKind::NotFound => Err(error),
        _ => Ok(()),
    }
}
