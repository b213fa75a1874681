//! A file of the operating system that holds a snapshot's text. Each call makes system calls, and is counted if it
//! fails.

ghost use Rattle.std.specs.Prelude.{◌≡◌, IfErr, IfOk, None, OnOk, OnErr};
ghost use Rattle.serf_snapshot.specs.Device.{counted};
ghost use Rattle.serf_store.specs.Errors.{IsOfOpening};

use crate::error::StoreError;
use crate::file::TextFile;
use crate::lock::LockFile;
use crate::opening::{open_locked, real_path, remove_if_there, remove_leftover};
use crate::paths::Paths;
use std::alloc::Global;
use std::fs::{Files, OpenFile, OpenOptions, Permissions};
use std::io;
use std::io::{ErrorKind, Read, Write};
use std::os::unix::fs::{OpenOptionsExt, PermissionsExt};

/// A file of the operating system that holds a snapshot's text. It is open for reading and appending, and locked
/// against every other opening.
///
/// The lock is on the file itself, like the lock of the stores for other languages (`flock`). It applies to every
/// name of the file and to every program that requests it, and the system releases it when the process ends. In a
/// replacement, the new file is locked before it takes over the text's name, and it gets the permissions of the old
/// file.
///
/// No contract says what the operating system keeps: this file exposes no bytes, and only counts the calls that
/// failed.
#[derive(Drop)]
pub struct SystemFile<'a, R: Files> {
    files: &'a R,
    paths: Paths,
    file: R::File,
    new_file: Option<R::File>,
    failures: u64,
}

impl<'a, R: Files> SystemFile<'a, R>
where
    R::File: LockFile,
{
    ghost use Rattle.serf_store.specs.SystemFile.{system_failures};

    /// Opens the file at `path` or creates it, and locks it. If a crash left a new text next to the file, the call
    /// removes it.
    pub fn open(alloc: Global, files: &'a R, path: &str) -> Result<Self, StoreError>
        ensures unfailed { IfOk result (λ s. system_failures s ≡ 0) }
        ensures error { IfErr result IsOfOpening }
    {
        let real = real_path(alloc, files, path)?;
        let paths = Paths::of(alloc, real.as_str())?;
        let file = open_locked(files, &paths.file)?;
        remove_leftover(files, &paths.new_file)?;
        Ok(SystemFile {
            files,
            paths,
            file,
            new_file: None,
            failures: 0,
        })
    }
}

impl<'a, R: Files> SystemFile<'a, R> {
    /// Renames the new file, which is `file`, to the name of the text's file. Later writes go to the new file, or
    /// still to the old one if the rename fails.
    fn take_name(&mut self, file: R::File) -> io::Result<()>
        ensures ok { OnOk result (self.new.file ≡ file) }
        ensures error { OnErr result (self.new.file ≡ self.old.file) }
        ensures failures { self.new.failures ≡ self.old.failures }
    {
        self.files.rename(&self.paths.new_file, &self.paths.file)?;
        self.file = file;
        Ok(())
    }
}

/// Returns the `answer` of a call, and counts it in `failures` if it is an error.
fn counted<T>(failures: &mut u64, answer: io::Result<T>) -> io::Result<T>
    ensures answer { result ≡ answer }
    ensures unfailed { OnOk answer (failures.new ≡ failures.old) }
    ensures failed { OnErr answer (failures.new ≡ counted failures.old) }
{
    if answer.is_err() {
        *failures = failures.saturating_add(1);
    }
    answer
}

/// Reads the rest of `file`.
fn read_all<F: Read>(alloc: Global, file: &mut F) -> io::Result<Vec<u8>> {
    let mut text = Vec::new(alloc);
    file.read_to_end(&mut text)?;
    Ok(text)
}

/// Flushes `file`, and syncs its bytes to the device.
fn bring<F: Write + OpenFile>(file: &mut F) -> io::Result<()> {
    file.flush()?;
    file.sync_data()
}

/// Flushes `file`, which is new, and syncs all of it to the device, including its length and its permissions.
fn bring_all<F: Write + OpenFile>(file: &mut F) -> io::Result<()> {
    file.flush()?;
    file.sync_all()
}

/// Creates a new file at `path` that only its owner may open. Fails if there is already a file at `path`.
fn make_new<R: Files>(files: &R, path: &str) -> io::Result<R::File> {
    OpenOptions::new()
        .read(true)
        .append(true)
        .create_new(true)
        .mode(0o600)
        .open(files, path)
}

/// Sets the permissions of the file `to` to those of the file `from`.
fn copy_rights<F: OpenFile>(from: &F, to: &F) -> io::Result<()> {
    let rights = from.metadata()?.permissions().mode() & 0o777;
    to.set_permissions(Permissions::from_mode(rights))
}

/// Creates a new file at `path` that contains `text`, is locked, and has the permissions of `old`. Removes an older
/// file at `path` first.
fn make_new_file<R: Files>(files: &R, path: &str, old: &R::File, text: &[u8]) -> io::Result<R::File>
where
    R::File: LockFile,
{
    remove_if_there(files, path)?;
    let mut new = make_new(files, path)?;
    new.lock_now()?;
    copy_rights(old, &new)?;
    new.write_all(text)?;
    Ok(new)
}

/// Syncs the names in `folder` to the device.
fn sync_folder<R: Files>(files: &R, folder: &str) -> io::Result<()> {
    OpenOptions::new()
        .read(true)
        .open(files, folder)?
        .sync_all()
}

/// Returns the error for a call that needs a new file when there is none.
fn no_new_file() -> io::Error {
    io::Error::from(ErrorKind::NotFound)
}

impl<'a, R: Files> TextFile for SystemFile<'a, R>
where
    R::File: LockFile,
{
    ghost kept = { λ _. None };

    ghost failures = { λ s. s.failures };

    ghost plan = { λ _. None };

    fn read(&mut self, alloc: Global) -> io::Result<Vec<u8>> {
        let answer = read_all(alloc, &mut self.file);
        counted(&mut self.failures, answer)
    }

    fn write(&mut self, bytes: &[u8]) -> io::Result<()> {
        let answer = self.file.write_all(bytes);
        counted(&mut self.failures, answer)
    }

    fn sync(&mut self) -> io::Result<()> {
        let answer = bring(&mut self.file);
        counted(&mut self.failures, answer)
    }

    fn write_new_file(&mut self, text: &[u8]) -> io::Result<()> {
        let made = make_new_file(self.files, &self.paths.new_file, &self.file, text);
        self.new_file = Some(counted(&mut self.failures, made)?);
        Ok(())
    }

    fn sync_new_file(&mut self) -> io::Result<()> {
        let answer = match &mut self.new_file {
            Some(file) => bring_all(file),
            None => Err(no_new_file()),
        };
        counted(&mut self.failures, answer)
    }

    fn rename_new_file(&mut self) -> io::Result<()> {
        let answer = match self.new_file.take() {
            Some(file) => self.take_name(file),
            None => Err(no_new_file()),
        };
        counted(&mut self.failures, answer)
    }

    fn sync_folder(&mut self) -> io::Result<()> {
        let answer = sync_folder(self.files, &self.paths.folder);
        counted(&mut self.failures, answer)
    }
}
