//! The sink that keeps a text in a file: it appends lines, syncs them to the device, and replaces the text in one
//! step.

ghost use Rattle.std.specs.Prelude.{◌≡◌, ◌≢◌, ◌⊎◌, ◌^◌, IfErr, IfOk, IfSome, None, OnOk, OnErr};
ghost use Rattle.std.specs.Option.{option_map};
ghost use Rattle.std.specs.IoError.{error_kind};
ghost use Rattle.serf_snapshot.specs.Device.{counted};
ghost use Rattle.serf_store.specs.Errors.{IsOfOpening, IsOfText, OpensAsPlanned};
ghost use Rattle.serf_store.specs.TextFile.{Becomes, HasEither, IsSettled, all_of, kept_text, on_device};
ghost use Rattle.serf_store.specs.Store.{file_device};

use crate::error::StoreError;
use crate::file::TextFile;
use crate::lock::LockFile;
use crate::system::SystemFile;
use serf_snapshot::{ReplaceError, ReplaceSink, Sink, SinkError};
use std::alloc::{AllocError, Global};
use std::fs::Files;
use std::io;
use std::io::ErrorKind;
use std::marker::Model;

/// A snapshot's text in a file, which the store appends to, syncs to the device, and replaces in one step.
///
/// If an append returns Ok, its bytes were written. If a flush returns Ok, every appended byte is on the device. If a
/// replace returns Ok, the new text is on the device under the name of the file. The store writes the new text to a
/// file next to the old one, syncs it, renames it to the name of the old one, and then syncs the folder. So a crash
/// at any moment leaves either the old text or the new one, as a whole. A store has failed if and only if a call of
/// its file has failed. From then on, each call fails, is counted, and leaves the file alone, until the text is
/// opened again.
#[derive(Drop)]
pub struct FileStore<F: TextFile> {
    file: F,
    failures: u64,
    append_calls: u64,
    flush_calls: u64,
    replace_calls: u64,
}

impl<F: TextFile> Model for FileStore<F> {
    ghost use Rattle.std.specs.Prelude.{◌≡◌, ◌↔◌};
    ghost use Rattle.serf_snapshot.specs.Device.{Device};
    ghost use Rattle.serf_store.specs.TextFile.{IsNamed, IsSettled};
    ghost use Rattle.serf_store.specs.Store.{file_device, text_of};

    ghost Value = { Device };

    ghost view = { λ a. file_device (text_of (F.kept a.file))
        a.failures a.append_calls a.flush_calls a.replace_calls };

    ghost invariant = { λ a. (a.failures ≡ 0 → IsSettled (F.kept a.file))
        × (a.failures ≡ 0 ↔ F.failures a.file ≡ 0) × IsNamed (F.kept a.file) };
}

impl<F: TextFile + Drop> FileStore<F> {
    /// Returns a store over `file`, together with the text of the file. No call of `file` may have failed before. If
    /// the call succeeds, the whole text and the name of the file are on the device.
    ///
    /// Each error names the step that failed: reading the text, syncing it to the device, or syncing the folder.
    pub fn over(alloc: Global, file: F) -> Result<(Self, Vec<u8>), StoreError>
        requires unfailed { F.failures file ≡ 0 }
        requires settled { IsSettled (F.kept file) }
        ensures text { IfOk result (λ r. r.0 ≡ file_device
            (option_map (λ _. on_device r.1.items) (F.kept file)) 0 0 0 0) }
        ensures read { IfOk result (λ r. IfSome (F.kept file) (λ k. r.1.items ≡ all_of k.text)) }
        ensures error { IfErr result IsOfText }
        ensures planned { IfSome (F.plan file) (λ n. OpensAsPlanned n result) }
    {
        let mut opened = file;
        let text = opened.read(alloc).map_err(read_error)?;
        opened.sync().map_err(StoreError::Sync)?;
        opened.sync_folder().map_err(StoreError::Folder)?;
        let store = FileStore {
            file: opened,
            failures: 0,
            append_calls: 0,
            flush_calls: 0,
            replace_calls: 0,
        };
        Ok((store, text))
    }
}

impl<'a, R: Files> FileStore<SystemFile<'a, R>>
where
    R::File: LockFile,
{
    /// Opens the file at `path` or creates it, locks it, and reads its text.
    ///
    /// If `path` is a link, the call follows it to its file once. If a crash left a new text next to the file, the
    /// call removes it, because it never took the place of the file. Pass the text to
    /// [`serf_snapshot::Snapshot::open`], or to the agent that opens on it. Each error names the step that failed.
    /// After an error, the text is as it was before, and the call holds no lock.
    pub fn open(alloc: Global, files: &'a R, path: &str) -> Result<(Self, Vec<u8>), StoreError>
        ensures device { IfOk result (λ r. r.0 ≡ file_device None 0 0 0 0) }
        ensures error { IfErr result (λ f. IsOfOpening f ⊎ IsOfText f) }
    {
        FileStore::over(alloc, SystemFile::open(alloc, files, path)?)
    }
}

/// Replaces the text of `file` with `text` on the device in one step: a new file with `text` takes over the name.
fn put_in_place<F: TextFile>(file: &mut F, text: &[u8]) -> io::Result<()>
    requires { IsSettled (F.kept file.old) }
    ensures ok { OnOk result (F.kept file.new
        ≡ option_map (λ _. kept_text text.now) (F.kept file.old)) }
    ensures error { OnErr result (Becomes (HasEither text.now)
        (F.kept file.old) (F.kept file.new)) }
    ensures unfailed { OnOk result (F.failures file.new ≡ F.failures file.old) }
    ensures failed { OnErr result (F.failures file.new ≡ counted (F.failures file.old)) }
{
    file.write_new_file(text)?;
    file.sync_new_file()?;
    file.rename_new_file()?;
    file.sync_folder()
}

/// Returns the store's error for `error`, which a read of the text returned.
fn read_error(error: io::Error) -> StoreError
    ensures memory { error_kind error ≡ ErrorKind.OutOfMemory → result ≡ StoreError.OutOfMemory }
    ensures other { error_kind error ≢ ErrorKind.OutOfMemory → result ≡ StoreError.Read error }
{
    if error.kind() == ErrorKind::OutOfMemory {
        StoreError::OutOfMemory
    } else {
        StoreError::Read(error)
    }
}

impl<F: TextFile> Sink for FileStore<F> {
    ghost device = { λ s. s };

    ghost room = { λ s. 2 ^ 64 };

    fn reserve(&mut self, _alloc: Global, _n: usize) -> Result<(), AllocError> {
        Ok(())
    }

    fn append(&mut self, bytes: &[u8]) -> Result<(), SinkError> {
        self.append_calls = self.append_calls.saturating_add(1);
        if self.failures > 0 || self.file.write(bytes).is_err() {
            self.failures = self.failures.saturating_add(1);
            return Err(SinkError);
        }
        Ok(())
    }

    fn flush(&mut self) -> Result<(), SinkError> {
        self.flush_calls = self.flush_calls.saturating_add(1);
        if self.failures > 0 || self.file.sync().is_err() {
            self.failures = self.failures.saturating_add(1);
            return Err(SinkError);
        }
        Ok(())
    }
}

impl<F: TextFile> ReplaceSink for FileStore<F> {
    fn replace(&mut self, _alloc: Global, text: &[u8]) -> Result<(), ReplaceError> {
        self.replace_calls = self.replace_calls.saturating_add(1);
        if self.failures > 0 || put_in_place(&mut self.file, text).is_err() {
            self.failures = self.failures.saturating_add(1);
            return Err(ReplaceError::SinkError);
        }
        Ok(())
    }
}
