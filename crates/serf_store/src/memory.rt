//! A file in memory that holds a snapshot's text, for tests.

ghost use Rattle.std.specs.Prelude.{◌≡◌, ◌≢◌, ◌-◌, IfErr, IsErr, OnErr, OnOk, None, Some, false};
ghost use Rattle.std.specs.IoError.{error_kind};
ghost use Rattle.serf_snapshot.specs.Device.{counted};
ghost use Rattle.serf_store.specs.MemoryFile.{fresh_file, made_file};

use crate::bytes::MemoryBytes;
use crate::file::TextFile;
use std::alloc::Global;
use std::io;
use std::io::ErrorKind;
use std::marker::Model;

/// A file in memory that holds a snapshot's text. It exposes its bytes, and fails in the call that the caller chose, or
/// if memory runs out.
///
/// A call that fails changes nothing.
#[derive(Drop)]
pub struct MemoryFile {
    alloc: Global,
    text: MemoryBytes,
    new_file: Option<MemoryBytes>,
    /// Whether the new file already has the text's name, although the name isn't on the device yet.
    is_renamed: bool,
    /// Whether the name of the text's file is on the device.
    is_named: bool,
    /// If this is `n`, the `n`-th call from now on fails; if it is 0, none fails.
    failing: u64,
    failures: u64,
}

impl Model for MemoryFile {
    ghost use Rattle.serf_store.specs.MemoryFile.{MemoryFileState};

    ghost Value = { MemoryFileState };

    ghost view = { λ a. record {
      kept = record {
        text = a.text;
        new_file = a.new_file;
        is_renamed = a.is_renamed;
        is_named = a.is_named;
      };
      failures = a.failures;
      failing = a.failing;
    } };
}

impl MemoryFile {
    /// Returns a file with `text`, all of it on the device. Only the `n`-th call fails, or none if `n` is 0.
    pub fn new(alloc: Global, text: Vec<u8>, n: u64) -> Self
        ensures { result ≡ fresh_file text.items n }
    {
        MemoryFile::of(alloc, MemoryBytes::kept(text), true, n)
    }

    /// Returns a file that was just created and written, in a state that a crash can leave: neither `text` nor the
    /// file's name is on the device. Only the `n`-th call fails, or none if `n` is 0.
    pub fn just_made(alloc: Global, text: Vec<u8>, n: u64) -> Self
        ensures { result ≡ made_file text.items n }
    {
        MemoryFile::of(alloc, MemoryBytes::made(text), false, n)
    }

    /// Returns a file with the bytes `text` and no new file next to it. The file's name is on the device if
    /// `is_named` is true. The `n`-th call fails.
    fn of(alloc: Global, text: MemoryBytes, is_named: bool, n: u64) -> Self
        ensures text { result.kept.text ≡ text }
        ensures new_file { result.kept.new_file ≡ None }
        ensures renamed { result.kept.is_renamed ≡ false }
        ensures named { result.kept.is_named ≡ is_named }
        ensures failures { result.failures ≡ 0 }
        ensures failing { result.failing ≡ n }
    {
        MemoryFile {
            alloc,
            text,
            new_file: None,
            is_renamed: false,
            is_named,
            failing: n,
            failures: 0,
        }
    }

    /// Starts a call, and counts down to the call that fails. Returns an error if this is that call.
    fn begin(&mut self) -> io::Result<()>
        ensures kept { self.new.kept ≡ self.old.kept }
        ensures unfailed { OnOk result (self.new.failures ≡ self.old.failures) }
        ensures failed { OnErr result (self.new.failures ≡ counted self.old.failures) }
        ensures failing { self.new.failing ≡ self.old.failing - 1 }
        ensures planned { self.old.failing ≡ 1 → IsErr result }
        ensures alone { OnErr result (self.old.failing ≡ 1) }
        ensures kind { IfErr result (λ e. error_kind e ≢ ErrorKind.OutOfMemory) }
    {
        let fails = self.failing == 1;
        self.failing = self.failing.saturating_sub(1);
        if fails {
            Err(self.failed(ErrorKind::Other))
        } else {
            Ok(())
        }
    }

    /// Counts a failure, and returns an error of the kind `kind`.
    fn failed(&mut self, kind: ErrorKind) -> io::Error
        ensures kept { self.new.kept ≡ self.old.kept }
        ensures failed { self.new.failures ≡ counted self.old.failures }
        ensures failing { self.new.failing ≡ self.old.failing }
        ensures kind { error_kind result ≡ kind }
    {
        self.failures = self.failures.saturating_add(1);
        io::Error::from(kind)
    }
}

impl TextFile for MemoryFile {
    ghost kept = { λ m. Some m.kept };

    ghost failures = { λ m. m.failures };

    ghost plan = { λ m. Some m.failing };

    fn read(&mut self, alloc: Global) -> io::Result<Vec<u8>> {
        self.begin()?;
        match Vec::from_slice(alloc, self.text.all()) {
            Ok(text) => Ok(text),
            Err(_) => Err(self.failed(ErrorKind::OutOfMemory)),
        }
    }

    fn write(&mut self, bytes: &[u8]) -> io::Result<()> {
        self.begin()?;
        match self.text.write(bytes) {
            Ok(()) => Ok(()),
            Err(_) => Err(self.failed(ErrorKind::OutOfMemory)),
        }
    }

    fn sync(&mut self) -> io::Result<()> {
        self.begin()?;
        self.text.sync();
        Ok(())
    }

    fn write_new_file(&mut self, text: &[u8]) -> io::Result<()> {
        self.begin()?;
        match Vec::from_slice(self.alloc, text) {
            Ok(bytes) => {
                self.new_file = Some(MemoryBytes::made(bytes));
                Ok(())
            }
            Err(_) => Err(self.failed(ErrorKind::OutOfMemory)),
        }
    }

    fn sync_new_file(&mut self) -> io::Result<()> {
        self.begin()?;
        match &mut self.new_file {
            Some(new_file) => new_file.sync(),
            None => {}
        }
        Ok(())
    }

    fn rename_new_file(&mut self) -> io::Result<()> {
        self.begin()?;
        self.is_renamed = true;
        Ok(())
    }

    fn sync_folder(&mut self) -> io::Result<()> {
        self.begin()?;
        if self.is_renamed {
            match self.new_file.take() {
                Some(new_file) => self.text = new_file,
                None => {}
            }
            self.is_renamed = false;
        }
        self.is_named = true;
        Ok(())
    }
}
