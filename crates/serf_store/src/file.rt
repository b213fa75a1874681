//! Defines the file that a store uses. Its calls work on the file with the text, on the new file next to it, and on
//! the folder of both.

ghost use Rattle.std.specs.Prelude.{◌≡◌, ℕ, [], Option, Some, IfOk, IfSome, OnOk, OnErr};
ghost use Rattle.std.specs.Option.{option_map};
ghost use Rattle.serf_snapshot.specs.Device.{counted};
ghost use Rattle.serf_store.specs.TextFile.{Becomes, GoesAsPlanned, HasSameFile, HasSameText, IsEither, IsReady, IsSettled, IsTorn, Kept, all_of, brought, made_with, renamed, settled, with_new_file, with_more, with_text};

use std::alloc::Global;
use std::io;

/// The file with the text of a snapshot, in its folder.
///
/// Each call corresponds to a single step of the operating system. The store is proved for every file of this kind,
/// and [`crate::SystemFile`] is the file of the operating system. Clauses about bytes apply to a file that exposes
/// its bytes, and clauses about a plan to a file that has one. The file records how many calls have failed, and the
/// contract of each call says what state a failure may leave.
pub trait TextFile {
    /// The bytes that a crash would leave, and what a replacement has done so far, if the file exposes them.
    ghost kept: { Self → Option Kept };

    /// How often a call has failed. The count stays at 2^64 - 1 once it has reached it.
    ghost failures: { Self → ℕ };

    /// For a file that has a plan: which call from now on fails, or 0 if none does.
    ghost plan: { Self → Option ℕ };

    /// Reads all bytes of the text.
    fn read(&mut self, alloc: Global) -> io::Result<Vec<u8>>
        ensures bytes { IfOk result (λ text. IfSome (kept self.old)
            (λ k. text.items ≡ all_of k.text)) }
        ensures kept { kept self.new ≡ kept self.old }
        ensures unfailed { OnOk result (failures self.new ≡ failures self.old) }
        ensures failed { OnErr result (failures self.new ≡ counted (failures self.old)) }
        ensures planned { GoesAsPlanned (plan self.old) (plan self.new) result };

    /// Writes `bytes` after the text. A crash may lose the bytes until they are synced to the device.
    fn write(&mut self, bytes: &[u8]) -> io::Result<()>
        requires { IsSettled (kept self.old) }
        ensures ok { OnOk result (kept self.new
            ≡ option_map (λ k. with_text (with_more bytes.now k.text) k) (kept self.old)) }
        ensures error { OnErr result (Becomes (IsTorn bytes.now) (kept self.old) (kept self.new)) }
        ensures unfailed { OnOk result (failures self.new ≡ failures self.old) }
        ensures failed { OnErr result (failures self.new ≡ counted (failures self.old)) }
        ensures planned { GoesAsPlanned (plan self.old) (plan self.new) result };

    /// Syncs the bytes of the text to the device.
    fn sync(&mut self) -> io::Result<()>
        requires { IsSettled (kept self.old) }
        ensures ok { OnOk result (kept self.new
            ≡ option_map (λ k. with_text (brought k.text) k) (kept self.old)) }
        ensures error { OnErr result (Becomes (IsTorn []) (kept self.old) (kept self.new)) }
        ensures unfailed { OnOk result (failures self.new ≡ failures self.old) }
        ensures failed { OnErr result (failures self.new ≡ counted (failures self.old)) }
        ensures planned { GoesAsPlanned (plan self.old) (plan self.new) result };

    /// Creates a new file with `text` next to the text's file.
    fn write_new_file(&mut self, text: &[u8]) -> io::Result<()>
        requires { IsSettled (kept self.old) }
        ensures ok { OnOk result (kept self.new
            ≡ option_map (with_new_file (Some (made_with text.now))) (kept self.old)) }
        ensures error { OnErr result (Becomes HasSameText (kept self.old) (kept self.new)) }
        ensures unfailed { OnOk result (failures self.new ≡ failures self.old) }
        ensures failed { OnErr result (failures self.new ≡ counted (failures self.old)) }
        ensures planned { GoesAsPlanned (plan self.old) (plan self.new) result };

    /// Syncs the bytes of the new file to the device.
    fn sync_new_file(&mut self) -> io::Result<()>
        ensures ok { OnOk result (kept self.new
            ≡ option_map (λ k. with_new_file (option_map brought k.new_file) k) (kept self.old)) }
        ensures error { OnErr result (Becomes HasSameText (kept self.old) (kept self.new)) }
        ensures unfailed { OnOk result (failures self.new ≡ failures self.old) }
        ensures failed { OnErr result (failures self.new ≡ counted (failures self.old)) }
        ensures planned { GoesAsPlanned (plan self.old) (plan self.new) result };

    /// Renames the new file, whose bytes are on the device, to the name of the text's file.
    ///
    /// Until the folder is synced to the device, a crash may leave either the old file or the new one under this
    /// name.
    fn rename_new_file(&mut self) -> io::Result<()>
        requires { IsReady (kept self.old) }
        ensures ok { OnOk result (kept self.new ≡ option_map renamed (kept self.old)) }
        ensures error { OnErr result (Becomes HasSameFile (kept self.old) (kept self.new)) }
        ensures unfailed { OnOk result (failures self.new ≡ failures self.old) }
        ensures failed { OnErr result (failures self.new ≡ counted (failures self.old)) }
        ensures planned { GoesAsPlanned (plan self.old) (plan self.new) result };

    /// Syncs the names in the folder to the device.
    fn sync_folder(&mut self) -> io::Result<()>
        ensures ok { OnOk result (kept self.new ≡ option_map settled (kept self.old)) }
        ensures error { OnErr result (Becomes IsEither (kept self.old) (kept self.new)) }
        ensures unfailed { OnOk result (failures self.new ≡ failures self.old) }
        ensures failed { OnErr result (failures self.new ≡ counted (failures self.old)) }
        ensures planned { GoesAsPlanned (plan self.old) (plan self.new) result };
}
