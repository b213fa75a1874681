//! The paths of the file with a text, of the new file next to it, and of the folder of both.

ghost use Rattle.std.specs.Prelude.{◌≡◌, ◌++◌, IfOk, string_bytes};
ghost use Rattle.serf_store.specs.Paths.{new_file_of, folder_of};

use std::alloc::{AllocError, Global};
use std::path::Path;

/// The suffix that the path of the new file adds to the path of the file with the text.
const NEW_SUFFIX: &str = ".new";

/// The paths that a store uses for a text.
#[derive(Drop)]
pub struct Paths {
    /// The file with the text.
    pub file: String,
    /// The file to which a new text is written before it takes the place of the old one.
    pub new_file: String,
    /// The folder of both files.
    pub folder: String,
}

impl Paths {
    /// Returns the paths for a text whose file is at `path`.
    pub fn of(alloc: Global, path: &str) -> Result<Self, AllocError>
        ensures file { IfOk result (λ p. string_bytes p.file ≡ path.now) }
        ensures new_file { IfOk result (λ p. string_bytes p.new_file ≡ new_file_of path.now) }
        ensures folder { IfOk result (λ p. string_bytes p.folder ≡ folder_of path.now) }
    {
        Ok(Paths {
            file: String::from_str(alloc, path)?,
            new_file: joined(alloc, path, NEW_SUFFIX)?,
            folder: String::from_str(alloc, folder_of(path))?,
        })
    }
}

/// Returns `text` followed by `more`, in a new string.
fn joined(alloc: Global, text: &str, more: &str) -> Result<String, AllocError>
    ensures { IfOk result (λ s. string_bytes s ≡ text.now ++ more.now) }
{
    let mut whole = String::from_str(alloc, text)?;
    whole.push_str(more)?;
    Ok(whole)
}

/// Returns the folder of the file at `path`: its parent, or the current folder if the path has no parent.
pub fn folder_of(path: &str) -> &str
    ensures { result.now ≡ folder_of path.now }
{
    let folder = match Path::new(path).parent() {
        Some(parent) => parent.as_str(),
        None => "",
    };
    if folder.is_empty() { "." } else { folder }
}
