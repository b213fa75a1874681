//! The labels of a written schedule.

ghost use Rattle.std.specs.Prelude.{◌≡◌, ◌==◌};
ghost use Rattle.std.specs.List.{list_any};
ghost use Rattle.std.specs.Option.{option_map};
ghost use Rattle.serf_write.specs.Written.{is_new_label, label_of};
ghost use Rattle.serf_write.specs.LabelErrors.{error_after_label};

use crate::values::named_label;
use crate::word_error::{LineError, WordError};
use serf_text::number;
use serf_wire::Bytes;

/// The label of a line. The numbers of the packets that the line sent begin with `first` and end before `past`.
#[derive(Drop)]
pub struct Label {
    pub name: Bytes,
    pub first: u64,
    pub past: u64,
}

/// Returns the label in `word`, that is, the bytes before the colon at the end of the word. Returns `None` if `word`
/// doesn't end with a colon.
pub(crate) fn label_in(word: &[u8]) -> Option<&[u8]>
    ensures { option_map (λ name. name.now) result ≡ label_of word.now }
{
    let size = word.len();
    if size > 0 && word[size - 1] == b':' {
        Some(&word[..size - 1])
    } else {
        None
    }
}

/// Returns whether `name` contains a slash.
fn has_slash(name: &[u8]) -> bool
    ensures { result ≡ list_any (λ b. b == 47) name.now }
{
    name.iter().any(|b| *b == b'/')
}

/// Returns whether `name` can be the name of a new label. The name of a new label must not be empty, must not be a
/// number, must not contain a slash, and must differ from the name of each label in `labels`.
pub(crate) fn may_be_label(labels: &[Label], name: &[u8]) -> bool
    ensures { result ≡ is_new_label labels.now name.now }
{
    let is_number = number(name).is_some();
    let has_slash = has_slash(name);
    let is_taken = named_label(labels, name).is_some();
    !name.is_empty() && !is_number && !has_slash && !is_taken
}

/// Converts an error in the tokens after a label to an error in the whole line. The label is itself a token of the
/// whole line, so the place of the error is one higher.
pub(crate) fn after_label(error: LineError) -> LineError
    ensures { result ≡ error_after_label error }
{
    match error {
        LineError::Bad(WordError { place, expected }) => LineError::Bad(WordError {
            place: place.saturating_add(1),
            expected,
        }),
        LineError::OutOfMemory => LineError::OutOfMemory,
    }
}
