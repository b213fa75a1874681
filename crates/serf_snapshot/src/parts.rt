//! Splits a text into its lines, and a line into its parts.

ghost use Rattle.std.specs.Prelude.{false, ◌≡◌, ◌<◌, ◌==◌, ◌∷◌, [], All, IfNone, IfSome, length, position, MatchOption};
ghost use Rattle.std.specs.List.{slice_split};
ghost use Rattle.serf_snapshot.specs.Clocks.{lines_of};

/// Returns the index of the first `separator` in `text`, or `None` if there is none.
fn place_of(text: &[u8], separator: u8) -> Option<usize>
    ensures place { result ≡ position (λ b. b == separator) text.now }
    ensures none { IfNone result (All (λ b. (b == separator) ≡ false) text.now) }
{
    text.iter().position(|b| *b == separator)
}

/// Returns the part of `text` before the first `separator`, and the part after it if there is a separator. Allocates
/// no memory.
pub(crate) fn split_once(text: &[u8], separator: u8) -> (&[u8], Option<&[u8]>)
    ensures parts { MatchOption result.1
        (slice_split (λ b. b == separator) text.now ≡ result.0.now ∷ [])
        (λ rest. slice_split (λ b. b == separator) text.now
        ≡ result.0.now ∷ slice_split (λ b. b == separator) rest.now) }
    ensures shorter { IfSome result.1 (λ rest. length rest.now < length text.now) }
{
    match place_of(text, separator) {
        Some(at) => (&text[..at], Some(&text[at + 1..])),
        None => (text, None),
    }
}

/// Returns the first line of `text` without its newline, and the rest of `text` after the newline. Returns `None` if
/// `text` has no newline, because bytes after the last newline aren't a line. Allocates no memory.
pub(crate) fn first_line(text: &[u8]) -> Option<(&[u8], &[u8])>
    ensures line { MatchOption result (lines_of text.now ≡ [])
        (λ l. lines_of text.now ≡ l.0.now ∷ lines_of l.1.now) }
    ensures shorter { IfSome result (λ l. length l.1.now < length text.now) }
{
    let (line, more) = split_once(text, b'\n');
    match more {
        Some(rest) => Some((line, rest)),
        None => None,
    }
}
