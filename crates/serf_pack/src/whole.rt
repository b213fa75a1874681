//! Checks that bytes are exactly one value.

ghost use Rattle.std.specs.Prelude.{◌≡◌, ◌≤◌, length, IfOk, IfErr, IsOkAnd, Err};
ghost use Rattle.serf_pack.specs.declared.error.PackError.{PackError as DeclaredError};
ghost use Rattle.serf_pack.specs.Tree.{Tree};
ghost use Rattle.serf_pack.specs.Packs.{Packs};
ghost use Rattle.serf_pack.specs.Breaks.{IsMalformed, error_place};
ghost use Rattle.serf_pack.specs.Reading.{Gives, whole_at};
ghost use Rattle.serf_pack.specs.View.{tree_of};

use crate::error::PackError;
use crate::skip::skip;
use crate::view::View;

/// The maximum depth of nested arrays and maps.
const MAX_NESTING: u64 = 8;

/// Returns a view of the one value that `bytes` spell, or the first error that is found when the bytes are
/// read from left to right.
#[tactic(auto, unfolding(crate::specs::Reading::whole_at))]
#[inline(always)]
fn read_whole(bytes: &[u8]) -> Result<View<'_>, PackError>
    ensures { Gives tree_of result (whole_at 8 bytes.now) }
{
    let rest = skip(MAX_NESTING, bytes.len(), bytes)?;
    if !rest.is_empty() {
        return Err(PackError::Trailing(bytes.len() - rest.len()));
    }
    Ok(View {
        bytes,
        total: bytes.len(),
        depth_left: MAX_NESTING,
    })
}

/// Returns a view of the one value that `bytes` spell, or the first error in reading order. The offset of the
/// error is in bytes from the start. The error of a value at some place is the first of these:
///
/// 1. `Truncated`, if the bytes end there;
/// 2. `Unsupported`, if no format of the profile begins with its first byte;
/// 3. `Truncated`, if its number, its length or count, or its raw bytes pass the end;
/// 4. `TooDeep`, if it is an array or a map and is nested inside eight others;
/// 5. the first error of its items or pairs (a key, then its value), in order.
///
/// If the value has no error and more bytes follow, the result is `Trailing`, with the offset of the first
/// byte after the value. The bytes are borrowed and never changed. Allocates no memory.
///
/// Source: MessagePack specification, "Formats".
pub fn check(bytes: &[u8]) -> Result<View<'_>, PackError>
    // The bytes spell the value that the view shows.
    ensures packs { IfOk result (λ view. Packs (tree_of view) 0 0 bytes.now) }
    // If the bytes spell a value, the result is a view of it.
    ensures only { (v : Tree) → Packs v 0 0 bytes.now → IsOkAnd result (λ view. tree_of view ≡ v) }
    // If the result is an error, it is the first error of the bytes.
    ensures error { IfErr result (IsMalformed bytes.now) }
    ensures only_error { (f : DeclaredError) → IsMalformed bytes.now f → result ≡ Err f }
    // The result agrees with the definition `whole_at`, which reads from left to right.
    ensures exact { Gives tree_of result (whole_at 8 bytes.now) }
    // The place of an error is in the bytes, or at their end.
    ensures place { IfErr result (λ f. error_place f ≤ length bytes.now) }
{
    read_whole(bytes)
}

/// Returns a view of the one value that `bytes` spell. The caller must know that they spell one. The result
/// is the same as that of [`check`], but the bytes aren't read again. Allocates no memory.
pub fn view_packed(bytes: &[u8]) -> View<'_>
    requires packed { (v : Tree) × Packs v 0 0 bytes.now }
    ensures { (v : Tree) → Packs v 0 0 bytes.now → tree_of result ≡ v }
{
    let depth_left = MAX_NESTING;
    View {
        bytes,
        total: bytes.len(),
        depth_left,
    }
}
