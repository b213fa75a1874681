//! Finds the items in a list whose keys appear for the first time, or the items whose keys appeared earlier. Keys are
//! looked up by their hashes.

ghost use Rattle.std.specs.Prelude.{◌≡◌, ◌++◌, ◌∷◌, [], IfOk, List, OnOk, map};
ghost use Rattle.std.specs.HashSet.{contains};
ghost use Rattle.serf_judge.specs.Again.{firsts_of};
ghost use Rattle.serf_judge.specs.Identity.{handed_seen};
ghost use Rattle.serf_judge.specs.Recorded.{AreKept};
ghost use Rattle.serf_judge.specs.Tallies.{repeats_among};

use crate::key::{Delivered, Delivery};
use std::alloc::{AllocError, Global};
use std::collections::HashSet;
use std::hash::Hash;

/// Records `key`, which is the key of `item`, in `recorded`. If `again` is true, appends `item` to `found` only if the
/// key was recorded before. If `again` is false, appends `item` to `found` only if the key is new.
fn keep<K: Eq + Hash + Copy, T: Copy>(
    recorded: &mut HashSet<K>,
    found: &mut Vec<T>,
    key: K,
    item: T,
    again: bool,
) -> Result<(), AllocError>
    ensures { (key_of : T → K) (items : List T) → key_of item ≡ key
        → AreKept again K.eq key_of items found.old.items (contains K.eq recorded.old)
        → OnOk result (AreKept again K.eq key_of (items ++ item ∷ []) found.new.items
        (contains K.eq recorded.new)) }
{
    let is_new = recorded.insert(key)?;
    if is_new == again {
        return Ok(());
    }
    found.push(item)?;
    Ok(())
}

/// Returns each key in `keys` once, in the order in which the keys first appear.
pub(crate) fn firsts<K: Eq + Hash + Copy>(alloc: Global, keys: &[K]) -> Result<Vec<K>, AllocError>
    ensures { IfOk result (λ found. found.items ≡ firsts_of K.eq keys.now) }
{
    let mut recorded = HashSet::new(alloc);
    let mut found = Vec::new(alloc);
    for key in keys {
        keep(&mut recorded, &mut found, *key, *key, false)?;
    }
    Ok(found)
}

/// Returns, in order, the entries that hand a node an event or a query that an earlier entry already handed to the same
/// node.
pub(crate) fn repeats<'a, E: Delivered>(
    alloc: Global,
    entries: &'a [E],
) -> Result<Vec<Delivery<'a>>, AllocError>
    ensures { IfOk result (λ found. map handed_seen found.items
        ≡ repeats_among (map E.seen entries.entry.now)) }
{
    let mut recorded = HashSet::new(alloc);
    let mut found = Vec::new(alloc);
    for entry in entries {
        let line = entry.handed();
        keep(&mut recorded, &mut found, line.key, line, true)?;
    }
    Ok(found)
}
