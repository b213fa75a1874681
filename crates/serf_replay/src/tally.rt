//! Counts how often something occurred, and records at which action it last occurred.

ghost use Rattle.std.specs.Prelude.{◌≡◌, OnOk, if◌then◌else◌};
ghost use Rattle.std.specs.Option.{option_copied};
ghost use Rattle.indexmap.specs.IndexMap.{get, insert_entry};
ghost use Rattle.serf_replay.specs.Tally.{again, recorded};

use indexmap::IndexMap;
use std::alloc::AllocError;
use std::hash::Hash;

/// How often something occurred (`times`, which is capped at 2^64 - 1), and the number of the action at which it last
/// occurred (`last`).
#[derive(Clone, Copy, PartialEq, Eq)]
pub struct Frequency {
    pub times: u64,
    pub last: u64,
}

/// Returns the frequency of something that has just occurred at action number `action`. `found` is the frequency before
/// this action, or `None` if there was no earlier occurrence.
fn once_more(found: Option<&Frequency>, action: u64) -> Frequency
    ensures { result ≡ again action (option_copied found.entry) }
{
    match found {
        Some(frequency) => Frequency {
            times: frequency.times.saturating_add(1),
            last: action,
        },
        None => Frequency {
            times: 1,
            last: action,
        },
    }
}

/// Counts an occurrence of `key` at action number `action` in the table `found`. A new key is appended after the other
/// keys.
pub(crate) fn count_one<K: Eq + Hash + Drop>(
    found: &mut IndexMap<K, Frequency>,
    key: K,
    action: u64,
) -> Result<(), AllocError>
    ensures frequency { OnOk result ((q : K) → get K.eq found.new q
        ≡ recorded (K.eq key q) (again action (get K.eq found.old key)) (get K.eq found.old q)) }
    ensures order { OnOk result (found.new.entries ≡ insert_entry K.eq found.old.entries key
        (again action (get K.eq found.old key))) }
{
    let frequency = once_more(found.get(&key), action);
    match found.insert(key, frequency) {
        Ok(_) => Ok(()),
        Err(_) => Err(AllocError),
    }
}
