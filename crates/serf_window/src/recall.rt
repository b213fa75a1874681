//! The entries with which a window is filled again after a restart.

use serf_lamport::Time;

/// A kept entry: its time and its key, which is borrowed.
#[derive(Clone, Copy, Debug)]
pub struct Offer<L> {
    pub time: Time,
    pub key: L,
}
