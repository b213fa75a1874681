//! The programs that may be started on a snapshot, and therefore read it.

/// The program that is started on a snapshot.
#[derive(Clone, Copy, PartialEq, Eq)]
pub enum Reader {
    /// Stock Serf 0.9.4, started with `-rejoin` if `rejoins` is true.
    Serf {
        /// Whether Serf resumes from the whole snapshot even if the node left.
        rejoins: bool,
    },
    /// An agent of this project, with the default settings except that `keep_events` is set to `keeps`.
    Agent {
        /// Whether the agent restores the events and queries that the snapshot keeps.
        keeps: bool,
    },
}
