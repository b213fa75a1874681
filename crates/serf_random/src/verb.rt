//! The steps that a generator can choose, and how often it chooses each of them in each kind of schedule.

use crate::kind::Kind;
use crate::verb::Verb::{
    Answer, Break, Close, Event, Exchange, Fire, FireQuery, Foreign, Merge, Pass, Query, Repeat,
    Respond, Restart, Spelled, Spoil, State,
};
use serf_schedule::Bare;

/// The next step of a generator: an agent acts, or the generator injects a packet from outside the cluster, which an
/// agent receives next.
#[derive(Clone, Copy)]
pub(crate) enum Verb {
    /// An agent fires an event.
    Fire,
    /// An agent receives the next packet that it hasn't received yet.
    Pass,
    /// An agent receives one of the most recent packets.
    Repeat,
    /// An agent sends its state, and another agent merges it.
    Exchange,
    /// An agent merges one of the most recent packets, whatever the packet's type is.
    Merge,
    /// An agent fires a query.
    FireQuery,
    /// An agent responds to a query that was handed out to it.
    Respond,
    /// An agent is restarted.
    Restart,
    /// One of the next calls to an agent's disk will fail.
    Break,
    /// An injected event, whose time is at an edge of the agent's window.
    Event,
    /// An injected query, whose time is at an edge of the agent's window.
    Query,
    /// An injected ack or response to the last query.
    Answer,
    /// An injected state, which the agent merges.
    State,
    /// A damaged packet: one of the most recent packets, or an event from outside the cluster. The damaged packet is
    /// cut off, or it contains an additional or a changed byte.
    Spoil,
    /// An injected packet in any spelling, sometimes with an error.
    Spelled,
    /// An injected packet that contains one of Serf's other messages, or no message at all.
    Foreign,
    /// An agent closes all its open queries whose deadlines have passed.
    Close,
    /// An agent performs an act that has no arguments.
    Bare(Bare),
}

/// An agent writes its member clock.
const SAVE: Verb = Verb::Bare(Bare::Save);

/// An agent compacts its snapshot.
const COMPACT: Verb = Verb::Bare(Bare::Compact);

/// Returns the verbs among which a generator chooses at random in schedules of the kind `kind`. The more often a verb
/// appears in the list, the more often the generator chooses it. The list for schedules of rounds is empty, because
/// generators don't make these schedules.
pub(crate) fn verbs(kind: Kind) -> &'static [Verb] {
    match kind {
        Kind::Mixed => &[
            Fire, Fire, Pass, Pass, Pass, Pass, Repeat, Repeat, Exchange, Merge, FireQuery,
            Respond, Restart, Break, Event, Event, Query, Answer, Answer, State, Spoil, Spelled,
            Spelled, Spelled, Foreign, Close, SAVE, COMPACT,
        ],
        Kind::Tiny => &[
            Fire, Fire, Fire, Pass, Pass, Repeat, Repeat, Exchange, FireQuery, Event, Query,
            Restart,
        ],
        Kind::Merges => &[
            Fire, Fire, Pass, Repeat, Exchange, Exchange, Exchange, Merge, State, State, Break,
            Restart,
        ],
        Kind::Restarts => &[
            Fire, Fire, Pass, Pass, Repeat, Repeat, Restart, Restart, Exchange, FireQuery, Respond,
            SAVE, Event, Query,
        ],
        Kind::Devices => &[
            Fire, Fire, Pass, Repeat, Break, Break, Break, Restart, Restart, Exchange, FireQuery,
            SAVE, COMPACT, Event,
        ],
        Kind::Injections => &[
            Fire, Pass, Repeat, Event, Event, Event, Query, Query, State, Spoil, Spoil, Spoil,
            Merge, Restart,
        ],
        Kind::Queries => &[
            FireQuery, FireQuery, FireQuery, Pass, Pass, Pass, Repeat, Respond, Respond, Respond,
            Query, Answer, Answer, Answer, Close, Restart,
        ],
        Kind::Limits => &[
            Fire, Fire, Fire, Event, Event, FireQuery, Respond, Pass, Exchange, State,
        ],
        Kind::Exhaustion => &[
            Event, Event, Query, State, Fire, Fire, FireQuery, FireQuery, Restart, Exchange, SAVE,
            Repeat,
        ],
        Kind::PerTime => &[Event, Event, Event, Query, State, Repeat, Exchange, Restart],
        Kind::Compactions => &[
            Fire, Fire, Pass, FireQuery, SAVE, COMPACT, COMPACT, COMPACT, Break, Restart, Restart,
            Event,
        ],
        Kind::Gossip => &[
            Fire, Pass, Pass, Pass, Pass, Pass, Pass, Pass, Pass, Pass, Pass, Pass, Repeat,
            Exchange, FireQuery, Respond,
        ],
        Kind::Spellings => &[
            Spelled, Spelled, Spelled, Spelled, Spelled, Spelled, Spelled, Spelled, Foreign,
            Foreign, Fire, FireQuery, Respond, Repeat, Merge, Exchange, Close, SAVE, Break,
            Restart,
        ],
        Kind::Kept => &[
            Fire, Fire, Fire, Pass, Pass, Pass, Repeat, Repeat, Exchange, Exchange, Merge,
            FireQuery, FireQuery, Event, Event, Query, Query, State, SAVE, Break, COMPACT, COMPACT,
            Restart, Restart, Restart, Restart,
        ],
        Kind::Rounds => &[],
    }
}
