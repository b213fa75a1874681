//! The kinds of random schedules, and the names by which a command line refers to them.

ghost use Rattle.std.specs.Prelude.{◌≡◌};
ghost use Rattle.std.specs.Str.{bytes_eq};
ghost use Rattle.serf_random.specs.Kind.{is_rounds, kind_name, kind_of};

/// The kind of a random schedule, which determines what edge cases are frequent.
#[derive(Clone, Copy, PartialEq, Eq)]
pub enum Kind {
    /// A little of everything.
    Mixed,
    /// Small windows, which span 1 to 3 times, and few names.
    Tiny,
    /// Merges of states, some of them at joins. Some of the states are cut off.
    Merges,
    /// Agents that are restarted from snapshots with torn tails.
    Restarts,
    /// Disks that fail.
    Devices,
    /// Packets that are injected from outside the cluster, with times at the edges of an agent's window.
    Injections,
    /// Queries, their acks and responses, and their deadlines.
    Queries,
    /// Texts and packets that are about as large as the limits allow.
    Limits,
    /// Clocks near the largest time.
    Exhaustion,
    /// Many events with the same time.
    PerTime,
    /// Snapshots that are compacted, on disks that may fail.
    Compactions,
    /// Packets that travel through the cluster: each packet reaches most agents, some packets are lost, and states are
    /// exchanged from time to time.
    Gossip,
    /// Injected packets in any spelling that the grammar allows, and in some spellings that are only just invalid.
    Spellings,
    /// Agents that keep their events, and that are restarted from complete and from torn lines of these events.
    Kept,
    /// Rounds of gossip: in each round, agents spread the packets that are new to them among a few other agents, chosen
    /// at random.
    Rounds,
}

/// Whether `text` equals `name`.
fn is_name(name: &[u8], text: &[u8]) -> bool
    ensures { result ≡ bytes_eq name.now text.now }
{
    name == text
}

impl Kind {
    /// Returns the name by which a command line refers to this kind.
    pub fn name(self) -> &'static [u8]
        ensures { result.now ≡ kind_name self }
    {
        match self {
            Kind::Mixed => b"mixed",
            Kind::Tiny => b"tiny",
            Kind::Merges => b"merges",
            Kind::Restarts => b"restarts",
            Kind::Devices => b"devices",
            Kind::Injections => b"injections",
            Kind::Queries => b"queries",
            Kind::Limits => b"limits",
            Kind::Exhaustion => b"exhaustion",
            Kind::PerTime => b"per-time",
            Kind::Compactions => b"compactions",
            Kind::Gossip => b"gossip",
            Kind::Spellings => b"spellings",
            Kind::Kept => b"kept",
            Kind::Rounds => b"rounds",
        }
    }

    /// Returns the kind with the name `name`, or `None` if no kind has this name.
    pub fn of_name(name: &[u8]) -> Option<Kind>
        ensures { result ≡ kind_of name.now }
    {
        if is_name(name, b"mixed") {
            Some(Kind::Mixed)
        } else if is_name(name, b"tiny") {
            Some(Kind::Tiny)
        } else if is_name(name, b"merges") {
            Some(Kind::Merges)
        } else if is_name(name, b"restarts") {
            Some(Kind::Restarts)
        } else if is_name(name, b"devices") {
            Some(Kind::Devices)
        } else if is_name(name, b"injections") {
            Some(Kind::Injections)
        } else if is_name(name, b"queries") {
            Some(Kind::Queries)
        } else if is_name(name, b"limits") {
            Some(Kind::Limits)
        } else if is_name(name, b"exhaustion") {
            Some(Kind::Exhaustion)
        } else if is_name(name, b"per-time") {
            Some(Kind::PerTime)
        } else if is_name(name, b"compactions") {
            Some(Kind::Compactions)
        } else if is_name(name, b"gossip") {
            Some(Kind::Gossip)
        } else if is_name(name, b"spellings") {
            Some(Kind::Spellings)
        } else if is_name(name, b"kept") {
            Some(Kind::Kept)
        } else if is_name(name, b"rounds") {
            Some(Kind::Rounds)
        } else {
            None
        }
    }

    /// Whether schedules of this kind consist of rounds. Only schedules of rounds have a fanout, losses and a number of
    /// rounds.
    pub fn is_rounds(self) -> bool
        ensures { result ≡ is_rounds self }
    {
        match self {
            Kind::Rounds => true,
            _ => false,
        }
    }
}
