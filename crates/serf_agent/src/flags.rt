//! The flags of queries and their responses (Serf's `messages.go`).

ghost use Rattle.std.specs.Prelude.{◌≡◌};
ghost use Rattle.serf_agent.specs.Queries.{flags_of, has_flag};

/// In a query, this flag requests acks; in a response, it marks an ack.
pub(crate) const ACK: u32 = 1;

/// In a query, this flag forbids nodes to rebroadcast the query.
pub(crate) const NO_BROADCAST: u32 = 2;

/// Whether the bit of `flag` is set in `flags`.
pub(crate) fn has_flag(flag: u32, flags: u32) -> bool
    ensures { result ≡ has_flag flag flags }
{
    flags & flag != 0
}

/// The flags of a query that is fired.
pub(crate) fn flags_of(want_ack: bool, no_broadcast: bool) -> u32
    ensures { result ≡ flags_of want_ack no_broadcast }
{
    (if want_ack { ACK } else { 0 }) + (if no_broadcast { NO_BROADCAST } else { 0 })
}
