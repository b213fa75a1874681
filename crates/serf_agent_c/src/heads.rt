//! The structs that C reads and sets, with the same layout as in `include/serf_agent.h`. A field `.._len` is the length
//! in bytes of a text that a getter returns next to the struct.

/// An agent's settings, apart from its name. They include the number of slots of each buffer, and the maximum length of
/// a fired event in bytes. `responders` is how many names are counted among a query's acks, and among its responses.
/// `per_time` is how many events, or queries, are accepted with the same time. `ignore_old` is true if a join raises
/// the minimum time of events.
#[repr(C)]
#[derive(Clone, Copy)]
pub struct Settings {
    pub event_buffer: u64,
    pub query_buffer: u64,
    pub event_limit: u64,
    /// The maximum length of a fired query's packet in bytes, at most 9,216; 0 means 1,024.
    pub query_limit: u64,
    /// The maximum length of a response's packet in bytes, at most 9,216; 0 means 1,024.
    pub response_limit: u64,
    pub responders: u64,
    pub per_time: u64,
    pub ignore_old: bool,
    /// Whether a restart restores the events and the queries of the previous life.
    pub keep_events: bool,
}

/// The result of the last call. `kind` and `reason` are numbers of the header's enums; `reason` is why a packet was
/// ignored. `handed` is the number of the query that is handed out, `events` is how many events are handed out, and
/// `foreign` is the type of a foreign message. Each of these is 0 if there is none. `rebroadcast` is true if the
/// received packet has to be sent on unchanged.
#[repr(C)]
#[derive(Clone, Copy)]
pub struct ResultHead {
    pub kind: u32,
    pub reason: u32,
    pub handed: u64,
    pub events: usize,
    pub foreign: u8,
    pub rebroadcast: bool,
}

/// The number of bytes that are pending for the host's file, and whether they replace the file's text.
#[repr(C)]
#[derive(Clone, Copy)]
pub struct BytesHead {
    pub len: usize,
    pub replaces: bool,
}

/// An event that is handed out: its time, and Serf's flag `coalesce`.
#[repr(C)]
#[derive(Clone, Copy)]
pub struct EventHead {
    pub time: u64,
    pub name_len: usize,
    pub payload_len: usize,
    pub coalesce: bool,
}

/// The parameters of a query that is fired. Answers are accepted for `timeout` nanoseconds, at the port `port`, and
/// `relay_factor` nodes relay them. The other fields state whether the query requests acks, whether nodes must not send
/// it on, and whether this node's tags pass its tag filters.
#[repr(C)]
#[derive(Clone, Copy)]
pub struct Params {
    pub timeout: i64,
    pub port: u16,
    pub relay_factor: u8,
    pub want_ack: bool,
    pub no_broadcast: bool,
    pub tags_pass: bool,
}

/// A query that was handed out and not yet answered: its time, the last moment at which it can be answered, its ID, and
/// the port and the number of relays for its response. Its texts are its name, its payload, and the name and the
/// address of the node that fired it.
#[repr(C)]
#[derive(Clone, Copy)]
pub struct PendingQueryHead {
    pub time: u64,
    pub deadline: u64,
    pub name_len: usize,
    pub payload_len: usize,
    pub source_len: usize,
    pub addr_len: usize,
    pub id: u32,
    pub port: u16,
    pub relay_factor: u8,
}

/// The agent's three clocks, and the minimum times of the events and the queries that it accepts.
#[repr(C)]
#[derive(Clone, Copy)]
pub struct ClocksHead {
    pub member: u64,
    pub event: u64,
    pub query: u64,
    pub event_minimum: u64,
    pub query_minimum: u64,
}

/// The contents of an ack or a response: the time and the ID of its query, and whether it is an ack. Its texts are the
/// name of the node that sent it, and its payload.
#[repr(C)]
#[derive(Clone, Copy)]
pub struct AnswerHead {
    pub time: u64,
    pub from_len: usize,
    pub payload_len: usize,
    pub id: u32,
    pub is_ack: bool,
}

/// The first error of a packet that is not a message: its offset in bytes from the beginning of the packet, its kind as
/// in the header's enum, and the byte that it names, or 0 if it names none.
#[repr(C)]
#[derive(Clone, Copy)]
pub struct ErrorHead {
    pub offset: usize,
    pub kind: u32,
    pub byte: u8,
}

/// A query of this agent that the last call closed: its time, the last moment at which answers were counted, how many
/// nodes acked it and how many responded, and its ID.
#[repr(C)]
#[derive(Clone, Copy)]
pub struct ClosedHead {
    pub time: u64,
    pub deadline: u64,
    pub acks: usize,
    pub responses: usize,
    pub id: u32,
}

/// The lengths of a response's texts: the name of the node that responded, and the payload.
#[repr(C)]
#[derive(Clone, Copy)]
pub struct ResponseHead {
    pub from_len: usize,
    pub payload_len: usize,
}
