//! One agent of a Serf cluster. Each of its calls is proved to be a step of an ideal agent that forgets nothing.
//!
//! [`Agent`] has three Lamport clocks, two windows of the latest user events and queries, the queries that it fired and
//! that still accept answers, and a snapshot of clock lines on a sink. Its contracts compare it with an ideal agent,
//! which keeps every event and query of all its lives and decides by that history alone. If the sinks of both agents
//! behave alike, each public call returns the same result as the ideal agent. Afterwards, the agent stores exactly the
//! view of the new ideal agent.
//!
//! Serf hands out an event before its clock line is written, and continues after a line couldn't be written (`serf.go`,
//! `delegate.go`, `snapshot.go`, `query.go`). This crate differs:
//!
//! - An event or a query is handed out only after its line is durable ([`Agent::receive`], [`Agent::fire`],
//!   [`Agent::query`]).
//! - The minimum times never fall ([`Agent::merge_remote_state`]), and the clocks of a new life begin above every time
//!   that was written ([`Agent::open`]).
//! - If the sink fails, the agent stops: it fires and accepts nothing until it is opened again.
//! - If a call runs out of memory, it changes nothing, and you may call it again. The only exception is a merge, which
//!   keeps the events that it had already accepted.
//!
//! The crate reads no clock and opens no socket: the caller passes in the moments, in nanoseconds, and the packets.
#![tactic(auto)]

mod agent;
mod answer;
mod borrowed_queries;
mod config;
mod defaults;
mod errors;
mod events;
mod flags;
mod judgement;
mod laws;
mod line_output;
mod lists;
mod member_clock;
mod open_queries;
mod open_query;
mod outcome;
mod own_line;
mod own_lines;
mod pending_query;
mod queries;
mod query_firing;
mod reading;
mod reason;
mod receive;
mod reopening;
mod states;
mod track;

pub use agent::Agent;
pub use answer::{answer_in, is_ack};
pub use borrowed_queries::BorrowedQueries;
pub use config::{Config, MAX_NAME_BYTES, MAX_PACKET_LIMIT, MAX_RESPONDERS, MAX_TEXT_BYTES};
pub use defaults::{
    DEFAULT_EVENT_LIMIT, DEFAULT_PER_TIME, DEFAULT_QUERY_LIMIT, DEFAULT_RESPONDERS,
    DEFAULT_RESPONSE_LIMIT, DEFAULT_SLOTS, DEFAULT_SNAPSHOT_LIMIT,
};
pub use laws::{
    keeping_laws, kept_compaction_laws, kept_life_promises, kept_restart_laws, kept_step_laws,
    kept_text_laws, life_promises, once_steps, short_packets, sound_steps, unkept_laws,
    unseen_laws, unseen_promises,
};
pub use lists::{BytesList, List, Response, Responses};
pub use open_query::OpenQuery;
pub use outcome::{
    EventOut, FireError, Fired, FiredQuery, MergeError, NotOpened, OpenError, Outcome,
    PushPullError, QueryError, QueryParams, Reason, ReceiveError, Reply, RespondError,
};
pub use pending_query::PendingQuery;
pub use queries::is_tag_filter;
