//! Reads and writes the gossip messages that carry user events and queries (Serf's `messages.go`).
//!
//! A packet is a type byte, followed by one MessagePack value. `decode` reads a packet in place, without
//! allocating memory, and accepts every spelling that MessagePack has. It returns the message or the packet's
//! first error. The encoders write the one canonical packet of a message. `passes` decides whether a node
//! should answer a query. `read_intent` and `encode_intent` read and write the two intents, joins and leaves,
//! for hosts that handle members. `decode` doesn't read intents.
#![tactic(auto)]

mod borrowed_slots;
mod checked;
mod compact;
mod encode;
mod error;
mod errors;
mod fast;
mod fields;
mod filter;
mod found;
mod intent;
mod intent_write;
mod key;
mod laws;
mod layout;
mod length;
mod lists;
mod long;
mod message;
mod packet;
mod put;
mod reserved;
mod steps;
mod texts;

pub use borrowed_slots::{BorrowedEventSlots, BorrowedSlot, BorrowedSlots};
pub use encode::{EncodeError, encode_push_pull, encode_query, encode_response, encode_user_event};
pub use error::WireError;
pub use filter::{node_filter, passes};
pub use intent::{Intent, Join, Leave, read_intent};
pub use intent_write::{encode_intent, intent_len};
pub use laws::{
    canonical_intents, canonical_packets, decoded_ranges, decoded_texts, exact_decoding,
    exact_filters, exact_intents, ordered_errors,
};
pub use length::{query_len, response_len, user_event_len};
pub use lists::{EventView, EventViews, SlotView, SlotViews, StatusTime, StatusTimes, Texts};
pub use message::{Message, PushPull, PushPullParts, Query, QueryResponse, UserEvent};
pub use packet::{decode, decode_user_event};
pub use reserved::ReservedVec;
pub use texts::{Bytes, EventBodies, EventBody, Slot, TimeSlot};
