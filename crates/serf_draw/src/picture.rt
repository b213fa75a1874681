//! Describes the contents of a picture.

use serf_wire::Bytes;

/// How an action ended.
#[derive(Clone, Copy, PartialEq, Eq)]
pub enum Tone {
    /// The action did what it was meant to do.
    Taken,
    /// The action's packet changed nothing.
    Ignored,
    /// The action was refused.
    Refused,
}

/// The sender of a packet: the action that sent the packet, and the agent that acted. Actions are numbered from 1. If
/// the packet was injected, the agent is `None`.
#[derive(Clone, Copy, PartialEq, Eq)]
pub struct Sender {
    pub agent: Option<u64>,
    pub action: u64,
    /// The number of drawn actions before the action that sent the packet.
    pub above: u64,
}

/// A packet that was sent: its sender, whether the sending action is drawn, and whether some action passed the packet
/// to an agent.
#[derive(Clone, Copy, PartialEq, Eq)]
pub struct Packet {
    pub sender: Sender,
    pub is_shown: bool,
    pub is_given: bool,
}

/// The origin of the packet that an action passes to its agent.
#[derive(Clone, Copy, PartialEq, Eq)]
pub enum Arrow {
    /// The action passes no packet to its agent.
    NoPacket,
    /// The action names a packet that hasn't been sent yet.
    Unsent,
    /// The packet was sent by this sender.
    From(Sender),
}

/// A row of a picture, which shows one action.
#[derive(Drop)]
pub struct Row {
    /// The action's number, counted from 1.
    pub action: u64,
    /// The number of rows above this row.
    pub above: u64,
    /// The agent that acts, or `None` if the action injects a packet.
    pub agent: Option<u64>,
    pub tone: Tone,
    /// The words that describe the action and its outcome. The label contains at most 72 bytes, which may have any
    /// values.
    pub label: Bytes,
    pub arrow: Arrow,
    /// The agent's event clock if the action changed this clock, and `None` otherwise.
    pub event_clock: Option<u64>,
    /// Whether the action opened the agent again.
    pub restarts: bool,
}

/// The lane of an agent, with the agent's number and name. The picture shows at most 12 bytes of the name.
#[derive(Drop)]
pub struct Lane {
    pub agent: u64,
    pub name: Bytes,
}

/// A picture of a run: the lanes of the agents, the rows of the drawn actions, and the packets that these actions sent
/// but no agent received.
#[derive(Drop)]
pub struct Picture {
    pub lanes: Vec<Lane>,
    pub rows: Vec<Row>,
    /// The senders of the packets that no action passes to an agent. The list contains one sender for each packet, in
    /// the order in which the packets were sent.
    pub lost: Vec<Sender>,
}
