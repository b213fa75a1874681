//! Defines which messages exist, and the fields of their maps (Serf's `messages.go`).

ghost use Rattle.std.specs.Prelude.{◌≡◌, Some};
ghost use Rattle.std.specs.Str.{bytes_eq};
ghost use Rattle.serf_wire.specs.declared.layout.Layout.TheVariants as layouts;
ghost use Rattle.serf_wire.specs.Layout.{class_of, fields_of, field_in, layout_of, rows_of};

/// The layouts of maps. There is one for each kind of map whose keys are known.
#[derive(Clone, Copy)]
pub enum Layout {
    UserEvent,
    Query,
    QueryResponse,
    PushPull,
    Slot,
    Event,
    Join,
    Leave,
}

/// The messages that `decode` reads.
#[derive(Clone, Copy)]
pub enum MessageType {
    UserEvent,
    Query,
    QueryResponse,
    PushPull,
}

/// The content that follows a packet's type byte.
#[derive(Clone, Copy)]
pub enum Class {
    /// A map with the fields of this message follows.
    Read(MessageType),
    /// Any bytes follow, because messages of this type are not read.
    Foreign,
    /// No message has this type.
    Unknown,
}

/// The kind of a field's value.
#[derive(Clone, Copy)]
pub enum Kind {
    /// A time.
    Time,
    /// An integer from 0 to this maximum.
    Natural(u64),
    /// A signed integer of 64 bits.
    Signed,
    /// A text, or other bytes.
    Text,
    /// A truth value.
    Flag,
    /// A list of texts.
    Texts,
    /// A map from names to times.
    Status,
    /// A list of maps with the fields of this layout, or nils.
    Maps(Layout),
}

/// A field of a map: its place in the layout, and the kind of its value.
#[derive(Clone, Copy)]
pub struct Field {
    pub place: usize,
    pub kind: Kind,
}

/// Returns the class of content that follows the type byte `kind`.
pub fn class_for(kind: u8) -> Class
    ensures { result ≡ class_of kind }
{
    match kind {
        2 => Class::Read(MessageType::PushPull),
        3 => Class::Read(MessageType::UserEvent),
        4 => Class::Read(MessageType::Query),
        5 => Class::Read(MessageType::QueryResponse),
        0 | 1 | 6..=9 => Class::Foreign,
        _ => Class::Unknown,
    }
}

/// Returns the layout of the map of `message`.
pub fn layout_for(message: MessageType) -> Layout
    ensures { result ≡ layout_of message }
{
    match message {
        MessageType::UserEvent => Layout::UserEvent,
        MessageType::Query => Layout::Query,
        MessageType::QueryResponse => Layout::QueryResponse,
        MessageType::PushPull => Layout::PushPull,
    }
}

/// Returns whether `name`, the bytes of a key, is equal to the `known` key.
fn is_name(name: &[u8], known: &[u8]) -> bool
    ensures { result ≡ bytes_eq name.now known.now }
{
    name == known
}

/// A field of a map: its key, and the kind of its value.
#[derive(Clone, Copy)]
pub struct NamedField {
    pub key: &'static [u8],
    pub kind: Kind,
}

/// Returns the field whose key is `name`, if there is one among `fields`, which are in their canonical order.
#[tactic(auto, using(crate::proofs::TableLaws::field_here, crate::proofs::TableLaws::none_here, crate::proofs::TableLaws::none_there))]
fn field_among(fields: &[NamedField], name: &[u8]) -> Option<Field>
    ensures { result ≡ field_in 0 name.now (rows_of fields.now) }
{
    for (place, field) in fields.iter().enumerate() {
        if is_name(name, field.key) {
            return Some(Field {
                place,
                kind: field.kind,
            });
        }
    }
    None
}

/// Returns the field of `layout` whose key is `name`, if there is one.
pub fn field_of(layout: Layout, name: &[u8]) -> Option<Field>
    ensures { result ≡ field_in 0 name.now (fields_of layout) }
{
    match layout {
        Layout::UserEvent => field_among(&USER_EVENT, name),
        Layout::Query => field_among(&QUERY, name),
        Layout::QueryResponse => field_among(&QUERY_RESPONSE, name),
        Layout::PushPull => field_among(&PUSH_PULL, name),
        Layout::Slot => field_among(&SLOT, name),
        Layout::Event => field_among(&EVENT, name),
        Layout::Join => field_among(&JOIN, name),
        Layout::Leave => field_among(&LEAVE, name),
    }
}

/// The fields of a user event.
#[rattlefmt::skip]
const USER_EVENT: [NamedField; 4] = [
    NamedField { key: b"LTime", kind: Kind::Time },
    NamedField { key: b"Name", kind: Kind::Text },
    NamedField { key: b"Payload", kind: Kind::Text },
    NamedField { key: b"CC", kind: Kind::Flag },
];

/// The fields of a query.
#[rattlefmt::skip]
const QUERY: [NamedField; 11] = [
    NamedField { key: b"LTime", kind: Kind::Time },
    NamedField { key: b"ID", kind: Kind::Natural(0xffff_ffff) },
    NamedField { key: b"Addr", kind: Kind::Text },
    NamedField { key: b"Port", kind: Kind::Natural(0xffff) },
    NamedField { key: b"SourceNode", kind: Kind::Text },
    NamedField { key: b"Filters", kind: Kind::Texts },
    NamedField { key: b"Flags", kind: Kind::Natural(0xffff_ffff) },
    NamedField { key: b"RelayFactor", kind: Kind::Natural(0xff) },
    NamedField { key: b"Timeout", kind: Kind::Signed },
    NamedField { key: b"Name", kind: Kind::Text },
    NamedField { key: b"Payload", kind: Kind::Text },
];

/// The fields of an ack or a response.
#[rattlefmt::skip]
const QUERY_RESPONSE: [NamedField; 5] = [
    NamedField { key: b"LTime", kind: Kind::Natural(u64::MAX) },
    NamedField { key: b"ID", kind: Kind::Natural(0xffff_ffff) },
    NamedField { key: b"From", kind: Kind::Text },
    NamedField { key: b"Flags", kind: Kind::Natural(0xffff_ffff) },
    NamedField { key: b"Payload", kind: Kind::Text },
];

/// The fields of a push/pull.
#[rattlefmt::skip]
const PUSH_PULL: [NamedField; 6] = [
    NamedField { key: b"LTime", kind: Kind::Natural(u64::MAX) },
    NamedField { key: b"StatusLTimes", kind: Kind::Status },
    NamedField { key: b"LeftMembers", kind: Kind::Texts },
    NamedField { key: b"EventLTime", kind: Kind::Natural(u64::MAX) },
    NamedField { key: b"Events", kind: Kind::Maps(Layout::Slot) },
    NamedField { key: b"QueryLTime", kind: Kind::Natural(u64::MAX) },
];

/// The fields of a slot of a push/pull.
#[rattlefmt::skip]
const SLOT: [NamedField; 2] = [
    NamedField { key: b"LTime", kind: Kind::Time },
    NamedField { key: b"Events", kind: Kind::Maps(Layout::Event) },
];

/// The fields of an event in a slot.
#[rattlefmt::skip]
const EVENT: [NamedField; 2] = [
    NamedField { key: b"Name", kind: Kind::Text },
    NamedField { key: b"Payload", kind: Kind::Text },
];

/// The fields of a join.
#[rattlefmt::skip]
const JOIN: [NamedField; 2] = [
    NamedField { key: b"LTime", kind: Kind::Time },
    NamedField { key: b"Node", kind: Kind::Text },
];

/// The fields of a leave.
#[rattlefmt::skip]
const LEAVE: [NamedField; 3] = [
    NamedField { key: b"LTime", kind: Kind::Time },
    NamedField { key: b"Node", kind: Kind::Text },
    NamedField { key: b"Prune", kind: Kind::Flag },
];
