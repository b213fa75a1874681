//! Intents are announcements that a node joins or leaves (Serf's `messages.go`).

ghost use Rattle.std.specs.Prelude.{◌≡◌, ◌↔◌, List, Ok, Err, None, IfOk, IfErr, IfSome, IsOkAnd, IsSomeAnd};
ghost use Rattle.std.specs.Option.{option_map};
ghost use Rattle.serf_pack.specs.Reading.{Gives};
ghost use Rattle.serf_pack.specs.Tree.{Tree};
ghost use Rattle.serf_wire.specs.declared.error.WireError.{WireError as DeclaredError};
ghost use Rattle.serf_wire.specs.Found.{Finds};
ghost use Rattle.serf_wire.specs.Intent.{Intent as Meaning, intent_of, intent_type_of, intent_layout, intent_in, other_message, read_intent_map, intent_read, SpellsIntent, IsFirstIntentError, IsOther};
ghost use Rattle.serf_wire.specs.Layout.{class_of};

use crate::checked::find_checked;
use crate::error::WireError;
use crate::fields::{flag_or_false, text_or_empty, time_or_zero};
use crate::found::FoundFields;
use crate::laws::laws_below;
use crate::layout::{Class, Layout, class_for};
use serf_lamport::Time;

/// A node's announcement that it joins. Agents forward this announcement, so that a member that was thought
/// to have left counts as a member again.
#[derive(Clone, Copy)]
pub struct Join<'a> {
    /// The time of the announcement, by the member clock of the node that made the announcement.
    pub time: Time,
    /// The name of the node that joins.
    pub node: &'a [u8],
}

/// The announcement that a node leaves. The node leaves by itself, or because another node ordered it to
/// leave.
#[derive(Clone, Copy)]
pub struct Leave<'a> {
    /// The time of the announcement, by the member clock of the node that made the announcement.
    pub time: Time,
    /// The name of the node that leaves.
    pub node: &'a [u8],
    /// Whether the members should forget the node at once.
    pub prune: bool,
}

/// A node's announcement about a member that joins or leaves. The member's name is borrowed from the packet.
#[derive(Clone, Copy)]
pub enum Intent<'a> {
    /// The intent to join, with the type byte 1.
    Join(Join<'a>),
    /// The intent to leave, with the type byte 0.
    Leave(Leave<'a>),
}

/// The two types of intents, by a packet's type byte.
#[derive(Clone, Copy)]
pub enum IntentType {
    Join,
    Leave,
}

/// Returns the type of intent with the type byte `kind`, if there is one.
fn intent_type_for(kind: u8) -> Option<IntentType>
    ensures { result ≡ intent_type_of kind }
{
    match kind {
        0 => Some(IntentType::Leave),
        1 => Some(IntentType::Join),
        _ => None,
    }
}

/// Returns the layout of the map of an intent of this type.
fn layout_for(intent: IntentType) -> Layout
    ensures { result ≡ intent_layout intent }
{
    match intent {
        IntentType::Join => Layout::Join,
        IntentType::Leave => Layout::Leave,
    }
}

/// Builds the intent from the fields `found` of a map without errors. Each field is at its place in the
/// layout (`layout.rt`).
fn intent_of_fields<'a>(intent: IntentType, found: &FoundFields<'a>) -> Intent<'a>
    ensures { (ps : List (Tree × Tree)) → Finds (intent_layout intent) found.now ps
        → intent_of result ≡ intent_in intent ps }
{
    match intent {
        IntentType::Join => Intent::Join(Join {
            time: time_or_zero(found.at(0)),
            node: text_or_empty(found.at(1)),
        }),
        IntentType::Leave => Intent::Leave(Leave {
            time: time_or_zero(found.at(0)),
            node: text_or_empty(found.at(1)),
            prune: flag_or_false(found.at(2)),
        }),
    }
}

/// Reads the intent whose map `bytes` spell after the type byte. Returns the intent or the packet's first
/// error.
fn read_map(intent: IntentType, bytes: &[u8]) -> Result<Intent<'_>, WireError>
    ensures { Gives intent_of result (read_intent_map intent bytes.now) }
{
    match find_checked(layout_for(intent), bytes) {
        Ok(found) => Ok(intent_of_fields(intent, &found)),
        Err(error) => Err(error),
    }
}

/// Returns the result for a packet whose type byte `kind` isn't an intent's. The result is `UnknownType` if
/// no message has this type, and `None` otherwise.
fn no_intent<'a>(kind: u8) -> Result<Option<Intent<'a>>, WireError>
    ensures { Gives (option_map intent_of) result (other_message (class_of kind) kind) }
{
    match class_for(kind) {
        Class::Read(_) | Class::Foreign => Ok(None),
        Class::Unknown => Err(WireError::UnknownType(kind)),
    }
}

/// Returns the intent that `packet` spells, `None`, or the packet's first error, as `read_intent` does.
#[tactic(auto, unfolding(crate::specs::Intent::intent_read))]
fn read_packet(packet: &[u8]) -> Result<Option<Intent<'_>>, WireError>
    ensures { Gives (option_map intent_of) result (intent_read packet.now) }
{
    let [kind, body @ ..] = packet else {
        return Err(WireError::Empty);
    };
    match intent_type_for(*kind) {
        Some(intent) => match read_map(intent, body) {
            Ok(intent) => Ok(Some(intent)),
            Err(error) => Err(error),
        },
        None => no_intent(*kind),
    }
}

/// Returns the intent that a packet spells, with its keys in any order and its values in any spelling.
/// Returns `None` if the packet's type is that of another message, no matter what follows the type.
///
/// A field that is missing or nil is zero: the time 0, the empty name, or no prune. Unknown keys are ignored,
/// and so is a prune field in a join. The error is `Empty` if the packet is empty, and `UnknownType` if no
/// message has the packet's type. For the types 0 and 1, the error is `Pack` if the bytes after the type are
/// not a MessagePack value, `NotAMap` if this value isn't a map, and in all other cases the map's first
/// error, as in `decode`. 2^64 - 1 isn't a valid time. `decode` itself doesn't read intents. Allocates no
/// memory.
pub fn read_intent(packet: &[u8]) -> Result<Option<Intent<'_>>, WireError>
    // The packet spells the intent that is returned.
    ensures spells { IfOk result (λ o. IfSome o (λ i. SpellsIntent (intent_of i) packet.now)) }
    // If the packet spells an intent, this intent is returned.
    ensures only { (i : Meaning) → SpellsIntent i packet.now
        → IsOkAnd result (λ o. IsSomeAnd o (λ r. intent_of r ≡ i)) }
    // If the result is an error, it is the packet's first one.
    ensures error { IfErr result (IsFirstIntentError packet.now) }
    ensures only_error { (f : DeclaredError) → IsFirstIntentError packet.now f → result ≡ Err f }
    // The result is `None` if and only if the packet is another message.
    ensures other { (result ≡ Ok None) ↔ IsOther packet.now }
    // The result agrees with the definition `intent_read`.
    ensures exact { Gives (option_map intent_of) result (intent_read packet.now) }
{
    laws_below();
    read_packet(packet)
}
