//! Laws that are true of all packets. Each function here does nothing; its clauses state the law.

ghost use Rattle.serf_wire.specs.Below.{Below};
ghost use Rattle.serf_wire.specs.Intent.{ReadsIntents, CanonicalIntents};
ghost use Rattle.serf_wire.specs.Laws.{DecodesBytes, DecodesInRange, DecodesSpelled, DecodesMalformed, OneMessage, CanonicalSpells, PassesExactly, ErrorsInOrder};

use serf_pack::{canonical_heads, exact_reading};

/// The laws of `serf_pack` about spellings on which this crate relies.
#[inline(always)]
pub(crate) fn laws_below()
    ensures { Below }
{
    exact_reading();
    canonical_heads();
}

/// Decoding, as a function of a byte list, is exact. It returns a message if and only if the bytes spell this
/// message. It returns an error if and only if the bytes spell no message and this is their first error. So a
/// byte list spells at most one message.
pub fn exact_decoding()
    ensures spells { DecodesSpelled }
    ensures error { DecodesMalformed }
    ensures one { OneMessage }
{
    laws_below();
}

/// In a decoded message, each number is in the range of its type, and each time is valid.
pub fn decoded_ranges()
    ensures { DecodesInRange }
{
    laws_below();
}

/// If a packet consists of bytes, then so do the texts of each event that is decoded from it, including the
/// events of a state. This has to be a law, because a list in a definition may contain any numbers.
pub fn decoded_texts()
    ensures { DecodesBytes }
{
    laws_below();
}

/// The canonical packet of a message spells this message, except that each slot without events becomes the
/// empty slot.
pub fn canonical_packets()
    ensures { CanonicalSpells }
{
    laws_below();
}

/// The contracts of the crates that depend on this one use a function that reads a filter. This function
/// agrees with the relation `Passes`.
pub fn exact_filters()
    ensures { PassesExactly }
{
    laws_below();
}

/// Reading an intent, as a function of a byte list, is exact. It returns an intent if and only if the bytes
/// spell this intent. It returns nothing if and only if the bytes belong to another message. It returns an
/// error if and only if the bytes should be an intent but aren't, and this is their first error.
pub fn exact_intents()
    ensures { ReadsIntents }
{
    laws_below();
}

/// The canonical packet of an intent spells it.
pub fn canonical_intents()
    ensures { CanonicalIntents }
{
    laws_below();
}

/// `decode` and `read_intent` return the first of a map's errors. The list of these errors is in reading
/// order: the places in the packet never fall from one error to the next. So no place before that of the
/// first error has an error.
pub fn ordered_errors()
    ensures { ErrorsInOrder }
{}
