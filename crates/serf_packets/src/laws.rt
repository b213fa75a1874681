//! Laws about all texts of messages. Each law is the clause of a function that does nothing. Calling the function
//! states the clause for the prover.

ghost use Rattle.serf_packets.specs.Taken.{TextsAreTaken, TextsTellApart};

use serf_wire::{canonical_packets, decoded_ranges, exact_decoding};

/// States for the prover that encoding the text of a canonical packet returns the same packet. The function itself does
/// nothing.
pub fn know_texts_taken()
    // If the canonical packet of a message decodes to a text, encoding that text returns the packet.
    ensures { TextsAreTaken }
{
    // The numbers of a decoded message fit into their types. Decoding is exact, and a canonical packet spells its
    // message.
    decoded_ranges();
    exact_decoding();
    canonical_packets();
}

/// States for the prover that different messages have different texts: if two packets decode to the same text, the
/// canonical packets of their messages are equal. The function itself does nothing.
pub fn know_texts_tell_apart()
    // The canonical packets of two messages are equal if their texts are equal.
    ensures { TextsTellApart }
{
    // The numbers of a decoded message fit into their types.
    decoded_ranges();
}
