//! Recognizes packets of memberlist, the library on which Serf is built. Some of these packets are memberlist's own
//! messages, and others contain Serf's messages.

ghost use Rattle.std.specs.Prelude.{◌≡◌};
ghost use Rattle.serf_packets.specs.Framing.{framing_in, has_text as has_text_in, own_in};

/// The kind of a memberlist message. The first byte of the message determines the kind (see memberlist's `net.go`).
/// Messages of all kinds except `Probe` and `Rumour` contain other messages.
#[derive(Clone, Copy, Debug, PartialEq, Eq)]
pub enum Framing {
    /// A ping, an indirect ping or an ack: the first byte is 0, 1 or 2, and the key `SeqNo` follows somewhere.
    Probe,
    /// A message which reports that a node is suspect, alive or dead: the first byte is 3, 4 or 5, and the key
    /// `Incarnation` follows somewhere.
    Rumour,
    /// A packet that contains several messages: the first byte is 7.
    Compound,
    /// A packet that contains a message of Serf: the first byte is 8, and the message follows.
    User,
    /// A packet that contains a compressed message: the first byte is 9, and the message follows.
    Compressed,
    /// A packet that contains a message with a checksum: the first byte is 12, and the checksum and then the message
    /// follow.
    Checksum,
}

/// Returns whether `text` occurs somewhere in `bytes`.
fn has_text(text: &[u8], bytes: &[u8]) -> bool
    ensures { result ≡ has_text_in text.now bytes.now }
{
    let mut rest = bytes;
    'starts: loop {
        let [_, more @ ..] = rest else {
            return false;
        };
        if rest.starts_with(text) {
            return true;
        }
        rest = more;
    }
}

/// Returns `framing` if `rest`, a packet without its first byte, contains `key`, which occurs in all messages of this
/// kind. Otherwise, returns `None`.
fn own_of(framing: Framing, key: &[u8], rest: &[u8]) -> Option<Framing>
    ensures { result ≡ own_in framing key.now rest.now }
{
    if has_text(key, rest) {
        Some(framing)
    } else {
        None
    }
}

/// Returns the kind of memberlist message that `packet` seems to be, or `None` for any other packet. A packet seems to
/// be a memberlist message in each of the following cases:
///
/// - The first byte of the packet is 7, 9 or 12.
/// - The first byte of the packet is 8, and the next byte is the type of a Serf message (0 to 9).
/// - The first byte of the packet is at most 5, and the packet contains the key that all memberlist messages of this
///   type contain.
///
/// Serf's own messages also have the types 0 to 5, 7, 8 and 9, so a Serf packet may be mistaken for a memberlist
/// packet. This mistake is possible for a key response, a relay, and a packet in which a name or a payload contains the
/// key. Allocates no memory.
pub fn framing_of(packet: &[u8]) -> Option<Framing>
    ensures { result ≡ framing_in packet.now }
{
    match packet {
        [0..=2, rest @ ..] => own_of(Framing::Probe, b"SeqNo", rest),
        [3..=5, rest @ ..] => own_of(Framing::Rumour, b"Incarnation", rest),
        [7, ..] => Some(Framing::Compound),
        [8, kind, ..] => {
            if *kind <= 9 {
                Some(Framing::User)
            } else {
                None
            }
        }
        [9, ..] => Some(Framing::Compressed),
        [12, ..] => Some(Framing::Checksum),
        _ => None,
    }
}
