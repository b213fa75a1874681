//! Reads one of the lines that follow the answer in a reply.

ghost use Rattle.std.specs.Prelude.{◌≡◌, ◌==◌, ◌≤◌, length, map};
ghost use Rattle.serf_text.specs.Gives.{Gives};
ghost use Rattle.serf_text.specs.Words.{words_of, word_at};
ghost use Rattle.serf_conform.specs.Reply.{counted_ack_of, counted_kind, counted_response_of, counted_words, count_of, event_of, handed_of, kind_of, line_of, of_kind};

use serf_text::{
    Cause, LineError, bytes_at, choice_at, is_word, number_at, number_from_to, split_words_into,
    word_at,
};
use serf_wire::Bytes;
use std::alloc::Global;

/// The largest Lamport time.
const MAX_TIME: u64 = u64::MAX - 1;

/// The largest query ID.
const MAX_ID: u64 = u32::MAX as u64;

/// The contents of a line in a reply. All times are Lamport times, which are less than 2^64 - 1.
#[derive(Drop)]
pub enum ReplyLine {
    /// The agent sent this packet.
    Sent(Bytes),
    /// The agent handed out an event.
    Event {
        time: u64,
        name: Bytes,
        payload: Bytes,
        /// Whether the event may be coalesced with other events of the same name.
        coalesce: bool,
    },
    /// The agent handed out a query.
    DeliveredQuery {
        /// The number of queries that the agent handed out between its last opening and this query.
        index: u64,
        time: u64,
        /// The query's ID, which is less than 2^32.
        id: u64,
        name: Bytes,
        payload: Bytes,
    },
    /// The agent counted this ack. The fields are the query's time and ID, and the node that sent the ack.
    CountedAck {
        time: u64,
        /// The query's ID, which is less than 2^32.
        id: u64,
        from: Bytes,
    },
    /// The agent counted this response. The fields are the query's time and ID, the node that responded, and the
    /// payload of the response.
    CountedResponse {
        time: u64,
        /// The query's ID, which is less than 2^32.
        id: u64,
        from: Bytes,
        payload: Bytes,
    },
    /// The agent's disk keeps this text.
    Kept(Bytes),
}

/// The kind of a line in a reply, with one value for each variant of [`ReplyLine`].
#[derive(Clone, Copy, PartialEq, Eq)]
pub(crate) enum LineKind {
    Sent,
    Event,
    DeliveredQuery,
    CountedAck,
    CountedResponse,
    Kept,
}

/// Returns the kind of a `counted` line whose second word is `word`, or `None` if `word` is neither `ack` nor
/// `response`.
fn counted(word: &[u8]) -> Option<LineKind>
    ensures { result ≡ counted_kind word.now }
{
    if is_word(word, b"ack") {
        Some(LineKind::CountedAck)
    } else if is_word(word, b"response") {
        Some(LineKind::CountedResponse)
    } else {
        None
    }
}

/// Returns the kind of a line whose first two words are `first` and `second`, or `None` if no kind of line begins with
/// these two words.
fn kind(first: &[u8], second: &[u8]) -> Option<LineKind>
    ensures { result ≡ kind_of first.now second.now }
{
    if is_word(first, b"sent") {
        Some(LineKind::Sent)
    } else if is_word(first, b"event") {
        Some(LineKind::Event)
    } else if is_word(first, b"handed") {
        Some(LineKind::DeliveredQuery)
    } else if is_word(first, b"counted") {
        counted(second)
    } else if is_word(first, b"kept") {
        Some(LineKind::Kept)
    } else {
        None
    }
}

impl LineKind {
    /// Returns the number of words in a line of this kind.
    fn count(self) -> usize
        ensures { result ≡ count_of self }
    {
        match self {
            LineKind::Sent | LineKind::Kept => 2,
            LineKind::Event | LineKind::CountedAck => 5,
            LineKind::DeliveredQuery | LineKind::CountedResponse => 6,
        }
    }
}

/// Reads an event from `words`, the five words of an `event` line. Word 1 is the word `event`.
#[tactic(auto, unfolding(crate::specs::Reply::event_of))]
fn event(alloc: Global, words: &[&[u8]]) -> Result<ReplyLine, LineError>
    ensures { Gives (λ l. l) result (event_of (map (λ w. w.now) words.now)) }
{
    let time = number_from_to(words, 2, 0, MAX_TIME)?;
    let name = bytes_at(alloc, words, 3)?;
    let payload = bytes_at(alloc, words, 4)?;
    let coalesce = choice_at(words, 5, b"0", b"1")?;
    Ok(ReplyLine::Event {
        time,
        name,
        payload,
        coalesce,
    })
}

/// Reads a query from `words`, the six words of a `handed` line. Word 1 is the word `handed`.
#[tactic(auto, unfolding(crate::specs::Reply::handed_of))]
fn handed(alloc: Global, words: &[&[u8]]) -> Result<ReplyLine, LineError>
    ensures { Gives (λ l. l) result (handed_of (map (λ w. w.now) words.now)) }
{
    let index = number_at(words, 2)?;
    let time = number_from_to(words, 3, 0, MAX_TIME)?;
    let id = number_from_to(words, 4, 0, MAX_ID)?;
    let name = bytes_at(alloc, words, 5)?;
    let payload = bytes_at(alloc, words, 6)?;
    Ok(ReplyLine::DeliveredQuery {
        index,
        time,
        id,
        name,
        payload,
    })
}

/// Reads an ack from `words`, the five words of a `counted ack` line. Words 1 and 2 are the words `counted` and `ack`.
#[tactic(auto, unfolding(crate::specs::Reply::counted_ack_of))]
fn counted_ack(alloc: Global, words: &[&[u8]]) -> Result<ReplyLine, LineError>
    ensures { Gives (λ l. l) result (counted_ack_of (map (λ w. w.now) words.now)) }
{
    let time = number_from_to(words, 3, 0, MAX_TIME)?;
    let id = number_from_to(words, 4, 0, MAX_ID)?;
    let from = bytes_at(alloc, words, 5)?;
    Ok(ReplyLine::CountedAck { time, id, from })
}

/// Reads a response from `words`, the six words of a `counted response` line. Words 1 and 2 are the words `counted` and
/// `response`.
#[tactic(auto, unfolding(crate::specs::Reply::counted_response_of))]
fn counted_response(alloc: Global, words: &[&[u8]]) -> Result<ReplyLine, LineError>
    ensures { Gives (λ l. l) result (counted_response_of (map (λ w. w.now) words.now)) }
{
    let time = number_from_to(words, 3, 0, MAX_TIME)?;
    let id = number_from_to(words, 4, 0, MAX_ID)?;
    let from = bytes_at(alloc, words, 5)?;
    let payload = bytes_at(alloc, words, 6)?;
    Ok(ReplyLine::CountedResponse {
        time,
        id,
        from,
        payload,
    })
}

/// Reads a line of the kind `kind` from `words`, the words of the line. There have to be as many words as
/// [`LineKind::count`] returns for this kind.
#[tactic(auto, unfolding(crate::specs::Reply::sent_of, crate::specs::Reply::kept_of))]
fn line_of_kind(alloc: Global, kind: LineKind, words: &[&[u8]]) -> Result<ReplyLine, LineError>
    ensures { Gives (λ l. l) result (of_kind kind (map (λ w. w.now) words.now)) }
{
    match kind {
        LineKind::Sent => Ok(ReplyLine::Sent(bytes_at(alloc, words, 2)?)),
        LineKind::Event => event(alloc, words),
        LineKind::DeliveredQuery => handed(alloc, words),
        LineKind::CountedAck => counted_ack(alloc, words),
        LineKind::CountedResponse => counted_response(alloc, words),
        LineKind::Kept => Ok(ReplyLine::Kept(bytes_at(alloc, words, 2)?)),
    }
}

/// Reads a line from `words`, the words of one of the lines that follow a reply's answer.
fn line_in(alloc: Global, words: &[&[u8]]) -> Result<ReplyLine, LineError>
    ensures { Gives (λ l. l) result (counted_words
        (kind_of (word_at 1 (map (λ w. w.now) words.now)) (word_at 2 (map (λ w. w.now) words.now)))
        (map (λ w. w.now) words.now)) }
{
    let Some(kind) = kind(word_at(words, 1), word_at(words, 2)) else {
        return Err(LineError::Bad(Cause::UnknownWord));
    };
    if words.len() != kind.count() {
        return Err(LineError::Bad(Cause::WordCount));
    }
    line_of_kind(alloc, kind, words)
}

/// Reads one of the lines that follow a reply's answer: `sent`, `event`, `handed`, `counted ack`, `counted response` or
/// `kept`.
///
/// The words of a line are separated by spaces. A line with more than eight words has too many words for any kind. If
/// the line can't be read, returns `Bad` with the first cause that is found: `WordCount`, `UnknownWord` or `BadWord`.
pub fn read_reply_line(alloc: Global, line: &[u8]) -> Result<ReplyLine, LineError>
    ensures { Gives (λ l. l) result (line_of (words_of line.now)) }
{
    let mut words = Vec::new(alloc);
    let rest = split_words_into(line, &mut words)?;
    if !rest.is_empty() {
        return Err(LineError::Bad(Cause::WordCount));
    }
    line_in(alloc, &words)
}
