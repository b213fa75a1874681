//! Reads values from the tokens of a line. The place of a token is its number in the line, and tokens are counted from
//! 1.

ghost use Rattle.std.specs.Prelude.{◌≡◌, ◌==◌, ◌+◌, ◌<◌, ◌≤◌, ℕ, IfOk, IfSome, MatchOption, drop, length, not, position, take};
ghost use Rattle.std.specs.Char.{is_ascii_digit};
ghost use Rattle.std.specs.Str.{bytes_eq};
ghost use Rattle.std.specs.Option.{option_map};
ghost use Rattle.serf_text.specs.Words.{between};
ghost use Rattle.serf_write.specs.Gives.{Gives};
ghost use Rattle.serf_write.specs.Values.{agent_in, agent_named, agent_said, bytes_in, payload_in, bytes_said, ends_after, label_named, mode_in, moment_in, number_in, packet_after, packet_cut, packet_in, packet_of, token_at, sink_call_in, time_in, time_of, times, unit_of, word_at, word_of};

use crate::labels::Label;
use crate::token::Token;
use crate::word_error::{Expected, LineError, bad, or_bad};
use serf_agent::Config;
use serf_model::SinkCall;
use serf_schedule::sink_call;
use serf_text::{choice, hex_bytes, is_word, number};
use serf_wire::Bytes;
use std::alloc::{AllocError, Global};

/// Returns the token at `place`. Place 0 and place 1 both refer to the first token.
pub(crate) fn nth(tokens: &[Token], place: usize) -> Option<&Token>
    ensures { option_map (λ p. p.now) result ≡ token_at place tokens.now }
{
    tokens.get(place.saturating_sub(1))
}

/// Returns the bytes of the word at `place`. If the token at `place` is a text or is missing, the function returns no
/// bytes.
pub(crate) fn word(tokens: &[Token], place: usize) -> &[u8]
    ensures { result.now ≡ word_at place tokens.now }
{
    match nth(tokens, place) {
        Some(Token::Word(word)) => word.as_slice(),
        _ => &[],
    }
}

/// Returns `number` if it is at least `low` and at most `high`, and `None` otherwise.
pub(crate) fn between(number: Option<u64>, low: u64, high: u64) -> Option<u64>
    ensures value { result ≡ between low high number }
    ensures within { IfSome result (λ n. n ≤ high) }
{
    let found = number?;
    if low <= found && found <= high {
        Some(found)
    } else {
        None
    }
}

/// Returns the index at which `byte` first occurs in `word`, or `None` if `word` doesn't contain `byte`.
fn place_of(word: &[u8], byte: u8) -> Option<usize>
    ensures place { result ≡ position (λ b. b == byte) word.now }
    ensures within { IfSome result (λ at. at < length word.now) }
{
    word.iter().position(|b| *b == byte)
}

/// Splits `word` at the first occurrence of `byte`, and returns the bytes before and after it. Returns `None` if `word`
/// doesn't contain `byte`.
pub(crate) fn halves(word: &[u8], byte: u8) -> Option<(&[u8], &[u8])>
    ensures { MatchOption result (position (λ b. b == byte) word.now ≡ None) (λ parts. (at : ℕ)
        × (position (λ b. b == byte) word.now ≡ Some at) × (parts.0.now ≡ take at word.now)
        × (parts.1.now ≡ drop (at + 1) word.now)) }
{
    let at = place_of(word, byte)?;
    Some((&word[..at], &word[at + 1..]))
}

/// Checks that a line has at most `count` tokens. If the line has more tokens, the function returns an error stating
/// that the line should end before the first extra token.
#[tactic(auto, unfolding(crate::specs::Values::ends_after))]
pub(crate) fn end_after(tokens: &[Token], count: usize) -> Result<(), LineError>
    requires { count < 100 }
    ensures { Gives (λ _. tt) result (ends_after count tokens.now) }
{
    if tokens.len() <= count {
        Ok(())
    } else {
        Err(bad(count + 1, Expected::End))
    }
}

/// Reads the word at `place` as a number.
#[tactic(auto, unfolding(crate::specs::Values::number_in))]
pub(crate) fn number_at(tokens: &[Token], place: usize) -> Result<u64, LineError>
    ensures { Gives (λ n. n) result (number_in place tokens.now) }
{
    or_bad(number(word(tokens, place)), place, Expected::Number)
}

/// Returns the length in nanoseconds of the unit that `word` names.
fn unit(word: &[u8]) -> Option<u64>
    ensures { result ≡ unit_of word.now }
{
    if is_word(word, b"ns") {
        Some(1)
    } else if is_word(word, b"us") {
        Some(1_000)
    } else if is_word(word, b"ms") {
        Some(1_000_000)
    } else if is_word(word, b"s") {
        Some(1_000_000_000)
    } else {
        None
    }
}

/// Returns the product of `number` and `unit`. Returns `None` if either factor is missing or if the product doesn't fit
/// into 64 bits.
fn product(number: Option<u64>, unit: Option<u64>) -> Option<u64>
    ensures { result ≡ times number unit }
{
    number?.checked_mul(unit?)
}

/// Returns the index of the first byte in `word` that isn't a digit, or `None` if `word` consists only of digits.
fn end_of_digits(word: &[u8]) -> Option<usize>
    ensures place { result ≡ position (λ b. not (is_ascii_digit b)) word.now }
    ensures within { IfSome result (λ at. at < length word.now) }
{
    word.iter().position(|b| !b.is_ascii_digit())
}

/// Returns the time in nanoseconds that `word` states. The word has to consist of digits, followed by `ns`, `us`, `ms`,
/// `s` or no unit. Returns `None` if `word` has any other form, or if the time is 2^64 nanoseconds or more.
#[tactic(auto, unfolding(crate::specs::Values::time_of))]
pub(crate) fn time(word: &[u8]) -> Option<u64>
    ensures { result ≡ time_of word.now }
{
    match end_of_digits(word) {
        Some(at) => product(number(&word[..at]), unit(&word[at..])),
        None => number(word),
    }
}

/// Reads the word at `place` as a time, and returns the time in nanoseconds.
#[tactic(auto, unfolding(crate::specs::Values::time_in))]
pub(crate) fn time_at(tokens: &[Token], place: usize) -> Result<u64, LineError>
    ensures { Gives (λ n. n) result (time_in place tokens.now) }
{
    or_bad(time(word(tokens, place)), place, Expected::Time)
}

/// Reads the moment that follows the word `at`, which has to be token number `place` (counted from 1). The moment is in
/// nanoseconds. If the line ends before `place`, the moment is 0.
#[tactic(auto, unfolding(crate::specs::Values::moment_in))]
pub(crate) fn moment_at(tokens: &[Token], place: usize) -> Result<u64, LineError>
    requires { place < 100 }
    ensures { Gives (λ n. n) result (moment_in place tokens.now) }
{
    if tokens.len() < place {
        Ok(0)
    } else if is_word(word(tokens, place), b"at") {
        time_at(tokens, place + 1)
    } else {
        Err(bad(place, Expected::At))
    }
}

/// Returns the bytes that `token` represents. The token has to be a text, or a word that consists of hex digits.
fn bytes_of_token(alloc: Global, token: Option<&Token>) -> Result<Option<Bytes>, AllocError>
    ensures { IfOk result (λ found. found ≡ bytes_said (option_map (λ p. p.now) token.entry)) }
{
    match token {
        Some(Token::Word(word)) => hex_bytes(alloc, word.as_slice()),
        Some(Token::Text(text)) => Ok(Some(Bytes::copy_of(alloc, text.as_slice())?)),
        None => Ok(None),
    }
}

/// Reads bytes from the token at `place`, which has to be a text or a word that consists of hex digits.
#[tactic(auto, unfolding(crate::specs::Values::bytes_in))]
pub(crate) fn bytes_at(alloc: Global, tokens: &[Token], place: usize) -> Result<Bytes, LineError>
    ensures { Gives (λ b. b) result (bytes_in place tokens.now) }
{
    or_bad(
        bytes_of_token(alloc, nth(tokens, place))?,
        place,
        Expected::Bytes,
    )
}

/// Reads the payload of an event from the token at `place`. If the line ends before `place`, the payload is empty.
#[tactic(auto, unfolding(crate::specs::Values::payload_in))]
pub(crate) fn payload_at(alloc: Global, tokens: &[Token], place: usize) -> Result<Bytes, LineError>
    ensures { Gives (λ b. b) result (payload_in place tokens.now) }
{
    if tokens.len() < place {
        return Ok(Bytes::from_vec(Vec::new(alloc)));
    }
    or_bad(
        bytes_of_token(alloc, nth(tokens, place))?,
        place,
        Expected::Payload,
    )
}

/// Returns the index of the agent with the name `name`.
fn place_of_agent(agents: &[Config], name: &[u8]) -> Option<usize>
    ensures { result ≡ position (λ c. bytes_eq c.name name.now) agents.now }
{
    agents
        .iter()
        .position(|config| config.name.as_slice() == name)
}

/// Returns the number of the agent with the name `name`.
#[tactic(auto, unfolding(crate::specs::Values::agent_named))]
fn named_agent(agents: &[Config], name: &[u8]) -> Option<u64>
    ensures { result ≡ agent_named agents.now name.now }
{
    Some(place_of_agent(agents, name)? as u64)
}

/// Returns the number of the agent that `token` names. If the token is a word that consists of digits, these digits are
/// the agent's number.
fn agent_of_token(agents: &[Config], token: Option<&Token>) -> Option<u64>
    ensures { result ≡ agent_said agents.now (option_map (λ p. p.now) token.entry) }
{
    match token? {
        Token::Word(word) => match number(word.as_slice()) {
            Some(found) => Some(found),
            None => named_agent(agents, word.as_slice()),
        },
        Token::Text(text) => named_agent(agents, text.as_slice()),
    }
}

/// Reads the number of the agent that the token at `place` names.
#[tactic(auto, unfolding(crate::specs::Values::agent_in))]
pub(crate) fn agent_at(agents: &[Config], tokens: &[Token], place: usize) -> Result<u64, LineError>
    ensures { Gives (λ n. n) result (agent_in agents.now place tokens.now) }
{
    or_bad(
        agent_of_token(agents, nth(tokens, place)),
        place,
        Expected::Agent,
    )
}

/// Returns the index of the label with the name `name`.
fn place_of_label(labels: &[Label], name: &[u8]) -> Option<usize>
    ensures { result ≡ position (λ l. bytes_eq l.name name.now) labels.now }
{
    labels
        .iter()
        .position(|label| label.name.as_slice() == name)
}

/// Returns the label with the name `name`.
#[tactic(auto, unfolding(crate::specs::Values::label_named))]
pub(crate) fn named_label<'a>(labels: &'a [Label], name: &[u8]) -> Option<&'a Label>
    ensures { option_map (λ l. l.now) result ≡ label_named labels.now name.now }
{
    labels.get(place_of_label(labels, name)?)
}

/// Converts the number of a packet within its line to the packet's number among all packets. `label` is the label of
/// the line, and `number` is the packet's number within the line, counted from 0.
fn packet_from(label: Option<&Label>, number: Option<u64>) -> Option<u64>
    ensures { result ≡ packet_after (option_map (λ l. l.now) label.entry) number }
{
    let (label, number) = (label?, number?);
    if number < label.past.saturating_sub(label.first) {
        Some(label.first + number)
    } else {
        None
    }
}

/// Returns the number of the packet that `word` names. A label alone names the first packet of its line. A label that
/// is followed by a slash and a number names the packet with this number in the label's line. Packets in a line are
/// numbered from 0.
fn labelled_packet(labels: &[Label], word: &[u8]) -> Option<u64>
    ensures { result ≡ packet_cut labels.now word.now (position (λ b. b == 47) word.now) }
{
    match halves(word, b'/') {
        Some((name, place)) => packet_from(named_label(labels, name), number(place)),
        None => packet_from(named_label(labels, word), Some(0)),
    }
}

/// Returns the number of the packet that `word` names. The word either is the packet's number, or names the packet by a
/// label.
#[tactic(auto, unfolding(crate::specs::Values::packet_of))]
fn packet(labels: &[Label], word: &[u8]) -> Option<u64>
    ensures { result ≡ packet_of labels.now word.now }
{
    match number(word) {
        Some(found) => Some(found),
        None => labelled_packet(labels, word),
    }
}

/// Reads the number of the packet that the word at `place` names.
#[tactic(auto, unfolding(crate::specs::Values::packet_in))]
pub(crate) fn packet_at(labels: &[Label], tokens: &[Token], place: usize) -> Result<u64, LineError>
    ensures { Gives (λ n. n) result (packet_in labels.now place tokens.now) }
{
    or_bad(packet(labels, word(tokens, place)), place, Expected::Packet)
}

/// Reads the word at `place`, which states how a state is merged. Returns true for `join` and false for `sync`.
#[tactic(auto, unfolding(crate::specs::Values::mode_in))]
pub(crate) fn mode_at(tokens: &[Token], place: usize) -> Result<bool, LineError>
    ensures { Gives (λ b. b) result (mode_in place tokens.now) }
{
    let is_join = choice(word(tokens, place), b"sync", b"join");
    or_bad(is_join, place, Expected::Mode)
}

/// Reads the sink call that the word at `place` names.
#[tactic(auto, unfolding(crate::specs::Values::sink_call_in))]
pub(crate) fn sink_call_at(tokens: &[Token], place: usize) -> Result<SinkCall, LineError>
    ensures { Gives (λ c. c) result (sink_call_in place tokens.now) }
{
    or_bad(sink_call(word(tokens, place)), place, Expected::SinkCall)
}
