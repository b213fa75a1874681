//! Reads the agents of a written schedule.

ghost use Rattle.std.specs.Prelude.{◌≡◌, ◌==◌, IfOk, OnOk, Some, drop, false, position, true};
ghost use Rattle.serf_agent.specs.Config.{is_sound};
ghost use Rattle.serf_model.specs.Runs.{has_name};
ghost use Rattle.serf_write.specs.Gives.{◌>>=◌ as and_then, Gives};
ghost use Rattle.serf_write.specs.Lines.{agent_after, agent_of, in_bounds, name_said, new_named, set_key, set_number, settings_from, with_setting};
ghost use Rattle.std.specs.Option.{option_map};
ghost use Rattle.serf_write.specs.Values.{word_of};

use crate::token::Token;
use crate::values::{halves, nth};
use crate::word_error::{Expected, LineError, bad, or_bad};
use serf_agent::Config;
use serf_text::{is_word, number};
use serf_world::{Roster, RosterError};
use std::alloc::Global;

/// Sets the setting `key` in `config` to `value`. The word that contains the setting is at `place`.
fn set(config: &mut Config, place: usize, key: &[u8], value: u64) -> Result<(), LineError>
    ensures said { Gives (λ _. config.new) result
        (set_number place config.old key.now (Some value)) }
    ensures name { OnOk result (config.new.name ≡ config.old.name) }
{
    if is_word(key, b"events") {
        config.event_buffer = value;
    } else if is_word(key, b"queries") {
        config.query_buffer = value;
    } else if is_word(key, b"limit") {
        config.event_limit = value;
    } else if is_word(key, b"querylimit") {
        config.query_limit = value;
    } else if is_word(key, b"responselimit") {
        config.response_limit = value;
    } else if is_word(key, b"responders") {
        config.responders = value;
    } else if is_word(key, b"pertime") {
        config.per_time = value;
    } else {
        return Err(bad(place, Expected::Setting));
    }
    Ok(())
}

/// Applies the setting `word`, which is at `place`, to `config`. The setting is a key with a number as its value.
fn set_pair(config: &mut Config, place: usize, word: &[u8]) -> Result<(), LineError>
    ensures said { Gives (λ _. config.new) result
        (set_key place config.old word.now (position (λ b. b == 61) word.now)) }
    ensures name { OnOk result (config.new.name ≡ config.old.name) }
{
    match halves(word, b'=') {
        Some((key, value)) => {
            let value = or_bad(number(value), place, Expected::Setting)?;
            set(config, place, key, value)
        }
        None => Err(bad(place, Expected::Setting)),
    }
}

/// Applies the setting `word`, which is at `place`, to `config`. The setting is either a single word, or a key with a
/// value.
#[tactic(auto, unfolding(crate::specs::Lines::with_setting))]
fn set_word(config: &mut Config, place: usize, word: &[u8]) -> Result<(), LineError>
    ensures said { Gives (λ _. config.new) result (with_setting place config.old word.now) }
    ensures name { OnOk result (config.new.name ≡ config.old.name) }
{
    if is_word(word, b"keep") {
        config.ignore_old = false;
        Ok(())
    } else if is_word(word, b"ignore") {
        config.ignore_old = true;
        Ok(())
    } else if is_word(word, b"keep-events") {
        config.keep_events = true;
        Ok(())
    } else {
        set_pair(config, place, word)
    }
}

/// Checks that the settings in `config` are within their bounds. `place` is the place of the word that was read last.
fn check_bounds(config: &Config, place: usize) -> Result<(), LineError>
    ensures said { Gives (λ _. config.now) result (in_bounds place config.now) }
    ensures sound { OnOk result (is_sound config.now ≡ true) }
{
    if config.is_sound() {
        Ok(())
    } else {
        Err(bad(place, Expected::Bounds))
    }
}

/// Applies the setting `word`, which is at `place`, to `config`. The function then checks that the settings in `config`
/// are within their bounds.
fn set_in_bounds(config: &mut Config, place: usize, word: &[u8]) -> Result<(), LineError>
    ensures said { Gives (λ _. config.new) result
        (and_then (with_setting place config.old word.now) (in_bounds place)) }
    ensures name { OnOk result (config.new.name ≡ config.old.name) }
    ensures sound { OnOk result (is_sound config.new ≡ true) }
{
    set_word(config, place, word)?;
    check_bounds(config, place)
}

/// Returns the bytes of `token` if it is a word, and no bytes if it is a text.
pub(crate) fn word_in(token: &Token) -> &[u8]
    ensures { result.now ≡ word_of (Some token.now) }
{
    match token {
        Token::Word(word) => word.as_slice(),
        Token::Text(_) => &[],
    }
}

/// Applies the settings in `tokens` to `config`, and returns the result. The first of these tokens is at place 3 of the
/// line.
fn settings(config: Config, tokens: &[Token]) -> Result<Config, LineError>
    ensures said { Gives (λ c. c) result (settings_from 3 config tokens.now) }
    ensures name { IfOk result (λ c. c.name ≡ config.name) }
    ensures sound { is_sound config ≡ true → IfOk result (λ c. is_sound c ≡ true) }
{
    let mut config = config;
    let mut place: usize = 3;
    let mut rest = tokens;
    'settings: loop {
        match rest.split_first() {
            Some((token, more)) => {
                set_in_bounds(&mut config, place, word_in(token))?;
                place += 1;
                rest = more;
            }
            None => return Ok(config),
        }
    }
}

/// Returns the tokens that follow the first `count` tokens.
pub(crate) fn following(tokens: &[Token], count: usize) -> &[Token]
    ensures { result.now ≡ drop count tokens.now }
{
    if count <= tokens.len() {
        &tokens[count..]
    } else {
        &[]
    }
}

/// Reads an agent's name from `token`, which is a word or a text. A word that consists of digits isn't a name.
fn name(token: Option<&Token>) -> Result<&[u8], LineError>
    ensures { Gives (λ n. n.now) result (name_said (option_map (λ p. p.now) token.entry)) }
{
    match token {
        Some(Token::Word(word)) => {
            if number(word.as_slice()).is_some() {
                Err(bad(2, Expected::NameInQuotes))
            } else {
                Ok(word.as_slice())
            }
        }
        Some(Token::Text(text)) => Ok(text.as_slice()),
        None => Err(bad(2, Expected::NewName)),
    }
}

/// Returns whether one of the agents in `agents` has the name `name`.
fn has_name(agents: &[Config], name: &[u8]) -> bool
    ensures { result ≡ has_name agents.now name.now }
{
    agents.iter().any(|config| config.name.as_slice() == name)
}

/// Returns the default settings of a new agent. The agent's name is `name`, the token at place 2.
fn new_agent(alloc: Global, agents: &[Config], name: &[u8]) -> Result<Config, LineError>
    ensures said { Gives (λ c. c) result (new_named agents.now name.now) }
    ensures sound { IfOk result (λ c. is_sound c ≡ true) }
    ensures free { IfOk result (λ c. has_name agents.now c.name ≡ false) }
{
    let config = Config::new(alloc, name)?;
    check_bounds(&config, 2)?;
    if has_name(agents, name) {
        return Err(bad(2, Expected::NewName));
    }
    Ok(config)
}

/// Reads an agent's settings from the agent's line. `agents` contains the agents of the earlier lines.
#[tactic(auto, unfolding(crate::specs::Lines::agent_of))]
fn agent(alloc: Global, agents: &[Config], tokens: &[Token]) -> Result<Config, LineError>
    ensures said { Gives (λ c. c) result (agent_of agents.now tokens.now) }
    ensures sound { IfOk result (λ c. is_sound c ≡ true) }
    ensures free { IfOk result (λ c. has_name agents.now c.name ≡ false) }
{
    let name = name(nth(tokens, 2))?;
    let config = new_agent(alloc, agents, name)?;
    settings(config, following(tokens, 2))
}

/// Reads an agent line, and adds the agent that it describes to `agents`.
pub(crate) fn add_agent(
    alloc: Global,
    agents: &mut Roster,
    tokens: &[Token],
) -> Result<(), LineError>
    ensures { Gives (λ _. agents.new) result (agent_after agents.old tokens.now) }
{
    let config = agent(alloc, agents.as_slice(), tokens)?;
    match agents.add(alloc, config) {
        Ok(()) => Ok(()),
        // The function `agent` has already checked that the settings are valid and that the name is new.
        Err(RosterError::BadConfig) => unreachable!(),
        Err(RosterError::NameTwice) => unreachable!(),
        Err(RosterError::OutOfMemory) => Err(LineError::OutOfMemory),
    }
}
