//! Selects which part of a run is drawn.

ghost use Rattle.std.specs.Prelude.{◌≡◌, ◌==◌, ◌&&◌, ◌||◌, filter};
ghost use Rattle.std.specs.List.{list_any};
ghost use Rattle.std.specs.Option.{option_copied};
ghost use Rattle.serf_model.specs.Trace.{actor_of};
ghost use Rattle.serf_draw.specs.DrawOptions.{hands_out, has_name, is_chosen, is_kept, is_taken as is_taken_answer, missing_agent, named, names, packet_brings, shows};

use serf_model::{Act, Action, Answer, EventLine, EventLines, Line};
use serf_wire::{Bytes, Message, decode};

/// Selects the actions that are drawn. An action is drawn if it meets all of these conditions:
///
/// - The action's number, counted from 1, is at least `from` and at most `to`.
/// - If the list `agents` isn't empty, the action is an action of one of the listed agents.
/// - If `taken` is set, the action was neither ignored nor refused, isn't an injection, and isn't a merge that passed
///   over all its events.
/// - If `event` contains a name, the action fires, injects, delivers or hands out an event of this name.
#[derive(Drop)]
pub struct DrawOptions {
    pub agents: Vec<u64>,
    pub from: u64,
    pub to: u64,
    pub taken: bool,
    pub event: Option<Bytes>,
}

/// Returns whether `number` is among `numbers`.
fn is_among(numbers: &[u64], number: u64) -> bool
    ensures { result ≡ list_any (λ n. n == number) numbers.now }
{
    numbers.iter().any(|n| *n == number)
}

/// Returns whether an action was neither ignored nor refused, and isn't an injection.
fn is_taken(answer: Answer) -> bool
    ensures { result ≡ is_taken_answer answer }
{
    !matches!(
        answer,
        Answer::Ignored(_) | Answer::Refused(_) | Answer::Injected
    )
}

/// Returns whether `packet` contains a user event called `name`.
fn is_event_of(name: &[u8], packet: &[u8]) -> bool
    ensures { result ≡ packet_brings name.now (Some packet.now) }
{
    match decode(packet) {
        Ok(Message::UserEvent(event)) => event.name == name,
        _ => false,
    }
}

/// Returns whether `event`, an event that was handed out, is called `name`.
fn is_named(name: &[u8], event: &EventLine) -> bool
    ensures { result ≡ has_name name.now event.now }
{
    event.name.as_slice() == name
}

/// Returns whether one of the events in `events` is called `name`.
fn any_named(name: &[u8], events: &[EventLine]) -> bool
    ensures { result ≡ list_any (has_name name.now) events.now }
{
    events.iter().any(|event| is_named(name, event))
}

/// Removes all events that aren't called `name` from `events`. Allocates no memory.
fn keep_named(name: &[u8], events: &mut Vec<EventLine>)
    ensures { events.new.items ≡ filter (has_name name.now) events.old.items }
{
    events.retain(|event| is_named(name, event));
}

impl DrawOptions {
    /// Returns whether agent number `agent` has a lane. Allocates no memory.
    pub(crate) fn is_chosen(&self, agent: u64) -> bool
        ensures { result ≡ is_chosen self.now.agents.items agent }
    {
        if self.agents.is_empty() {
            return true;
        }
        is_among(self.agents.as_slice(), agent)
    }

    /// Returns whether action number `action` is in the range, and is an action of an agent that has a lane. `agent` is
    /// the number of the agent that acts, or `None` for an injection. An injection is drawn only if the options list no
    /// agents. Allocates no memory.
    fn shows(&self, action: u64, agent: Option<u64>) -> bool
        ensures { result ≡ shows self.now.agents.items self.now.from self.now.to action agent }
    {
        if action < self.from || self.to < action {
            return false;
        }
        match agent {
            Some(agent) => self.is_chosen(agent),
            None => self.agents.is_empty(),
        }
    }

    /// Returns the first agent in the options that the schedule doesn't contain. The schedule contains `count` agents,
    /// which are numbered from 0. Allocates no memory.
    pub(crate) fn missing_agent(&self, count: u64) -> Option<u64>
        ensures { result ≡ missing_agent self.now.agents.items count }
    {
        self.agents.iter().copied().find(|agent| count <= *agent)
    }

    /// Returns whether an action with the answer `answer` is drawn. `passed` contains the times of the events that a
    /// merge passed over. Allocates no memory.
    fn keeps(&self, answer: Answer, passed: &[u64]) -> bool
        ensures { result ≡ is_kept self.now.taken answer passed.now }
    {
        if self.taken {
            is_taken(answer) && passed.is_empty()
        } else {
            true
        }
    }

    /// Returns whether `action` fires, injects or delivers a selected event. `given` is the packet that the action
    /// passes to its agent, or `None` if there is no such packet. Allocates no memory.
    pub(crate) fn names(&self, action: &Action, given: Option<&[u8]>) -> bool
        ensures { result ≡ names self.now.event action.now (option_copied given.entry) }
    {
        let Some(name) = &self.event else {
            return true;
        };
        match action {
            Action::Inject { bytes } => is_event_of(name.as_slice(), bytes.as_slice()),
            Action::Of { act, .. } => match act {
                Act::Fire { name: fired, .. } => fired.as_slice() == name.as_slice(),
                Act::Deliver { .. } => match given {
                    Some(packet) => is_event_of(name.as_slice(), packet),
                    None => false,
                },
                _ => false,
            },
        }
    }

    /// Returns whether one of the events in `events` is selected. Allocates no memory.
    fn hands_out(&self, events: &[EventLine]) -> bool
        ensures { result ≡ hands_out self.now.event events.now }
    {
        match &self.event {
            Some(name) => any_named(name.as_slice(), events),
            None => true,
        }
    }

    /// Returns whether `action`, whose number is `number`, is drawn. `line` is the action's line in the trace,
    /// `is_named` states whether the action names a selected event, and `passed` contains the times of the events that
    /// a merge passed over. Allocates no memory.
    pub(crate) fn draws(
        &self,
        number: u64,
        action: &Action,
        is_named: bool,
        line: &Line,
        passed: &[u64],
    ) -> bool
        ensures { result ≡ (shows self.now.agents.items self.now.from self.now.to number
            (actor_of action.now) && is_kept self.now.taken line.now.answer passed.now
            && (is_named || hands_out self.now.event line.now.events)) }
    {
        self.shows(number, action.actor())
            && self.keeps(line.answer, passed)
            && (is_named || self.hands_out(line.events.as_slice()))
    }

    /// Returns the events in `events` that are selected. Allocates no memory.
    pub(crate) fn named(&self, events: EventLines) -> Vec<EventLine>
        ensures { result.items ≡ named self.now.event events }
    {
        let mut events = events.into_vec();
        if let Some(name) = &self.event {
            keep_named(name.as_slice(), &mut events);
        }
        events
    }
}
