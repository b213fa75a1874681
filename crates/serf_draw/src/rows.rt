//! Makes the rows of a picture during a run, turn by turn.

ghost use Rattle.std.specs.Prelude.{◌≡◌, ◌++◌, ◌∷◌, ◌+◌, [], List, ℕ, IfOk, OnOk, false, replicate, length};
ghost use Rattle.serf_agent.specs.declared.config.Config.{Config};
ghost use Rattle.serf_model.specs.Cluster.{Cluster, step};
ghost use Rattle.serf_world.specs.View.{IsViewed, TakesStep};
ghost use Rattle.serf_draw.specs.Drawing.{Drawing, IsDrawn, arrow_of, changed, clock_in, drawn, given_by, min_in, merged_events as merged, packet_of, restarts, row_tone, row_with, shown_row};
ghost use Rattle.serf_draw.specs.Merges.{is_held_back as held_back};
ghost use Rattle.serf_draw.specs.Rows.{IsFound, draws};

use crate::label::{carried_times, first_words, label, passed_over};
use crate::options::DrawOptions;
use crate::picture::{Arrow, Packet, Row, Sender, Tone};
use serf_model::{Act, Action, Answer, EventLine, EventLines, Line};
use serf_world::{Turns, World};
use std::alloc::{AllocError, Global};

/// Returns the arrow of `action`, which begins at the sender of the packet that the action passes to its agent.
/// `packets` contains the packets that were sent so far.
fn arrow(packets: &[Packet], action: &Action) -> Arrow
    ensures { result ≡ arrow_of packets.now action.now }
{
    match action {
        Action::Of {
            act: Act::Deliver { packet, .. } | Act::Merge { packet, .. },
            ..
        } => match packets.get(*packet as usize) {
            Some(packet) => Arrow::From(packet.sender),
            None => Arrow::Unsent,
        },
        _ => Arrow::NoPacket,
    }
}

/// Marks the packet that `action` passes to an agent as given. If the action passes no packet, or names a packet that
/// wasn't sent, the function changes nothing.
fn mark_given(packets: &mut Vec<Packet>, action: &Action)
    ensures { packets.new.items ≡ given_by packets.old.items action.now }
{
    if let Action::Of {
        act: Act::Deliver { packet, .. } | Act::Merge { packet, .. },
        ..
    } = action
    {
        if let Some(packet) = packets.get_mut(*packet as usize) {
            packet.is_given = true;
        }
    }
}

/// Returns whether, according to `line`, the agent accepted a delivered query but didn't hand it out, because one of
/// the query's filters excludes the agent.
fn is_held_back(line: &Line) -> bool
    ensures { result ≡ held_back line.now }
{
    matches!(line.answer, Answer::Query) && line.handed.is_none()
}

/// Returns how an action ended. `passed` contains the times of the events that a merge passed over.
fn tone(answer: Answer, is_held_back: bool, passed: &[u64]) -> Tone
    ensures { result ≡ row_tone answer is_held_back passed.now }
{
    if passed.is_empty() && !is_held_back {
        match answer {
            Answer::Ignored(_) => Tone::Ignored,
            Answer::Refused(_) => Tone::Refused,
            _ => Tone::Taken,
        }
    } else {
        Tone::Ignored
    }
}

/// Returns whether `answer` is the answer to a restart.
fn is_restart(answer: Answer) -> bool
    ensures { result ≡ restarts answer }
{
    matches!(answer, Answer::Restarted { .. })
}

/// If `action` is a merge, returns the events in `events` that are selected. For any other action, the function returns
/// no events.
fn merged_events(
    alloc: Global,
    options: &DrawOptions,
    action: &Action,
    events: EventLines,
) -> Vec<EventLine>
    ensures { result.items ≡ merged options.now.event action.now events }
{
    match action {
        Action::Of {
            act: Act::Merge { .. },
            ..
        } => options.named(events),
        _ => Vec::new(alloc),
    }
}

/// Adds a packet for each number in `numbers`. All of these packets were sent by `sender` in one action, and `is_shown`
/// states whether this action is drawn. The numbers themselves aren't stored, because a packet's number is its index.
fn add_packets(
    packets: &mut Vec<Packet>,
    sender: Sender,
    is_shown: bool,
    numbers: &[u64],
) -> Result<(), AllocError>
    ensures { OnOk result (packets.new.items ≡ packets.old.items
        ++ replicate (length numbers.now) (packet_of sender is_shown)) }
{
    let packet = Packet {
        sender,
        is_shown,
        is_given: false,
    };
    packets.resize(packets.len().saturating_add(numbers.len()), packet)
}

/// Returns two values of agent number `agent` in the cluster `world`: its event clock and its minimum for events.
#[tactic(auto, using(crate::proofs::ClockLemmas::clock_viewed, crate::proofs::ClockLemmas::min_viewed))]
fn event_times(world: &World, agent: Option<u64>) -> (Option<u64>, Option<u64>)
    ensures clock { (c : Cluster) → IsViewed c world.now → result.0 ≡ clock_in c agent }
    ensures lowest { (c : Cluster) → IsViewed c world.now → result.1 ≡ min_in c agent }
{
    let Some(number) = agent else {
        return (None, None);
    };
    match world.agent(number) {
        Some(agent) => (Some(agent.event_time()), Some(agent.event_minimum())),
        None => (None, None),
    }
}

/// Returns the clock `now` if this clock is known and differs from `before`, and `None` otherwise.
fn changed_clock(before: Option<u64>, now: Option<u64>) -> Option<u64>
    ensures { result ≡ changed before now }
{
    let (before, now) = (before?, now?);
    if before == now { None } else { Some(now) }
}

/// Makes the row for an action from the action's line. The row's label begins with `words`, and `sender` is the sender
/// of the packets that the action sends.
fn row(
    alloc: Global,
    options: &DrawOptions,
    sender: Sender,
    action: &Action,
    words: Vec<u8>,
    arrow: Arrow,
    event_clock: Option<u64>,
    lowest: Option<u64>,
    passed: &[u64],
    line: Line,
) -> Result<Row, AllocError>
    ensures { IfOk result (λ row. row
        ≡ row_with options.now.event sender.action sender.above action.now words.items arrow
        event_clock lowest passed.now line) }
{
    let answer = line.answer;
    let is_held_back = is_held_back(&line);
    let events = merged_events(alloc, options, action, line.into_events());
    Ok(Row {
        action: sender.action,
        above: sender.above,
        agent: action.actor(),
        tone: tone(answer, is_held_back, passed),
        label: label(
            alloc,
            words,
            answer,
            is_held_back,
            lowest,
            &events,
            passed,
            event_clock,
        )?,
        arrow,
        event_clock,
        restarts: is_restart(answer),
    })
}

/// Adds `row` to `rows` if `is_shown` is true.
fn add_row(rows: &mut Vec<Row>, is_shown: bool, row: Row) -> Result<(), AllocError>
    ensures { OnOk result (rows.new.items ≡ rows.old.items ++ shown_row is_shown row) }
{
    if is_shown {
        rows.push(row)?;
    }
    Ok(())
}

/// The facts that are gathered before an action is carried out: the first words of the action's label, whether the
/// action names a selected event, the agent's event clock, the times of the events that a merge carries, and the
/// action's arrow.
#[derive(Drop)]
pub(crate) struct Found {
    pub(crate) words: Vec<u8>,
    pub(crate) is_named: bool,
    pub(crate) clock: Option<u64>,
    pub(crate) times: Vec<u64>,
    pub(crate) arrow: Arrow,
}

/// Makes the rows for a run, and records the packets that were sent.
#[derive(Drop)]
pub(crate) struct Rows<'a> {
    pub(crate) options: &'a DrawOptions,
    pub(crate) packets: Vec<Packet>,
    pub(crate) rows: Vec<Row>,
}

impl<'a> Rows<'a> {
    /// Starts the rows for a run in which no action has been carried out yet. `options` select the rows that are drawn.
    /// Allocates no memory.
    pub(crate) fn new(alloc: Global, options: &'a DrawOptions) -> Rows<'a>
        ensures { (configs : List Config) → draws options.entry.now result configs [] [] }
    {
        Rows {
            options,
            packets: Vec::new(alloc),
            rows: Vec::new(alloc),
        }
    }

    /// Gathers the facts that the row of `action` needs. `world` is the cluster before the action.
    fn find(&self, alloc: Global, world: &World, action: &Action) -> Result<Found, AllocError>
        ensures { (c : Cluster) → IsViewed c world.now → IfOk result
            (IsFound self.now.options.now c self.now.packets.items action.now) }
    {
        let given = action.given(world.sent());
        Ok(Found {
            words: first_words(alloc, action, given)?,
            is_named: self.options.names(action, given),
            clock: event_times(world, action.actor()).0,
            times: carried_times(alloc, action, given)?,
            arrow: arrow(self.packets.as_slice(), action),
        })
    }

    /// Adds the row for action number `number` if this row is drawn, and records the packets that the action sent.
    /// `found` contains the facts that were gathered before the action.
    fn add_turn(
        &mut self,
        alloc: Global,
        world: &World,
        number: u64,
        action: &Action,
        line: Line,
        found: Found,
    ) -> Result<(), AllocError>
        ensures drawn { (d : Drawing) → IsDrawn d self.old.packets.items self.old.rows.items
            → IsFound self.old.options.now d.cluster self.old.packets.items action.now found
            → TakesStep (step d.cluster action.now) world.now line → number ≡ d.count + 1
            → OnOk result (IsDrawn (drawn self.old.options.now d action.now)
            self.new.packets.items self.new.rows.items) }
        ensures options { self.new.options ≡ self.old.options }
    {
        let Found {
            words,
            is_named,
            clock,
            times,
            arrow,
        } = found;
        let agent = action.actor();
        let (event_clock, lowest) = event_times(world, agent);
        let clock = changed_clock(clock, event_clock);
        let passed = passed_over(line.answer, line.events.as_slice(), &times);
        let is_shown = self.options.draws(number, action, is_named, &line, passed);
        let sender = Sender {
            agent,
            action: number,
            above: self.rows.len() as u64,
        };
        mark_given(&mut self.packets, action);
        add_packets(&mut self.packets, sender, is_shown, line.sent.as_slice())?;
        let row = row(
            alloc,
            self.options,
            sender,
            action,
            words,
            arrow,
            clock,
            lowest,
            passed,
            line,
        )?;
        add_row(&mut self.rows, is_shown, row)
    }
}

impl Turns for Rows<'_> {
    ghost use Rattle.serf_draw.specs.Rows.{draws, found_by};

    type Options = DrawOptions;

    type Seen = Found;

    ghost told = { λ options d configs actions text. draws options d configs actions text };

    ghost saw = { λ options d found configs actions action text.
        found_by options d found configs actions action text };

    ghost streams = { λ options. Unit {0} };

    fn begin(&mut self, _alloc: Global, _world: &World, _agents: u64) -> Result<(), AllocError> {
        Ok(())
    }

    fn inspect(
        &mut self,
        alloc: Global,
        world: &World,
        _number: u64,
        action: &Action,
    ) -> Result<Found, AllocError> {
        self.find(alloc, world, action)
    }

    fn tell(
        &mut self,
        alloc: Global,
        world: &World,
        number: u64,
        action: &Action,
        line: Line,
        found: Found,
        _out: &mut Vec<u8>,
    ) -> Result<(), AllocError> {
        self.add_turn(alloc, world, number, action, line, found)
    }
}
