//! Reads a written schedule line by line.

ghost use Rattle.std.specs.Prelude.{◌≡◌, ◌++◌, ◌∷◌, [], All, IfOk, List, OnOk};
ghost use Rattle.serf_agent.specs.declared.config.Config.{Config};
ghost use Rattle.serf_model.specs.declared.action.Action.{Action};
ghost use Rattle.serf_schedule.specs.Sayable.{IsSayable};
ghost use Rattle.serf_schedule.specs.Schedule.{parsed_of};
ghost use Rattle.serf_write.specs.Gives.{Gives};
ghost use Rattle.serf_write.specs.Lines.{actions_of};
ghost use Rattle.serf_write.specs.Running.{HasRun, HasWorld};
ghost use Rattle.serf_write.specs.Written.{act_line, after_line, agent_line, labelled_line, nothing, plain_line, said_by, schedule_meant, sent_count, with_acts};

use crate::actions::Operation;
use crate::labels::{Label, after_label, label_in, may_be_label};
use crate::said::read_operation;
use crate::scanner::tokens;
use crate::settings::{add_agent, following};
use crate::token::Token;
use crate::values::word;
use crate::word_error::{Expected, LineError, bad};
use serf_model::Action;
use serf_schedule::{Schedule, is_sayable};
use serf_text::is_word;
use serf_wire::Bytes;
use serf_world::{Roster, World};
use std::alloc::{AllocError, Global};
use std::marker::Model;

/// Creates a cluster of `agents` in which no action has been carried out yet.
fn new_world(alloc: Global, agents: &Roster) -> Result<World, AllocError>
    ensures { IfOk result (λ w. HasWorld agents.now [] w) }
{
    let roster = agents.try_clone(alloc)?;
    World::new(alloc, roster)
}

/// Returns the cluster after all of `actions`. The result is `world`, or a new cluster of `agents` if there is no
/// action yet. Returns `AllocError` if memory ran out earlier, or runs out now.
fn world_of(
    alloc: Global,
    world: Option<World>,
    agents: &Roster,
    actions: &[Action],
) -> Result<World, AllocError>
    requires { HasRun agents.now actions.now world }
    ensures { IfOk result (λ w. HasWorld agents.now actions.now w) }
{
    match world {
        Some(world) => Ok(world),
        None if actions.is_empty() => new_world(alloc, agents),
        None => Err(AllocError),
    }
}

/// Carries out `action` in `world`.
fn step(alloc: Global, world: &mut World, action: &Action) -> Result<(), AllocError>
    ensures { (configs : List Config) (done : List Action) → HasWorld configs done world.old
        → OnOk result (HasWorld configs (done ++ action.now ∷ []) world.new) }
{
    world.step(alloc, action)?;
    Ok(())
}

/// Carries out `action`, and returns the cluster after this action. `world` is the cluster after `actions`, or `None`
/// if there is no cluster. Returns `AllocError` if memory runs out, or if no line of a schedule can express `action`.
/// The lines of a written schedule never contain an action that a schedule can't express.
fn world_after(
    alloc: Global,
    world: Option<World>,
    agents: &Roster,
    actions: &[Action],
    action: &Action,
) -> Result<World, AllocError>
    requires { HasRun agents.now actions.now world }
    ensures sayable { OnOk result (IsSayable action.now) }
    ensures done { IfOk result (λ w. HasWorld agents.now (actions.now ++ action.now ∷ []) w) }
{
    if !is_sayable(action) {
        return Err(AllocError);
    }
    let mut world = world_of(alloc, world, agents, actions)?;
    step(alloc, &mut world, action)?;
    Ok(world)
}

/// A reader of a written schedule. The reader keeps the agents, the actions and the labels of the lines that it has
/// read, and the cluster after these actions.
///
/// Contracts see only the agents, the actions and the labels.
#[derive(Drop)]
pub(crate) struct Writing {
    agents: Roster,
    actions: Vec<Action>,
    labels: Vec<Label>,
    /// The cluster after the actions, or `None` before the first action and after memory has run out.
    world: Option<World>,
}

impl Model for Writing {
    ghost use Rattle.serf_write.specs.Written.{Written};
    ghost use Rattle.std.specs.Prelude.{All};
    ghost use Rattle.serf_schedule.specs.Sayable.{IsSayable};
    ghost use Rattle.serf_write.specs.Running.{HasRun};

    ghost Value = { Written };

    ghost view = { λ w.
        record { configs = w.agents; actions = w.actions.items; labels = w.labels.items } };

    ghost invariant = { λ w. HasRun w.agents w.actions.items w.world
        × All IsSayable w.actions.items };
}

impl Writing {
    /// Creates a reader that has read no line yet. Allocates no memory.
    pub(crate) fn new(alloc: Global) -> Writing
        ensures { result ≡ nothing }
    {
        Writing {
            agents: Roster::new(alloc),
            actions: Vec::new(alloc),
            labels: Vec::new(alloc),
            world: None,
        }
    }

    /// Returns the number of packets that the actions so far have sent. Returns `AllocError` if memory ran out earlier.
    fn sent(&self) -> Result<u64, AllocError>
        ensures { IfOk result (λ n. n ≡ sent_count self.now.configs self.now.actions) }
    {
        match &self.world {
            Some(world) => Ok(world.sent().len() as u64),
            None if self.actions.is_empty() => Ok(0),
            None => Err(AllocError),
        }
    }

    /// Carries out `action`, and appends it to the actions so far.
    fn act(&mut self, alloc: Global, action: Action) -> Result<(), AllocError>
        ensures { OnOk result (self.new
            ≡ record self.old { actions = self.old.actions ++ action ∷ [] }) }
    {
        let world = self.world.take();
        let world = world_after(alloc, world, &self.agents, self.actions.as_slice(), &action)?;
        self.actions.push(action)?;
        self.world = Some(world);
        Ok(())
    }

    /// Carries out the actions of `operation` one after the other, and appends them to the actions so far.
    fn act_all(&mut self, alloc: Global, operation: Operation) -> Result<(), LineError>
        ensures { Gives (λ _. self.new) result (with_acts self.old (actions_of operation)) }
    {
        match operation {
            Operation::One(action) => self.act(alloc, action)?,
            Operation::Two(first, second) => {
                self.act(alloc, first)?;
                self.act(alloc, second)?;
            }
        }
        Ok(())
    }

    /// Reads a line of actions, and carries out these actions. `tokens` contains the tokens of the line, without the
    /// label if the line has one.
    fn add_actions(&mut self, alloc: Global, tokens: &[Token]) -> Result<(), LineError>
        ensures { Gives (λ _. self.new) result (act_line self.old tokens.now) }
    {
        let sent = self.sent()?;
        let agents = self.agents.as_slice();
        let operation = read_operation(alloc, agents, self.labels.as_slice(), sent, tokens)?;
        self.act_all(alloc, operation)
    }

    /// Reads an agent line, and adds the agent that the line describes. The function refuses an agent line that follows
    /// an action.
    fn add_agent(&mut self, alloc: Global, tokens: &[Token]) -> Result<(), LineError>
        ensures { Gives (λ _. self.new) result (agent_line self.old tokens.now) }
    {
        if !self.actions.is_empty() {
            return Err(bad(1, Expected::AgentsFirst));
        }
        self.world = None;
        add_agent(alloc, &mut self.agents, tokens)
    }

    /// Reads a line without a label.
    fn add_plain(&mut self, alloc: Global, tokens: &[Token]) -> Result<(), LineError>
        ensures { Gives (λ _. self.new) result (plain_line self.old tokens.now) }
    {
        if is_word(word(tokens, 1), b"agent") {
            self.add_agent(alloc, tokens)
        } else {
            self.add_actions(alloc, tokens)
        }
    }

    /// Reads a line of actions with the label `name`. `tokens` contains the tokens that follow the label.
    fn add_labelled(
        &mut self,
        alloc: Global,
        name: &[u8],
        tokens: &[Token],
    ) -> Result<(), LineError>
        ensures { Gives (λ _. self.new) result (labelled_line self.old name.now tokens.now) }
    {
        if !may_be_label(self.labels.as_slice(), name) {
            return Err(bad(1, Expected::Label));
        }
        let first = self.sent()?;
        if let Err(error) = self.add_actions(alloc, tokens) {
            return Err(after_label(error));
        }
        let past = self.sent()?;
        let name = Bytes::copy_of(alloc, name)?;
        match self.labels.push(Label { name, first, past }) {
            Ok(()) => Ok(()),
            Err(_) => Err(LineError::OutOfMemory),
        }
    }

    /// Reads a line that consists of `tokens`. A line without tokens changes nothing.
    fn add_tokens(&mut self, alloc: Global, tokens: &[Token]) -> Result<(), LineError>
        ensures { Gives (λ _. self.new) result (said_by self.old tokens.now) }
    {
        if tokens.is_empty() {
            return Ok(());
        }
        match label_in(word(tokens, 1)) {
            Some(name) => self.add_labelled(alloc, name, following(tokens, 1)),
            None => self.add_plain(alloc, tokens),
        }
    }

    /// Reads `line`, without its newline.
    #[tactic(auto, unfolding(crate::specs::Written::after_line))]
    pub(crate) fn add_line(&mut self, alloc: Global, line: &[u8]) -> Result<(), LineError>
        ensures { Gives (λ _. self.new) result (after_line self.old line.now) }
    {
        let tokens = tokens(alloc, line)?;
        self.add_tokens(alloc, tokens.as_slice())
    }

    /// Returns the schedule that the lines describe. Each action in this schedule can be expressed in the text of a
    /// schedule.
    pub(crate) fn into_schedule(self) -> Schedule
        ensures meant { parsed_of result ≡ schedule_meant self }
        ensures sayable { All IsSayable result.actions.items }
    {
        let Writing {
            agents,
            actions,
            ..
        } = self;
        Schedule { agents, actions }
    }
}
