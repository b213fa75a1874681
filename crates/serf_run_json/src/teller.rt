//! Writes the objects of a run, turn by turn.

ghost use Rattle.std.specs.Prelude.{◌≡◌, ◌++◌, ◌==◌, [], List, ℕ, Bool, OnOk, if◌then◌else◌};
ghost use Rattle.serf_agent.specs.declared.config.Config.{Config};
ghost use Rattle.serf_run_json.specs.Members.{settings_of};
ghost use Rattle.serf_run_json.specs.Objects.{AddsExplanation};
ghost use Rattle.serf_run_json.specs.Results.{results_text};
ghost use Rattle.serf_run_json.specs.Settings.{agents_text};
ghost use Rattle.serf_run_json.specs.Teller.{HasObjects};

use crate::reasons::write_reasons;
use crate::results::write_results;
use crate::states::{FiredQuery, StateNumbers, numbers_before, write_agents, write_state};
use serf_explain::{Range, Reasoning};
use serf_model::{Action, Answer, Line};
use serf_world::{Turns, World};
use std::alloc::{AllocError, Global};

/// Writes the objects of a run, either with reasons and states or without them.
#[derive(Drop)]
pub struct RunObjects {
    /// Writes the plain text of each turn, which contains the reasons.
    reasoning: Reasoning,
    /// The plain text of the current turn.
    text: Vec<u8>,
    range: Range,
    /// Whether reasons and states are written.
    explains: bool,
    /// The queries that agents have fired so far.
    fired_queries: Vec<FiredQuery>,
}

impl RunObjects {
    /// Creates a writer of objects for a run in which no action has been performed yet. The writer writes only the
    /// objects of the actions in `range` and, if `explains` is true, their reasons and states. Before the first action,
    /// the writer writes the agents' settings, whatever the range is. The function allocates no memory.
    pub fn new(alloc: Global, range: Range, explains: bool) -> RunObjects
        ensures { (configs : List Config) → HasObjects (range, explains) result configs [] [] }
    {
        RunObjects {
            reasoning: Reasoning::new(alloc, range),
            text: Vec::new(alloc),
            range,
            explains,
            fired_queries: Vec::new(alloc),
        }
    }
}

/// If an action fired a query, records this query.
fn record(
    fired_queries: &mut Vec<FiredQuery>,
    action: &Action,
    line: &Line,
) -> Result<(), AllocError> {
    if let Answer::Queried(time) = line.answer
        && let Some(agent) = action.actor()
    {
        fired_queries.push(FiredQuery { agent, time })?;
    }
    Ok(())
}

/// If `number` is 1, which is the number of the first action, appends the settings of each agent.
fn write_front(out: &mut Vec<u8>, world: &World, number: u64) -> Result<(), AllocError>
    ensures { OnOk result (out.new.items ≡ out.old.items
        ++ (if number == 1 then agents_text 0 (settings_of world.now) else [])) }
{
    if number == 1 {
        return write_agents(out, world);
    }
    Ok(())
}

/// If the action is shown, appends the objects of its results.
fn write_shown(
    alloc: Global,
    out: &mut Vec<u8>,
    world: &World,
    number: u64,
    action: &Action,
    line: &Line,
    is_shown: bool,
) -> Result<(), AllocError>
    ensures { OnOk result (out.new.items ≡ out.old.items ++ (if is_shown
        then results_text (settings_of world.now) world.now.sent number action.now line.now
        else [])) }
{
    if is_shown {
        return write_results(alloc, out, world, number, action, line);
    }
    Ok(())
}

/// Writes the plain text of an action to `text`. If the action is shown, the function also appends the objects of its
/// reasons, and the object of the state of the agent that acted. The argument `before` contains the numbers in the
/// state that the agent had before the action.
fn write_explanation(
    alloc: Global,
    out: &mut Vec<u8>,
    reasoning: &mut Reasoning,
    text: &mut Vec<u8>,
    world: &World,
    number: u64,
    action: &Action,
    line: Line,
    is_shown: bool,
    before: &Option<StateNumbers>,
    fired_queries: &[FiredQuery],
) -> Result<(), AllocError>
    ensures { OnOk result (AddsExplanation is_shown out.old.items out.new.items) }
{
    let answer = line.answer;
    text.clear();
    reasoning.tell(alloc, world, number, action, line, (), text)?;
    if !is_shown {
        return Ok(());
    }
    write_reasons(alloc, out, world, number, action, &answer, text)?;
    write_state(alloc, out, world, number, action, before, fired_queries)
}

impl Turns for RunObjects {
    ghost use Rattle.std.specs.Prelude.{◌≡◌};
    ghost use Rattle.serf_explain.specs.Range.{all_actions};
    ghost use Rattle.serf_run_json.specs.Teller.{HasObjects};

    /// The range of the actions whose objects are written, and whether reasons and states are written as well.
    type Options = (Range, bool);

    type Seen = Option<StateNumbers>;

    ghost told = { HasObjects };

    ghost saw = { λ options t seen configs actions action text.
        HasObjects options t configs actions text };

    ghost streams = { λ options. options.0 ≡ all_actions };

    fn begin(&mut self, alloc: Global, world: &World, agents: u64) -> Result<(), AllocError> {
        self.reasoning.begin(alloc, world, agents)
    }

    fn inspect(
        &mut self,
        alloc: Global,
        world: &World,
        number: u64,
        action: &Action,
    ) -> Result<Option<StateNumbers>, AllocError> {
        if self.explains {
            self.reasoning.inspect(alloc, world, number, action)?;
        }
        Ok(numbers_before(world, action))
    }

    fn tell(
        &mut self,
        alloc: Global,
        world: &World,
        number: u64,
        action: &Action,
        line: Line,
        seen: Option<StateNumbers>,
        out: &mut Vec<u8>,
    ) -> Result<(), AllocError> {
        let is_shown = self.range.shows(number, action.actor());
        write_front(out, world, number)?;
        write_shown(alloc, out, world, number, action, &line, is_shown)?;
        if !self.explains {
            return Ok(());
        }
        record(&mut self.fired_queries, action, &line)?;
        write_explanation(
            alloc,
            out,
            &mut self.reasoning,
            &mut self.text,
            world,
            number,
            action,
            line,
            is_shown,
            &seen,
            self.fired_queries.as_slice(),
        )
    }
}
