//! Writes the objects of a schedule that is run line by line, either without reasons or with them. Each of the two ways
//! has its own type, so that the contracts show which way is used while lines are read.

ghost use Rattle.std.specs.Prelude.{◌≡◌, [], List, true, false};
ghost use Rattle.serf_agent.specs.declared.config.Config.{Config};
ghost use Rattle.serf_explain.specs.Range.{all_actions};
ghost use Rattle.serf_run_json.specs.Teller.{HasObjects};

use crate::states::StateNumbers;
use crate::teller::RunObjects;
use serf_explain::Range;
use serf_model::{Action, Line};
use serf_world::{Turns, World};
use std::alloc::{AllocError, Global};

/// The range of all actions.
const ALL: Range = Range {
    agent: None,
    from: 1,
    to: u64::MAX,
};

/// Writes the objects of all actions, without reasons.
#[derive(Drop)]
pub(crate) struct PlainObjects {
    objects: RunObjects,
}

impl PlainObjects {
    /// Creates a writer of objects for a run in which no action has been performed yet.
    pub(crate) fn new(alloc: Global) -> PlainObjects
        ensures { (configs : List Config)
            → HasObjects (all_actions, false) result.objects configs [] [] }
    {
        PlainObjects {
            objects: RunObjects::new(alloc, ALL, false),
        }
    }
}

impl Turns for PlainObjects {
    ghost use Rattle.std.specs.Prelude.{false};
    ghost use Rattle.serf_explain.specs.Range.{all_actions};
    ghost use Rattle.serf_run_json.specs.Teller.{HasObjects};

    type Options = ();

    type Seen = Option<StateNumbers>;

    ghost told = { λ options t configs actions text.
        HasObjects (all_actions, false) t.objects configs actions text };

    ghost saw = { λ options t seen configs actions action text.
        HasObjects (all_actions, false) t.objects configs actions text };

    ghost streams = { λ options. Unit {0} };

    fn begin(&mut self, alloc: Global, world: &World, agents: u64) -> Result<(), AllocError> {
        self.objects.begin(alloc, world, agents)
    }

    fn inspect(
        &mut self,
        alloc: Global,
        world: &World,
        number: u64,
        action: &Action,
    ) -> Result<Option<StateNumbers>, AllocError> {
        self.objects.inspect(alloc, world, number, action)
    }

    fn tell(
        &mut self,
        alloc: Global,
        world: &World,
        number: u64,
        action: &Action,
        line: Line,
        seen: Option<StateNumbers>,
        out: &mut Vec<u8>,
    ) -> Result<(), AllocError> {
        self.objects
            .tell(alloc, world, number, action, line, seen, out)
    }
}

/// Writes the objects of all actions, with reasons and states.
#[derive(Drop)]
pub(crate) struct ReasonedObjects {
    objects: RunObjects,
}

impl ReasonedObjects {
    /// Creates a writer of objects for a run in which no action has been performed yet.
    pub(crate) fn new(alloc: Global) -> ReasonedObjects
        ensures { (configs : List Config)
            → HasObjects (all_actions, true) result.objects configs [] [] }
    {
        ReasonedObjects {
            objects: RunObjects::new(alloc, ALL, true),
        }
    }
}

impl Turns for ReasonedObjects {
    ghost use Rattle.std.specs.Prelude.{true};
    ghost use Rattle.serf_explain.specs.Range.{all_actions};
    ghost use Rattle.serf_run_json.specs.Teller.{HasObjects};

    type Options = ();

    type Seen = Option<StateNumbers>;

    ghost told = { λ options t configs actions text.
        HasObjects (all_actions, true) t.objects configs actions text };

    ghost saw = { λ options t seen configs actions action text.
        HasObjects (all_actions, true) t.objects configs actions text };

    ghost streams = { λ options. Unit {0} };

    fn begin(&mut self, alloc: Global, world: &World, agents: u64) -> Result<(), AllocError> {
        self.objects.begin(alloc, world, agents)
    }

    fn inspect(
        &mut self,
        alloc: Global,
        world: &World,
        number: u64,
        action: &Action,
    ) -> Result<Option<StateNumbers>, AllocError> {
        self.objects.inspect(alloc, world, number, action)
    }

    fn tell(
        &mut self,
        alloc: Global,
        world: &World,
        number: u64,
        action: &Action,
        line: Line,
        seen: Option<StateNumbers>,
        out: &mut Vec<u8>,
    ) -> Result<(), AllocError> {
        self.objects
            .tell(alloc, world, number, action, line, seen, out)
    }
}
