//! Rosters: the settings of agents that can make a cluster together.

ghost use Rattle.std.specs.Prelude.{◌≡◌, ◌↔◌, [], ◌∷◌, ◌++◌, if◌then◌else◌, List, false, true, not, IfErr, IfOk, IsErrOf, OnErr, OnOk};
ghost use Rattle.serf_agent.specs.declared.config.Config.{Config};
ghost use Rattle.serf_agent.specs.Config.{is_sound};
ghost use Rattle.serf_model.specs.Runs.{AreConfigs, IsNewError, first_bad, has_name};
ghost use Rattle.serf_world.specs.Roster.{AreNames};

use serf_agent::Config;
use serf_model::NewError;
use std::alloc::{AllocError, Global};
use std::collections::HashSet;
use std::marker::Model;
use thiserror::Error;

/// The reason why an agent isn't added to a roster. The roster is unchanged. `BadConfig` is checked before `NameTwice`.
#[derive(Clone, Copy, Debug, PartialEq, Eq, Error)]
pub enum RosterError {
    #[error("the settings are out of bounds")]
    BadConfig,
    #[error("an earlier agent has this name")]
    NameTwice,
    #[error("out of memory")]
    OutOfMemory,
}

/// The settings of agents that can make a cluster, in order. Each agent's settings are within their bounds, and no two
/// agents have the same name.
///
/// Contracts see the list of settings. `names` has the agents' names, so that a name is found fast among many.
pub struct Roster {
    configs: Vec<Config>,
    names: HashSet<Vec<u8>>,
}

/// Implemented by hand, so that dependent crates need not prove again that the fields can be dropped.
impl Drop for Roster {
    fn drop(self) {
        let Roster {
            configs: _,
            names: _,
        } = self;
    }
}

impl Model for Roster {
    ghost use Rattle.std.specs.Prelude.{List};
    ghost use Rattle.serf_agent.specs.declared.config.Config.{Config};
    ghost use Rattle.serf_model.specs.Runs.{AreConfigs};
    ghost use Rattle.serf_world.specs.Roster.{AreNames};

    ghost Value = { List Config };

    ghost view = { λ r. r.configs.items };

    ghost invariant = { λ r. AreNames r.names r.configs.items × AreConfigs r.configs.items };
}

/// Adds `name` to `names`, the set of some agents' names. Returns true if the name wasn't in the set yet. After an
/// `AllocError`, the set is unchanged.
fn add_name(alloc: Global, names: &mut HashSet<Vec<u8>>, name: &[u8]) -> Result<bool, AllocError>
    ensures free { (configs : List Config) → AreNames names.old configs
        → IfOk result (λ free. free ≡ not (has_name configs name.now)) }
    ensures names { (configs : List Config) (config : Config) → AreNames names.old configs
        → config.name ≡ name.now
        → IfOk result (λ free.
        AreNames names.new (if free then configs ++ config ∷ [] else configs)) }
    ensures err { (configs : List Config) → AreNames names.old configs
        → OnErr result (AreNames names.new configs) }
{
    let name = Vec::from_slice(alloc, name)?;
    match names.insert(name) {
        Ok(free) => Ok(free),
        Err(_) => Err(AllocError),
    }
}

/// Returns the number, counted from 0, of the first agent whose settings are out of bounds, or `None` if there is none.
fn bad_config(configs: &[Config]) -> Option<usize>
    ensures { result ≡ first_bad configs.now }
{
    configs.iter().position(|config| !config.is_sound())
}

impl Roster {
    /// Makes a roster without agents. Allocates no memory.
    pub fn new(alloc: Global) -> Roster
        ensures { result ≡ [] }
    {
        Roster {
            configs: Vec::new(alloc),
            names: HashSet::new(alloc),
        }
    }

    /// Makes the roster of the agents with the settings `configs`, in order. `NameTwice` is checked before `BadConfig`.
    /// The error contains the number of the first agent with this error, counted from 0.
    pub fn from_vec(alloc: Global, configs: Vec<Config>) -> Result<Roster, NewError>
        ensures agents { IfOk result (λ roster. roster ≡ configs.items) }
        ensures configs { OnOk result (AreConfigs configs.items) }
        ensures error { IfErr result (IsNewError configs.items) }
    {
        let mut names = HashSet::new(alloc);
        for (number, config) in configs.iter().enumerate() {
            match add_name(alloc, &mut names, config.name.as_slice()) {
                Ok(true) => {}
                Ok(false) => return Err(NewError::NameTwice(number as u64)),
                Err(_) => return Err(NewError::OutOfMemory),
            }
        }
        match bad_config(&configs) {
            Some(number) => Err(NewError::BadConfig(number as u64)),
            None => Ok(Roster { configs, names }),
        }
    }

    /// Adds an agent with the settings `config` after the others. An error leaves the roster unchanged.
    pub fn add(&mut self, alloc: Global, config: Config) -> Result<(), RosterError>
        ensures ok { OnOk result (self.new ≡ self.old ++ config ∷ []) }
        ensures free { OnOk result (has_name self.old config.name ≡ false) }
        ensures bad { IsErrOf result RosterError.BadConfig ↔ (is_sound config ≡ false) }
        ensures twice { IsErrOf result RosterError.NameTwice
            → has_name self.old config.name ≡ true }
        ensures err { OnErr result (self.new ≡ self.old) }
        ensures configs { OnOk result (AreConfigs self.new) }
    {
        if !config.is_sound() {
            return Err(RosterError::BadConfig);
        }
        if self.configs.reserve(1).is_err() {
            return Err(RosterError::OutOfMemory);
        }
        match add_name(alloc, &mut self.names, config.name.as_slice()) {
            Ok(true) => {}
            Ok(false) => return Err(RosterError::NameTwice),
            Err(_) => return Err(RosterError::OutOfMemory),
        }
        match self.configs.push(config) {
            Ok(()) => Ok(()),
            // (room for it was reserved above)
            Err(_) => unreachable!(),
        }
    }

    /// Copies this roster. Returns an `AllocError` only if there is no memory for the copy.
    pub fn try_clone(&self, alloc: Global) -> Result<Roster, AllocError>
        ensures { IfOk result (λ copy. copy ≡ self.now) }
    {
        let mut configs = Vec::new(alloc);
        for config in self.as_slice() {
            configs.push(config.try_clone(alloc)?)?;
        }
        match Roster::from_vec(alloc, configs) {
            Ok(copy) => Ok(copy),
            Err(NewError::OutOfMemory) => Err(AllocError),
            // (these are the settings of a roster: they are sound, and no two agents have the same name)
            Err(NewError::NameTwice(_) | NewError::BadConfig(_)) => unreachable!(),
        }
    }

    /// Borrows the agents' settings, in order, for reading. Allocates no memory.
    pub fn as_slice(&self) -> &[Config]
        ensures agents { result.now ≡ self.now }
        ensures configs { AreConfigs self.now }
    {
        self.configs.as_slice()
    }

    /// Consumes the roster and returns the agents' settings, in order. Allocates no memory.
    pub fn into_vec(self) -> Vec<Config>
        ensures agents { result.items ≡ self }
        ensures configs { AreConfigs self }
    {
        let Roster { configs, names: _ } = self;
        configs
    }
}
