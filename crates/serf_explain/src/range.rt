//! Selects the actions that are explained.

ghost use Rattle.std.specs.Prelude.{◌≡◌};

/// Selects the actions of one agent or of all agents, from a first action number to a last one. Actions are numbered
/// from 1.
#[derive(Clone, Copy, PartialEq, Eq)]
pub struct Range {
    /// The number of the agent whose actions are explained. If `agent` is `None`, the actions of all agents and all
    /// injections are explained.
    pub agent: Option<u64>,
    /// The number of the first action that is explained.
    pub from: u64,
    /// The number of the last action that is explained.
    pub to: u64,
}

impl Range {
    ghost use Rattle.serf_explain.specs.Range.{is_shown, is_wanted};

    /// Returns whether the actions of agent number `actor` are explained. For an injection, `actor` is `None`.
    fn wants(&self, actor: Option<u64>) -> bool
        ensures { result ≡ is_wanted self.now.agent actor }
    {
        match (self.agent, actor) {
            (None, _) => true,
            (Some(_), None) => false,
            (Some(agent), Some(actor)) => actor == agent,
        }
    }

    /// Returns whether action number `number`, which agent number `actor` performs, is explained. For an injection,
    /// `actor` is `None`.
    pub fn shows(&self, number: u64, actor: Option<u64>) -> bool
        ensures { result ≡ is_shown self.now number actor }
    {
        self.from <= number && number <= self.to && self.wants(actor)
    }
}
