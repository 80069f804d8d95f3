//! What the rules of a certificate compare.

ghost use Rattle.std.specs.Prelude.{◌≡◌, ◌+◌};
ghost use Rattle.definitions.specs.Plans.Checking.{rule_of_step};
ghost use Rattle.definitions.specs.Plans.Cost.{saturated};
ghost use Rattle.plan_tree.specs.Sets.{set_of};
ghost use Rattle.cert_check.specs.Compared.{told_tables, told_order};
ghost use Rattle.cert_check.specs.Comparisons.{comparison_of};
ghost use Rattle.cert_check.specs.Verdicts.{rule_of};

use crate::verdict::{Rule, StateKey};
use plan_tree::{Cost, Path, State};

/// A step of the plan space; its path is the space's own.
#[derive(Clone, Copy)]
pub enum PlanStep<'a> {
    Access(&'a Path),
    Loop(&'a Path),
    Merge {
        conjunct: usize,
        path: &'a Path,
        sorted: bool,
    },
    Sort {
        order: usize,
    },
}

/// A single step to a state, and its cost there, which is compared with the state's bound (own).
#[derive(Clone, Copy)]
pub struct Comparison<'a> {
    pub step: PlanStep<'a>,
    /// The listed state that the step begins from, with its bound; none for an access.
    pub from: Option<State>,
    /// The state that it leads to.
    pub to: StateKey,
    /// What the step comes to there.
    pub cost: Cost,
    pub bound: u64,
}

impl Comparison<'_> {
    /// The rule that compares the step.
    pub fn rule(&self) -> Rule
        ensures { rule_of result ≡ rule_of_step (comparison_of self.now).step }
    {
        match self.step {
            PlanStep::Access(_) => Rule::Accesses,
            PlanStep::Loop(_) | PlanStep::Merge { .. } => Rule::Joins,
            PlanStep::Sort { .. } => Rule::Sorts,
        }
    }

    /// The state that is told where the rule fails: the one that the step begins from, and of an access the one that it leads to.
    pub fn place(&self) -> StateKey
        ensures tables { set_of result.tables ≡ told_tables (comparison_of self.now) }
        ensures order { result.order ≡ told_order (comparison_of self.now) }
    {
        match self.from {
            Some(state) => StateKey {
                tables: state.tables,
                order: state.order,
            },
            None => self.to,
        }
    }
}

/// What a step from a listed state comes to: the state's bound, whatever the certificate claims it to be, and what the step adds.
pub(crate) fn cost_from(from: State, added: Cost) -> Cost
    ensures { result.number ≡ saturated (from.cost + added.number) }
{
    Cost::of(u128::from(from.cost)).plus(added)
}
