//! What a checker answers: that all rules hold, or what makes the first fail that does.

use crate::comparison::Comparison;
use plan_tree::TableSet;

/// The rules by which a certificate shows that its plan is least (own).
#[derive(Clone, Copy, PartialEq, Eq)]
pub enum Rule {
    /// No access costs less than the bound of its state.
    Accesses,
    /// No join from a listed state leads below the bound of the state that it reaches.
    Joins,
    /// Nor does a sort.
    Sorts,
    /// No listed state of all tables gives the required order, and the plan does, at the cost of the target.
    Target,
}

/// A state at which a rule fails.
#[derive(Clone, Copy, PartialEq, Eq)]
pub struct StateKey {
    pub tables: TableSet,
    pub order: usize,
}

/// A pass, or what makes the first rule fail that does.
#[derive(Clone, Copy)]
pub enum Verdict<'a> {
    Pass,
    /// The first comparison that fails.
    Below(Comparison<'a>),
    /// None fails, and the target isn't met, at this state of all tables.
    Unmet(StateKey),
}
