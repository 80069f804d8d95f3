//! The states that plans are compared at.

use crate::steps::PlanSteps;
use cert_check::{PlanSummary, Space, StateKey};
use plan_tree::{Plan, State, TableSet};
use std::alloc::{AllocError, Global};

/// Where a plan is on its way: the states that its parts are compared at.
#[derive(Drop)]
pub struct Way {
    states: Vec<StateKey>,
}

impl Way {
    /// The way of a plan through a plan space. It fails where memory runs out.
    pub fn of(alloc: Global, space: &Space<'_>, plan: &Plan) -> Result<Way, AllocError> {
        let steps = PlanSteps::of(alloc, space, plan)?;
        let mut states = Vec::new(alloc);
        for place in 0..steps.len() {
            if let Some(shown) = steps.shown(place) {
                states.push(state_of(space, shown.summary))?;
            }
        }
        Ok(Way { states })
    }

    /// Whether a state is one of the way.
    pub fn has(&self, key: StateKey) -> bool {
        for own in &self.states {
            if are_one_state(*own, key) {
                return true;
            }
        }
        false
    }

    /// Whether a single step may lead from a set of tables to a state of the way: from the tables of one, or from all of them but one.
    pub(crate) fn is_near(&self, tables: TableSet) -> bool {
        let part = tables.place();
        for own in &self.states {
            let whole = own.tables.place();
            if part & whole == part && (part ^ whole).count_ones() <= 1 {
                return true;
            }
        }
        false
    }
}

/// The state that a plan is compared at, by what it comes to.
pub fn state_of(space: &Space<'_>, summary: PlanSummary) -> StateKey {
    StateKey {
        tables: summary.tables,
        order: space.fold(summary.tables, summary.order),
    }
}

/// The state that a listed one is told by.
pub fn key_of(state: &State) -> StateKey {
    StateKey {
        tables: state.tables,
        order: state.order,
    }
}

/// Whether two states are of the same tables in the same order.
pub fn are_one_state(one: StateKey, other: StateKey) -> bool {
    one.tables.place() == other.tables.place() && one.order == other.order
}
