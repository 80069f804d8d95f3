//! Certificates: a target, and lower bounds of states that cost less.

ghost use Rattle.std.specs.Prelude.{◌≡◌};
ghost use Rattle.definitions.specs.Plans.Certificate as spec;
ghost use Rattle.plan_tree.specs.Sets.{set_of};
ghost use Rattle.plan_tree.specs.Preceding.{precedes, is_at};

use crate::table_set::TableSet;

/// A set of tables and a folded order, which plans are compared at, with a cost (Selinger et al. 1979, section 5).
#[derive(Clone, Copy, Debug)]
pub struct State {
    pub tables: TableSet,
    pub order: usize,
    pub cost: u64,
}

impl State {
    ghost use Rattle.plan_tree.specs.Certificates.{state_of};

    /// Whether the state stands before that of a set of tables and an order: states go by their sets, then by their orders.
    fn precedes(&self, tables: TableSet, order: usize) -> bool
        ensures { result ≡ precedes (set_of tables) order (state_of self.now) }
    {
        self.tables.place() < tables.place()
            || self.tables.place() == tables.place() && self.order < order
    }

    /// Whether the state is that of a set of tables and an order.
    fn is_at(&self, tables: TableSet, order: usize) -> bool
        ensures { result ≡ is_at (set_of tables) order (state_of self.now) }
    {
        self.tables.place() == tables.place() && self.order == order
    }
}

/// A target, which the cost of a plan is claimed to be, and lower bounds of states that cost less, in rising order (own).
#[derive(Drop)]
pub struct Certificate {
    pub target: u64,
    pub states: Vec<State>,
}

impl Certificate {
    ghost use Rattle.plan_tree.specs.Certificates.{certificate_of};

    /// The bound of a state: its listed cost, and the target where it is not listed (own). It takes time that grows as the
    /// logarithm of the number of states.
    pub fn bound(&self, tables: TableSet, order: usize) -> u64
        requires { spec.AreRising (certificate_of self.now).states }
        ensures { result ≡ spec.bound (certificate_of self.now) (set_of tables) order }
    {
        let place = self
            .states
            .partition_point(|state| state.precedes(tables, order));
        match self.states.get(place) {
            Some(state) if state.is_at(tables, order) => state.cost,
            _ => self.target,
        }
    }
}
