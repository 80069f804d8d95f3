//! The states that a search has found: sets of tables and orders, with plans.

ghost use Rattle.std.specs.Prelude.{ℕ, ◌≡◌, ◌+◌, ◌<◌, ◌≤◌, [], IfOk, IfSome, IfNone, length, false};
ghost use Rattle.definitions.specs.Plans.Cost.{limit};
ghost use Rattle.definitions.specs.Plans.Space.{Space};
ghost use Rattle.plan_tree.specs.Sets.{set_of};
ghost use Rattle.join_dp.specs.Costs.{unknown};
ghost use Rattle.join_dp.specs.Searching.{cost_at, IsSettled, IsOffer, IsOpen, IsNext, AreMore, AreSlotted};
ghost use Rattle.join_dp.specs.StatePlans.{at};
ghost use Rattle.join_dp.specs.Views.{candidate_of};

use crate::frontier::Frontier;
use crate::state_costs::StateCosts;
use crate::step::Candidate;
use plan_tree::TableSet;
use std::alloc::{AllocError, Global};

/// A state with a plan.
#[derive(Clone, Copy)]
pub(crate) struct StatePlan<'a> {
    pub tables: TableSet,
    pub order: usize,
    pub found: Candidate<'a>,
}

/// Plans of states, each of which cost less than those found before, in the order in which they were found; the states that wait to be
/// settled; and how many steps were looked at.
#[derive(Drop)]
pub(crate) struct States<'a> {
    pub plans: Vec<StatePlan<'a>>,
    pub costs: StateCosts,
    pub frontier: Frontier,
    pub steps: u64,
}

impl<'a> States<'a> {
    ghost use Rattle.join_dp.specs.StateCosts.{costs_of};
    ghost use Rattle.join_dp.specs.States.{search_of, states_in, state_plan_of};

    /// No states, of so many sets of tables and orders.
    pub fn new(alloc: Global, sets: usize, orders: usize) -> Result<States<'a>, AllocError>
        ensures states { IfOk result (λ s. states_in s ≡ []) }
        ensures waiting { IfOk result (λ s. s.frontier ≡ []) }
        ensures steps { IfOk result (λ s. s.steps ≡ 0) }
        ensures sets { IfOk result (λ s. (costs_of s.costs).sets ≡ sets) }
        ensures orders { IfOk result (λ s. (costs_of s.costs).orders ≡ orders) }
        ensures costs { IfOk result (λ s. (tables order : ℕ) → (costs_of s.costs).cost tables order ≡ unknown) }
        ensures settled { IfOk result (λ s. (tables order : ℕ) → (costs_of s.costs).settled tables order ≡ false) }
    {
        Ok(States {
            plans: Vec::new(alloc),
            costs: StateCosts::new(alloc, sets, orders)?,
            frontier: Frontier::new(alloc),
            steps: 0,
        })
    }

    /// The state at a place.
    pub fn at(&self, place: usize) -> StatePlan<'a>
        requires { place < length (states_in self.now) }
        ensures { state_plan_of result ≡ at (states_in self.now) place }
    {
        self.plans[place]
    }

    /// Looks at a plan of a state, which counts as one step, and keeps it if it costs less than the one that is known.
    pub fn offer(
        &mut self,
        tables: TableSet,
        order: usize,
        found: Candidate<'a>,
    ) -> Result<(), AllocError>
        requires set { set_of tables < (costs_of self.old.costs).sets }
        requires order { order < (costs_of self.old.costs).orders }
        ensures is_open { IfOk result (λ _. (space : Space) (level : ℕ) → IsOffer space level (search_of self.old)
            (set_of tables) order (candidate_of found.entry) → IsOpen space level (search_of self.new)) }
        ensures more { IfOk result (λ _. (space : Space) (level : ℕ) → IsOffer space level (search_of self.old)
            (set_of tables) order (candidate_of found.entry) → AreMore (search_of self.old) (search_of self.new)) }
        ensures here { IfOk result (λ _. cost_at (search_of self.new) (set_of tables) order ≤ found.entry.cost.number) }
        ensures steps { IfOk result (λ _. self.new.steps ≤ self.old.steps + 1) }
    {
        self.steps = self.steps.saturating_add(1);
        if found.cost.number < self.costs.cost(tables, order) {
            self.costs.find(tables, order, found.cost)?;
            self.frontier.push(found.cost, self.plans.len())?;
            self.plans.push(StatePlan {
                tables,
                order,
                found,
            })?;
        }
        Ok(())
    }

    /// Settles the cheapest state that waits, and tells the place of its plan.
    pub fn settle_next(&mut self) -> Option<usize>
        requires slotted { AreSlotted (search_of self.old) }
        ensures next { IfSome result (λ place. (space : Space) (level : ℕ) → IsOpen space level (search_of self.old) →
            IsNext space level place (search_of self.old) (search_of self.new)) }
        ensures all { IfNone result ((space : Space) (level : ℕ) → IsOpen space level (search_of self.old) →
            (tables order : ℕ) → cost_at (search_of self.old) tables order ≤ limit →
            IsSettled (search_of self.old) tables order) }
    {
        'waiting: while let Some((_, place)) = self.frontier.pop() {
            let state = self.at(place);
            if !self.costs.is_settled(state.tables, state.order) {
                self.costs.settle(state.tables, state.order);
                return Some(place);
            }
        }
        None
    }
}
