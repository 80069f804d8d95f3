//! The search: state after state, in the order of their costs.

ghost use Rattle.std.specs.Prelude.{ℕ, ◌<◌, ◌≤◌, IfOk, length};
ghost use Rattle.std.specs.Bool.{Decides};
ghost use Rattle.definitions.specs.Limits.{most_from_tables};
ghost use Rattle.definitions.specs.Plans.Search.{IsComplete};
ghost use Rattle.join_dp.specs.Counting.{AreCounts, most_steps};
ghost use Rattle.join_dp.specs.Final.{IsFinal};
ghost use Rattle.join_dp.specs.Searched.{IsEnd};
ghost use Rattle.join_dp.specs.StatePlans.{at};
ghost use Rattle.join_dp.specs.States.{search_of, states_in};
ghost use Rattle.plan_space.specs.Planned.{space_in};

use crate::accesses::take_accesses;
use crate::join_lists::JoinLists;
use crate::states::States;
use crate::taking::take_steps;
use plan_space::Space;
use std::alloc::{AllocError, Global};

/// Settles states in the order of their costs, from the accesses on, until one is settled that is of all tables and gives the required
/// order. It tells the place of that one's plan.
pub(crate) fn settle_states<'a>(
    alloc: Global,
    space: &'a Space<'_>,
) -> Result<(States<'a>, usize), AllocError>
    ensures complete { IfOk result (λ _. IsComplete (space_in space.now)) }
    ensures few { IfOk result (λ _. (space_in space.now).table_count ≤ most_from_tables) }
    ensures end { IfOk result (λ r. IsEnd (space_in space.now) r.1 (search_of r.0)) }
    ensures steps { (sorts : ℕ → ℕ) (joins : ℕ → ℕ → ℕ) → AreCounts (space_in space.now) sorts joins →
        IfOk result (λ r. r.0.steps ≤ most_steps (space_in space.now) sorts joins) }
{
    let sets = 1usize << space.table_count();
    let mut lists = JoinLists::new(alloc, sets)?;
    let mut states = States::new(alloc, sets, space.order_count())?;
    take_accesses(space, &mut states)?;
    'states: while let Some(place) = states.settle_next() {
        if is_final(space, &states, place) {
            return Ok((states, place));
        }
        take_steps(space, &mut lists, &mut states, place)?;
    }
    unreachable!()
}

/// Whether the state at a place is of all tables and gives the required order.
fn is_final(space: &Space<'_>, states: &States<'_>, place: usize) -> bool
    requires { place < length (states_in states.now) }
    ensures { Decides result (IsFinal (space_in space.now) (at (states_in states.now) place).tables
        (at (states_in states.now) place).order) }
{
    let state = states.at(place);
    state.tables.place() == space.whole().place() && space.gives_required(state.order)
}
