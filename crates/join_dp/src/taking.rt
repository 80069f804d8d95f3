//! The steps from a settled state.

ghost use Rattle.std.specs.Prelude.{ℕ, ◌≡◌, ◌+◌, ◌*◌, ◌<◌, ◌≤◌, ◌^◌, IfOk, List, length};
ghost use Rattle.std.specs.Bool.{Decides};
ghost use Rattle.definitions.specs.Limits.{most_from_tables};
ghost use Rattle.plan_tree.specs.Sets.{set_of};
ghost use Rattle.plan_space.specs.InterestingOrders.Sorts.{AreSorts};
ghost use Rattle.join_dp.specs.Counting.{AreCounts, most_joins};
ghost use Rattle.join_dp.specs.Final.{IsFinal};
ghost use Rattle.join_dp.specs.JoinLists.{joins_in, listed_in, AreJoins, AreLists, IsListed, IsRelationAt, Stand};
ghost use Rattle.join_dp.specs.Joining.{GoesWith, IsAdded};
ghost use Rattle.join_dp.specs.Searched.{cost_sorted, sorted_from, AreSortsTaken, LowByAdded, LowByJoins, LowBySorts, IsSearched, IsSame, IsNone};
ghost use Rattle.join_dp.specs.Searching.{cost_at, IsOpen, AreMore};
ghost use Rattle.join_dp.specs.StatePlans.{at};
ghost use Rattle.join_dp.specs.States.{search_of, states_in, state_plan_of};
ghost use Rattle.join_dp.specs.Views.{join_of, added_of};
ghost use Rattle.plan_space.specs.Planned.{space_in};
ghost use Rattle.plan_space.specs.Relation.{IsRelation};
ghost use Rattle.definitions.specs.Plans.Space as spaces;

use crate::join_lists::{JoinLists, Places};
use crate::states::{StatePlan, States};
use crate::step::{AddedJoin, Candidate, Join, Step};
use plan_space::{JoinRelation, Space};
use plan_tree::Cost;
use std::alloc::AllocError;

/// Takes the steps from the state at a place.
pub(crate) fn take_steps<'a>(
    space: &'a Space<'_>,
    lists: &mut JoinLists<'a>,
    states: &mut States<'a>,
    place: usize,
) -> Result<(), AllocError>
    requires few { (space_in space.now).table_count ≤ most_from_tables }
    requires place { place < length (states_in states.old) }
    requires lists { AreLists (space_in space.now) lists.old }
    requires never { IsFinal (space_in space.now) (at (states_in states.old) place).tables
        (at (states_in states.old) place).order → ⊥ }
    requires cost { cost_at (search_of states.old) (at (states_in states.old) place).tables
        (at (states_in states.old) place).order ≡ (at (states_in states.old) place).found.cost }
    requires searched { IsSearched (space_in space.now) (at (states_in states.old) place).found.cost
        (IsSame (at (states_in states.old) place)) (IsListed lists.old) (search_of states.old) }
    ensures lists { IfOk result (λ _. AreLists (space_in space.now) lists.new) }
    ensures searched { IfOk result (λ _. IsSearched (space_in space.now) (at (states_in states.old) place).found.cost
        IsNone (IsListed lists.new) (search_of states.new)) }
    ensures more { IfOk result (λ _. AreMore (search_of states.old) (search_of states.new)) }
    ensures listed { IfOk result (λ _. (tables : ℕ) → listed_in lists.old tables ≤ listed_in lists.new tables) }
    ensures steps { (sorts : ℕ → ℕ) (joins : ℕ → ℕ → ℕ) → AreCounts (space_in space.now) sorts joins →
        IfOk result (λ _. states.new.steps
        + listed_in lists.old (at (states_in states.old) place).tables * sorts (at (states_in states.old) place).tables ≤
        states.old.steps + most_joins (space_in space.now) sorts joins (at (states_in states.old) place).tables
        (space_in space.now).table_count
        + listed_in lists.new (at (states_in states.old) place).tables * sorts (at (states_in states.old) place).tables) }
{
    let places = list_joins(space, lists, states, place)?;
    take_joins(space, lists, places, states, place)
}

/// Lists the joins on top of the plans of a state's set, and takes its sorts, where the state is the first of its set that is settled. It
/// is the cheapest, then, and sorts of the others cost no less.
fn list_joins<'a>(
    space: &'a Space<'_>,
    lists: &mut JoinLists<'a>,
    states: &mut States<'a>,
    place: usize,
) -> Result<Places, AllocError>
    requires place { place < length (states_in states.old) }
    requires lists { AreLists (space_in space.now) lists.old }
    requires is_open { IsOpen (space_in space.now) (at (states_in states.old) place).found.cost (search_of states.old) }
    ensures lists { IfOk result (λ _. AreLists (space_in space.now) lists.new) }
    ensures here { IfOk result (λ places. Stand lists.new (at (states_in states.old) place).tables places) }
    ensures is_open { IfOk result (λ _. IsOpen (space_in space.now) (at (states_in states.old) place).found.cost
        (search_of states.new)) }
    ensures more { IfOk result (λ _. AreMore (search_of states.old) (search_of states.new)) }
    ensures sorts { IfOk result (λ _. AreSortsTaken (space_in space.now) (at (states_in states.old) place)
        (IsListed lists.old) (IsListed lists.new) (cost_at (search_of states.new))) }
    ensures listed { IfOk result (λ _. (tables : ℕ) → listed_in lists.old tables ≤ listed_in lists.new tables) }
    ensures steps { (sorts : ℕ → ℕ) (joins : ℕ → ℕ → ℕ) → AreCounts (space_in space.now) sorts joins →
        IfOk result (λ _. states.new.steps
        + listed_in lists.old (at (states_in states.old) place).tables * sorts (at (states_in states.old) place).tables ≤
        states.old.steps
        + listed_in lists.new (at (states_in states.old) place).tables * sorts (at (states_in states.old) place).tables) }
{
    let tables = states.at(place).tables;
    if let Some(places) = lists.places(tables) {
        return Ok(places);
    }
    let outer = space.relation(tables);
    take_sorts(space, &outer, states, place)?;
    lists.list(space, outer)
}

/// Looks at all sorts of the plan at a place, whose set has this relation.
fn take_sorts<'a>(
    space: &'a Space<'_>,
    outer: &JoinRelation<'_>,
    states: &mut States<'a>,
    place: usize,
) -> Result<(), AllocError>
    requires outer { IsRelation (space_in space.now) outer.now }
    requires from { set_of outer.now.tables ≡ (at (states_in states.old) place).tables }
    requires place { place < length (states_in states.old) }
    requires is_open { IsOpen (space_in space.now) (at (states_in states.old) place).found.cost (search_of states.old) }
    ensures is_open { IfOk result (λ _. IsOpen (space_in space.now) (at (states_in states.old) place).found.cost
        (search_of states.new)) }
    ensures more { IfOk result (λ _. AreMore (search_of states.old) (search_of states.new)) }
    ensures low { IfOk result (λ _. LowBySorts (space_in space.now) (cost_at (search_of states.new))
        (at (states_in states.old) place).tables (at (states_in states.old) place).found.cost) }
    ensures steps { IfOk result (λ _. (orders : List ℕ)
        × AreSorts (space_in space.now) (at (states_in states.old) place).tables orders
        × (states.new.steps ≤ states.old.steps + length orders)) }
{
    let state = states.at(place);
    let (from, cost) = sort_base(space, outer, state, place);
    'orders: for order in space.sorts(state.tables) {
        let found = Candidate {
            step: Step::Sort { from, order },
            cost,
        };
        states.offer(state.tables, space.fold(state.tables, order), found)?;
    }
    Ok(())
}

/// The place of the plan that is sorted where the state's plan at a place is, and what that costs. One that is sorted already is sorted
/// into another order in place of that one.
fn sort_base(
    space: &Space<'_>,
    outer: &JoinRelation<'_>,
    state: StatePlan<'_>,
    place: usize,
) -> (usize, Cost)
    requires outer { IsRelation (space_in space.now) outer.now }
    requires from { set_of outer.now.tables ≡ set_of state.tables }
    ensures from { result.0 ≡ sorted_from place (state_plan_of state.entry) }
    ensures cost { result.1.number ≡ cost_sorted (space_in space.now) (state_plan_of state.entry) }
{
    match state.found.step {
        Step::Sort { from, .. } => (from, state.found.cost),
        _ => (place, state.found.cost.plus(space.sort_cost_on(outer))),
    }
}

/// Looks at the joins on top of the plan at a place.
fn take_joins<'a>(
    space: &'a Space<'_>,
    lists: &JoinLists<'a>,
    places: Places,
    states: &mut States<'a>,
    place: usize,
) -> Result<(), AllocError>
    requires few { (space_in space.now).table_count ≤ most_from_tables }
    requires place { place < length (states_in states.old) }
    requires is_open { IsOpen (space_in space.now) (at (states_in states.old) place).found.cost (search_of states.old) }
    requires relation { IsRelationAt (space_in space.now) lists.now.relations.items places.relation
        (at (states_in states.old) place).tables }
    requires joins { AreJoins (space_in space.now) (joins_in lists.now) (at (states_in states.old) place).tables
        places.start places.end (space_in space.now).table_count }
    ensures is_open { IfOk result (λ _. IsOpen (space_in space.now) (at (states_in states.old) place).found.cost
        (search_of states.new)) }
    ensures more { IfOk result (λ _. AreMore (search_of states.old) (search_of states.new)) }
    ensures low { IfOk result (λ _. LowByJoins (space_in space.now) (cost_at (search_of states.new))
        (at (states_in states.old) place).tables (at (states_in states.old) place).order
        (at (states_in states.old) place).found.cost) }
    ensures steps { IfOk result (λ _. states.new.steps + places.start ≤ states.old.steps + places.end) }
{
    let outer = &lists.relations[places.relation];
    'joins: for number in places.start..places.end {
        take_join(space, outer, lists.joins[number], states, place)?;
    }
    Ok(())
}

/// Looks at a join on top of the plan at a place, if its order allows it.
fn take_join<'a>(
    space: &'a Space<'_>,
    outer: &JoinRelation<'_>,
    added: AddedJoin<'a>,
    states: &mut States<'a>,
    place: usize,
) -> Result<(), AllocError>
    requires few { (space_in space.now).table_count ≤ most_from_tables }
    requires outer { IsRelation (space_in space.now) outer.now }
    requires from { set_of outer.now.tables ≡ (at (states_in states.old) place).tables }
    requires place { place < length (states_in states.old) }
    requires is_open { IsOpen (space_in space.now) (at (states_in states.old) place).found.cost (search_of states.old) }
    requires added { IsAdded (space_in space.now) (at (states_in states.old) place).tables added.table (join_of added.join)
        added.cost.number }
    ensures is_open { IfOk result (λ _. IsOpen (space_in space.now) (at (states_in states.old) place).found.cost
        (search_of states.new)) }
    ensures more { IfOk result (λ _. AreMore (search_of states.old) (search_of states.new)) }
    ensures low { IfOk result (λ _. LowByAdded (space_in space.now) (cost_at (search_of states.new))
        (at (states_in states.old) place) (added_of added.entry)) }
    ensures steps { IfOk result (λ _. states.new.steps ≤ states.old.steps + 1) }
{
    let state = states.at(place);
    if !goes_with(outer, state.order, added) {
        return Ok(());
    }
    let tables = state.tables.with(added.table);
    let found = Candidate {
        step: Step::Join {
            from: place,
            join: added.join,
        },
        cost: state.found.cost.plus(added.cost),
    };
    states.offer(tables, space.fold(tables, state.order), found)
}

/// Whether plans of an order allow a join.
fn goes_with(outer: &JoinRelation<'_>, order: usize, added: AddedJoin<'_>) -> bool
    ensures { (space : spaces.Space) → IsRelation space outer.now →
        Decides result (GoesWith space (set_of outer.now.tables) order added.entry.table (join_of added.entry.join)) }
{
    match added.join {
        Join::Loop { .. } => true,
        Join::Merge { conjunct, .. } => outer.goes_by(order, conjunct, added.table),
    }
}
