//! Where a search begins: the accesses of the tables.

ghost use Rattle.std.specs.Prelude.{ℕ, ◌+◌, ◌<◌, ◌≤◌, IfOk, length};
ghost use Rattle.definitions.specs.Limits.{most_from_tables};
ghost use Rattle.definitions.specs.Plans.TableSet.{no_tables};
ghost use Rattle.join_dp.specs.Counting.{most_accesses};
ghost use Rattle.join_dp.specs.Searched.{LowByAccesses};
ghost use Rattle.join_dp.specs.Searching.{cost_at, IsOpen, AreMore};
ghost use Rattle.join_dp.specs.States.{search_of};
ghost use Rattle.plan_space.specs.Planned.{space_in};

use crate::states::States;
use crate::step::{Candidate, Step};
use plan_space::Space;
use plan_tree::TableSet;
use std::alloc::AllocError;

/// Looks at the accesses of all tables.
pub(crate) fn take_accesses<'a>(
    space: &'a Space<'_>,
    states: &mut States<'a>,
) -> Result<(), AllocError>
    requires { IsOpen (space_in space.now) 0 (search_of states.old) }
    ensures is_open { IfOk result (λ _. IsOpen (space_in space.now) 0 (search_of states.new)) }
    ensures more { IfOk result (λ _. AreMore (search_of states.old) (search_of states.new)) }
    ensures low { IfOk result (λ _. (table : ℕ) → table < (space_in space.now).table_count →
        LowByAccesses (space_in space.now) (cost_at (search_of states.new)) table) }
    ensures steps { IfOk result (λ _. states.new.steps ≤ states.old.steps
        + most_accesses (space_in space.now) (space_in space.now).table_count) }
{
    'tables: for table in 0..space.table_count() {
        take_accesses_of(space, table, states)?;
    }
    Ok(())
}

/// Looks at the accesses of a table.
fn take_accesses_of<'a>(
    space: &'a Space<'_>,
    table: usize,
    states: &mut States<'a>,
) -> Result<(), AllocError>
    requires few { (space_in space.now).table_count ≤ most_from_tables }
    requires table { table < (space_in space.now).table_count }
    requires is_open { IsOpen (space_in space.now) 0 (search_of states.old) }
    ensures is_open { IfOk result (λ _. IsOpen (space_in space.now) 0 (search_of states.new)) }
    ensures more { IfOk result (λ _. AreMore (search_of states.old) (search_of states.new)) }
    ensures low { IfOk result (λ _. LowByAccesses (space_in space.now) (cost_at (search_of states.new)) table) }
    ensures steps { IfOk result (λ _. states.new.steps ≤ states.old.steps
        + length ((space_in space.now).paths no_tables table)) }
{
    let tables = TableSet::only(table);
    'paths: for item in space.paths(TableSet::none(), table) {
        let found = Candidate {
            step: Step::Access { path: item.path },
            cost: item.cost,
        };
        states.offer(tables, space.fold(tables, item.order), found)?;
    }
    Ok(())
}
