//! What sorts cost.

ghost use Rattle.std.specs.Prelude.{◌≡◌, ◌+◌, ◌*◌};
ghost use Rattle.definitions.specs.Estimates.Cardinality as spec;
ghost use Rattle.definitions.specs.Plans.Cost.{saturated};
ghost use Rattle.query_tree.specs.Bound.{block_of};
ghost use Rattle.plan_tree.specs.Sets.{set_of};

use estimate::Estimate;
use plan_tree::{Cost, TableSet};

/// What a sort of the rows of a set of tables costs, where it is known how many they are.
pub(crate) fn sort_cost_of(estimate: &Estimate<'_>, tables: TableSet, rows: u64) -> Cost
    requires { rows ≡ spec.cardinality estimate.now.database (block_of estimate.now.block) (set_of tables) }
    ensures { result.number ≡ spec.sort_cost estimate.now.database (block_of estimate.now.block) (set_of tables) }
{
    sort_cost(estimate.pages_of(tables, rows), rows)
}

/// What a sort of so many rows on so many pages costs: it writes and reads each page, and handles each row (own).
fn sort_cost(pages: u64, rows: u64) -> Cost
    ensures { result.number ≡ saturated (20 * pages + rows) }
{
    Cost::of(20 * u128::from(pages) + u128::from(rows))
}
