//! The cheapest path of a table.

ghost use Rattle.std.specs.Prelude.{◌≡◌, ◌<◌, option_map};
ghost use Rattle.plan_space.specs.Items.{item_of};
ghost use Rattle.plan_tree.specs.Sets.{set_of};
ghost use Rattle.join_dp.specs.CheapestPath.{cheaper_item, IsCheapestPath};
ghost use Rattle.plan_space.specs.Planned.{space_in};

use plan_space::{CostedPath, Space};
use plan_tree::TableSet;

/// The path of a table that costs least where the rows of a set of tables are known.
pub(crate) fn cheapest_path<'a>(
    space: &'a Space<'_>,
    known: TableSet,
    table: usize,
) -> Option<CostedPath<'a>>
    requires { table < (space_in space.now).table_count }
    ensures { IsCheapestPath (space_in space.now) (set_of known) table (option_map item_of result) }
{
    let mut best: Option<CostedPath<'a>> = None;
    'paths: for item in space.paths(known, table) {
        best = Some(cheaper(best, item));
    }
    best
}

/// The path that costs less, of two.
fn cheaper<'a>(best: Option<CostedPath<'a>>, item: CostedPath<'a>) -> CostedPath<'a>
    ensures { item_of result ≡ cheaper_item (option_map item_of best.entry) (item_of item.entry) }
{
    match best {
        Some(best) if best.cost.number <= item.cost.number => best,
        _ => item,
    }
}
