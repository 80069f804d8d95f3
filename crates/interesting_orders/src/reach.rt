//! Sets of tables of columns.

ghost use Rattle.std.specs.Prelude.{◌≡◌, Some, None, option_map};
ghost use Rattle.definitions.specs.Plans.TableSet.{no_tables};
ghost use Rattle.plan_tree.specs.Plans.{order_of};
ghost use Rattle.plan_tree.specs.Sets.{set_of};
ghost use Rattle.interesting_orders.specs.Reach.{key_tables, is_reached, reached};

use plan_tree::{MAX_FROM_TABLES, SortKey, TableSet};

/// With one more table; none, where a table is beyond those of a FROM, so that no set has them all.
pub(crate) fn with_table(tables: Option<TableSet>, table: usize) -> Option<TableSet>
    ensures { option_map set_of result ≡ reached (option_map set_of tables) table }
{
    if table < MAX_FROM_TABLES {
        Some(tables?.with(table))
    } else {
        None
    }
}

/// The tables of an order's columns.
pub(crate) fn order_tables(order: &[SortKey]) -> Option<TableSet>
    ensures { option_map set_of result ≡ key_tables (Some no_tables) (order_of order.now) }
{
    let mut tables = Some(TableSet::none());
    'keys: for key in order {
        tables = with_table(tables, key.column.table);
    }
    tables
}

/// Whether a set has all of some tables.
pub(crate) fn are_within(tables: Option<TableSet>, set: TableSet) -> bool
    ensures { result ≡ is_reached (option_map set_of tables) (set_of set) }
{
    match tables {
        Some(tables) => tables.is_within(set),
        None => false,
    }
}
