//! The tables that values name.

ghost use Rattle.std.specs.Prelude.{◌≡◌};
ghost use Rattle.definitions.specs.Queries.Conjuncts.{tables_in, tables_named};
ghost use Rattle.query_tree.specs.Bound.{value_of};
ghost use Rattle.query_tree.specs.Walks.{trees_of};
ghost use Rattle.plan_tree.specs.Sets.{set_of};
ghost use Rattle.predicates.specs.Naming.{AreFew};

use plan_tree::TableSet;
use query_tree::ValueExpr;

/// The tables of their block that values name (own).
pub(crate) fn tables_of(values: &[&ValueExpr]) -> TableSet
    requires few { AreFew (tables_in (trees_of values.now)) }
    ensures exact { set_of result ≡ tables_in (trees_of values.now) }
{
    let mut tables = TableSet::none();
    'values: for value in values {
        tables = tables.union(value_tables(value));
    }
    tables
}

/// The tables of its block that a value names (own).
pub fn value_tables(expr: &ValueExpr) -> TableSet
    requires few { AreFew (tables_named (value_of expr.now)) }
    ensures exact { set_of result ≡ tables_named (value_of expr.now) }
{
    match expr {
        ValueExpr::Column { column, .. } => TableSet::only(column.table),
        ValueExpr::Signed { operand, .. } => value_tables(operand),
        ValueExpr::Chain { first, others } => {
            let mut tables = value_tables(first);
            for operand in others {
                tables = tables.union(value_tables(&operand.value));
            }
            tables
        }
        _ => TableSet::none(),
    }
}
