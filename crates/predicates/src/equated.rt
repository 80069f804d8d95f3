//! Conditions `column = column`, and the columns that they equate.

ghost use Rattle.std.specs.Prelude.{◌≡◌, option_map};
ghost use Rattle.definitions.specs.Estimates.PlanConjuncts as spec;
ghost use Rattle.definitions.specs.Estimates.Sides as sides;
ghost use Rattle.query_tree.specs.Bound as bound;
ghost use Rattle.predicates.specs.Columns.{pair_of};

use query_tree::{BlockColumn, Condition, ValueExpr};
use sqlvalue::ComparisonOperator;

/// The columns of `column = column`.
pub fn equated_columns(condition: &Condition) -> Option<(BlockColumn, BlockColumn)>
    ensures { option_map pair_of result ≡ spec.equated_columns (bound.condition_of condition.now) }
{
    match condition {
        Condition::Compare {
            op: ComparisonOperator::Equals,
            left,
            right,
        } => match (column_of(left), column_of(right)) {
            (Some(x), Some(y)) => Some((x, y)),
            _ => None,
        },
        _ => None,
    }
}

/// The column of its block that a value is, if it is one.
pub fn column_of(value: &ValueExpr) -> Option<BlockColumn>
    ensures { option_map bound.column_of result ≡ sides.column_of (bound.value_of value.now) }
{
    match value {
        ValueExpr::Column { column, .. } => Some(*column),
        _ => None,
    }
}
