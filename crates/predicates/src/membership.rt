//! Conditions `column IN (subquery)` and `column NOT IN (subquery)`.

ghost use Rattle.std.specs.Prelude.{◌≡◌, option_map};
ghost use Rattle.query_tree.specs.Bound.{condition_of};
ghost use Rattle.predicates.specs.Membership as spec;
ghost use Rattle.predicates.specs.Views.{membership_of};

use query_tree::{BlockColumn, Condition, ValueExpr};

/// What a condition says of a column where it is `column IN (subquery)` or `column NOT IN (subquery)` (ISO/IEC 9075:1992, 8.4).
#[derive(Clone, Copy)]
pub struct Membership {
    pub column: BlockColumn,
    /// How many digits of the column's numbers stand behind the point; 0 of a text.
    pub scale: u8,
    /// Whether it is NOT IN.
    pub negated: bool,
    /// The number of the subquery's block.
    pub block: usize,
}

/// That of a condition, where it is one of these.
pub(crate) fn column_membership(condition: &Condition) -> Option<Membership>
    ensures { option_map membership_of result ≡ spec.column_membership (condition_of condition.now) }
{
    match condition {
        Condition::InQuery {
            negated,
            value: ValueExpr::Column { column, sql_type },
            block,
        } => Some(Membership {
            column: *column,
            scale: sql_type.scale(),
            negated: *negated,
            block: *block,
        }),
        _ => None,
    }
}
