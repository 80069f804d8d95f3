//! What a condition says of a column.

ghost use Rattle.std.specs.Prelude.{◌≡◌};
ghost use Rattle.plan_tree.specs.Sets.{set_of};
ghost use Rattle.predicates.specs.Columns.{term_of};
ghost use Rattle.predicates.specs.Terms.{term_tables};

use plan_tree::TableSet;
use query_tree::{BlockColumn, ValueExpr};
use sqlvalue::ComparisonOperator;

/// What a condition says of a column that stands alone on a side of it: `column op value`, where the operator is turned round if the column
/// stands on the right, or `column BETWEEN low AND high` (Selinger et al. 1979, section 4: sargable predicates).
#[derive(Clone, Copy)]
pub enum ColumnTerm<'a> {
    Comparison {
        op: ComparisonOperator,
        value: &'a ValueExpr,
    },
    Range {
        low: &'a ValueExpr,
        high: &'a ValueExpr,
    },
}

/// A column that stands alone on a side of a condition, and what the condition says of it.
#[derive(Clone, Copy)]
pub struct SidedTerm<'a> {
    pub column: BlockColumn,
    /// How many digits of the column's numbers stand behind the point; 0 of a text.
    pub scale: u8,
    pub term: ColumnTerm<'a>,
    /// The tables that the other side names, of a range those of both its ends.
    pub tables: TableSet,
    pub ghost named: { set_of tables ≡ term_tables (term_of term) },
}

/// What a condition says of the column that stands alone on its left, and of that on its right.
#[derive(Clone, Copy)]
pub struct ColumnTerms<'a> {
    pub left: Option<SidedTerm<'a>>,
    pub right: Option<SidedTerm<'a>>,
}
