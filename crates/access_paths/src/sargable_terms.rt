//! What conditions say of a column.

ghost use Rattle.std.specs.Prelude.{◌≡◌, option_map};
ghost use Rattle.query_tree.specs.Bound.{column_of};
ghost use Rattle.predicates.specs.Columns.{term_of};
ghost use Rattle.predicates.specs.Parts.{condition_in};
ghost use Rattle.predicates.specs.Views.{term_in};
ghost use Rattle.access_paths.specs.Bounds as spec;
ghost use Rattle.access_paths.specs.Views.{sargable_term_of};

use plan_tree::TableSet;
use predicates::{ColumnTerm, Conjunct, SidedTerm};
use query_tree::BlockColumn;
use sqlvalue::ComparisonOperator;

/// A bound of a column's values: whether they are to be equal to a value, and the tables whose rows that is made of.
#[derive(Clone, Copy)]
pub(crate) struct SargableTerm {
    pub equals: bool,
    pub required_outer: TableSet,
}

/// What a conjunct says of a column, if it matches it (Selinger et al. 1979, section 4: sargable predicates that match an index).
pub(crate) fn sargable_term(column: BlockColumn, conjunct: Conjunct<'_>) -> Option<SargableTerm>
    ensures exact { option_map sargable_term_of result ≡ spec.sargable_term (column_of column) (condition_in conjunct.entry) }
{
    bound_by(column.table, conjunct.terms.of(column)?)
}

/// What is said of a column of a table, if that bounds it: it doesn't where it is made of rows of the table itself.
fn bound_by(table: usize, sided: SidedTerm<'_>) -> Option<SargableTerm>
    ensures exact { option_map sargable_term_of result ≡ spec.bound_by table (term_in sided.entry) }
{
    if sided.tables.has(table) {
        return None;
    }
    Some(SargableTerm {
        equals: equality(sided.term)?,
        required_outer: sided.tables,
    })
}

/// Whether a term says what its column equals, if it bounds it.
fn equality(term: ColumnTerm<'_>) -> Option<bool>
    ensures exact { result ≡ spec.equality (term_of term.entry) }
{
    match term {
        ColumnTerm::Range { .. } => Some(false),
        ColumnTerm::Comparison { op, .. } => match op {
            ComparisonOperator::NotEquals => None,
            ComparisonOperator::Equals => Some(true),
            _ => Some(false),
        },
    }
}
