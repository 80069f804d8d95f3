//! What conditions ask of the rows of a table, once the values that they compare with are known.

ghost use Rattle.std.specs.Prelude.{ℕ, ◌≡◌, ◌≤◌, ◌<◌, ◌+◌, IfSome, length};
ghost use Rattle.definitions.specs.Arithmetic.{Is};
ghost use Rattle.definitions.specs.Queries.BoundBlock as spec;
ghost use Rattle.definitions.specs.Queries.Evaluation as meaning;
ghost use Rattle.definitions_execution.specs.OfBlock.{rows_in};
ghost use Rattle.query_tree.specs.Bound.{value_of as tree_of};
ghost use Rattle.sqlvalue.specs.Meaning.{value_of};
ghost use Rattle.filters.specs.Comparisons.{AreComparisonsOf, IsIn};
ghost use Rattle.filters.specs.JoinFilters.{met_with, CanCome, IsEarlyPart};
ghost use Rattle.filters.specs.SearchArguments.{meets, meets_all, AreArgumentsOf, AreOfTable, IsColumnOf};
ghost use Rattle.filters.specs.Sources.{block_in, environment_at};
ghost use Rattle.filters.specs.Words.{word_by};

use crate::block_source::BlockSource;
use crate::comparison::{Comparison, Comparisons};
use crate::outer_rows::OuterRows;
use crate::row_context::RowContext;
use expr::value;
use sqlvalue::{ComparisonOperator, Value};

/// A comparison of a column of a table with a value (Selinger et al. 1979, section 3: search arguments).
#[derive(Clone, Copy)]
pub struct SearchArgument<'v> {
    pub column: usize,
    pub op: ComparisonOperator,
    pub value: Value<'v>,
}

/// One such comparison, or the two that BETWEEN stands for (ISO/IEC 9075:1992, 8.3).
#[derive(Clone, Copy)]
pub enum SearchArguments<'v> {
    One(SearchArgument<'v>),
    Both {
        low: SearchArgument<'v>,
        high: SearchArgument<'v>,
    },
}

impl SearchArgument<'_> {
    /// Of so many rows of a table from `first` on, those on which it is true: bit i of the word is that of the row `first + i`.
    pub fn matching_rows(
        self,
        source: &BlockSource<'_>,
        table: usize,
        first: usize,
        count: usize,
    ) -> u64
        requires table { table < length (block_in source.now).tables }
        requires column { IsColumnOf source.now table self.column }
        requires few { count ≤ 64 }
        requires in_rows { first + count ≤ length (rows_in source.now.database (block_in source.now) table) }
        ensures { result ≡ word_by (meets source.now table self.entry) first count }
    {
        let (met, _) = source
            .table(table)
            .scan(self.column, self.op, &self.value, first, count);
        met
    }
}

impl SearchArguments<'_> {
    /// Of so many rows of a table from `first` on, those on which all are true.
    pub fn matching_rows(
        self,
        source: &BlockSource<'_>,
        table: usize,
        first: usize,
        count: usize,
    ) -> u64
        requires table { table < length (block_in source.now).tables }
        requires columns { AreOfTable source.now table self }
        requires few { count ≤ 64 }
        requires in_rows { first + count ≤ length (rows_in source.now.database (block_in source.now) table) }
        ensures { result ≡ word_by (meets_all source.now table self.entry) first count }
    {
        match self {
            SearchArguments::One(argument) => argument.matching_rows(source, table, first, count),
            SearchArguments::Both { low, high } => {
                low.matching_rows(source, table, first, count)
                    & high.matching_rows(source, table, first, count)
            }
        }
    }
}

/// What the comparisons of a part of an early conjunct ask of the rows of a table that come to a composite, where their other sides have values.
pub(crate) fn arguments_of<'v, A: OuterRows>(
    comparisons: Comparisons<'v>,
    table: usize,
    context: &'v RowContext<'_, '_, A>,
) -> Option<SearchArguments<'v>>
    requires can { CanCome context.now.source.now (A.combinations context.now.around.now) table }
    requires early { (condition : spec.Condition) × IsEarlyPart context.now.source.now condition ×
        AreComparisonsOf table condition comparisons }
    ensures { (condition : spec.Condition) → AreComparisonsOf table condition comparisons.entry →
        IfSome result (AreArgumentsOf context.now.source.now (A.combinations context.now.around.now)
        context.now.rows.now table condition) }
{
    match comparisons {
        Comparisons::One(comparison) => match argument_of(comparison, table, context) {
            Some(argument) => Some(SearchArguments::One(argument)),
            None => None,
        },
        Comparisons::Both { low, high } => {
            let Some(from) = argument_of(low, table, context) else {
                return None;
            };
            let Some(to) = argument_of(high, table, context) else {
                return None;
            };
            Some(SearchArguments::Both {
                low: from,
                high: to,
            })
        }
    }
}

/// A comparison of an early conjunct, where its other side has a value.
pub(crate) fn argument_of<'v, A: OuterRows>(
    comparison: Comparison<'v>,
    table: usize,
    context: &'v RowContext<'_, '_, A>,
) -> Option<SearchArgument<'v>>
    requires can { CanCome context.now.source.now (A.combinations context.now.around.now) table }
    requires early { (condition : spec.Condition) × IsEarlyPart context.now.source.now condition ×
        IsIn table condition comparison }
    ensures column { IfSome result (λ a. IsColumnOf context.now.source.now table a.column) }
    ensures same { IfSome result (λ a. (row : ℕ) → met_with context.now.source.now
        (A.combinations context.now.around.now) context.now.rows.now table comparison.entry row
        ≡ meets context.now.source.now table a row) }
{
    // Neither is so, but a look is less than to carry that along.
    if comparison.column >= context.source.table(table).width() || table >= context.rows.len() {
        return None;
    }
    match other_value(comparison, table, context) {
        Some(value) => Some(SearchArgument {
            column: comparison.column,
            op: comparison.op,
            value,
        }),
        None => None,
    }
}

/// The value that the other side of a comparison of an early conjunct has, if it has one. That of a literal was kept.
fn other_value<'v, A: OuterRows>(
    comparison: Comparison<'v>,
    table: usize,
    context: &'v RowContext<'_, '_, A>,
) -> Option<Value<'v>>
    requires can { CanCome context.now.source.now (A.combinations context.now.around.now) table }
    requires early { (condition : spec.Condition) × IsEarlyPart context.now.source.now condition ×
        IsIn table condition comparison }
    ensures { IfSome result (λ v. meaning.value (environment_at context.now.source.now
        (A.combinations context.now.around.now) context.now.rows.now) (tree_of comparison.entry.other.now)
        ≡ Is (value_of v)) }
{
    match comparison.known {
        Some(known) => Some(known),
        None => match value(comparison.other, context) {
            Ok(value) => Some(value),
            Err(_) => None,
        },
    }
}
