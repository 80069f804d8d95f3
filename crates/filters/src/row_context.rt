//! What early conjuncts are evaluated in.

ghost use Rattle.std.specs.Prelude.{◌≡◌, []};
ghost use Rattle.definitions.specs.Value.{Null};
ghost use Rattle.definitions.specs.Queries.Evaluation.{cell};
ghost use Rattle.filters.specs.Sources.{environment_at};
ghost use Rattle.definitions_execution.specs.Stored.{row_number as number_in};

use crate::block_source::BlockSource;
use crate::outer_rows::OuterRows;
use expr::Environment;
use query_tree::{BlockColumn, Quantifier};
use sqlvalue::{ComparisonOperator, OwnedValue, Raise, Tri, Value};

/// A composite of rows of a block's tables, which go by their numbers, in the rows of the blocks around it. Of a table that is not
/// there yet it has the first row.
#[derive(Drop)]
pub struct RowContext<'s, 'a, A: OuterRows> {
    pub source: &'s BlockSource<'s>,
    pub rows: &'a [u32],
    pub around: &'a A,
}

impl<'s, 'a, A: OuterRows> Environment for RowContext<'s, 'a, A> {
    ghost environment = { λ p. environment_at p.source.now (A.combinations p.around.now) p.rows.now };

    fn cell(&self, column: BlockColumn) -> Value<'_> {
        self.source
            .cell(column, row_number(self.rows, column.table))
    }

    fn parameter(&self, between: usize, column: BlockColumn) -> Value<'_> {
        self.around.cell(between, column)
    }

    fn aggregate_value(&self, _number: usize) -> Result<Value<'_>, Raise> {
        Ok(Value::Null)
    }

    fn first_values(&self, _block: usize) -> Result<&[OwnedValue], Raise> {
        Ok(&[])
    }

    fn quantified_comparison(
        &self,
        _op: ComparisonOperator,
        _quantifier: Quantifier,
        _value: &Value,
        _block: usize,
    ) -> Option<Tri> {
        None
    }
}

/// The number of a table's row in a composite.
pub(crate) fn row_number(rows: &[u32], table: usize) -> usize
    ensures { result ≡ number_in rows.now table }
{
    match rows.get(table) {
        Some(row) => *row as usize,
        None => 0,
    }
}
