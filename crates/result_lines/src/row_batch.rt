//! The trait of rows that come many at a time.

ghost use Rattle.std.specs.Prelude.{ℕ, List, ◌≡◌, ◌≤◌, ◌<◌, IfSome, length, map};
ghost use Rattle.definitions.specs.Value.{Value};
ghost use Rattle.definitions.specs.Plans.Order as order;
ghost use Rattle.definitions.specs.Queries.Evaluation.{Environment};
ghost use Rattle.query_tree.specs.Bound.{column_of};
ghost use Rattle.sqlvalue.specs.Meaning.{value_of};
ghost use Rattle.columns.specs.Starts.{value_in as number_in};
ghost use Rattle.result_lines.specs.Batches.{column_values};

use columns::NumberColumn;
use query_tree::BlockColumn;
use sqlvalue::Value;

/// Rows of a block, at most 1,024 of them, of which a column is read at a time.
pub trait RowBatch {
    /// How many tables the block has.
    ghost width: { Self → ℕ };

    /// What each row is evaluated in.
    ghost environments: { Self → List Environment };

    /// The value in a column of a table's row, by the row's number there.
    ghost value_in: { Self → order.BlockColumn → ℕ → Value };

    /// How many rows there are.
    fn len(&self) -> usize
        ensures exact { result ≡ length (environments self.now) }
        ensures few { result ≤ 1024 };

    /// The numbers of a table's rows.
    fn rows(&self, table: usize) -> &[u32]
        requires { table < width self.now }
        ensures values { (column : order.BlockColumn) → column.table ≡ table →
            map (value_in self.now column) result.now ≡ column_values (environments self.now) column }
        ensures few { length result.now ≤ 1024 };

    /// The column of numbers in which each of a table's rows has its value at its own place, where there is one: so many of them are read at
    /// a time (own).
    fn numbers(&self, column: BlockColumn) -> Option<&NumberColumn>
        ensures { IfSome result (λ numbers. (row : ℕ) →
            number_in numbers.now row ≡ value_in self.now (column_of column) row) };

    /// The value in a column of a table's row.
    fn cell(&self, column: BlockColumn, row: usize) -> Value<'_>
        ensures { value_of result ≡ value_in self.now (column_of column) row };
}
