//! Rows on which an expression is evaluated, many at a time.

ghost use Rattle.std.specs.Prelude.{◌≡◌, ℕ, [], IfSome, get_or};
ghost use Rattle.definitions.specs.Queries.Evaluation.{Environment, cell};
ghost use Rattle.sqlvalue.specs.Meaning.{value_of};
ghost use Rattle.columns.specs.Starts.{value_in};
ghost use Rattle.query_tree.specs.Bound.{column_of};

use columns::NumberColumn;
use query_tree::BlockColumn;
use sqlvalue::Value;

/// Rows, each of which makes an environment of its own for expressions of a block (own).
pub trait ManyRows {
    ghost environment: { Self → ℕ → Environment };

    /// The value in a column of the block's combination of rows that a row makes (ISO/IEC 9075:1992, 6.4).
    fn cell(&self, row: usize, column: BlockColumn) -> Value<'_>
        ensures { value_of result ≡ cell (environment self.now row).combination (column_of column) };

    /// The column of numbers in which each row has its value at its own place, where there is one: so many of them are read at a time (own).
    fn numbers(&self, column: BlockColumn) -> Option<&NumberColumn>
        ensures { IfSome result (λ numbers. (row : ℕ) → value_in numbers.now row
            ≡ cell (environment self.now row).combination (column_of column)) };

    /// The value in a column of a block around it, which is the same whichever row; `between` says how many blocks lie between.
    fn parameter(&self, between: usize, column: BlockColumn) -> Value<'_>
        ensures { (row : ℕ) → value_of result ≡ cell (get_or (environment self.now row).outer between []) (column_of column) };
}
