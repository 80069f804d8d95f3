//! The surroundings of a block: the rows of the blocks around it, and who waits for its own.

ghost use Rattle.std.specs.Prelude.{◌≡◌, List, [], get_or};
ghost use Rattle.definitions.specs.Queries.Evaluation.{Combination, cell as cell_of};
ghost use Rattle.sqlvalue.specs.Meaning.{value_of};
ghost use Rattle.query_tree.specs.Bound.{column_of};

use query_tree::BlockColumn;
use sqlvalue::Value;

/// The rows of the blocks around a block, in which it is evaluated, and who waits for it (own).
pub trait OuterRows {
    /// A combination of rows of each, the nearest first.
    ghost combinations: { Self → List Combination };

    /// The value in a column of one of them; `between` says how many blocks lie between (ISO/IEC 9075:1992, 6.4).
    fn cell(&self, between: usize, column: BlockColumn) -> Value<'_>
        ensures { value_of result ≡ cell_of (get_or (combinations self.now) between []) (column_of column) };

    /// Some more rows of a table are looked at, as many as a word tells of or fewer, and who waits may be told. Nothing is promised of it.
    fn note_work(&self);
}

/// There is no block around, and nobody waits.
#[derive(Clone, Copy)]
pub struct NoOuterRows;

impl OuterRows for NoOuterRows {
    ghost combinations = { λ _. [] };

    fn cell(&self, _between: usize, _column: BlockColumn) -> Value<'_> {
        Value::Null
    }

    fn note_work(&self) {}
}
