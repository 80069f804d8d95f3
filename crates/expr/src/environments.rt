//! What expressions are evaluated in.

ghost use Rattle.std.specs.Prelude.{◌≡◌, [], get_or, IfSome, Ok};
ghost use Rattle.definitions.specs.Value.{Null};
ghost use Rattle.definitions.specs.Arithmetic.{Is};
ghost use Rattle.definitions.specs.Queries.Evaluation.{Environment, cell, column_values, on_one, quantified};
ghost use Rattle.definitions.specs.Queries.Telling.{MayAnswer};
ghost use Rattle.sqlvalue.specs.Meaning.{op_of, value_of};
ghost use Rattle.sqlvalue.specs.Truths.{truth_of};
ghost use Rattle.parse_tree.specs.Trees.{quantifier_of};
ghost use Rattle.query_tree.specs.Bound.{column_of};
ghost use Rattle.expr.specs.Answers.{answer_of, values_answer_of};

use query_tree::{BlockColumn, Quantifier};
use sqlvalue::{ComparisonOperator, OwnedValue, Raise, Tri, Value};

/// What an expression of a block is evaluated in (own). What it lends is there as long as it is.
pub trait Environment {
    ghost environment: { Self → Environment };

    /// The value in a column of the block's combination of rows (ISO/IEC 9075:1992, 6.4).
    fn cell(&self, column: BlockColumn) -> Value<'_>
        ensures { value_of result ≡ cell (environment self.now).combination (column_of column) };

    /// The value in a column of a block around it; `between` says how many blocks lie between.
    fn parameter(&self, between: usize, column: BlockColumn) -> Value<'_>
        ensures { value_of result ≡ cell (get_or (environment self.now).outer between []) (column_of column) };

    /// The value of a set function over the group (ISO/IEC 9075:1992, 6.5).
    fn aggregate_value(&self, number: usize) -> Result<Value<'_>, Raise>
        ensures { MayAnswer (get_or (environment self.now).functions number (Is Null)) (answer_of result) };

    /// The first value of each row of an inner block.
    fn first_values(&self, block: usize) -> Result<&[OwnedValue], Raise>
        ensures { MayAnswer (on_one column_values ((environment self.now).inner block)) (values_answer_of result) };

    /// A value compared with all or any of those, where that is found faster than by going through them; else none
    /// (ISO/IEC 9075:1992, 8.7).
    fn quantified_comparison(
        &self,
        op: ComparisonOperator,
        quantifier: Quantifier,
        value: &Value,
        block: usize,
    ) -> Option<Tri>
        ensures { IfSome result (λ truth. MayAnswer
            (on_one (quantified (quantifier_of quantifier) (op_of op) (value_of value.now))
            (on_one column_values ((environment self.now).inner block))) (Ok (truth_of truth))) };
}
