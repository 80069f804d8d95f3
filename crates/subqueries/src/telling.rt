//! What is told of blocks.

ghost use Rattle.std.specs.Prelude.{◌≡◌, IfSome, Ok, is_ok, is_some};
ghost use Rattle.definitions.specs.Queries.Evaluation.{column_values, on_one, quantified};
ghost use Rattle.definitions.specs.Queries.Telling.{MayAnswer};
ghost use Rattle.sqlvalue.specs.Meaning.{op_of, value_of};
ghost use Rattle.sqlvalue.specs.Truths.{truth_of};
ghost use Rattle.parse_tree.specs.Trees.{quantifier_of};
ghost use Rattle.expr.specs.Answers.{values_answer_of};
ghost use Rattle.definitions_answers.specs.Told.{meaning_told};
ghost use Rattle.subqueries.specs.Telling.{told_in};

use crate::first_values::FirstValues;
use query_tree::Quantifier;
use sqlvalue::{ComparisonOperator, OwnedValue, Raise, Tri, Value};

/// What is told of a block: the first values of its rows, or one of its exceptions (own).
#[derive(Drop)]
pub enum Told {
    Values(FirstValues),
    Raised(Raise),
}

impl Told {
    /// The first values of the rows, lent; or the exception.
    pub fn first_values(&self) -> Result<&[OwnedValue], Raise>
        ensures { MayAnswer (on_one column_values (meaning_told (told_in self.now))) (values_answer_of result) }
    {
        match self {
            Told::Values(values) => Ok(values.as_slice()),
            Told::Raised(raise) => Err(*raise),
        }
    }

    /// About how many bytes of values it takes (own).
    pub(crate) fn bytes(&self) -> u64 {
        match self {
            Told::Values(values) => values.bytes(),
            Told::Raised(_) => 0,
        }
    }

    /// A value compared with all or any of the first values (ISO/IEC 9075:1992, 8.7); none where an exception was told.
    pub fn quantified_comparison(
        &self,
        op: ComparisonOperator,
        quantifier: Quantifier,
        value: &Value,
    ) -> Option<Tri>
        ensures truth { IfSome result (λ truth. MayAnswer
            (on_one (quantified (quantifier_of quantifier) (op_of op) (value_of value.now))
            (on_one column_values (meaning_told (told_in self.now)))) (Ok (truth_of truth))) }
        ensures given { is_some result ≡ is_ok (told_in self.now) }
    {
        match self {
            Told::Values(values) => Some(values.quantified_comparison(op, quantifier, value)),
            Told::Raised(_) => None,
        }
    }
}
