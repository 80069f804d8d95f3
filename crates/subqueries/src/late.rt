//! What late conjuncts are evaluated in.

use crate::kept_results::KeptResults;
use expr::Environment;
use query_tree::{BlockColumn, Quantifier};
use sqlvalue::{ComparisonOperator, OwnedValue, Raise, Tri, Value};

/// An environment, with what was told last of each inner block, by its number, in place of its rows (own).
#[derive(Drop)]
pub struct Late<'a, S: Environment> {
    pub base: &'a S,
    pub results: &'a [KeptResults],
}

impl<'a, S: Environment> Environment for Late<'a, S> {
    ghost use Rattle.definitions_answers.specs.Told.{told_environment};
    ghost use Rattle.subqueries.specs.Keeping.{told_by};

    ghost environment = { λ l. told_environment (S.environment l.base.now) (told_by l.results.now) };

    fn cell(&self, column: BlockColumn) -> Value<'_> {
        self.base.cell(column)
    }

    fn parameter(&self, between: usize, column: BlockColumn) -> Value<'_> {
        self.base.parameter(between, column)
    }

    fn aggregate_value(&self, number: usize) -> Result<Value<'_>, Raise> {
        self.base.aggregate_value(number)
    }

    fn first_values(&self, block: usize) -> Result<&[OwnedValue], Raise> {
        match self.results.get(block) {
            Some(results) => results.first_values(),
            None => Ok(&[]),
        }
    }

    fn quantified_comparison(
        &self,
        op: ComparisonOperator,
        quantifier: Quantifier,
        value: &Value,
        block: usize,
    ) -> Option<Tri> {
        match self.results.get(block) {
            Some(results) => results.quantified_comparison(op, quantifier, value),
            None => None,
        }
    }
}
