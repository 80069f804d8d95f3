//! What HAVING and the result columns of a group are evaluated in, and which rows are in one group.

ghost use Rattle.std.specs.Prelude.{◌≡◌, get_or, map};
ghost use Rattle.definitions.specs.Value.{Null};
ghost use Rattle.definitions_answers.specs.Groups.{in_one_group};
ghost use Rattle.query_tree.specs.Bound.{column_of};
ghost use Rattle.grouping.specs.Functions.{with_functions};
ghost use Rattle.sqlvalue.specs.Meaning.{value_of};
ghost use Rattle.sqlvalue.specs.Owned.{owned_value};

use expr::Environment;
use query_tree::{BlockColumn, Quantifier};
use sqlvalue::{ComparisonOperator, OwnedValue, Raise, Tri, Value, rank};
use std::cmp::Ordering;

/// One of the rows of a group, and the values of the set functions over it.
#[derive(Drop)]
pub struct GroupContext<'a, S: Environment> {
    pub row: &'a S,
    pub values: &'a [OwnedValue],
}

impl<'a, S: Environment> Environment for GroupContext<'a, S> {
    ghost environment = { λ g. with_functions (S.environment g.row.now) (map owned_value g.values.now) };

    fn cell(&self, column: BlockColumn) -> Value<'_> {
        self.row.cell(column)
    }

    fn parameter(&self, between: usize, column: BlockColumn) -> Value<'_> {
        self.row.parameter(between, column)
    }

    fn aggregate_value(&self, number: usize) -> Result<Value<'_>, Raise> {
        Ok(value_at(self.values, number))
    }

    fn first_values(&self, block: usize) -> Result<&[OwnedValue], Raise> {
        self.row.first_values(block)
    }

    fn quantified_comparison(
        &self,
        _op: ComparisonOperator,
        _quantifier: Quantifier,
        _value: &Value,
        _block: usize,
    ) -> Option<Tri> {
        None
    }
}

/// Whether two rows have the same values in the columns of GROUP BY; nulls are one (ISO/IEC 9075:1992, 7.7).
pub fn are_in_one_group<S: Environment>(columns: &[BlockColumn], a: &S, b: &S) -> bool
    ensures { result ≡ in_one_group (map column_of columns.now) (S.environment a.now).combination (S.environment b.now).combination }
{
    'columns: for column in columns {
        if rank(&a.cell(*column), &b.cell(*column)) != Ordering::Equal {
            return false;
        }
    }
    true
}

/// The value of a set function by its number; null where there is none (own).
fn value_at(values: &[OwnedValue], number: usize) -> Value<'_>
    ensures { value_of result ≡ get_or (map owned_value values.now) number Null }
{
    match values.get(number) {
        Some(kept) => kept.value(),
        None => Value::Null,
    }
}
