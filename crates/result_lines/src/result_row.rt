//! Result rows that outlast the rows that they came from, and their order.

ghost use Rattle.std.specs.Prelude.{◌≡◌, IsPermutation, IsSorted, OnOk, get_or, map};
ghost use Rattle.definitions.specs.Value.{Null};
ghost use Rattle.definitions.specs.Queries.Outcomes.{directed, row_order};
ghost use Rattle.query_tree.specs.Bound.{key_of};
ghost use Rattle.sqlvalue.specs.Meaning.{value_of};
ghost use Rattle.result_lines.specs.Rows.{row_of, rows_of};

use query_tree::Key;
use sqlvalue::{OwnedValue, Value, rank};
use std::alloc::AllocError;
use std::cmp::Ordering;

/// The values of a result row, which stay when what lent them is gone.
#[derive(Drop)]
pub struct ResultRow {
    pub values: Vec<OwnedValue>,
}

impl ResultRow {
    /// The value in a column; null where there is none (own).
    pub fn value(&self, column: usize) -> Value<'_>
        ensures { value_of result ≡ get_or (row_of self.now) column Null }
    {
        match self.values.get(column) {
            Some(kept) => kept.value(),
            None => Value::Null,
        }
    }
}

/// Puts rows into the order of ORDER BY's keys (ISO/IEC 9075:1992, 13.1): nulls are first ascending and last descending. Rows that no key
/// tells apart stay in their order (own).
pub fn order_rows(rows: &mut Vec<ResultRow>, keys: &[Key]) -> Result<(), AllocError>
    ensures same { IsPermutation (rows_of rows.old.items) (rows_of rows.new.items) }
    ensures sorted { OnOk result (IsSorted (row_order (map key_of keys.now)) (rows_of rows.new.items)) }
{
    rows.sort_by(|a, b| order_of(keys, a, b))
}

/// How two rows stand by keys, of which the first that tells them apart decides.
fn order_of(keys: &[Key], a: &ResultRow, b: &ResultRow) -> Ordering
    ensures { result ≡ row_order (map key_of keys.now) (row_of a.now) (row_of b.now) }
{
    'keys: for key in keys {
        match by_direction(*key, rank(&a.value(key.item), &b.value(key.item))) {
            Ordering::Equal => {}
            order => return order,
        }
    }
    Ordering::Equal
}

/// The order of a key's values in the key's direction.
fn by_direction(key: Key, order: Ordering) -> Ordering
    ensures { result ≡ directed key.descending order }
{
    if key.descending {
        order.reverse()
    } else {
        order
    }
}
