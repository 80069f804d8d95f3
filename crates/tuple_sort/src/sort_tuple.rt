//! Packed rows beside whole numbers that rank as values of theirs do.

ghost use Rattle.std.specs.Prelude.{◌≡◌, ◌<◌, IfSome, map};
ghost use Rattle.std.specs.List.{All};
ghost use Rattle.query_tree.specs.Bound.{column_of};
ghost use Rattle.sqlvalue.specs.Meaning.{value_of};
ghost use Rattle.tuple_sort.specs.Keys.{packed_in, text_number, HasKey, HaveKeys};

use crate::packing::row_in;
use filters::BlockSource;
use query_tree::BlockColumn;
use sqlvalue::{Value, number_key};

/// The rows of some tables, and what they are sorted by first.
#[derive(Clone, Copy)]
pub(crate) struct SortTuple<const WIDTH: usize> {
    pub key: i64,
    pub rows: [u32; WIDTH],
}

impl<const WIDTH: usize> SortTuple<WIDTH> {
    /// Rows that have no key yet.
    pub fn new(rows: [u32; WIDTH]) -> SortTuple<WIDTH>
        ensures { result.rows ≡ rows.entry }
    {
        SortTuple { key: 0, rows }
    }

    /// The same rows with a key.
    fn with_key(self, key: i64) -> SortTuple<WIDTH>
        ensures key { result.key ≡ key }
        ensures rows { result.rows ≡ self.entry.rows }
    {
        let rows = self.rows;
        SortTuple { key, rows }
    }
}

/// What keys tell of the values that they are of.
#[derive(Clone, Copy)]
pub(crate) enum KeyForm {
    /// Units of numbers of a scale: those of equal values are equal, and no others.
    Units(u8),
    /// The first characters of texts: values of equal keys may differ.
    Prefix,
}

/// How many characters of a text its key holds.
const PREFIX: usize = 7;

/// Gives all rows their keys in a column, and tells what these are, if each value there has one.
pub(crate) fn give_keys<const WIDTH: usize>(
    keyed: &mut Vec<SortTuple<WIDTH>>,
    source: &BlockSource<'_>,
    column: BlockColumn,
    members: &[usize],
) -> Option<KeyForm>
    ensures same { map packed_in keyed.new.items ≡ map packed_in keyed.old.items }
    ensures keys { IfSome result (λ form. HaveKeys source.now members.now (column_of column) form keyed.new.items) }
{
    let form = form_in(keyed, source, column, members);
    'places: for place in 0..keyed.len() {
        let packed = keyed[place];
        let row = row_in(members, packed.rows.as_slice(), column.table);
        match key_of(&source.cell(column, row as usize), form) {
            Some(key) => keyed[place] = packed.with_key(key),
            None => return None,
        }
    }
    Some(form)
}

/// The form of the key of the first value that rows have in a column.
fn form_in<const WIDTH: usize>(
    keyed: &[SortTuple<WIDTH>],
    source: &BlockSource<'_>,
    column: BlockColumn,
    members: &[usize],
) -> KeyForm {
    'rows: for packed in keyed {
        let row = row_in(members, packed.rows.as_slice(), column.table);
        match source.cell(column, row as usize) {
            Value::Num(number) => return KeyForm::Units(number.scale),
            Value::Text(_) => return KeyForm::Prefix,
            Value::Null => {}
        }
    }
    KeyForm::Prefix
}

/// The key of a null, which is before all others, of a number of a scale, whose units are not too many, or of a text.
fn key_of(value: &Value, form: KeyForm) -> Option<i64>
    ensures { IfSome result (HasKey form (value_of value.now)) }
{
    match form {
        KeyForm::Units(scale) => number_key(value, scale),
        KeyForm::Prefix => prefix_key(value),
    }
}

/// The key of a null or of a text.
fn prefix_key(value: &Value) -> Option<i64>
    ensures { IfSome result (HasKey KeyForm.Prefix (value_of value.now)) }
{
    match value {
        Value::Null => Some(i64::MIN),
        Value::Text(text) => match i64::try_from(prefix_of(text.as_bytes())) {
            Ok(prefix) => Some(prefix),
            Err(_) => None,
        },
        Value::Num(_) => None,
    }
}

/// The first characters of a text, which goes on with spaces, as the digits of a number.
fn prefix_of(text: &[u8]) -> u64
    ensures number { result ≡ text_number 0 7 text.now }
    ensures bytes { All (λ code. code < 256) text.now }
{
    let mut number = 0_u64;
    'places: for place in 0..PREFIX {
        number = number * 256 + u64::from(text.get(place).copied().unwrap_or(b' '));
    }
    number
}
