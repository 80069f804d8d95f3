//! How two values compare, unknown with null, and how all values rank, null first.

ghost use Rattle.std.specs.Prelude.{◌≡◌, ◌*◌, ◌^◌, nat_abs, slice_index_or};
ghost use Rattle.std.specs.Ordering.{nat_cmp};
ghost use Rattle.definitions.specs.Value as spec;
ghost use Rattle.sqlvalue.specs.Meaning.{value_of};

use crate::number::{Num, power_of_ten};
use crate::value::Value;
use std::cmp::Ordering;

/// How two values compare; `None` is unknown, as with a null. Numbers compare by value, whatever
/// their scales, and texts as if the shorter were padded with spaces (ISO/IEC 9075:1992, 8.2;
/// the order of characters is that of their codes, which is own). Values of two kinds do not
/// compare.
pub fn compare(a: &Value, b: &Value) -> Option<Ordering>
    ensures { result ≡ spec.compare (value_of a.now) (value_of b.now) }
{
    match (a, b) {
        (Value::Num(x), Value::Num(y)) => Some(compare_numbers(*x, *y)),
        (Value::Text(x), Value::Text(y)) => Some(compare_texts(x.as_bytes(), y.as_bytes())),
        _ => None,
    }
}

/// Where two values stand in the total order of values: as they compare, a null before all others
/// and as equal to a null (ISO/IEC 9075:1992, 13.1, which leaves it open whether nulls sort first
/// or last; that they are first is own). Values of equal rank are those that GROUP BY and DISTINCT
/// take as one (3.1.3, distinct). Of two kinds, numbers stand before texts (own).
pub fn rank(a: &Value, b: &Value) -> Ordering
    ensures { result ≡ spec.rank (value_of a.now) (value_of b.now) }
{
    match compare(a, b) {
        Some(order) => order,
        None => kind_place(a).cmp(&kind_place(b)),
    }
}

/// The place of a value's kind among the kinds.
fn kind_place(value: &Value) -> u8
    ensures { result ≡ spec.kind_place (value_of value.now) }
{
    match value {
        Value::Null => 0,
        Value::Num(_) => 1,
        Value::Text(_) => 2,
    }
}

/// Numbers of one scale, as most are, compare by their units.
fn compare_numbers(a: Num, b: Num) -> Ordering
    ensures { result ≡ spec.number_cmp a.units a.scale b.units b.scale }
{
    if a.scale == b.scale {
        return a.units.cmp(&b.units);
    }
    compare_across_scales(a, b)
}

fn compare_across_scales(a: Num, b: Num) -> Ordering
    ensures { result ≡ spec.number_cmp a.units a.scale b.units b.scale }
{
    match (a.is_negative(), b.is_negative()) {
        (false, false) => compare_sizes(a, b),
        (false, true) => Ordering::Greater,
        (true, false) => Ordering::Less,
        (true, true) => compare_sizes(b, a),
    }
}

/// How the sizes of two numbers compare, their signs apart: first their whole parts and then, of
/// equal ones, what is left, so that no product overflows.
fn compare_sizes(a: Num, b: Num) -> Ordering
    ensures { result ≡ nat_cmp (nat_abs a.units * 10 ^ b.scale) (nat_abs b.units * 10 ^ a.scale) }
{
    let (a_units, a_one) = (a.size(), power_of_ten(a.scale));
    let (b_units, b_one) = (b.size(), power_of_ten(b.scale));
    let whole = (a_units / a_one).cmp(&(b_units / b_one));
    whole.then((a_units % a_one * b_one).cmp(&(b_units % b_one * a_one)))
}

fn compare_texts(a: &[u8], b: &[u8]) -> Ordering
    ensures { result ≡ spec.text_cmp a.now b.now }
{
    let longer = a.len().max(b.len());
    for i in 0..longer {
        let order = byte_or_space(a, i).cmp(&byte_or_space(b, i));
        if order != Ordering::Equal {
            return order;
        }
    }
    Ordering::Equal
}

/// The byte at a place, or a space past the end.
fn byte_or_space(text: &[u8], i: usize) -> u8
    ensures { result ≡ slice_index_or text.now i 32 }
{
    text.get(i).copied().unwrap_or(b' ')
}
