//! Written numbers, and what they are stored as.

ghost use Rattle.std.specs.Prelude.{◌≡◌, ◌<◌, ◌≤◌, ◌*◌, ◌^◌, ℕ, IfSome, IfNone, pos};
ghost use Rattle.definitions.specs.Limits.{most_digits, greatest_precision};
ghost use Rattle.definitions.specs.Value as spec;
ghost use Rattle.definitions.specs.Loading.{negated};
ghost use Rattle.sqlvalue.specs.Meaning.{type_of};
ghost use Rattle.loading.specs.Fields.{IsEqualOf, number_of};

use crate::number_type::size_limit;
use sqlvalue::SqlType;

/// How many digits a stored number may be written with (own).
pub(crate) const MAX_DIGITS: usize = 38;

/// A number as it is written: its digits without the point, and how many stand behind it.
#[derive(Clone, Copy)]
pub struct WrittenNumber {
    pub negative: bool,
    pub digits: u128,
    pub scale: usize,
}

/// The units of a written number at a type's scale, where they are whole and in its range
/// (ISO/IEC 9075:1992, 9.2).
pub fn units_in(written: WrittenNumber, sql_type: SqlType) -> Option<i64>
    requires numbers { spec.kind_of (type_of sql_type) ≡ spec.Numbers }
    requires valid { spec.IsType (type_of sql_type) }
    requires sized { written.digits < 10 ^ most_digits }
    ensures some { IfSome result (λ units. IsEqualOf (type_of sql_type) (number_of written)
        (spec.Number units (spec.scale_of (type_of sql_type)))) }
    ensures none { IfNone result ((w : spec.Value) → IsEqualOf (type_of sql_type) (number_of written) w → ⊥) }
{
    let limit = size_limit(sql_type, written.negative);
    let to = usize::from(sql_type.scale());
    match rescale(written.digits, written.scale, to, limit) {
        Some(size) => Some(apply_sign(written.negative, size)),
        None => None,
    }
}

fn apply_sign(negative: bool, size: u128) -> i64
    requires { size ≤ 10 ^ greatest_precision }
    ensures { result ≡ negated negative (pos size) }
{
    if negative {
        -(size as i64)
    } else {
        size as i64
    }
}

/// Units at one scale as units at another, where they are whole and below a limit.
fn rescale(units: u128, from: usize, to: usize, limit: u128) -> Option<u128>
    requires sized { units < 10 ^ most_digits }
    requires kept { to ≤ greatest_precision }
    requires limited { limit ≤ 10 ^ greatest_precision }
    ensures some { IfSome result (λ size. (size * 10 ^ from ≡ units * 10 ^ to) × (size < limit)) }
    ensures none { IfNone result ((size : ℕ) → size * 10 ^ from ≡ units * 10 ^ to → limit ≤ size) }
{
    if from <= to {
        scale_up(units, power_of_ten(to - from), limit)
    } else {
        // units are below any higher power, as they are below this one
        let exponent = (from - to).min(MAX_DIGITS);
        scale_down(units, power_of_ten(exponent), limit)
    }
}

fn scale_up(units: u128, factor: u128, limit: u128) -> Option<u128>
    requires positive { 0 < factor }
    requires factored { factor ≤ 10 ^ greatest_precision }
    requires limited { limit ≤ 10 ^ greatest_precision }
    ensures some { IfSome result (λ size. (size ≡ units * factor) × (size < limit)) }
    ensures none { IfNone result (limit ≤ units * factor) }
{
    if units >= limit {
        return None;
    }
    let size = units * factor;
    if size < limit { Some(size) } else { None }
}

fn scale_down(units: u128, divisor: u128, limit: u128) -> Option<u128>
    requires { 0 < divisor }
    ensures some { IfSome result (λ size. (size * divisor ≡ units) × (size < limit)) }
    ensures none { IfNone result ((size : ℕ) → size * divisor ≡ units → limit ≤ size) }
{
    let size = units / divisor;
    if units % divisor == 0 && size < limit {
        Some(size)
    } else {
        None
    }
}

pub(crate) fn power_of_ten(exponent: usize) -> u128
    requires { exponent ≤ most_digits }
    ensures value { result ≡ 10 ^ exponent }
    ensures positive { 0 < result }
{
    if exponent == 0 {
        return 1;
    }
    10u128.pow(exponent as u32)
}
