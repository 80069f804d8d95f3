//! Exact arithmetic (ISO/IEC 9075:1992, 6.12).

ghost use Rattle.std.specs.Prelude.{IfSome, nat_abs, ◌≡◌, ◌≤◌, ◌<◌, ◌+◌, ◌^◌, ◌*ℤ◌, ℤ, pos};
ghost use Rattle.definitions.specs.Limits.{greatest_scale, most_digits};
ghost use Rattle.definitions.specs.Arithmetic as spec;
ghost use Rattle.sqlvalue.specs.Meaning.{number_of};
ghost use Rattle.sqlvalue.specs.Raises.{IsWhole, if_in_bounds, meaning_of};

use crate::number::Num;
use crate::raise::Exception;

/// The digits that a quotient has behind the point, at least (own).
const QUOTIENT_SCALE: u8 = 6;

/// 10^38: units are below it in size (own).
const LIMIT: u128 = 100_000_000_000_000_000_000_000_000_000_000_000_000;

/// The sum, at the greater scale of the two.
pub fn add(a: Num, b: Num) -> Result<Num, Exception>
    ensures { meaning_of result ≡ spec.plus (number_of a) (number_of b) }
{
    let scale = a.scale.max(b.scale);
    let (Some(x), Some(y)) = (
        scale_up(a.units, scale - a.scale),
        scale_up(b.units, scale - b.scale),
    ) else {
        return Err(Exception::OutOfRange);
    };
    check_number(x.checked_add(y), scale)
}

/// The difference, at the greater scale of the two.
pub fn sub(a: Num, b: Num) -> Result<Num, Exception>
    ensures { meaning_of result ≡ spec.minus (number_of a) (number_of b) }
{
    add(a, b.negate())
}

/// The product, whose scale is the sum of the scales.
pub fn mul(a: Num, b: Num) -> Result<Num, Exception>
    requires { a.scale + b.scale ≤ greatest_scale }
    ensures { meaning_of result ≡ spec.times (number_of a) (number_of b) }
{
    check_number(a.units.checked_mul(b.units), a.scale + b.scale)
}

/// The quotient, cut towards zero, at the scale of `a` but with at least 6 digits behind the point (own).
pub fn div(a: Num, b: Num) -> Result<Num, Exception>
    ensures { meaning_of result ≡ spec.over (number_of a) (number_of b) }
{
    if b.units == 0 {
        return Err(Exception::DivisionByZero);
    }
    let scale = a.scale.max(QUOTIENT_SCALE);
    match scale_up(a.units, scale + b.scale - a.scale) {
        Some(numerator) => Ok(Num {
            units: numerator / b.units,
            scale,
        }),
        None => Err(Exception::OutOfRange),
    }
}

/// Units at a scale that is so many digits greater, where they are below 10^38 in size.
fn scale_up(units: i128, digits: u8) -> Option<i128>
    requires { digits ≤ 24 }
    ensures exact { result ≡ if_in_bounds (units *ℤ pos (10 ^ digits)) }
    ensures below { IfSome result (λ u. nat_abs u < 10 ^ most_digits) }
{
    in_bounds(units.checked_mul(10i128.pow(u32::from(digits))))
}

/// The number of so many units, where they are below 10^38 in size.
fn check_number(units: Option<i128>, scale: u8) -> Result<Num, Exception>
    requires { scale ≤ greatest_scale }
    ensures { (whole : ℤ) → IsWhole whole units → meaning_of result ≡ spec.judged whole scale }
{
    match in_bounds(units) {
        Some(units) => Ok(Num { units, scale }),
        None => Err(Exception::OutOfRange),
    }
}

/// A number of units, where there is one below 10^38 in size.
fn in_bounds(units: Option<i128>) -> Option<i128>
    ensures exact { (whole : ℤ) → IsWhole whole units → result ≡ if_in_bounds whole }
    ensures below { IfSome result (λ u. nat_abs u < 10 ^ most_digits) }
{
    match units {
        Some(units) if units.unsigned_abs() < LIMIT => Some(units),
        _ => None,
    }
}
