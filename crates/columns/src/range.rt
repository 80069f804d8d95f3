//! A comparison of units with a number, as a range of units.

ghost use Rattle.std.specs.Prelude.{◌≡◌, ◌≤◌, ◌<◌, ◌^◌, ◌*◌, ◌*ℤ◌, ◌<ℤ◌, ◌&&◌, ℤ, pos, false, int_le, int_lt, FitsSigned};
ghost use Rattle.std.specs.Int.{w64};
ghost use Rattle.definitions.specs.Value.{number_cmp};
ghost use Rattle.definitions.specs.Truth.{agrees};
ghost use Rattle.definitions.specs.Limits.{greatest_precision, greatest_scale};
ghost use Rattle.sqlvalue.specs.Meaning.{op_of};
ghost use Rattle.columns.specs.Ranges.{is_in};

use sqlvalue::{ComparisonOperator, Num};

/// The units for which a comparison is true: those of a range, or those outside it (own).
#[derive(Clone, Copy)]
pub(crate) struct UnitRange {
    pub low: i64,
    pub high: i64,
    pub outside: bool,
}

/// The greatest units below a number, and the greatest that are not above it.
#[derive(Clone, Copy)]
pub(crate) struct Neighbours {
    pub below: i128,
    pub at_most: i128,
}

/// The units at a scale for which a comparison with a number is true (ISO/IEC 9075:1992, 8.2,
/// general rule 2).
pub(crate) fn range_of(op: ComparisonOperator, value: Num, scale: u8) -> UnitRange
    requires { scale ≤ greatest_precision }
    ensures { (u : ℤ) → FitsSigned w64 u → agrees (op_of op) (number_cmp u scale value.units value.scale)
        ≡ is_in result u }
{
    let (least, greatest) = (i128::from(i64::MIN), i128::from(i64::MAX));
    let Neighbours { below, at_most } = nearest(value, scale);
    match op {
        ComparisonOperator::Equals => between(below.saturating_add(1), at_most),
        ComparisonOperator::NotEquals => UnitRange {
            outside: true,
            ..between(below.saturating_add(1), at_most)
        },
        ComparisonOperator::LessThan => between(least, below),
        ComparisonOperator::LessOrEquals => between(least, at_most),
        ComparisonOperator::GreaterThan => between(at_most.saturating_add(1), greatest),
        ComparisonOperator::GreaterOrEquals => between(below.saturating_add(1), greatest),
    }
}

/// The units of a scale next to a number. Past the limits of 64 bits they may be any beyond those.
pub(crate) fn nearest(value: Num, scale: u8) -> Neighbours
    requires { scale ≤ greatest_precision }
    ensures below { (u : ℤ) → FitsSigned w64 u → int_lt (u *ℤ pos (10 ^ value.scale))
        (value.units *ℤ pos (10 ^ scale)) ≡ int_le u result.below }
    ensures at_most { (u : ℤ) → FitsSigned w64 u → int_le (u *ℤ pos (10 ^ value.scale))
        (value.units *ℤ pos (10 ^ scale)) ≡ int_le u result.at_most }
{
    // Most are at the scale, and neither a product nor a quotient has to be made of them.
    if value.scale == scale {
        return Neighbours {
            below: value.units - 1,
            at_most: value.units,
        };
    }
    nearest_at_other(value, scale)
}

/// The same, whatever the number's scale.
fn nearest_at_other(value: Num, scale: u8) -> Neighbours
    requires { scale ≤ greatest_precision }
    ensures below { (u : ℤ) → FitsSigned w64 u → int_lt (u *ℤ pos (10 ^ value.scale))
        (value.units *ℤ pos (10 ^ scale)) ≡ int_le u result.below }
    ensures at_most { (u : ℤ) → FitsSigned w64 u → int_le (u *ℤ pos (10 ^ value.scale))
        (value.units *ℤ pos (10 ^ scale)) ≡ int_le u result.at_most }
{
    if value.scale <= scale {
        let at_most = value
            .units
            .saturating_mul(power_of_ten(scale - value.scale));
        Neighbours {
            below: at_most.saturating_sub(1),
            at_most,
        }
    } else {
        let one = power_of_ten(value.scale - scale);
        Neighbours {
            below: (value.units - 1).div_euclid(one),
            at_most: value.units.div_euclid(one),
        }
    }
}

/// How many units of a scale make one.
fn power_of_ten(scale: u8) -> i128
    requires { scale ≤ greatest_scale }
    ensures exact { result ≡ pos (10 ^ scale) }
    ensures positive { pos 0 <ℤ result }
{
    10i128.pow(u32::from(scale))
}

/// The units from one bound to another, of those that a column holds.
fn between(low: i128, high: i128) -> UnitRange
    ensures units { (u : ℤ) → FitsSigned w64 u → (int_le low u && int_le u high) ≡ is_in result u }
    ensures inside { result.outside ≡ false }
{
    let (least, greatest) = (i128::from(i64::MIN), i128::from(i64::MAX));
    if greatest < low || high < least {
        return UnitRange {
            low: 1,
            high: 0,
            outside: false,
        };
    }
    UnitRange {
        low: low.max(least) as i64,
        high: high.min(greatest) as i64,
        outside: false,
    }
}
