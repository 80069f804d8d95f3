//! Scans of columns of numbers, eight lanes at a time.

ghost use Rattle.std.specs.Prelude.{◌≡◌, ◌≤◌, ◌+◌, ◌*◌, ◌^◌, FitsSigned, ◌&&◌, length, map, drop, All};
ghost use Rattle.std.specs.Int.{w64};
ghost use Rattle.std.specs.Int.Signed.{le_z};
ghost use Rattle.std.specs.Simd.Lanes.{chunk};
ghost use Rattle.definitions.specs.Scanning.{word_of};

use std::simd::prelude::*;

/// The word in which bit i is set exactly where unit i lies from `low` to `high` (own).
pub(crate) fn units_within(units: &[i64], low: i64, high: i64) -> u64
    requires few { length units.now ≤ 64 }
    requires ranged { All (FitsSigned w64) units.now }
    ensures { result ≡ word_of (map (λ u. le_z low u && le_z u high) units.now) }
{
    let mut word = 0;
    for chunk in 0..units.len() / 8 {
        word += eight_within(units, 8 * chunk, low, high) << (8 * chunk);
    }
    word + rest_within(units, 8 * (units.len() / 8), low, high)
}

/// The bits of eight units from a place on.
fn eight_within(units: &[i64], first: usize, low: i64, high: i64) -> u64
    requires room { first + 8 ≤ length units.now }
    requires ranged { All (FitsSigned w64) units.now }
    ensures { result ≡ word_of (map (λ u. le_z low u && le_z u high) (chunk first 8 units.now)) }
{
    let lanes = i64x8::from_slice(&units[first..]);
    let within = lanes.simd_ge(i64x8::splat(low)) & lanes.simd_le(i64x8::splat(high));
    within.to_bitmask()
}

/// The bits of the units from a place on, at their places in the word.
fn rest_within(units: &[i64], first: usize, low: i64, high: i64) -> u64
    requires few { length units.now ≤ 64 }
    requires within { first ≤ length units.now }
    requires ranged { All (FitsSigned w64) units.now }
    ensures { result ≡ 2 ^ first * word_of (map (λ u. le_z low u && le_z u high) (drop first units.now)) }
{
    let mut word = 0;
    for row in first..units.len() {
        let unit = units[row];
        word += u64::from((low <= unit) & (unit <= high)) << row;
    }
    word
}
