//! Parts of the range of an index's keys (Selinger et al. 1979, table 1: linear interpolation of the value within the range of key values).

ghost use Rattle.std.specs.Prelude.{◌≡◌, ◌<◌, ◌≤◌, ◌^◌, ◌<ℤ◌, nat_abs, option_map};
ghost use Rattle.definitions.specs.Limits.{greatest_precision};
ghost use Rattle.definitions.specs.Estimates.Fractions.{million};
ghost use Rattle.definitions.specs.Estimates.KeyRanges as spec;
ghost use Rattle.indexes.specs.Meaning.{key_range_of};

use crate::fractions::fraction;
use catalog::KeyRange;
use sqlvalue::Num;

/// A range of keys that has an extent, since of one key alone no part can be taken. Its bounds are units at the scale of the keys.
#[derive(Clone, Copy)]
pub(crate) struct Extent {
    pub low: i128,
    pub high: i128,
    pub ghost rising: { low <ℤ high },
    pub ghost low_bounded: { nat_abs low < 10 ^ greatest_precision },
    pub ghost high_bounded: { nat_abs high < 10 ^ greatest_precision },
}

impl Extent {
    ghost use Rattle.estimate.specs.Ranges.{range_of, IsBounded, IsWithin};

    /// A range of keys, where it has an extent.
    pub(crate) fn new(range: KeyRange) -> Option<Extent>
        requires { IsBounded (key_range_of range) }
        ensures { option_map range_of result ≡ spec.extent (key_range_of range) }
    {
        if range.low < range.high {
            Some(Extent {
                low: range.low,
                high: range.high,
            })
        } else {
            None
        }
    }

    /// The part of the range above a number; its keys are at a scale.
    pub(crate) fn part_above(self, key_scale: u8, number: Num) -> u32
        ensures exact { result ≡ spec.part_above (range_of self)
            (spec.drawn (range_of self) key_scale number.units number.scale) }
        ensures below { result ≤ million }
    {
        let key = self.clamp(key_scale, number);
        fraction(distance(key, self.high), self.width())
    }

    /// The part of the range below a number.
    pub(crate) fn part_below(self, key_scale: u8, number: Num) -> u32
        ensures exact { result ≡ spec.part_below (range_of self)
            (spec.drawn (range_of self) key_scale number.units number.scale) }
        ensures below { result ≤ million }
    {
        let key = self.clamp(key_scale, number);
        fraction(distance(self.low, key), self.width())
    }

    /// The part of the range between two numbers; one millionth where the first is the greater.
    pub(crate) fn part_between(self, key_scale: u8, low: Num, high: Num) -> u32
        ensures exact { result ≡ spec.part_between (range_of self)
            (spec.drawn (range_of self) key_scale low.units low.scale)
            (spec.drawn (range_of self) key_scale high.units high.scale) }
        ensures below { result ≤ million }
    {
        let from = self.clamp(key_scale, low);
        let to = self.clamp(key_scale, high);
        fraction(distance(from, to), self.width())
    }

    /// How far its bounds lie apart.
    fn width(self) -> u64
        ensures exact { result ≡ spec.distance self.low self.high }
        ensures some { 0 < result }
    {
        distance(self.low, self.high)
    }

    /// A number drawn into the range: the bound that it lies beyond, or itself, cut towards zero to the scale of the keys (own).
    fn clamp(self, key_scale: u8, number: Num) -> i128
        ensures exact { result ≡ spec.drawn (range_of self) key_scale number.units number.scale }
        ensures within { IsWithin (range_of self) result }
    {
        // A product that doesn't fit lies so far beyond a bound that its quotient does too.
        let units = number
            .units
            .saturating_mul(10i128.saturating_pow(u32::from(key_scale)));
        (units / 10i128.pow(u32::from(number.scale))).clamp(self.low, self.high)
    }
}

/// How far it is from a key up to another; nothing where that is less.
fn distance(from: i128, to: i128) -> u64
    requires from { nat_abs from ≤ 10 ^ greatest_precision }
    requires to { nat_abs to ≤ 10 ^ greatest_precision }
    ensures { result ≡ spec.distance from to }
{
    if from < to { (to - from) as u64 } else { 0 }
}
