//! Units of a list, as flags.

ghost use Rattle.std.specs.Prelude.{ℕ, ◌≡◌, ◌-ℤ◌, ◌<◌, IfOk, IfSome, IsNone, OnSome, length, map, pos};
ghost use Rattle.sqlvalue.specs.Owned.{owned_value};
ghost use Rattle.told_tests.specs.UnitSets.{has, HasUnitsOf, IsPlaceOf};

use result_lines::unit_of;
use sqlvalue::OwnedValue;
use std::alloc::{AllocError, Global};

/// Units of a range that is not too long: a flag tells of each from the least on whether it is one of them (own).
#[derive(Drop)]
pub(crate) struct UnitSet {
    least: i64,
    flags: Vec<bool>,
}

/// How long a range may be: so many flags take 1 MB, which a processor keeps near (own).
const LONGEST_RANGE: usize = 1 << 20;

impl UnitSet {
    /// The units of numbers of a scale; none where there is no value, or one is no such number, or their range is too long.
    pub(crate) fn of_values(
        alloc: Global,
        values: &[OwnedValue],
        scale: u8,
    ) -> Result<Option<UnitSet>, AllocError>
        ensures units { IfOk result (λ set. IfSome set (HasUnitsOf scale (map owned_value values.now))) }
        ensures some { IfOk result (λ set. OnSome set (0 < length values.now)) }
    {
        if values.is_empty() {
            return Ok(None);
        }
        let Some((least, greatest)) = least_and_greatest(values, scale) else {
            return Ok(None);
        };
        let Some(last) = place_of(least, greatest) else {
            return Ok(None);
        };
        if last >= LONGEST_RANGE {
            return Ok(None);
        }
        let mut flags = Vec::new(alloc);
        flags.resize(last + 1, false)?;
        'values: for value in values {
            let Some(place) = place_in(value, scale, least) else {
                return Ok(None);
            };
            // It is not so, but a look is less than to carry that along.
            if place >= flags.len() {
                return Ok(None);
            }
            flags[place] = true;
        }
        Ok(Some(UnitSet { least, flags }))
    }

    /// Whether a unit is one of them.
    pub(crate) fn has(&self, unit: i64) -> bool
        ensures { result ≡ has self.now unit }
    {
        match place_of(self.least, unit) {
            Some(place) => match self.flags.get(place) {
                Some(flag) => *flag,
                None => false,
            },
            None => false,
        }
    }
}

/// The least and the greatest of the units of numbers of a scale, where all values are such.
fn least_and_greatest(values: &[OwnedValue], scale: u8) -> Option<(i64, i64)> {
    let mut least = i64::MAX;
    let mut greatest = i64::MIN;
    'values: for value in values {
        let unit = unit_of(&value.value(), scale)?;
        least = least.min(unit);
        greatest = greatest.max(unit);
    }
    Some((least, greatest))
}

/// The place of the flag of a value, where it is a number of a scale and no less than the least.
fn place_in(value: &OwnedValue, scale: u8, least: i64) -> Option<usize>
    ensures { IfSome result (IsPlaceOf scale least (owned_value value.now)) }
{
    place_of(least, unit_of(&value.value(), scale)?)
}

/// The place of the flag of a unit, if it is no less than the least.
fn place_of(least: i64, unit: i64) -> Option<usize>
    ensures some { IfSome result (λ place. unit -ℤ least ≡ pos place) }
    ensures none { IsNone result → (place : ℕ) → unit -ℤ least ≡ pos place → ⊥ }
{
    match usize::try_from(i128::from(unit) - i128::from(least)) {
        Ok(place) => Some(place),
        Err(_) => None,
    }
}
