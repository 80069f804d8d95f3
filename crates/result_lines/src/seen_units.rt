//! Units that came before, as far as they are remembered.

ghost use Rattle.std.specs.Prelude.{ℤ, ◌≡◌, [], ◌∷◌, List, true, FitsSigned, IfSome};
ghost use Rattle.std.specs.Int.{w64};
ghost use Rattle.definitions.specs.Value.{Number};
ghost use Rattle.sqlvalue.specs.Meaning.{value_of};
ghost use Rattle.result_lines.specs.SeenUnits.{has_unit};

use sqlvalue::Value;
use std::alloc::{AllocError, Global};
use std::marker::Model;

/// How many units are noted before the first is remembered: fewer take no memory (own).
const FIRST_ROOM: usize = 256;

/// How many places there are at first: 8 KB (own).
const FEWEST_PLACES: usize = 1 << 10;

/// How many there are at most: 1 MB, which a processor keeps near (own).
const MOST_PLACES: usize = 1 << 17;

/// Units that came before, of which any may be forgotten. Each has one place, where the one that was noted last is remembered: so one look tells
/// most repeats (own). Places where none was noted hold a unit that was noted elsewhere, and so tell nothing wrong.
#[derive(Drop)]
pub struct SeenUnits {
    places: Vec<i64>,
    /// How many more are noted before there are more places.
    room: usize,
}

impl Model for SeenUnits {
    ghost use Rattle.std.specs.Prelude.{ℤ, List};

    ghost Value = { List ℤ };

    ghost view = { λ s. s.places.items };
}

impl SeenUnits {
    /// Units of which none has come yet.
    pub fn new(alloc: Global) -> SeenUnits
        ensures { result ≡ [] }
    {
        SeenUnits {
            places: Vec::new(alloc),
            room: FIRST_ROOM,
        }
    }

    /// Whether a unit is remembered. One that is not may have come before all the same.
    pub fn has(&self, unit: i64) -> bool
        ensures { result ≡ true → has_unit self.now unit ≡ true }
    {
        match self.places.get(self.place_of(unit)) {
            Some(remembered) => *remembered == unit,
            None => false,
        }
    }

    /// Notes a unit, in the place of the one that was remembered there.
    pub fn note(&mut self, unit: i64) -> Result<(), AllocError>
        ensures { (other : ℤ) → has_unit self.new other ≡ true → has_unit (unit ∷ self.old) other ≡ true }
    {
        match self.room.checked_sub(1) {
            Some(room) => self.room = room,
            None => self.grow(unit)?,
        }
        let place = self.place_of(unit);
        if place < self.places.len() {
            self.places[place] = unit;
        }
        Ok(())
    }

    /// Makes the first places, filled with a unit; or twice as many, unless they are the most: each unit is then at the place that it has there.
    fn grow(&mut self, unit: i64) -> Result<(), AllocError>
        ensures { (other : ℤ) → has_unit self.new other ≡ true → has_unit (unit ∷ self.old) other ≡ true }
    {
        if self.places.is_empty() {
            self.places.resize(FEWEST_PLACES, unit)?;
        } else if self.places.len() < MOST_PLACES {
            self.places.extend_from_within(..)?;
        }
        self.room = self.places.len() / 4;
        Ok(())
    }

    /// Where a unit has its place: those of a range have each its own, if there are as many.
    fn place_of(&self, unit: i64) -> usize {
        unit.cast_unsigned() as usize & self.places.len().wrapping_sub(1)
    }
}

/// The units of a number of a scale, if they have no more than 64 bits.
pub fn unit_of(value: &Value, scale: u8) -> Option<i64>
    ensures exact { IfSome result (λ unit. value_of value.now ≡ Number unit scale) }
    ensures ranged { IfSome result (FitsSigned w64) }
{
    match value {
        Value::Num(number) if number.scale == scale => match i64::try_from(number.units) {
            Ok(unit) => Some(unit),
            Err(_) => None,
        },
        _ => None,
    }
}
