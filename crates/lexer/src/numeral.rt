//! Unsigned numbers as they are written: units, digits and fraction.

ghost use Rattle.std.specs.Prelude.{◌^◌, ◌<◌};
ghost use Rattle.definitions.specs.Binding.Formed.{IsWrittenNumeral};
ghost use Rattle.definitions.specs.Limits.{most_digits};

/// An unsigned number (ISO/IEC 9075:1992, 5.3).
#[derive(Clone, Copy)]
pub struct Numeral {
    /// What its digits write without the point.
    pub units: u128,
    /// How many digits there are.
    pub digits: u8,
    /// How many of them stand behind the point, if it has one.
    pub fraction: Option<u8>,
    pub ghost bounded: { units < 10 ^ most_digits },
    pub ghost written: { IsWrittenNumeral units digits },
}
