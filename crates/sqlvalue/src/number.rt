//! Exact numbers: units at a scale.

ghost use Rattle.std.specs.Prelude.{◌≡◌, ◌/◌, ◌%◌, ◌^◌, ◌<◌, ◌≤◌, pos, int_lt, nat_abs, neg_ℤ};
ghost use Rattle.definitions.specs.Limits.{most_digits, greatest_scale};

/// An exact number: a whole number of units at a scale, `units / 10^scale`
/// (ISO/IEC 9075:1992, 4.4.1; the bounds are own).
#[derive(Clone, Copy, Debug, PartialEq, Eq)]
pub struct Num {
    pub units: i128,
    pub scale: u8,
    pub ghost bounded: { nat_abs units < 10 ^ most_digits },
    pub ghost scaled: { scale ≤ greatest_scale },
}

impl Num {
    /// Whether it is below zero.
    pub fn is_negative(self) -> bool
        ensures { result ≡ int_lt self.units (pos 0) }
    {
        self.units < 0
    }

    /// The number on the other side of zero.
    pub fn negate(self) -> Num
        ensures units { result.units ≡ neg_ℤ self.units }
        ensures scale { result.scale ≡ self.scale }
    {
        Num {
            units: -self.units,
            scale: self.scale,
        }
    }

    /// Its units without their sign.
    pub fn size(self) -> u128
        ensures value { result ≡ nat_abs self.units }
        ensures bounded { result < 10 ^ most_digits }
    {
        self.units.unsigned_abs()
    }

    /// Its size in two parts: the whole part, and the units of its scale behind the point.
    pub fn parts(self) -> (u128, u128)
        ensures whole { result.0 ≡ nat_abs self.units / 10 ^ self.scale }
        ensures rest { result.1 ≡ nat_abs self.units % 10 ^ self.scale }
    {
        let size = self.size();
        if self.scale == 0 {
            return (size, 0);
        }
        let one = power_of_ten(self.scale);
        (size / one, size % one)
    }
}

/// How many units of a scale make one.
pub fn power_of_ten(scale: u8) -> u128
    requires { scale ≤ greatest_scale }
    ensures exact { result ≡ 10 ^ scale }
    ensures positive { 0 < result }
    ensures bounded { result ≤ 10 ^ greatest_scale }
{
    10u128.pow(u32::from(scale))
}
