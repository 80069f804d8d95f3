//! Sums, least and greatest of units.

ghost use Rattle.std.specs.Prelude.{◌≡◌, ◌≤◌, ◌*◌, ◌^◌, All, FitsSigned, length, nat_abs};
ghost use Rattle.std.specs.Int.{w64};
ghost use Rattle.grouping.specs.Units.{greatest_from, least_from, sum_of};

/// The exact sum of units.
pub(crate) fn sum_units(units: &[i64]) -> i128
    requires few { length units.now ≤ 1024 }
    requires ranged { All (FitsSigned w64) units.now }
    ensures exact { result ≡ sum_of units.now }
    ensures small { nat_abs result ≤ 2 ^ 73 }
{
    let mut sum: i128 = 0;
    'units: for unit in units {
        sum += i128::from(*unit);
    }
    sum
}

/// The least of a unit and others.
pub(crate) fn least_units(first: i64, units: &[i64]) -> i64
    requires ranged { All (FitsSigned w64) units.now }
    ensures { result ≡ least_from first units.now }
{
    let mut least = first;
    'units: for unit in units {
        if *unit < least {
            least = *unit;
        }
    }
    least
}

/// The greatest of a unit and others.
pub(crate) fn greatest_units(first: i64, units: &[i64]) -> i64
    requires ranged { All (FitsSigned w64) units.now }
    ensures { result ≡ greatest_from first units.now }
{
    let mut greatest = first;
    'units: for unit in units {
        if greatest < *unit {
            greatest = *unit;
        }
    }
    greatest
}
