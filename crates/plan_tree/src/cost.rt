//! Costs, and numbers of rows and pages: their sums and products stop at one limit.

ghost use Rattle.std.specs.Prelude.{◌≡◌, ◌+◌, ◌*◌, ◌≤◌};
ghost use Rattle.definitions.specs.Plans.Cost as cost;

/// No number of rows or pages and no cost is above it (own).
pub const LIMIT: u64 = 1_000_000_000_000_000_000;

/// What a plan costs, or a step of one: at most 10^18, where sums and products stop (own).
#[derive(Clone, Copy)]
pub struct Cost {
    pub number: u64,
    pub ghost bounded: { number ≤ cost.limit },
}

impl Cost {
    /// A number, or the limit where it is above it (own).
    pub fn of(number: u128) -> Cost
        ensures { result.number ≡ cost.saturated number }
    {
        Cost {
            number: saturate(number),
        }
    }

    /// What a plan comes to with a step on top of it, or a step with one more part (own).
    pub fn plus(self, added: Cost) -> Cost
        ensures { result.number ≡ cost.saturated (self.number + added.number) }
    {
        Cost {
            number: saturating_sum(self.number, added.number),
        }
    }

    /// What so many come to, as the scans of a path, one for each row (own).
    pub fn times(self, rows: u64) -> Cost
        ensures { result.number ≡ cost.saturated (rows * self.number) }
    {
        Cost {
            number: saturating_product(rows, self.number),
        }
    }
}

/// A number, or the limit where it is above it (own).
pub fn saturate(number: u128) -> u64
    ensures exact { result ≡ cost.saturated number }
    ensures below { result ≤ cost.limit }
{
    number.min(u128::from(LIMIT)) as u64
}

/// A sum of two such numbers, as of pages; it stops at the limit (own).
pub fn saturating_sum(number: u64, added: u64) -> u64
    ensures exact { result ≡ cost.saturated (number + added) }
    ensures below { result ≤ cost.limit }
{
    saturate(u128::from(number) + u128::from(added))
}

/// A product of two such numbers, as of the rows of two tables; it stops at the limit (own).
pub fn saturating_product(number: u64, times: u64) -> u64
    ensures exact { result ≡ cost.saturated (number * times) }
    ensures below { result ≤ cost.limit }
{
    saturate(u128::from(number) * u128::from(times))
}
