//! Fractions of rows, in millionths.

ghost use Rattle.std.specs.Prelude.{◌≡◌, ◌<◌, ◌≤◌};
ghost use Rattle.definitions.specs.Estimates.Fractions as spec;
ghost use Rattle.definitions.specs.Estimates.Fractions.{million};
ghost use Rattle.definitions.specs.Plans.Cost as cost;

/// All rows, in millionths.
pub const MILLION: u32 = 1_000_000;

// Where nothing better is known (Selinger et al. 1979, table 1; some are own, and a third is rounded up).
pub(crate) const ONE_TENTH: u32 = 100_000;

pub(crate) const ONE_QUARTER: u32 = 250_000;

pub(crate) const ONE_THIRD: u32 = 333_334;

pub(crate) const ONE_HALF: u32 = 500_000;

/// A part of a whole, in millionths: at least one of them, at most all, and rounded up (own).
pub fn fraction(part: u64, whole: u64) -> u32
    requires { 0 < whole }
    ensures exact { result ≡ spec.fraction part whole }
    ensures below { result ≤ million }
{
    let millionths = (u128::from(part) * u128::from(MILLION)).div_ceil(u128::from(whole));
    millionths.max(1).min(u128::from(MILLION)) as u32
}

/// A share of a number, given in millionths and rounded up (own).
pub fn share(number: u64, millionths: u32) -> u64
    requires { millionths ≤ million }
    ensures exact { result ≡ cost.share number millionths }
    ensures below { result ≤ number }
{
    // a division of 64 bits takes a tenth of the time of one of 128
    match number.checked_mul(u64::from(millionths)) {
        Some(product) => product.div_ceil(u64::from(MILLION)),
        None => (u128::from(number) * u128::from(millionths)).div_ceil(u128::from(MILLION)) as u64,
    }
}

/// What is left out of all rows, at least one millionth (own).
pub(crate) fn rest_of(part: u32) -> u32
    ensures exact { result ≡ spec.rest_of part }
    ensures below { result ≤ million }
{
    MILLION.saturating_sub(part).max(1)
}

pub(crate) fn negated_if(negated: bool, part: u32) -> u32
    requires { part ≤ million }
    ensures exact { result ≡ spec.negated_if negated part }
    ensures below { result ≤ million }
{
    if negated { rest_of(part) } else { part }
}

/// One or the other of two conditions that are taken to be independent (Selinger et al. 1979, table 1).
pub(crate) fn either_of(a: u32, b: u32) -> u32
    requires left { a ≤ million }
    requires right { b ≤ million }
    ensures exact { result ≡ spec.either_of a b }
    ensures below { result ≤ million }
{
    let both = u64::from(a) * u64::from(b) / u64::from(MILLION);
    (u64::from(a) + u64::from(b) - both) as u32
}
