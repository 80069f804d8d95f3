//! The conjuncts of a block, as plans see them.

ghost use Rattle.std.specs.Prelude.{◌≤◌};
ghost use Rattle.definitions.specs.Estimates.Fractions.{million};

use predicates::Conjunct;

/// A conjunct of WHERE (Selinger et al. 1979, section 2: boolean factors), and how many rows it is taken to keep.
#[derive(Clone, Copy)]
pub struct PlanConjunct<'a> {
    pub conjunct: Conjunct<'a>,
    /// The share of rows on which it is taken to be true, in millionths.
    pub selectivity: u32,
    pub ghost part: { selectivity ≤ million },
}
