//! The truth values true, false and unknown, and AND, OR and NOT of them.

ghost use Rattle.std.specs.Prelude.{◌≡◌};
ghost use Rattle.definitions.specs.Truth as spec;
ghost use Rattle.sqlvalue.specs.Meaning.{op_of, value_of};
ghost use Rattle.sqlvalue.specs.Truths.{truth_of};

use crate::comparison::compare;
use crate::op::ComparisonOperator;
use crate::value::Value;

/// A truth value (ISO/IEC 9075:1992, 8.12).
#[derive(Clone, Copy, PartialEq, Eq)]
pub enum Tri {
    False,
    Unknown,
    True,
}

impl Tri {
    /// The lesser of the two, where false is below unknown and unknown below true.
    pub fn and(self, other: Tri) -> Tri
        ensures { truth_of result ≡ spec.and (truth_of self) (truth_of other) }
    {
        match (self, other) {
            (Tri::True, Tri::True) => Tri::True,
            (Tri::False, _) | (_, Tri::False) => Tri::False,
            _ => Tri::Unknown,
        }
    }

    /// The greater of the two.
    pub fn or(self, other: Tri) -> Tri
        ensures { truth_of result ≡ spec.or (truth_of self) (truth_of other) }
    {
        match (self, other) {
            (Tri::False, Tri::False) => Tri::False,
            (Tri::True, _) | (_, Tri::True) => Tri::True,
            _ => Tri::Unknown,
        }
    }

    /// True for false and false for true.
    pub fn not(self) -> Tri
        ensures { truth_of result ≡ spec.opposite (truth_of self) }
    {
        match self {
            Tri::False => Tri::True,
            Tri::Unknown => Tri::Unknown,
            Tri::True => Tri::False,
        }
    }

    /// Whether it is true: unknown isn't (ISO/IEC 9075:1992, 7.6).
    pub fn is_true(self) -> bool
        ensures { result ≡ spec.is_true (truth_of self) }
    {
        match self {
            Tri::True => true,
            Tri::False | Tri::Unknown => false,
        }
    }
}

impl From<bool> for Tri {
    ghost from_gives = { λ known truth. truth_of truth ≡ spec.known known };

    fn from(known: bool) -> Tri {
        if known { Tri::True } else { Tri::False }
    }
}

impl ComparisonOperator {
    /// The truth of a comparison, which is unknown with a null, and of values of two kinds (ISO/IEC 9075:1992, 8.2).
    pub fn compare(self, a: &Value, b: &Value) -> Tri
        ensures { truth_of result ≡ spec.compared (op_of self) (value_of a.now) (value_of b.now) }
    {
        match compare(a, b) {
            Some(order) => Tri::from(self.agrees(order)),
            None => Tri::Unknown,
        }
    }
}
