//! Who is told of comparisons.

ghost use Rattle.cert_check.specs.Comparisons.{comparison_of};

use crate::comparison::Comparison;

/// Is told of the comparisons of a certificate, one after another.
pub trait Listener {
    ghost use Rattle.std.specs.Prelude.{Bool};
    ghost use Rattle.cert_check.specs.Compared.{Compared};

    ghost hears: { Self → Compared → Bool → Self → Type 0 };

    /// Hears a comparison, and tells whether it wants the next.
    fn hear(&mut self, comparison: &Comparison<'_>) -> bool
        ensures { hears self.old (comparison_of comparison.now) result self.new };
}
