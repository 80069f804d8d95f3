//! Versions of the plan space.

ghost use Rattle.std.specs.Prelude.{◌≡◌, [], ◌∷◌, true, false, if◌then◌else◌};
ghost use Rattle.definitions.specs.Estimates.Version as spec;
ghost use Rattle.plan_tree.specs.Versions.{version_of};

/// The three versions of the plan space (own).
#[derive(Clone, Copy, Debug, PartialEq, Eq)]
pub enum Version {
    /// Indexes on one column, read forward; products of tables last.
    One,
    /// Indexes on several columns too, also read backward.
    Two,
    /// Products at any point.
    Three,
}

impl Version {
    /// Whether tables that no conjunct links may be joined at any point.
    pub fn has_free_products(self) -> bool
        ensures { result ≡ spec.has_free_products (version_of self) }
    {
        matches!(self, Version::Three)
    }

    /// Whether indexes are read backward, too.
    pub fn reads_backward(self) -> bool
        ensures { spec.directions (version_of self) ≡ (if result then false ∷ true ∷ [] else false ∷ []) }
    {
        !matches!(self, Version::One)
    }
}
