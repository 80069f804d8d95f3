//! What a column reference stands for.

ghost use Rattle.std.specs.Prelude.{◌≡◌};
ghost use Rattle.query_rules.specs.ScopeRules.{found_of, resolution_of};
ghost use Rattle.query_rules.specs.Search.{is_there, with_one};

use query_tree::BlockColumn;
use sqlvalue::SqlType;

/// A column that was found, with its type and its name.
#[derive(Clone, Copy)]
pub struct Found<'a> {
    pub column: BlockColumn,
    pub sql_type: SqlType,
    pub name: &'a str,
}

/// What a column reference stands for: no column, several, or one of the block that lies `level` blocks outside (0: the
/// block itself; ISO/IEC 9075:1992, 6.4).
#[derive(Clone, Copy)]
pub enum Resolution<'a> {
    NotThere,
    Ambiguous,
    Named { level: usize, found: Found<'a> },
}

impl<'a> Resolution<'a> {
    /// The same, with one more column of the name in the block of a level.
    pub(crate) fn with(self, level: usize, found: Found<'a>) -> Resolution<'a>
        ensures { resolution_of result ≡ with_one level (resolution_of self.entry) (found_of found.entry) }
    {
        match self {
            Resolution::NotThere => Resolution::Named { level, found },
            Resolution::Ambiguous | Resolution::Named { .. } => Resolution::Ambiguous,
        }
    }

    pub(crate) fn is_there(&self) -> bool
        ensures { result ≡ is_there (resolution_of self.now) }
    {
        !matches!(self, Resolution::NotThere)
    }
}
