//! What can be wrong with a FROM.

use parse_tree::Name;
use std::alloc::{AllocError, AllocFailed};

/// Why the tables of a FROM are not found.
#[derive(Clone, Copy)]
pub enum SourceFault<'a> {
    /// They are too many; `beyond` is the first that is one too many.
    ManyTables { sources: usize, beyond: &'a Name },
    /// The database has no table of a name.
    NoTable(&'a Name),
    /// A table before has the name by which the columns of one are qualified.
    NameTwice(&'a Name),
    /// Want of memory.
    Memory,
}

impl<'a> From<AllocError> for SourceFault<'a> {
    ghost use Rattle.std.specs.Prelude.{◌≡◌};
    ghost use Rattle.query_rules.specs.declared.scope_fault.SourceFault.TheVariants as fault;

    ghost from_gives = { λ _ f. f ≡ fault.Memory };

    fn from(_error: AllocError) -> SourceFault<'a> {
        SourceFault::Memory
    }
}

impl<'a, T: Drop> From<AllocFailed<T>> for SourceFault<'a> {
    ghost use Rattle.std.specs.Prelude.{◌≡◌};
    ghost use Rattle.query_rules.specs.declared.scope_fault.SourceFault.TheVariants as fault;

    ghost from_gives = { λ _ f. f ≡ fault.Memory };

    fn from(_error: AllocFailed<T>) -> SourceFault<'a> {
        SourceFault::Memory
    }
}
