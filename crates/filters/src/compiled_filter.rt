//! Conjuncts as rows of a table are tested by them, taken apart once when a plan is opened.

ghost use Rattle.std.specs.Prelude.{ℕ, ◌≡◌, IfOk, IfSome};
ghost use Rattle.predicates.specs.Parts.{condition_in};
ghost use Rattle.filters.specs.Comparisons.{is_kind, AreComparisonsOf};
ghost use Rattle.filters.specs.Compiled.{condition_of_filter, IsCompiled};

use crate::comparison::{Comparisons, is_compared};
use crate::compiled_part::{Scan, part_by_terms};
use crate::row_test::{RowTest, test_of};
use predicates::Conjunct;
use query_tree::Condition;
use std::alloc::{AllocError, Global};

/// A conjunct, and how rows of a table are tested by it.
#[derive(Drop)]
pub struct CompiledFilter<'s> {
    pub conjunct: &'s Conjunct<'s>,
    pub(crate) test: RowTest<'s>,
}

/// A conjunct as rows of a table are tested by it.
pub(crate) fn compiled<'s>(
    alloc: Global,
    conjunct: &'s Conjunct<'s>,
    table: usize,
) -> Result<CompiledFilter<'s>, AllocError>
    ensures condition { IfOk result (λ filter. condition_of_filter filter ≡ condition_in conjunct.now) }
    ensures compiled { IfOk result (IsCompiled table) }
{
    let test = match conjunct.condition {
        Condition::And(_) | Condition::Or(_) => test_of(alloc, conjunct.condition, table)?,
        _ => {
            let part = part_by_terms(alloc, conjunct.condition, conjunct.terms, table)?;
            RowTest::Part(part)
        }
    };
    Ok(CompiledFilter { conjunct, test })
}

/// Whether a conjunct is comparisons of columns of a table with values that are known before, or whether it is another.
pub(crate) fn is_of_kind(conjunct: &Conjunct<'_>, table: usize, compared: bool) -> bool
    ensures { result ≡ is_kind table compared (condition_in conjunct.now) }
{
    is_compared(conjunct.terms, table) == compared
}

impl<'s> CompiledFilter<'s> {
    /// The comparisons that a conjunct is, if it is so much.
    pub(crate) fn comparisons(&self) -> Option<Comparisons<'s>>
        ensures { (table : ℕ) → IsCompiled table self.now →
            IfSome result (AreComparisonsOf table (condition_of_filter self.now)) }
    {
        let RowTest::Part(part) = &self.test else {
            return None;
        };
        match &part.scan {
            Scan::Compared(comparisons) => Some(*comparisons),
            _ => None,
        }
    }
}
