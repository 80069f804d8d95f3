//! How rows of a table are tested by a condition.

ghost use Rattle.std.specs.Prelude.{◌≡◌, map, IfOk};
ghost use Rattle.std.specs.List.{AllByRecursion};
ghost use Rattle.query_tree.specs.Bound.{condition_of};
ghost use Rattle.predicates.specs.Naming.{NamesFew};
ghost use Rattle.filters.specs.Compiled.{condition_of_test, IsTest};

use crate::compiled_part::{CompiledPart, part_of};
use query_tree::Condition;
use std::alloc::{AllocError, Global};

/// A test of rows of a table: that of a part that is neither AND nor OR, or of what AND and OR make of several (ISO/IEC 9075:1992, 8.12).
#[derive(Drop)]
pub enum RowTest<'s> {
    Part(CompiledPart<'s>),
    All(Vec<RowTest<'s>>),
    Any(Vec<RowTest<'s>>),
}

/// A condition as such a test.
#[cycle(row_tests)]
pub(crate) fn test_of<'s>(
    alloc: Global,
    condition: &'s Condition,
    table: usize,
) -> Result<RowTest<'s>, AllocError>
    requires few { NamesFew (condition_of condition.now) }
    ensures same { IfOk result (λ test. condition_of_test test ≡ condition_of condition.now) }
    ensures tested { IfOk result (IsTest table) }
{
    match condition {
        Condition::And(parts) => Ok(RowTest::All(tests_of(alloc, parts, table)?)),
        Condition::Or(parts) => Ok(RowTest::Any(tests_of(alloc, parts, table)?)),
        _ => Ok(RowTest::Part(part_of(alloc, condition, table)?)),
    }
}

/// Conditions as such tests.
#[cycle(row_tests)]
fn tests_of<'s>(
    alloc: Global,
    conditions: &'s [Condition],
    table: usize,
) -> Result<Vec<RowTest<'s>>, AllocError>
    requires few { AllByRecursion NamesFew (map condition_of conditions.now) }
    ensures same { IfOk result (λ tests. map condition_of_test tests.items ≡ map condition_of conditions.now) }
    ensures tested { IfOk result (λ tests. AllByRecursion (IsTest table) tests.items) }
{
    let mut tests = Vec::new(alloc);
    'conditions: for condition in conditions {
        tests.push(test_of(alloc, condition, table)?)?;
    }
    Ok(tests)
}
