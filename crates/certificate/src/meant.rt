//! What plans mean. In a text tables, indexes, columns and conjuncts count from 1, orders from 0.

ghost use Rattle.std.specs.Prelude.{◌≡◌, ◌<◌, ◌-◌, IfOk, MatchOption, length, map};
ghost use Rattle.definitions.specs.Limits.{most_index_columns};
ghost use Rattle.definitions.specs.Plans.Plan.{Access, Merge};
ghost use Rattle.definitions.specs.Certificates.CertifiedBlock.{indexes_of};
ghost use Rattle.definitions.specs.Certificates.Spelling as spec;
ghost use Rattle.certificate_syntax.specs.Said.{path_said, plan_said};
ghost use Rattle.plan_tree.specs.Plans.{inner_of, plan_of};
ghost use Rattle.plan_tree.specs.Versions.{version_of};
ghost use Rattle.certificate.specs.Blocks.{block_in};
ghost use Rattle.certificate.specs.Reads.{PathIsMeant, InnerIsMeant, PlanIsMeant};

use crate::certified::{CertifiedBlock, from_zero};
use crate::one_column::place_on_column;
use arrayvec::ArrayVec;
use certificate_syntax::{WrittenPath, WrittenPlan};
use plan_space::Version;
use plan_tree::{Inner, MAX_MATCHED, Path, Plan};
use std::alloc::{AllocError, Global};

/// What a plan means; none where it matches an index by more conjuncts than an index has columns.
pub(crate) fn plan_meant(
    alloc: Global,
    block: &CertifiedBlock<'_>,
    plan: &WrittenPlan,
) -> Result<Option<Plan>, AllocError>
    ensures { IfOk result (PlanIsMeant (spec.plan_meant (block_in block.now) (plan_said plan.now))) }
{
    match plan {
        WrittenPlan::Access(path) => Ok(access_meant(block, path)),
        WrittenPlan::Loop { outer, path } => {
            let Some(outer) = plan_meant(alloc, block, outer)? else {
                return Ok(None);
            };
            let Some(path) = path_meant(block, path) else {
                return Ok(None);
            };
            let outer = Box::new(alloc, outer)?;
            Ok(Some(Plan::Loop { outer, path }))
        }
        WrittenPlan::Merge {
            outer,
            conjunct,
            sorted,
            path,
        } => {
            let Some(outer) = plan_meant(alloc, block, outer)? else {
                return Ok(None);
            };
            let Some(inner) = inner_meant(block, path, *sorted) else {
                return Ok(None);
            };
            Ok(Some(merge_plan(alloc, outer, from_zero(*conjunct), inner)?))
        }
        WrittenPlan::Sort { input, order } => {
            let Some(input) = plan_meant(alloc, block, input)? else {
                return Ok(None);
            };
            let input = Box::new(alloc, input)?;
            let order = *order as usize;
            Ok(Some(Plan::Sort { input, order }))
        }
    }
}

/// A plan, merged with an inner side.
fn merge_plan(alloc: Global, outer: Plan, conjunct: usize, inner: Inner) -> Result<Plan, AllocError>
    ensures { IfOk result (λ plan. plan_of plan ≡ Merge (plan_of outer) conjunct (inner_of inner)) }
{
    let outer = Box::new(alloc, outer)?;
    Ok(Plan::Merge {
        outer,
        conjunct,
        inner,
    })
}

fn access_meant(block: &CertifiedBlock<'_>, path: &WrittenPath) -> Option<Plan>
    ensures { PlanIsMeant (Access (spec.path_meant (block_in block.now) (path_said path.now))) result }
{
    Some(Plan::Access(path_meant(block, path)?))
}

fn inner_meant(block: &CertifiedBlock<'_>, path: &WrittenPath, sorted: bool) -> Option<Inner>
    ensures { InnerIsMeant (spec.path_meant (block_in block.now) (path_said path.now)) sorted result }
{
    let path = path_meant(block, path)?;
    Some(Inner { path, sorted })
}

fn path_meant(block: &CertifiedBlock<'_>, path: &WrittenPath) -> Option<Path>
    ensures { PathIsMeant (spec.path_meant (block_in block.now) (path_said path.now)) result }
{
    match path {
        WrittenPath::Segment { table } => Some(Path::Segment {
            table: from_zero(*table),
        }),
        WrittenPath::Index {
            table,
            index,
            backward,
        } => Some(Path::Index {
            table: from_zero(*table),
            index: index_meant(block, *table, *index),
            backward: *backward,
        }),
        WrittenPath::Match {
            table,
            index,
            conjuncts,
            backward,
        } => Some(Path::Match {
            table: from_zero(*table),
            index: index_meant(block, *table, *index),
            conjuncts: conjuncts_meant(conjuncts.as_slice())?,
            backward: *backward,
        }),
    }
}

fn index_meant(block: &CertifiedBlock<'_>, table: u64, index: u64) -> usize
    ensures { result ≡ spec.index_meant (version_of block.now.version) (indexes_of (block_in block.now) (table - 1))
        index }
{
    match block.version {
        Version::One => {
            place_on_column(block.indexes_of(from_zero(table)), from_zero(index)).unwrap_or(0)
        }
        Version::Two | Version::Three => from_zero(index),
    }
}

/// The numbers of conjuncts; none where they are more than may match an index.
fn conjuncts_meant(conjuncts: &[u64]) -> Option<ArrayVec<usize, MAX_MATCHED>>
    ensures { MatchOption result (most_index_columns < length conjuncts.now) (λ numbers. numbers.items
        ≡ map (λ number. number - 1) conjuncts.now) }
{
    if conjuncts.len() > MAX_MATCHED {
        return None;
    }
    let mut numbers = ArrayVec::new();
    'conjuncts: for conjunct in conjuncts {
        numbers.push(from_zero(*conjunct));
    }
    Some(numbers)
}
