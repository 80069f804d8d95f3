//! Whether the numbers of a plan are there. In a text tables, indexes, columns and conjuncts count from 1, orders from 0.

ghost use Rattle.std.specs.Prelude.{◌-◌, OnOk, OnErr, All};
ghost use Rattle.std.specs.Bool.{Decides};
ghost use Rattle.definitions.specs.Certificates.CertifiedBlock.{indexes_of};
ghost use Rattle.definitions.specs.Certificates.Spelling.{IsOneOf, IndexIsThere, TableIsThere, ConjunctIsThere, OrderIsThere, PathIsThere, PlanIsThere};
ghost use Rattle.certificate_syntax.specs.Said.{path_said, plan_said};
ghost use Rattle.plan_tree.specs.Versions.{version_of};
ghost use Rattle.certificate.specs.Blocks.{block_in, columns_of};

use crate::certified::{CertifiedBlock, from_zero};
use crate::fault::Missing;
use crate::one_column::place_on_column;
use certificate_syntax::{WrittenPath, WrittenPlan};
use plan_space::Version;

/// Whether the numbers of a plan are there, or one that isn't.
pub(crate) fn plan_there(block: &CertifiedBlock<'_>, plan: &WrittenPlan) -> Result<(), Missing>
    ensures ok { OnOk result (PlanIsThere (block_in block.now) (plan_said plan.now)) }
    ensures err { OnErr result (PlanIsThere (block_in block.now) (plan_said plan.now) → ⊥) }
{
    match plan {
        WrittenPlan::Access(path) => path_there(block, path),
        WrittenPlan::Loop { outer, path } => {
            plan_there(block, outer)?;
            path_there(block, path)
        }
        WrittenPlan::Merge {
            outer,
            conjunct,
            path,
            ..
        } => {
            plan_there(block, outer)?;
            conjunct_there(block, *conjunct)?;
            path_there(block, path)
        }
        WrittenPlan::Sort { input, order } => {
            plan_there(block, input)?;
            order_there(block, *order)
        }
    }
}

fn path_there(block: &CertifiedBlock<'_>, path: &WrittenPath) -> Result<(), Missing>
    ensures ok { OnOk result (PathIsThere (block_in block.now) (path_said path.now)) }
    ensures err { OnErr result (PathIsThere (block_in block.now) (path_said path.now) → ⊥) }
{
    match path {
        WrittenPath::Segment { table } => table_there(block, *table),
        WrittenPath::Index { table, index, .. } => {
            table_there(block, *table)?;
            index_there(block, *table, *index)
        }
        WrittenPath::Match {
            table,
            index,
            conjuncts,
            ..
        } => {
            table_there(block, *table)?;
            index_there(block, *table, *index)?;
            conjuncts_there(block, conjuncts.as_slice())
        }
    }
}

fn table_there(block: &CertifiedBlock<'_>, table: u64) -> Result<(), Missing>
    ensures ok { OnOk result (TableIsThere (block_in block.now) table) }
    ensures err { OnErr result (TableIsThere (block_in block.now) table → ⊥) }
{
    if is_one_of(block.indexes.len(), table) {
        Ok(())
    } else {
        Err(Missing::Table(table))
    }
}

fn index_there(block: &CertifiedBlock<'_>, table: u64, index: u64) -> Result<(), Missing>
    ensures ok { OnOk result (IndexIsThere (version_of block.now.version) (indexes_of (block_in block.now) (table - 1))
        index) }
    ensures err { OnErr result (IndexIsThere (version_of block.now.version) (indexes_of (block_in block.now) (table - 1))
        index → ⊥) }
{
    let indexes = block.indexes_of(from_zero(table));
    if is_index(block.version, indexes, index) {
        Ok(())
    } else {
        Err(Missing::Index { table, index })
    }
}

/// Whether one of some indexes has a number, or in the first version is on one column alone.
fn is_index(version: Version, indexes: &[Vec<usize>], index: u64) -> bool
    ensures { Decides result (IndexIsThere (version_of version) (columns_of indexes.now) index) }
{
    match version {
        Version::One => 0 < index && place_on_column(indexes, (index - 1) as usize).is_some(),
        Version::Two | Version::Three => is_one_of(indexes.len(), index),
    }
}

fn conjuncts_there(block: &CertifiedBlock<'_>, conjuncts: &[u64]) -> Result<(), Missing>
    ensures ok { OnOk result (All (ConjunctIsThere (block_in block.now)) conjuncts.now) }
    ensures err { OnErr result (All (ConjunctIsThere (block_in block.now)) conjuncts.now → ⊥) }
{
    'conjuncts: for conjunct in conjuncts {
        conjunct_there(block, *conjunct)?;
    }
    Ok(())
}

fn conjunct_there(block: &CertifiedBlock<'_>, conjunct: u64) -> Result<(), Missing>
    ensures ok { OnOk result (ConjunctIsThere (block_in block.now) conjunct) }
    ensures err { OnErr result (ConjunctIsThere (block_in block.now) conjunct → ⊥) }
{
    if is_one_of(block.conjunct_count, conjunct) {
        Ok(())
    } else {
        Err(Missing::Conjunct(conjunct))
    }
}

fn order_there(block: &CertifiedBlock<'_>, order: u64) -> Result<(), Missing>
    ensures ok { OnOk result (OrderIsThere (block_in block.now) order) }
    ensures err { OnErr result (OrderIsThere (block_in block.now) order → ⊥) }
{
    if order < block.orders.len() as u64 {
        Ok(())
    } else {
        Err(Missing::Order(order))
    }
}

/// Whether a number is one of so many, counted from 1.
fn is_one_of(count: usize, number: u64) -> bool
    ensures { Decides result (IsOneOf count number) }
{
    0 < number && number <= count as u64
}
