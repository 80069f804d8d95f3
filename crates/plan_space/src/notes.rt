//! What a reader should know of the figures that the plans of a block rest on.

ghost use Rattle.std.specs.Prelude.{◌<◌, length};
ghost use Rattle.query_tree.specs.Bound.{block_of};

use catalog::Table;
use estimate::{Estimate, PlanConjunct};
use plan_tree::{Cost, LIMIT, TableSet};
use std::alloc::{AllocError, Global};

/// Something to know of the figures that the plans of a block rest on (own). Blocks, the tables of a FROM and the indexes of a table
/// are told by their numbers, from 0.
#[derive(Drop)]
pub struct PlanNote {
    pub block: usize,
    pub kind: PlanNoteKind,
}

/// What there is to know.
#[derive(Drop)]
pub enum PlanNoteKind {
    /// A least plan costs 10^18, where sums stop: all plans cost as much.
    CostLimit,
    /// By its statistics an index has more keys than its table has rows.
    ManyKeys {
        table: usize,
        index: usize,
    },
    /// By the statistics a table has rows, and its index no key: those of the index are the empty table's.
    EmptyIndex {
        table: usize,
        index: usize,
    },
    /// By its statistics a table is empty, and it has rows.
    EmptyTable {
        table: usize,
    },
    /// No condition links these sets of tables with one another, so that their rows are combined each with each: so many
    /// combinations are estimated.
    Unlinked {
        sets: Vec<TableSet>,
        combinations: u64,
    },
}

/// Adds what there is to know of a block whose least plan costs so much.
pub(crate) fn add_notes(
    alloc: Global,
    notes: &mut Vec<PlanNote>,
    block: usize,
    estimate: &Estimate,
    least: Cost,
) -> Result<(), AllocError> {
    if least.number >= LIMIT {
        let kind = PlanNoteKind::CostLimit;
        notes.push(PlanNote { block, kind })?;
    }
    for table in 0..estimate.table_count() {
        if !stands_before(estimate, table) {
            add_table_notes(notes, block, table, estimate.table(table))?;
        }
    }
    let sets = linked_sets(alloc, estimate)?;
    if sets
        .iter()
        .filter(|set| estimate.cardinality(**set) > 1)
        .count()
        > 1
    {
        let combinations = estimate.cardinality(TableSet::first(estimate.table_count()));
        let kind = PlanNoteKind::Unlinked { sets, combinations };
        notes.push(PlanNote { block, kind })?;
    }
    Ok(())
}

/// Whether a table of FROM stands in it before, too.
fn stands_before(estimate: &Estimate, number: usize) -> bool
    requires { number < length (block_of estimate.now.block).tables }
{
    let name = estimate.table(number).name();
    (0..number).any(|before| estimate.table(before).name() == name)
}

/// Adds what there is to know of the statistics of a table and of its indexes.
fn add_table_notes(
    notes: &mut Vec<PlanNote>,
    block: usize,
    table: usize,
    stored: &Table,
) -> Result<(), AllocError> {
    let rows = stored.statistics().rows;
    if rows == 0 && stored.len() > 0 {
        let kind = PlanNoteKind::EmptyTable { table };
        notes.push(PlanNote { block, kind })?;
    }
    for index in 0..stored.index_count() {
        let keys = stored.index(index).statistics().keys;
        if keys > rows {
            let kind = PlanNoteKind::ManyKeys { table, index };
            notes.push(PlanNote { block, kind })?;
        } else if keys == 0 && rows > 0 && stored.len() == 0 {
            let kind = PlanNoteKind::EmptyIndex { table, index };
            notes.push(PlanNote { block, kind })?;
        }
    }
    Ok(())
}

/// The sets of tables that conditions link, in the order of their first tables.
fn linked_sets(alloc: Global, estimate: &Estimate) -> Result<Vec<TableSet>, AllocError> {
    let mut sets = Vec::new(alloc);
    let mut seen = TableSet::none();
    for table in 0..estimate.table_count() {
        if !seen.has(table) {
            let set = linked_with(estimate, TableSet::only(table));
            seen = seen.union(set);
            sets.push(set)?;
        }
    }
    Ok(sets)
}

/// A set of tables with those that conditions link with it, over one another or at once.
fn linked_with(estimate: &Estimate, set: TableSet) -> TableSet {
    let mut linked = set;
    // each turn adds a table, or the turns behind it add none
    for _ in 0..estimate.table_count() {
        linked = with_neighbours(estimate.conjuncts(), linked);
    }
    linked
}

/// A set of tables with those that a condition names beside one of them.
fn with_neighbours(conjuncts: &[PlanConjunct], set: TableSet) -> TableSet {
    let mut linked = set;
    for conjunct in conjuncts {
        let tables = conjunct.conjunct.tables;
        if tables.meets(linked) {
            linked = linked.union(tables);
        }
    }
    linked
}
