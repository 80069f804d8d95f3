//! Notes on what the plans of a query rest on.

ghost use Rattle.std.specs.Prelude.{◌<◌, length};

use crate::refused_loads::RefusedLoads;
use crate::silent::{
    conjuncts, gives_outer_column, has_never_met, never_met, outer_column, write_never_met,
};
use catalog::{Database, Table};
use diagnostics::{PlanNote, PlanNoteKind, Planned, TableSet};
use messages_excerpts::{LineColumn, Lines};
use messages_files::write_key;
use messages_queries::{block_of_number, name_in_sight};
use query_tree::Block;
use std::alloc::Global;
use std::fmt::{self, Display, Formatter};
use syntax::{Block as WrittenBlock, ColumnReference};

/// The notes on the plans of a query, a line each: `script.sql:3:20: note: block 1: ..`.
#[derive(Drop)]
pub struct PlanReport<'r> {
    pub(crate) alloc: Global,
    pub(crate) script_name: &'r str,
    pub(crate) lines: &'r Lines<'r>,
    pub(crate) planned: Planned<'r>,
    pub(crate) database: &'r Database,
    pub(crate) refused_loads: &'r RefusedLoads,
}

impl PlanReport<'_> {
    /// Whether there is nothing to tell.
    pub fn is_empty(&self) -> bool {
        self.planned.notes.is_empty() && !self.has_refused_load() && !self.has_silent_block()
    }

    /// Whether a block has a condition that no row meets, or gives a column of a block around.
    fn has_silent_block(&self) -> bool {
        for (number, block) in self.planned.blocks.iter().enumerate() {
            if has_never_met(block) || self.outer_column(number, block).is_some() {
                return true;
            }
        }
        false
    }

    /// The result column of a block that is a column of a block around, where it is written without the name of a table.
    fn outer_column(&self, number: usize, block: &Block) -> Option<&ColumnReference> {
        if !gives_outer_column(block) {
            return None;
        }
        match block_of_number(self.alloc, self.planned.query, number) {
            Ok(Some(written)) => outer_column(block, written),
            _ => None,
        }
    }

    /// Whether the last LOAD of a table was refused.
    fn has_refused_load(&self) -> bool {
        for block in self.planned.blocks {
            for table in &block.tables {
                if self.refused_loads.place(*table).is_some() {
                    return true;
                }
            }
        }
        false
    }

    /// What there is to know of a block, as the script writes it.
    fn write_block<W: fmt::Write>(
        &self,
        f: &mut Formatter<W>,
        number: usize,
        block: &Block,
        written: &WrittenBlock,
    ) -> fmt::Result {
        let start = match written.sources.tables.first() {
            Some(source) => source.table.start,
            None => written.start,
        };
        let place = self.lines.locate(start);
        self.write_refused_loads(f, place, number, block)?;
        self.write_never_met(f, place, number, block)?;
        self.write_outer_column(f, number, block, written)?;
        let noted = NotedBlock {
            database: self.database,
            block,
            written,
        };
        for note in self.planned.notes {
            if note.block == number {
                self.write_place(f, place)?;
                write!(f, "block {}: ", number.saturating_add(1))?;
                noted.write_note(f, note)?;
                f.write_str("\n")?;
            }
        }
        Ok(())
    }

    /// `script.sql:3:20: note: block 1: no row meets ..`, a line for each conjunct that none meets.
    fn write_never_met<W: fmt::Write>(
        &self,
        f: &mut Formatter<W>,
        place: LineColumn,
        number: usize,
        block: &Block,
    ) -> fmt::Result {
        for condition in conjuncts(block) {
            if let Some(never) = never_met(condition) {
                self.write_place(f, place)?;
                write!(f, "block {}: ", number.saturating_add(1))?;
                write_never_met(f, self.database, block, never)?;
            }
        }
        Ok(())
    }

    /// `script.sql:3:40: note: NUMBER is a column of the query around: no table of this FROM has it`.
    fn write_outer_column<W: fmt::Write>(
        &self,
        f: &mut Formatter<W>,
        number: usize,
        block: &Block,
        written: &WrittenBlock,
    ) -> fmt::Result {
        match outer_column(block, written) {
            Some(reference) if number > 0 => {
                let name = &reference.name;
                self.write_place(f, self.lines.locate(name.start))?;
                writeln!(
                    f,
                    "{} is a column of a query around: no table of this FROM has it",
                    name.text
                )
            }
            _ => Ok(()),
        }
    }

    /// `script.sql:3:20: note: `.
    fn write_place<W: fmt::Write>(&self, f: &mut Formatter<W>, place: LineColumn) -> fmt::Result {
        let LineColumn { line, column } = place;
        write!(f, "{}:{line}:{column}: note: ", self.script_name)
    }

    /// What the tables of a block lack, where their last LOAD was refused: a line for each that stands in no block before.
    fn write_refused_loads<W: fmt::Write>(
        &self,
        f: &mut Formatter<W>,
        place: LineColumn,
        number: usize,
        block: &Block,
    ) -> fmt::Result {
        let before = self.planned.blocks.get(..number).unwrap_or(&[]);
        let mut seen: &[usize] = &[];
        for (count, table) in block.tables.iter().enumerate() {
            let is_told = seen.contains(table) || has_table(before, *table);
            seen = block.tables.get(..=count).unwrap_or(&[]);
            if !is_told {
                self.write_refused_load(f, place, *table)?;
            }
        }
        Ok(())
    }

    /// `script.sql:3:20: note: PUPILS is empty: its LOAD at 2:18 was refused`, where it was; or of a table that has rows of one before, that it
    /// lacks those of that LOAD.
    fn write_refused_load<W: fmt::Write>(
        &self,
        f: &mut Formatter<W>,
        place: LineColumn,
        table: usize,
    ) -> fmt::Result {
        let (Some(stored), Some(refused)) = (
            self.database.tables().get(table),
            self.refused_loads.place(table),
        ) else {
            return Ok(());
        };
        let LineColumn { line, column } = refused;
        let (name, rows) = (stored.name(), stored.len());
        self.write_place(f, place)?;
        if rows == 0 {
            writeln!(
                f,
                "{name} is empty: its LOAD at {line}:{column} was refused"
            )
        } else {
            writeln!(
                f,
                "{name} has {rows} rows, and none of its LOAD at {line}:{column}, which was refused"
            )
        }
    }
}

/// Whether a table stands in one of some blocks.
fn has_table(blocks: &[Block], table: usize) -> bool {
    for block in blocks {
        if block.tables.contains(&table) {
            return true;
        }
    }
    false
}

impl Display for PlanReport<'_> {
    fn fmt<W: fmt::Write>(&self, f: &mut Formatter<W>) -> fmt::Result {
        if self.is_empty() {
            return Ok(());
        }
        for (number, block) in self.planned.blocks.iter().enumerate() {
            if let Ok(Some(written)) = block_of_number(self.alloc, self.planned.query, number) {
                self.write_block(f, number, block, written)?;
            }
        }
        Ok(())
    }
}

/// A block with notes: as it is bound, and as the script writes it.
#[derive(Clone, Copy)]
struct NotedBlock<'r> {
    database: &'r Database,
    block: &'r Block,
    written: &'r WrittenBlock,
}

impl<'r> NotedBlock<'r> {
    fn write_note<W: fmt::Write>(&self, f: &mut Formatter<W>, note: &PlanNote) -> fmt::Result {
        match &note.kind {
            PlanNoteKind::CostLimit => f.write_str(COST_LIMIT),
            PlanNoteKind::Unlinked { sets, combinations } => {
                self.write_unlinked(f, sets, *combinations)
            }
            PlanNoteKind::ManyKeys { table, index } => match self.table(*table) {
                Some(table) if *index < table.index_count() => write_many_keys(f, table, *index),
                _ => Ok(()),
            },
            PlanNoteKind::EmptyIndex { table, index } => match self.table(*table) {
                Some(table) if *index < table.index_count() => write_empty_index(f, table, *index),
                _ => Ok(()),
            },
            PlanNoteKind::EmptyTable { table } => match self.table(*table) {
                Some(table) => write_empty_table(f, table),
                None => Ok(()),
            },
        }
    }

    /// A table, by its number in FROM.
    fn table(&self, number: usize) -> Option<&'r Table> {
        let place = self.block.tables.get(number)?;
        self.database.tables().get(*place)
    }

    /// `no condition links PUPILS, CLUBS with TOWNS: 12000 combinations are estimated`.
    fn write_unlinked<W: fmt::Write>(
        &self,
        f: &mut Formatter<W>,
        sets: &[TableSet],
        combinations: u64,
    ) -> fmt::Result {
        f.write_str("no condition links ")?;
        let mut separator = "";
        for set in sets {
            f.write_str(separator)?;
            self.write_tables(f, *set)?;
            separator = " with ";
        }
        write!(f, ": {combinations} combinations are estimated")
    }

    /// A set of tables, as FROM calls them.
    fn write_tables<W: fmt::Write>(&self, f: &mut Formatter<W>, set: TableSet) -> fmt::Result {
        let mut separator = "";
        for (number, source) in self.written.sources.tables.iter().enumerate() {
            if set.has(number) {
                write!(f, "{separator}{}", name_in_sight(source))?;
                separator = ", ";
            }
        }
        Ok(())
    }
}

const COST_LIMIT: &str =
    "the target is 10^18, where sums stop: all plans cost as much, and nothing is shown of which is better";

/// `by the statistics the index on PUPILS (CLUB) has 500 keys, and PUPILS 10 rows`.
fn write_many_keys<W: fmt::Write>(f: &mut Formatter<W>, table: &Table, index: usize) -> fmt::Result
    requires { index < length table.now.indexes }
{
    let (keys, rows) = (
        table.index(index).statistics().keys,
        table.statistics().rows,
    );
    f.write_str("by the statistics the index on ")?;
    write_index(f, table, index)?;
    write!(f, " has {keys} keys, and {} {rows} rows", table.name())
}

/// `the index on PUPILS (CLUB) has the statistics of an empty table, and PUPILS those of 1000 rows: ..`.
fn write_empty_index<W: fmt::Write>(
    f: &mut Formatter<W>,
    table: &Table,
    index: usize,
) -> fmt::Result
    requires { index < length table.now.indexes }
{
    let (name, rows) = (table.name(), table.statistics().rows);
    f.write_str("the index on ")?;
    write_index(f, table, index)?;
    write!(
        f,
        " has the statistics of an empty table, and {name} those of {rows} rows: SET STATISTICS "
    )?;
    write_index(f, table, index)?;
    f.write_str(" KEYS .. PAGES .. sets them")
}

/// `by its statistics PUPILS is empty, and it has 4 rows`.
fn write_empty_table<W: fmt::Write>(f: &mut Formatter<W>, table: &Table) -> fmt::Result {
    let (name, rows) = (table.name(), table.len());
    write!(
        f,
        "by its statistics {name} is empty, and it has {rows} rows"
    )
}

/// `PUPILS (CLUB, NAME)`.
fn write_index<W: fmt::Write>(f: &mut Formatter<W>, table: &Table, index: usize) -> fmt::Result
    requires { index < length table.now.indexes }
{
    write!(f, "{} ", table.name())?;
    write_key(f, table, table.index(index))
}
