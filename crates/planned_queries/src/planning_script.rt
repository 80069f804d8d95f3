//! The tables, indexes and statistics that a query is planned over.

use catalog::{Database, Index, IndexStatistics, Table, TableStatistics};
use parse_tree::Constraint;
use query_tree::Block;
use sqlvalue::SqlType;
use std::alloc::{AllocError, Global};

/// The tables that a query reads, without their rows, and the query itself (own). Written out it is a script.
#[derive(Drop)]
pub struct PlanningScript {
    /// In the order in which they were made.
    pub tables: Vec<PlannedTable>,
    /// The query, from its SELECT on, without a semicolon.
    pub query: String,
}

/// A table as plans see it.
#[derive(Drop)]
pub struct PlannedTable {
    pub name: String,
    pub columns: Vec<PlannedColumn>,
    /// In the order of their numbers: those of keys, then those of CREATE INDEX.
    pub indexes: Vec<PlannedIndex>,
    pub statistics: TableStatistics,
    /// How many rows the table has, whatever its statistics say.
    pub loaded: usize,
}

/// A column of a table.
#[derive(Drop)]
pub struct PlannedColumn {
    pub name: String,
    pub sql_type: SqlType,
    pub is_nullable: bool,
}

/// An index of a table, by the numbers of its columns, from 0.
#[derive(Drop)]
pub struct PlannedIndex {
    pub columns: Vec<usize>,
    pub is_unique: bool,
    pub statistics: IndexStatistics,
    /// Whether the written script goes without it.
    pub is_left_out: bool,
}

impl PlanningScript {
    /// What a query is planned over, whose bound blocks and text are given: the tables that its blocks name. It fails where memory runs
    /// out.
    pub fn new(
        alloc: Global,
        query: &str,
        blocks: &[Block],
        database: &Database,
    ) -> Result<PlanningScript, AllocError> {
        let mut tables = Vec::new(alloc);
        for (number, table) in database.tables().iter().enumerate() {
            if is_read(blocks, number) {
                tables.push(PlannedTable::new(alloc, table)?)?;
            }
        }
        Ok(PlanningScript {
            tables,
            query: String::from_str(alloc, query)?,
        })
    }

    /// A table, by its name in upper case.
    pub fn table(&self, name: &str) -> Option<&PlannedTable> {
        for table in &self.tables {
            if table.name.as_str() == name {
                return Some(table);
            }
        }
        None
    }

    /// Leaves out the indexes that another script over the same tables doesn't have.
    pub fn leave_out_others(&mut self, other: &PlanningScript) {
        for table in &mut self.tables {
            if let Some(known) = other.table(table.name.as_str()) {
                table.leave_out_others(known);
            }
        }
    }

    /// The script, a statement a line. It fails where memory runs out.
    pub fn text(&self, alloc: Global) -> Result<String, AllocError> {
        format!(in alloc; "{self}")
    }
}

/// Whether one of some blocks reads a table, by its number in the database.
fn is_read(blocks: &[Block], number: usize) -> bool {
    for block in blocks {
        if block.tables.contains(&number) {
            return true;
        }
    }
    false
}

impl PlannedTable {
    fn new(alloc: Global, table: &Table) -> Result<PlannedTable, AllocError> {
        let mut columns = Vec::new(alloc);
        for number in 0..table.width() {
            columns.push(PlannedColumn {
                name: String::from_str(alloc, table.column_name(number))?,
                sql_type: table.sql_type(number),
                is_nullable: matches!(table.constraint(number), Constraint::Nullable),
            })?;
        }
        let mut indexes = Vec::new(alloc);
        for number in 0..table.index_count() {
            indexes.push(PlannedIndex::new(alloc, table.index(number))?)?;
        }
        Ok(PlannedTable {
            name: String::from_str(alloc, table.name())?,
            columns,
            indexes,
            statistics: table.statistics(),
            loaded: table.len(),
        })
    }

    /// Whether the statistics are those that LOAD counted, or as good as those: its rows are as many.
    pub fn is_counted(&self) -> bool {
        self.statistics.rows == self.loaded as u64
    }

    fn leave_out_others(&mut self, known: &PlannedTable) {
        for index in &mut self.indexes {
            index.is_left_out = known.index_on(&index.columns).is_none();
        }
    }

    /// The number of the index on a list of columns, if there is one.
    pub fn index_on(&self, columns: &[usize]) -> Option<usize> {
        for (number, index) in self.indexes.iter().enumerate() {
            if index.columns.as_slice() == columns {
                return Some(number);
            }
        }
        None
    }

    /// The number of a column, by its name in upper case.
    pub fn column(&self, name: &str) -> Option<usize> {
        for (number, column) in self.columns.iter().enumerate() {
            if column.name.as_str() == name {
                return Some(number);
            }
        }
        None
    }
}

impl PlannedIndex {
    fn new(alloc: Global, index: &Index) -> Result<PlannedIndex, AllocError> {
        Ok(PlannedIndex {
            columns: Vec::from_slice(alloc, index.columns())?,
            is_unique: index.is_unique(),
            statistics: index.statistics(),
            is_left_out: false,
        })
    }
}
