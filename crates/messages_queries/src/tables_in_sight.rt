//! The tables that a column may be of: those of its own FROM, and of the FROMs around (ISO/IEC 9075:1992, 6.3).

use crate::blocks_around::blocks_around;
use crate::query_places::start_of_column;
use catalog::{Database, Table};
use messages_syntax::Nearest;
use std::alloc::{AllocError, Global};
use std::fmt::{self, Display, Formatter};
use syntax::{Block, ColumnReference, Select, Source};

/// What the columns of a table of FROM are called by: its correlation name, where it has one.
pub fn name_in_sight(source: &Source) -> &str {
    match &source.correlation {
        Some(name) => name.text.as_str(),
        None => source.table.text.as_str(),
    }
}

/// A table of a FROM.
#[derive(Clone, Copy)]
pub(crate) struct SeenTable<'s> {
    /// The number of its query block, from 0 for the outermost.
    level: usize,
    source: &'s Source,
    table: &'s Table,
}

impl<'s> SeenTable<'s> {
    /// The table's own name.
    pub(crate) fn name(&self) -> &'s str {
        self.source.table.text.as_str()
    }

    /// What its columns are called by: its correlation name, where it has one.
    pub(crate) fn called(&self) -> &'s str {
        name_in_sight(self.source)
    }

    pub(crate) fn has_column(&self, name: &str) -> bool {
        self.table.column(name).is_some()
    }

    /// Offers the names of its columns.
    fn offer_columns(&self, nearest: &mut Nearest<'_, 's>) {
        for column in 0..self.table.width() {
            nearest.offer(self.table.column_name(column));
        }
    }
}

/// `CLUBS`, or `CLUBS (called C)`.
impl Display for SeenTable<'_> {
    fn fmt<W: fmt::Write>(&self, f: &mut Formatter<W>) -> fmt::Result {
        f.write_str(self.name())?;
        match &self.source.correlation {
            Some(name) => write!(f, " (called {})", name.text),
            None => Ok(()),
        }
    }
}

/// Tables in sight, the outermost block's first.
#[derive(Drop)]
pub(crate) struct TablesInSight<'s> {
    alloc: Global,
    tables: Vec<SeenTable<'s>>,
    /// How many query blocks they stand in.
    blocks: usize,
}

impl<'s> TablesInSight<'s> {
    /// The tables in sight of a column of a query. An `Err` is want of memory.
    pub(crate) fn of(
        alloc: Global,
        database: &'s Database,
        query: &'s Select,
        column: &ColumnReference,
    ) -> Result<TablesInSight<'s>, AllocError> {
        let blocks = blocks_around(alloc, query, start_of_column(column))?;
        let mut tables = Vec::new(alloc);
        for (level, block) in blocks.iter().enumerate() {
            push_tables(&mut tables, database, level, block)?;
        }
        Ok(TablesInSight {
            alloc,
            tables,
            blocks: blocks.len(),
        })
    }

    /// The only table in sight.
    pub(crate) fn only(&self) -> Option<SeenTable<'s>> {
        match self.tables.as_slice() {
            [only] => Some(*only),
            _ => None,
        }
    }

    pub(crate) fn is_empty(&self) -> bool {
        self.tables.is_empty()
    }

    /// Whether all stand in one FROM.
    pub(crate) fn is_one_block(&self) -> bool {
        self.blocks <= 1
    }

    /// The table whose columns are called by a name: the innermost.
    pub(crate) fn called(&self, name: &str) -> Option<SeenTable<'s>> {
        for table in self.tables.iter().rev() {
            if table.called() == name {
                return Some(*table);
            }
        }
        None
    }

    /// Those of the table of a name, whatever they are called. An `Err` is want of memory.
    pub(crate) fn of_table(&self, name: &str) -> Result<TablesInSight<'s>, AllocError> {
        let mut found = self.none();
        for table in &self.tables {
            if table.name() == name {
                found.tables.extend_from_slice(&[*table])?;
            }
        }
        Ok(found)
    }

    /// Those of the innermost block that has a column of a name; nothing where there is none, or memory is wanting.
    pub(crate) fn with_column(&self, name: &str) -> Option<TablesInSight<'s>> {
        let mut found = self.none();
        let mut level = 0;
        for table in &self.tables {
            if !table.has_column(name) {
                continue;
            }
            if table.level > level {
                found.tables.clear();
                level = table.level;
            }
            if found.tables.extend_from_slice(&[*table]).is_err() {
                return None;
            }
        }
        if found.is_empty() { None } else { Some(found) }
    }

    /// Whether one of them has a column of a name.
    pub(crate) fn has_column(&self, name: &str) -> bool {
        for table in &self.tables {
            if table.has_column(name) {
                return true;
            }
        }
        false
    }

    fn none(&self) -> TablesInSight<'s> {
        TablesInSight {
            alloc: self.alloc,
            tables: Vec::new(self.alloc),
            blocks: self.blocks,
        }
    }

    /// The column whose name is nearest to one in the tables.
    pub(crate) fn nearest_column(&self, wanted: &str) -> Option<&'s str> {
        let mut nearest = Nearest::new(self.alloc, wanted);
        for table in self.tables.iter().rev() {
            table.offer_columns(&mut nearest);
        }
        nearest.name()
    }

    /// The column whose name is nearest to one in a table.
    pub(crate) fn nearest_column_of(&self, table: SeenTable<'s>, wanted: &str) -> Option<&'s str> {
        let mut nearest = Nearest::new(self.alloc, wanted);
        table.offer_columns(&mut nearest);
        nearest.name()
    }

    /// The table whose columns are called by a name nearest to one.
    pub(crate) fn nearest_called(&self, wanted: &str) -> Option<SeenTable<'s>> {
        let mut nearest = Nearest::new(self.alloc, wanted);
        for table in self.tables.iter().rev() {
            nearest.offer(table.called());
        }
        match nearest.name() {
            Some(name) => self.called(name),
            None => None,
        }
    }

    /// `A, B (called X) and C`.
    pub(crate) fn write_tables<W: fmt::Write>(&self, f: &mut Formatter<W>) -> fmt::Result {
        for (place, table) in self.tables.iter().enumerate() {
            f.write_str(separator(place, self.tables.len(), " and "))?;
            write!(f, "{table}")?;
        }
        Ok(())
    }

    /// `A, X and C`: what columns of these tables are called by.
    pub(crate) fn write_called<W: fmt::Write>(&self, f: &mut Formatter<W>) -> fmt::Result {
        for (place, table) in self.tables.iter().enumerate() {
            f.write_str(separator(place, self.tables.len(), " and "))?;
            f.write_str(table.called())?;
        }
        Ok(())
    }

    /// `A.N, B.N or C.N`: a column, in each way in which it may have been meant.
    pub(crate) fn write_columns<W: fmt::Write>(
        &self,
        f: &mut Formatter<W>,
        column: &str,
    ) -> fmt::Result {
        for (place, table) in self.tables.iter().enumerate() {
            f.write_str(separator(place, self.tables.len(), " or "))?;
            write!(f, "{}.{column}", table.called())?;
        }
        Ok(())
    }
}

/// What stands before an element of a list.
fn separator(place: usize, count: usize, last: &'static str) -> &'static str {
    if place == 0 {
        ""
    } else if place.saturating_add(1) == count {
        last
    } else {
        ", "
    }
}

/// Adds the tables of a block's FROM. One that isn't there is passed over: its name is the fault that is told.
fn push_tables<'s>(
    tables: &mut Vec<SeenTable<'s>>,
    database: &'s Database,
    level: usize,
    block: &'s Block,
) -> Result<(), AllocError> {
    for source in &block.sources.tables {
        if let Some(table) = database.table(source.table.text.as_str()) {
            tables.extend_from_slice(&[SeenTable {
                level,
                source,
                table,
            }])?;
        }
    }
    Ok(())
}
