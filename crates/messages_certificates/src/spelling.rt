//! Paths as certificates spell them, and states as messages name them.

use certificate::{BlockSpace, Version};
use plan_tree::{MAX_FROM_TABLES, Path, TableSet};
use std::fmt::{self, Display, Formatter};

/// A path, and the number that stands for its index in texts.
#[derive(Drop)]
pub struct SpelledPath {
    path: Path,
    index: usize,
}

/// A path of a block as its texts spell it; none where memory runs out.
pub fn spell_path(own: &BlockSpace<'_>, path: &Path) -> Option<SpelledPath> {
    let index = index_written(own, path);
    match path.clone() {
        Ok(path) => Some(SpelledPath { path, index }),
        Err(_) => None,
    }
}

/// The number that stands for the index of a path, if it goes by one.
fn index_written(own: &BlockSpace<'_>, path: &Path) -> usize {
    match path {
        Path::Segment { .. } => 0,
        Path::Index { table, index, .. } | Path::Match { table, index, .. } => match own.version {
            Version::One => column_written(own, *table, *index),
            Version::Two | Version::Three => from_one(*index),
        },
    }
}

/// The number of the first column of an index.
fn column_written(own: &BlockSpace<'_>, table: usize, index: usize) -> usize {
    let Some(indexes) = own.indexes.get(table) else {
        return 1;
    };
    let Some(columns) = indexes.get(index) else {
        return 1;
    };
    match columns.first() {
        Some(column) => from_one(*column),
        None => 1,
    }
}

/// A number that counts from 0, counted from 1.
pub(crate) fn from_one(number: usize) -> usize {
    number.saturating_add(1)
}

impl Display for SpelledPath {
    fn fmt<W: fmt::Write>(&self, f: &mut Formatter<W>) -> fmt::Result {
        match &self.path {
            Path::Segment { table } => write!(f, "SEG {}", from_one(*table)),
            Path::Index {
                table,
                backward,
                ..
            } => self.write_by_index(f, "IDX", *table, &[], *backward),
            Path::Match {
                table,
                conjuncts,
                backward,
                ..
            } => self.write_by_index(f, "MATCH", *table, conjuncts.as_slice(), *backward),
        }
    }
}

impl SpelledPath {
    /// `MATCH 2.1/3 BACK`.
    fn write_by_index<W: fmt::Write>(
        &self,
        f: &mut Formatter<W>,
        word: &str,
        table: usize,
        conjuncts: &[usize],
        backward: bool,
    ) -> fmt::Result {
        write!(f, "{word} {}.{}", from_one(table), self.index)?;
        write_conjuncts(f, conjuncts)?;
        f.write_str(if backward { " BACK" } else { "" })
    }
}

fn write_conjuncts<W: fmt::Write>(f: &mut Formatter<W>, conjuncts: &[usize]) -> fmt::Result {
    for conjunct in conjuncts {
        write!(f, "/{}", from_one(*conjunct))?;
    }
    Ok(())
}

/// A state without its cost, by the numbers of its line STATE.
#[derive(Clone, Copy)]
pub struct StateName {
    pub tables: u64,
    pub order: u64,
}

/// The name of the state of a set of tables and an order.
pub fn state_name(tables: TableSet, order: usize) -> StateName {
    StateName {
        tables: tables.place() as u64,
        order: order as u64,
    }
}

impl Display for StateName {
    fn fmt<W: fmt::Write>(&self, f: &mut Formatter<W>) -> fmt::Result {
        write!(f, "{} in order {}", TableNames(self.tables), self.order)
    }
}

/// The tables of a set, by the number that stands for it: `tables 1, 2 and 4`.
#[derive(Clone, Copy)]
pub(crate) struct TableNames(pub u64);

impl Display for TableNames {
    fn fmt<W: fmt::Write>(&self, f: &mut Formatter<W>) -> fmt::Result {
        f.write_str(if self.is_one() { "table" } else { "tables" })?;
        let mut is_first = true;
        for table in 0..MAX_FROM_TABLES {
            let from_here = self.0 >> table;
            if from_here & 1 == 1 {
                let before = separator(is_first, from_here == 1);
                write!(f, "{before}{}", from_one(table))?;
                is_first = false;
            }
        }
        Ok(())
    }
}

impl TableNames {
    /// Whether there is one table in the set.
    fn is_one(self) -> bool {
        self.0 & self.0.saturating_sub(1) == 0
    }
}

/// What stands before a table in the list.
fn separator(is_first: bool, is_last: bool) -> &'static str {
    if is_first {
        " "
    } else if is_last {
        " and "
    } else {
        ", "
    }
}
