//! Tables, columns, orders and indexes by name.

use crate::names::BlockNames;
use catalog::Table;
use plan_tree::{SortKey, TableSet};
use std::fmt::{self, Display, Formatter};

/// The tables of a set, by name: `C, O`.
#[derive(Clone, Copy)]
pub struct TablesText<'n, 'a> {
    pub(crate) names: &'n BlockNames<'a>,
    pub(crate) set: TableSet,
}

impl Display for TablesText<'_, '_> {
    fn fmt<W: fmt::Write>(&self, f: &mut Formatter<W>) -> fmt::Result {
        let mut separator = "";
        for table in 0..self.names.table_count() {
            if self.set.has(table) {
                write!(f, "{separator}{}", self.names.table(table))?;
                separator = ", ";
            }
        }
        Ok(())
    }
}

/// A column by name, with that of its table if there is more than one: `C.CNO`.
#[derive(Clone, Copy)]
pub struct ColumnText<'n> {
    pub(crate) qualifier: Option<&'n str>,
    pub(crate) name: &'n str,
}

impl<'n> ColumnText<'n> {
    /// A column that isn't there.
    pub(crate) fn unknown() -> ColumnText<'n> {
        ColumnText {
            qualifier: None,
            name: "?",
        }
    }
}

impl Display for ColumnText<'_> {
    fn fmt<W: fmt::Write>(&self, f: &mut Formatter<W>) -> fmt::Result {
        match self.qualifier {
            Some(table) => write!(f, "{table}.{}", self.name),
            None => f.write_str(self.name),
        }
    }
}

/// An order by the names of its columns: `O.ODATE, C.CNO DESC`; the empty one is `none`.
#[derive(Clone, Copy)]
pub struct OrderText<'n, 'a> {
    pub(crate) names: &'n BlockNames<'a>,
    pub(crate) order: &'n [SortKey],
}

impl Display for OrderText<'_, '_> {
    fn fmt<W: fmt::Write>(&self, f: &mut Formatter<W>) -> fmt::Result {
        if self.order.is_empty() {
            return f.write_str("none");
        }
        let mut separator = "";
        for key in self.order {
            let direction = if key.descending { " DESC" } else { "" };
            let column = self.names.column(key.column);
            write!(f, "{separator}{column}{direction}")?;
            separator = ", ";
        }
        Ok(())
    }
}

/// The columns of an index: `(CNO, CITY)`.
#[derive(Clone, Copy)]
pub struct IndexText<'n> {
    pub(crate) table: Option<&'n Table>,
    pub(crate) index: usize,
}

impl Display for IndexText<'_> {
    fn fmt<W: fmt::Write>(&self, f: &mut Formatter<W>) -> fmt::Result {
        match self.table {
            Some(table) if self.index < table.index_count() => {
                write_columns(f, table, table.index(self.index).columns())
            }
            _ => f.write_str("(?)"),
        }
    }
}

fn write_columns<W: fmt::Write>(
    f: &mut Formatter<W>,
    table: &Table,
    columns: &[usize],
) -> fmt::Result {
    let mut separator = "(";
    for column in columns {
        if *column < table.width() {
            write!(f, "{separator}{}", table.column_name(*column))?;
            separator = ", ";
        }
    }
    f.write_str(")")
}
