//! Why an index is not made.

use crate::list::{Listed, name_at, name_in_list, write_list};
use catalog::{Database, IndexFault, MAX_INDEXES, RepeatedKey};
use diagnostics::ColumnList;
use messages_queries::ListLengths;
use std::fmt::{self, Formatter};
use syntax::{Constraint, Name};

/// The name that a fault of CREATE INDEX is about.
pub(crate) fn name_of_index<'a>(list: ColumnList<'a>, fault: IndexFault) -> &'a Name {
    match fault {
        IndexFault::List(fault) => name_in_list(list, fault),
        IndexFault::ColumnTwice { column } => name_at(list, column),
        IndexFault::ListTaken { .. } | IndexFault::Repeated(_) => name_at(list, 0),
        IndexFault::ManyIndexes | IndexFault::Memory => list.table,
    }
}

pub(crate) fn write_index<W: fmt::Write>(
    f: &mut Formatter<W>,
    database: &Database,
    list: ColumnList,
    lengths: ListLengths,
    fault: IndexFault,
) -> fmt::Result {
    let at_fault = name_of_index(list, fault).text.as_str();
    match fault {
        IndexFault::List(fault) => write_list(f, list, lengths, fault),
        IndexFault::ColumnTwice { .. } => write!(f, "{at_fault} stands in the list twice"),
        IndexFault::ListTaken { index } => write_taken(f, database, list, index),
        IndexFault::ManyIndexes => write!(
            f,
            "a table has at most {MAX_INDEXES} indexes, and {at_fault} has as many already"
        ),
        IndexFault::Repeated(RepeatedKey { row, earlier }) => write!(
            f,
            "row {} of table {} repeats the key {} of row {}",
            u64::from(row).saturating_add(1),
            list.table.text,
            Listed(list.columns),
            u64::from(earlier).saturating_add(1)
        ),
        IndexFault::Memory => Ok(()),
    }
}

/// That a table has an index on a list, and where it comes from.
fn write_taken<W: fmt::Write>(
    f: &mut Formatter<W>,
    database: &Database,
    list: ColumnList,
    index: usize,
) -> fmt::Result {
    let (name, columns) = (list.table.text.as_str(), Listed(list.columns));
    write!(f, "table {name} has an index on {columns} already")?;
    match database.table(name) {
        Some(table) if index < table.index_count() => {
            let index = table.index(index);
            let constraint = match index.columns() {
                [column] if *column < table.width() => table.constraint(*column),
                _ => Constraint::Nullable,
            };
            f.write_str(origin(constraint, index.is_unique()))
        }
        _ => Ok(()),
    }
}

/// Where an index comes from, by what is asked of its only column.
fn origin(constraint: Constraint, is_unique: bool) -> &'static str {
    match constraint {
        Constraint::PrimaryKey => ", as the column is PRIMARY KEY",
        Constraint::Unique => ", as the column is UNIQUE",
        Constraint::Nullable | Constraint::NotNull if is_unique => ", from CREATE UNIQUE INDEX",
        Constraint::Nullable | Constraint::NotNull => ", from CREATE INDEX",
    }
}
