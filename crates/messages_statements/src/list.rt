//! Lists of columns of a table, and why they stand for none.

use catalog::{Database, ListFault, MAX_INDEX_COLUMNS};
use diagnostics::ColumnList;
use messages_queries::{ListLengths, write_near_column, write_near_table};
use std::alloc::Global;
use std::fmt::{self, Display, Formatter};
use syntax::{ListKind, Name};

/// Names as a statement lists them: `(A, B)`.
#[derive(Clone, Copy)]
pub(crate) struct Listed<'a>(pub &'a [Name]);

impl Display for Listed<'_> {
    fn fmt<W: fmt::Write>(&self, f: &mut Formatter<W>) -> fmt::Result {
        let mut separator = "(";
        for name in self.0 {
            write!(f, "{separator}{}", name.text)?;
            separator = ", ";
        }
        f.write_str(")")
    }
}

/// The name at a place of a list; that of the table where there is none.
pub(crate) fn name_at<'a>(list: ColumnList<'a>, place: usize) -> &'a Name {
    list.columns.get(place).unwrap_or(list.table)
}

/// The name that a fault of a list is about.
pub(crate) fn name_in_list<'a>(list: ColumnList<'a>, fault: ListFault) -> &'a Name {
    match fault {
        ListFault::NoColumn { column } => name_at(list, column),
        ListFault::ManyColumns => name_at(list, MAX_INDEX_COLUMNS),
        ListFault::NoTable | ListFault::Empty | ListFault::Memory => list.table,
    }
}

pub(crate) fn write_list<W: fmt::Write>(
    f: &mut Formatter<W>,
    list: ColumnList,
    lengths: ListLengths,
    fault: ListFault,
) -> fmt::Result {
    let at_fault = name_in_list(list, fault).text.as_str();
    match fault {
        ListFault::NoTable => write!(f, "there is no table {at_fault}"),
        ListFault::NoColumn { .. } => {
            write!(f, "table {} has no column {at_fault}", list.table.text)
        }
        ListFault::ManyColumns => write!(
            f,
            "an index has at most {MAX_INDEX_COLUMNS} columns, and this list has {}",
            lengths.written(ListKind::IndexColumns, list.table.start, list.columns.len())
        ),
        ListFault::Empty => f.write_str("there is no column in the list"),
        ListFault::Memory => Ok(()),
    }
}

pub(crate) fn write_list_hint<W: fmt::Write>(
    f: &mut Formatter<W>,
    alloc: Global,
    database: &Database,
    list: ColumnList,
    fault: ListFault,
) -> fmt::Result {
    let at_fault = name_in_list(list, fault).text.as_str();
    match (fault, database.table(list.table.text.as_str())) {
        (ListFault::NoTable, _) => write_near_table(f, alloc, database, at_fault),
        (ListFault::NoColumn { .. }, Some(table)) => write_near_column(f, alloc, table, at_fault),
        _ => Ok(()),
    }
}
