//! The tables whose CREATE TABLE was refused, so that what wants one can say why it isn't there.

use catalog::{IndexFault, ListFault, StatisticsFault, TableStatisticsFault};
use diagnostics::{Cause, QueryCause};
use messages_excerpts::{LineColumn, Lines};
use messages_queries::missing_table;
use std::alloc::{AllocError, Global};
use syntax::Name;

/// The names of tables that were not made, and where they were to be.
#[derive(Drop)]
pub(crate) struct RefusedTables {
    tables: Vec<RefusedTable>,
}

#[derive(Drop)]
struct RefusedTable {
    name: String,
    place: LineColumn,
}

impl RefusedTables {
    pub(crate) fn new(alloc: Global) -> RefusedTables {
        RefusedTables {
            tables: Vec::new(alloc),
        }
    }

    /// Keeps the name and the place of a table that was refused, if it was one. Where memory is wanting it is passed over.
    pub(crate) fn keep(&mut self, alloc: Global, cause: &Cause, lines: &Lines) {
        if let Cause::Create { name, .. } = cause {
            let _ = self.put(alloc, name.text.as_str(), lines.locate(name.start));
        }
    }

    fn put(&mut self, alloc: Global, name: &str, place: LineColumn) -> Result<(), AllocError> {
        let name = String::from_str(alloc, name)?;
        self.tables.push(RefusedTable { name, place })?;
        Ok(())
    }

    /// Where the table that a cause finds missing was to be made, the last time.
    pub(crate) fn place_of_missing(&self, cause: &Cause) -> Option<LineColumn> {
        let name = name_of_missing(cause)?;
        for table in self.tables.iter().rev() {
            if table.name.as_str() == name.text.as_str() {
                return Some(table.place);
            }
        }
        None
    }
}

/// The name of the table that a cause finds missing, if that is what it says.
fn name_of_missing<'a>(cause: &Cause<'a>) -> Option<&'a Name> {
    match cause {
        Cause::NoTable(name) => Some(name),
        Cause::TableStatistics(cause) => {
            matches!(cause.fault, TableStatisticsFault::NoTable).then_some(cause.table)
        }
        Cause::Statistics(cause) => {
            let is_missing = matches!(cause.fault, StatisticsFault::List(ListFault::NoTable));
            is_missing.then_some(cause.list.table)
        }
        Cause::Index { list, fault } => {
            let is_missing = matches!(fault, IndexFault::List(ListFault::NoTable));
            is_missing.then_some(list.table)
        }
        Cause::Query(QueryCause { fault, .. }) => missing_table(*fault),
        _ => None,
    }
}
