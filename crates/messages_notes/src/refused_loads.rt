//! The tables whose last LOAD was refused, so that a query over one can say what it lacks.

use catalog::Database;
use diagnostics::Cause;
use messages_excerpts::LineColumn;
use std::alloc::{AllocError, Global};
use syntax::Name;

/// Where the LOAD of a table was refused, if its last one was, by the table's place in the database.
#[derive(Drop)]
pub(crate) struct RefusedLoads {
    places: Vec<Option<LineColumn>>,
}

impl RefusedLoads {
    pub(crate) fn new(alloc: Global) -> RefusedLoads {
        RefusedLoads {
            places: Vec::new(alloc),
        }
    }

    /// Keeps the place of what was refused, if it was a LOAD into a table that is there. Where memory is wanting it is passed over.
    pub(crate) fn keep(&mut self, database: &Database, cause: &Cause, place: LineColumn) {
        let Some(name) = loaded_table(cause) else {
            return;
        };
        if let Some(table) = place_of(database, name.text.as_str()) {
            let _ = self.put(table, place);
        }
    }

    /// Forgets what was refused of a table that is loaded now.
    pub(crate) fn forget(&mut self, database: &Database, name: &Name) {
        if let Some(table) = place_of(database, name.text.as_str())
            && let Some(kept) = self.places.get_mut(table)
        {
            *kept = None;
        }
    }

    fn put(&mut self, table: usize, place: LineColumn) -> Result<(), AllocError> {
        for _ in self.places.len()..table.saturating_add(1) {
            self.places.push(None)?;
        }
        if let Some(kept) = self.places.get_mut(table) {
            *kept = Some(place);
        }
        Ok(())
    }

    /// Where the last LOAD into the table of a place was refused, if it was.
    pub(crate) fn place(&self, table: usize) -> Option<LineColumn> {
        self.places.get(table).copied()?
    }
}

/// The place of a table in the database.
pub(crate) fn place_of(database: &Database, name: &str) -> Option<usize> {
    for (place, table) in database.tables().iter().enumerate() {
        if table.name() == name {
            return Some(place);
        }
    }
    None
}

fn loaded_table<'a>(cause: &Cause<'a>) -> Option<&'a Name> {
    match cause {
        Cause::Record { load, .. } | Cause::Repeated { load, .. } => Some(load.table),
        Cause::NoFile { table, .. } | Cause::ManyRows(table) => Some(table),
        _ => None,
    }
}
