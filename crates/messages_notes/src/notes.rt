//! The notes of a script, one after another.

use crate::load_notes::{LoadReport, LoadedRows};
use crate::plan_notes::PlanReport;
use crate::refused_loads::{RefusedLoads, place_of};
use catalog::Database;
use diagnostics::{Cause, Planned};
use messages_excerpts::{LineColumn, Lines};
use std::alloc::Global;
use syntax::Name;

/// Makes the notes on a script, one after another: it keeps what its LOADs have done, which later notes speak of.
#[derive(Drop)]
pub struct Notes<'a> {
    alloc: Global,
    script_name: &'a str,
    refused_loads: RefusedLoads,
    loaded_rows: LoadedRows,
}

impl<'a> Notes<'a> {
    /// No notes yet, and the name that they call the script by.
    pub fn new(alloc: Global, script_name: &'a str) -> Notes<'a> {
        Notes {
            alloc,
            script_name,
            refused_loads: RefusedLoads::new(alloc),
            loaded_rows: LoadedRows::new(alloc),
        }
    }

    /// Keeps the place of what was refused, if it was a LOAD. Where memory is wanting it is passed over.
    pub fn keep_refusal(&mut self, database: &Database, cause: &Cause, place: LineColumn) {
        self.refused_loads.keep(database, cause, place);
    }

    /// Notes that a LOAD has gone well: nothing is said of those before any more. Gives what there is to say of the rows.
    pub fn report_load<'r>(
        &mut self,
        lines: &Lines,
        table: &Name,
        database: &'r Database,
    ) -> LoadReport<'r>
    where
        'a: 'r,
    {
        self.refused_loads.forget(database, table);
        let name = table.text.as_str();
        let loaded = database.table(name);
        let before = match (loaded, place_of(database, name)) {
            (Some(own), Some(place)) => self.loaded_rows.replace(place, own.len()),
            _ => 0,
        };
        LoadReport {
            script_name: self.script_name,
            place: lines.locate(table.start),
            table: loaded,
            before,
        }
    }

    /// The notes on the plans of a query of a script over a database.
    pub fn report_plans<'r>(
        &'r self,
        lines: &'r Lines<'r>,
        planned: Planned<'r>,
        database: &'r Database,
    ) -> PlanReport<'r> {
        PlanReport {
            alloc: self.alloc,
            script_name: self.script_name,
            lines,
            planned,
            database,
            refused_loads: &self.refused_loads,
        }
    }
}
