//! How far a statement is, told to a sink.

use crate::sink::Sink;
use catalog::{Database, LoadProgress, LoadWatch};
use diagnostics::{PlanNote, Planned, Progress};
use executor::QueryWatch;
use query_tree::Block;
use syntax::Select;

/// Tells a sink how far a LOAD is.
#[derive(Drop)]
pub(crate) struct WatchedLoad<'s, S: Sink> {
    pub(crate) sink: &'s S,
}

impl<S: Sink> LoadWatch for WatchedLoad<'_, S> {
    fn loaded(&self, progress: LoadProgress) {
        self.sink.report_progress(Progress::Load(progress));
    }
}

/// Tells a sink how far a query is.
#[derive(Drop)]
pub(crate) struct WatchedQuery<'s, S: Sink> {
    pub(crate) sink: &'s S,
    pub(crate) query: &'s Select,
}

impl<S: Sink> WatchedQuery<'_, S> {
    /// Tells what the plans of the query's blocks rest on, before the first row is read.
    pub(crate) fn tell_plans(&self, notes: &[PlanNote], blocks: &[Block], database: &Database) {
        let planned = Planned {
            query: self.query,
            blocks,
            notes,
        };
        self.sink.report_plans(planned, database);
    }
}

impl<S: Sink> QueryWatch for WatchedQuery<'_, S> {
    fn passed(&self, combinations: u64) {
        self.sink.report_progress(Progress::Select { combinations });
    }
}
