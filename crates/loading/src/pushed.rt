//! What is said of records that were added to columns.

use crate::fault::RefusedRecord;

/// Why further records of a file are not added.
#[derive(Clone, Copy, PartialEq, Eq)]
pub enum StopReason {
    /// The next record is no row.
    Record(RefusedRecord),
    /// There is no room for the next record, whatever it holds.
    Full,
}

/// How many rows were added, and why no more, unless these are all.
#[derive(Clone, Copy, PartialEq, Eq)]
pub struct Pushed {
    pub rows: u64,
    pub stopped: Option<StopReason>,
}
