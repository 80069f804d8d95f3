//! What a session tells its sink beside the printed text: why a statement is refused, what its plans rest on, how far it is, and what was
//! told of a file of certificates. It judges nothing, and whoever puts it into words needs no session.
#![tactic(auto)]

mod cause;
mod checked_file;
mod progress;

pub use catalog::LoadProgress;
pub use cause::{
    Cause, ColumnList, FileLoad, QueryCause, Refused, StatisticsCause, TableStatisticsCause,
};
pub use certificate_files::{FileTold, PlanNote, PlanNoteKind};
pub use checked_file::CheckedFile;
pub use plan_tree::TableSet;
pub use progress::{Planned, Progress};
