//! What the records of a file load as, and the columns of tables that they are added to.
#![tactic(auto)]

mod cells;
mod fault;
mod field;
mod file;
mod number_type;
mod pushed;
mod table_column;
mod watch;
mod written_number;

pub use fault::{ColumnFault, RecordFault, RefusedRecord};
pub use file::{RecordStart, cut_columns, push_records, record_start};
pub use pushed::{Pushed, StopReason};
pub use table_column::TableColumn;
pub use watch::{LoadProgress, LoadWatch};
pub use written_number::{WrittenNumber, units_in};
