//! What people are told of a file that LOAD refuses: its first record that is no row, a hint where one is sure, and what else is wrong with it.
#![tactic(auto)]

mod hints;
mod record;
mod repeated;
mod spelling;
mod survey;

pub use hints::write_record_hint;
pub use record::{FileRecord, write_record};
pub use repeated::{write_key, write_repeated};
pub use survey::write_survey;
