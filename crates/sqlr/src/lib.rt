//! Scripts of SQL over tables in memory: from a script's bytes to the bytes that it prints.
#![tactic(auto)]

mod changes;
mod checked;
mod checking;
mod device_failures;
mod ended;
mod explaining;
pub mod laws;
mod library;
mod outcome;
mod progress;
mod script;
mod select;
mod session;
mod sink;

pub use device_failures::Failures;
pub use diagnostics::{CheckedFile, LoadProgress, Planned, Progress, Refused};
pub use ended::{Ended, RunFault, status};
pub use library::{FetchFault, Fetched, Library};
pub use session::Session;
pub use sink::{Sink, SinkFault};
pub use syntax::{LongList, Name};
