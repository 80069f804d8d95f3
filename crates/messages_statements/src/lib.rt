//! What people are told of a refusal beside its printed line: where its cause stands, what it is, and a
//! hint where one is sure. It judges nothing: the cause comes from the one that refused, and no answer and
//! no printed line depends on the words.
#![tactic(auto)]

mod create;
mod exceptions;
mod index;
mod list;
mod places;
mod refused_tables;
mod report;
mod statistics;

pub use exceptions::ExceptionReport;
pub use messages_certificates::FileReport;
pub use messages_excerpts::{LineColumn, Lines};
pub use messages_notes::{LoadReport, PlanReport};
pub use report::{Report, Reporter};
