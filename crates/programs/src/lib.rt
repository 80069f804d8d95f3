//! What the programs share: their command lines, from the words to what they ask for; the files of the working folder, standard error, scripts
//! and other sources; and how a run that broke off is told.
#![tactic(auto)]

mod broken;
mod folder;
mod input;
mod line;
mod question_words;
pub mod questions;
pub mod requests;
mod stack;
mod standard_error;
mod subcommands;
mod words;

pub use broken::{BROKEN_OFF, broken_off, tell_broken_off, tell_output};
pub use folder::{FileFault, Folder, tell_beside};
pub use input::{Input, source_name};
pub use line::{line_words, print_line_fault};
pub use question_words::asked_question;
pub use stack::is_enough;
pub use standard_error::StandardError;
pub use words::request;
