//! What people are told of texts of certificates that are refused, beside their printed lines: where in the file each is refused, and
//! why, by numbers as texts have them and by the names of the script. The step and the numbers by which a rule fails are those of the
//! check itself, which hands them on; no printed line depends on the words.
#![tactic(auto)]

mod finding;
mod lacking;
mod naming;
mod numbers;
mod page;
mod places;
mod reason;
mod report;
mod spelling;
mod step_words;
mod steps;
mod target;
mod words;

pub use reason::{Ending, Lack, LowStep, PlanFault, Reason, Step, WrongStep};
pub use report::FileReport;
pub use spelling::{SpelledPath, StateName, spell_path, state_name};
