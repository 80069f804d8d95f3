//! How far a statement is, and what its plans rest on.

use catalog::LoadProgress;
use certificate_files::PlanNote;
use parse_tree::Select;
use query_tree::Block;

/// How far a statement is (own).
#[derive(Clone, Copy)]
pub enum Progress {
    Load(LoadProgress),
    /// The outermost block's plan has delivered so many combinations of rows.
    Select { combinations: u64 },
}

/// What there is to know of the figures that the plans of a query rest on (own).
#[derive(Clone, Copy)]
pub struct Planned<'a> {
    pub query: &'a Select,
    /// The blocks of the query, in the order of their numbers.
    pub blocks: &'a [Block],
    pub notes: &'a [PlanNote],
}
