//! The last step of a plan, and candidates for the least plan of a state.

use plan_tree::{Cost, Path};

/// A join with one more table: a path of it, or a merge by a conjunct with a path of it, whose rows may have to be sorted.
#[derive(Clone, Copy)]
pub(crate) enum Join<'a> {
    Loop {
        path: &'a Path,
    },
    Merge {
        conjunct: usize,
        path: &'a Path,
        sorted: bool,
    },
}

/// The last access, join or sort of a plan. A join and a sort go on from the plan of a state, which stands at a place.
#[derive(Clone, Copy)]
pub(crate) enum Step<'a> {
    Access { path: &'a Path },
    Join { from: usize, join: Join<'a> },
    Sort { from: usize, order: usize },
}

/// A plan by its last step, and its cost.
#[derive(Clone, Copy)]
pub(crate) struct Candidate<'a> {
    pub step: Step<'a>,
    pub cost: Cost,
}

/// A join of a set of tables with one more, and what it adds to the cost of a plan.
#[derive(Clone, Copy)]
pub(crate) struct AddedJoin<'a> {
    pub table: usize,
    pub join: Join<'a>,
    pub cost: Cost,
}
