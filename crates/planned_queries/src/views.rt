//! The views that there are.

use std::alloc::{AllocError, AllocFailed};

/// What is asked of a query's plans.
#[derive(Clone, Copy)]
pub enum View<'a> {
    /// Each block's least plan as a tree; or the plan that a file of certificates gives for it, whoever wrote that.
    Tree {
        certificates: Option<&'a [u8]>,
    },
    /// What a plan loses, in EXPLAIN's spelling or by names, and where.
    Why {
        plan: &'a str,
    },
    /// One statistic varied.
    Sweep {
        figure: &'a str,
        values: &'a [String],
    },
    /// What each index is worth, and each one more.
    Indexes,
    /// The states of the search and the steps that led there: all comparisons, or those that come within a percentage of their bound.
    Search {
        all: bool,
        within: Option<u64>,
    },
    /// Tree, search and lost steps, for paper.
    Page,
}

/// Why there is no page.
#[derive(Drop)]
pub enum ViewFault {
    Memory,
    /// The question can't be answered, in words.
    Refused(String),
}

impl From<AllocError> for ViewFault {
    fn from(_: AllocError) -> ViewFault {
        ViewFault::Memory
    }
}

impl<T: Drop> From<AllocFailed<T>> for ViewFault {
    fn from(_: AllocFailed<T>) -> ViewFault {
        ViewFault::Memory
    }
}

/// The percentage above its bound up to which a step is told where nothing else is asked for.
const NEAR: u64 = 10;

/// What a view tells of the check of a least plan's certificate.
#[derive(Clone, Copy)]
pub enum Interest<'a> {
    Nothing,
    /// Whether it passes, and no comparison.
    Verdict,
    /// Those that lead at their bound to a state of the least plan's way.
    Way,
    /// Those that lead at their bound to a state of the way of a plan, which its text gives.
    WayOf(&'a str),
    /// Those that come within a percentage of their bound; where there are many states, those of them that lead to the least plan's way.
    Near(u64),
    /// All that come within a percentage of their bound.
    Within(u64),
    All,
}

impl<'a> View<'a> {
    /// What it tells of the check of each block's least plan.
    pub fn interest(self) -> Interest<'a> {
        match self {
            View::Tree { .. } => Interest::Way,
            View::Why { plan } => Interest::WayOf(plan),
            View::Search { all: true, .. } => Interest::All,
            View::Search {
                within: Some(percent),
                ..
            } => Interest::Within(percent),
            View::Search { .. } | View::Page => Interest::Near(NEAR),
            View::Sweep { .. } | View::Indexes => Interest::Verdict,
        }
    }

    /// Its subcommand.
    pub fn name(self) -> &'static str {
        match self {
            View::Tree { .. } => "tree",
            View::Why { .. } => "why",
            View::Sweep { .. } => "sweep",
            View::Indexes => "indexes",
            View::Search { .. } => "search",
            View::Page => "page",
        }
    }
}
