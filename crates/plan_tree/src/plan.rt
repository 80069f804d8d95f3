//! Plans: accesses, nested-loop joins, merge joins and sorts.

use crate::path::Path;

/// The inner side of a merge join: a path, whose rows may have to be sorted by the merge column.
#[derive(Clone, Drop)]
pub struct Inner {
    pub path: Path,
    pub sorted: bool,
}

/// A plan (Selinger et al. 1979, section 5). The inner side of a join is always one table.
#[derive(Drop)]
pub enum Plan {
    /// The rows of one table.
    Access(Path),
    /// A nested-loop join: for each row of the outer plan those of a path.
    Loop {
        outer: Box<Plan>,
        path: Path,
    },
    /// A merge join by a conjunct: rows of both sides, in step, that are equal in its columns.
    Merge {
        outer: Box<Plan>,
        conjunct: usize,
        inner: Inner,
    },
    /// The rows of a plan in a numbered order.
    Sort {
        input: Box<Plan>,
        order: usize,
    },
}
