//! Access paths: a segment scan, an index scan, or a match of conjuncts with an index.

ghost use Rattle.std.specs.Prelude.{◌≡◌};
ghost use Rattle.definitions.specs.Plans.Path as spec;
ghost use Rattle.plan_tree.specs.Plans.{path_of};

use arrayvec::ArrayVec;

/// How many columns an index may have, and so how many conjuncts may match it (own).
pub const MAX_MATCHED: usize = 4;

/// A way to read the rows of one table (Selinger et al. 1979, section 4). An index is read forward or backward.
#[derive(Clone, Drop)]
pub enum Path {
    /// The whole table.
    Segment {
        table: usize,
    },
    /// All of an index.
    Index {
        table: usize,
        index: usize,
        backward: bool,
    },
    /// The part of an index that conjuncts match, one on each of its first columns, in their order.
    Match {
        table: usize,
        index: usize,
        conjuncts: ArrayVec<usize, MAX_MATCHED>,
        backward: bool,
    },
}

impl Path {
    /// The table that is read.
    pub fn table(&self) -> usize
        ensures { result ≡ spec.table_of (path_of self.now) }
    {
        match self {
            Path::Segment { table } | Path::Index { table, .. } | Path::Match { table, .. } =>
                *table,
        }
    }
}
