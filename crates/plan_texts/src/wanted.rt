//! What a text says of an access to a table.

use arrayvec::ArrayVec;
use plan_tree::{MAX_MATCHED, Path};

/// An access as a text has it, to a table of the block.
#[derive(Drop)]
pub(crate) struct WantedAccess {
    pub table: usize,
    pub way: Way,
}

/// How the rows of a table are to be read.
#[derive(Drop)]
pub(crate) enum Way {
    /// In any way.
    Any,
    /// By an index, all of it or what conjuncts match; backward, or in any direction.
    ByIndex { index: usize, backward: bool },
    /// In this way alone.
    Only(Path),
}

/// The conjuncts that a text has an index matched by.
pub(crate) type MatchedConjuncts = ArrayVec<usize, MAX_MATCHED>;

impl WantedAccess {
    /// Whether a path of the table is as the text has it.
    pub fn fits(&self, path: &Path) -> bool {
        match &self.way {
            Way::Any => true,
            Way::ByIndex { index, backward } => is_by_index(path, *index, *backward),
            Way::Only(only) => are_same(only, path),
        }
    }

    /// The one path that is as the text has it, in the plan space or not; none where more than one may be.
    pub fn only_path(&self) -> Option<&Path> {
        match &self.way {
            Way::Any | Way::ByIndex { .. } => None,
            Way::Only(path) => Some(path),
        }
    }
}

/// Whether a path goes by an index, and backward if it has to.
fn is_by_index(path: &Path, wanted: usize, only_backward: bool) -> bool {
    match path {
        Path::Segment { .. } => false,
        Path::Index {
            index,
            backward,
            ..
        }
        | Path::Match {
            index,
            backward,
            ..
        } => *index == wanted && (*backward || !only_backward),
    }
}

/// Whether two paths of one table are one.
pub fn are_same(one: &Path, other: &Path) -> bool {
    match (one, other) {
        (Path::Segment { .. }, Path::Segment { .. }) => true,
        (
            Path::Index {
                index,
                backward,
                ..
            },
            Path::Index {
                index: wanted,
                backward: direction,
                ..
            },
        ) => index == wanted && backward == direction,
        (
            Path::Match {
                index,
                conjuncts,
                backward,
                ..
            },
            Path::Match {
                index: wanted,
                conjuncts: matched,
                backward: direction,
                ..
            },
        ) => {
            index == wanted && backward == direction && conjuncts.as_slice() == matched.as_slice()
        }
        _ => false,
    }
}
