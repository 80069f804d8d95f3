//! Whether two paths are one.

ghost use Rattle.std.specs.Prelude.{◌≡◌};
ghost use Rattle.std.specs.Bool.{Decides};
ghost use Rattle.definitions.specs.Plans.Path as spec;
ghost use Rattle.plan_tree.specs.Plans.{path_of};

use plan_tree::Path;

/// Whether two paths are one.
pub(crate) fn are_one(a: &Path, b: &Path) -> bool
    ensures { Decides result (path_of a.now ≡ path_of b.now) }
{
    match a {
        Path::Segment { table } => is_segment(b, *table),
        Path::Index {
            table,
            index,
            backward,
        } => is_index(b, *table, *index, *backward),
        Path::Match {
            table,
            index,
            conjuncts,
            backward,
        } => is_match(b, *table, *index, conjuncts, *backward),
    }
}

/// Whether a path is the scan of a whole table.
fn is_segment(path: &Path, number: usize) -> bool
    ensures { Decides result (spec.SegmentScan number ≡ path_of path.now) }
{
    match path {
        Path::Segment { table } => *table == number,
        Path::Index { .. } => false,
        Path::Match { .. } => false,
    }
}

/// Whether a path is the scan of an index.
fn is_index(path: &Path, number: usize, of: usize, down: bool) -> bool
    ensures { Decides result (spec.IndexScan number of down ≡ path_of path.now) }
{
    match path {
        Path::Segment { .. } => false,
        Path::Index {
            table,
            index,
            backward,
        } => *table == number && *index == of && *backward == down,
        Path::Match { .. } => false,
    }
}

/// Whether a path is a part of an index.
fn is_match(path: &Path, number: usize, of: usize, by: &[usize], down: bool) -> bool
    ensures { Decides result (spec.MatchingScan number of by.now down ≡ path_of path.now) }
{
    match path {
        Path::Segment { .. } => false,
        Path::Index { .. } => false,
        Path::Match {
            table,
            index,
            conjuncts,
            backward,
        } => *table == number && *index == of && *backward == down && conjuncts.as_slice() == by,
    }
}
