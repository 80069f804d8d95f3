//! Why a path is none of a table's.

use crate::wanted::are_same;
use certificate::Space;
use plan_tree::{MAX_FROM_TABLES, Path, TableSet};

/// Why a path is none of a table's, where the rows of a set of tables are known.
#[derive(Clone, Copy)]
pub enum PathFault {
    /// It compares columns with values of tables whose rows aren't known.
    LaterRows {
        tables: TableSet,
    },
    /// A conjunct can't be matched with the column of an index at this place, from 0.
    Unmatched {
        index: usize,
        conjunct: usize,
        place: usize,
    },
    /// It is none of this version of the plan space.
    OtherVersion,
}

/// Why a path of a table of the block is none where the rows of a set of tables are known; none where it is one.
pub(crate) fn path_fault(space: &Space, known: TableSet, path: &Path) -> Option<PathFault> {
    if has_path(space, known, path) {
        return None;
    }
    if !has_path(space, space.whole(), path) {
        return Some(mismatch(space, path));
    }
    let mut tables = TableSet::none();
    for table in 0..MAX_FROM_TABLES {
        if !known.has(table) && !has_path(space, without(space.whole(), table), path) {
            tables = tables.with(table);
        }
    }
    Some(PathFault::LaterRows { tables })
}

/// The set without a table.
fn without(set: TableSet, table: usize) -> TableSet {
    let mut others = TableSet::none();
    for other in 0..MAX_FROM_TABLES {
        if other != table && set.has(other) {
            others = others.with(other);
        }
    }
    others
}

/// Whether a path is one of its table where the rows of a set of tables are known.
fn has_path(space: &Space, known: TableSet, path: &Path) -> bool {
    if path.table() >= space.table_count() {
        return false;
    }
    for item in space.paths(known, path.table()) {
        if are_same(item.path, path) {
            return true;
        }
    }
    false
}

/// The first conjunct of a path that is matched with its index by no path.
fn mismatch(space: &Space, path: &Path) -> PathFault {
    let Path::Match {
        table,
        index,
        conjuncts,
        ..
    } = path
    else {
        return PathFault::OtherVersion;
    };
    for (place, conjunct) in conjuncts.as_slice().iter().enumerate() {
        let first = conjuncts.as_slice().get(..=place).unwrap_or(&[]);
        if !matches_first(space, *table, *index, first) {
            return PathFault::Unmatched {
                index: *index,
                conjunct: *conjunct,
                place,
            };
        }
    }
    PathFault::OtherVersion
}

/// Whether a path of a table matches an index by these conjuncts first.
fn matches_first(space: &Space, table: usize, wanted: usize, first: &[usize]) -> bool {
    if table >= space.table_count() {
        return false;
    }
    for item in space.paths(space.whole(), table) {
        if let Path::Match {
            index,
            conjuncts,
            ..
        } = item.path
            && *index == wanted
            && conjuncts.as_slice().starts_with(first)
        {
            return true;
        }
    }
    false
}
