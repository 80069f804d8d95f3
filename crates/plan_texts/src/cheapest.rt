//! The cheapest steps of a plan space that are as a text has them: of those that cost as much, the first.

use crate::wanted::WantedAccess;
use certificate::{CostedMerge, Space};
use plan_tree::{Path, TableSet};

/// The cheapest path of a table where the rows of no other are known.
pub(crate) fn cheapest_access<'s>(space: &'s Space<'_>, wanted: &WantedAccess) -> Option<&'s Path> {
    if wanted.table >= space.table_count() {
        return None;
    }
    let mut found = None;
    let mut least = u64::MAX;
    for item in space.paths(TableSet::none(), wanted.table) {
        if item.cost.number < least && wanted.fits(item.path) {
            least = item.cost.number;
            found = Some(item.path);
        }
    }
    found
}

/// The path of the cheapest loop over a table on top of plans on a set of tables.
pub(crate) fn cheapest_loop<'s>(
    space: &'s Space<'_>,
    outer: TableSet,
    wanted: &WantedAccess,
) -> Option<&'s Path> {
    if wanted.table >= space.table_count() {
        return None;
    }
    let relation = space.relation(outer);
    let mut found = None;
    let mut least = u64::MAX;
    for item in space.loops(&relation, wanted.table) {
        if item.cost.number < least && wanted.fits(item.path) {
            least = item.cost.number;
            found = Some(item.path);
        }
    }
    found
}

/// A merge as a text has it.
#[derive(Drop)]
pub(crate) struct WantedMerge {
    /// The conjunct that it goes by; none where any will do.
    pub conjunct: Option<usize>,
    /// Whether its inner side is to be sorted; else it may be either.
    pub sorted: bool,
    pub access: WantedAccess,
}

impl WantedMerge {
    fn fits(&self, merge: CostedMerge<'_>) -> bool {
        let is_by = match self.conjunct {
            Some(conjunct) => merge.conjunct == conjunct,
            None => true,
        };
        is_by && (merge.sorted || !self.sorted) && self.access.fits(merge.path)
    }
}

/// The cheapest merge with a table on top of plans on a set of tables: one by whose column the outer rows come where their order is
/// told, and that is so for any.
pub(crate) fn cheapest_merge<'s>(
    space: &'s Space<'_>,
    outer: TableSet,
    order: Option<usize>,
    wanted: &WantedMerge,
) -> Option<CostedMerge<'s>> {
    let table = wanted.access.table;
    if table >= space.table_count() {
        return None;
    }
    let relation = space.relation(outer);
    let mut found = None;
    let mut least = u64::MAX;
    for item in space.merges(&relation, table) {
        let goes_by = match order {
            Some(order) => relation.goes_by(order, item.conjunct, table),
            None => true,
        };
        if goes_by && item.cost.number < least && wanted.fits(item) {
            least = item.cost.number;
            found = Some(item);
        }
    }
    found
}
