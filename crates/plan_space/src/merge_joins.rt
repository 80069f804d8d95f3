//! The merge joins that may bring a table, given one after another with their costs.

ghost use Rattle.std.specs.Prelude.{◌≡◌, map};
ghost use Rattle.plan_tree.specs.Sets.{set_of};
ghost use Rattle.plan_space.specs.MergeListed.{found_merge_of};
ghost use Rattle.plan_space.specs.Merge.{open_merges, with_pairs};

use crate::listed::MergeJoinPath;
use estimate::share;
use plan_tree::{Cost, Path, TableSet};
use std::marker::Model;

/// A merge with one more table: its conjunct, the path of its inner side and whether the rows of that are sorted, and what it adds
/// to the cost of the outer plan.
#[derive(Clone, Copy)]
pub struct CostedMerge<'a> {
    pub conjunct: usize,
    pub path: &'a Path,
    pub sorted: bool,
    pub cost: Cost,
}

/// The merges with a table that are still to come, on top of plans on a set of tables. It takes no memory.
#[derive(Drop)]
pub struct Merges<'a> {
    rest: &'a [MergeJoinPath],
    tables: TableSet,
    // of rows of both sides
    pairs: u64,
}

impl<'a> Model for Merges<'a> {
    ghost use Rattle.std.specs.Prelude.{List};
    ghost use Rattle.plan_space.specs.Merge.{Merge};

    ghost Value = { List Merge };

    ghost use Rattle.std.specs.Prelude.{map};
    ghost use Rattle.plan_tree.specs.Sets.{set_of};
    ghost use Rattle.plan_space.specs.MergeListed.{found_merge_of};
    ghost use Rattle.plan_space.specs.Merge.{open_merges};

    ghost view = { λ s. open_merges (set_of s.tables) s.pairs (map found_merge_of s.rest.now) };
}

impl<'a> Merges<'a> {
    pub(crate) fn new(rest: &'a [MergeJoinPath], tables: TableSet, pairs: u64) -> Merges<'a>
        ensures { result ≡ open_merges (set_of tables) pairs (map found_merge_of rest.now) }
    {
        Merges {
            rest,
            tables,
            pairs,
        }
    }
}

impl<'a> Iterator for Merges<'a> {
    type Item = CostedMerge<'a>;

    ghost use Rattle.std.specs.Iterator.{YieldsFirstBy, item_count};
    ghost use Rattle.plan_space.specs.Merges.{merge_of};

    ghost next_gives = { YieldsFirstBy merge_of (λ s. s) };

    ghost remaining = { item_count (λ s. s) };

    fn next(&mut self) -> Option<CostedMerge<'a>> {
        'merges: while let Some((first, others)) = self.rest.split_first() {
            self.rest = others;
            if self.tables.has(first.other) {
                return Some(CostedMerge {
                    conjunct: first.conjunct,
                    path: &first.path,
                    sorted: first.sorted,
                    cost: cost(first, self.pairs),
                });
            }
        }
        None
    }
}

/// What a merge adds to the cost of the outer plan: what its inner side costs, and the pairs of rows that its conjunct is taken to
/// leave.
fn cost(merge: &MergeJoinPath, pairs: u64) -> Cost
    ensures { result.number ≡ (with_pairs pairs (found_merge_of merge.now)).cost }
{
    let pairs_left = Cost::of(u128::from(share(pairs, merge.selectivity)));
    merge.cost.plus(pairs_left)
}
