//! The nested loop joins that may bring a table, given one after another with their costs.

ghost use Rattle.std.specs.Prelude.{◌≡◌, ◌*◌, map};
ghost use Rattle.definitions.specs.Plans.Cost.{saturated};
ghost use Rattle.plan_space.specs.Loop.{with_scans};

use crate::paths::Paths;
use plan_tree::{Cost, Path};
use std::marker::Model;

/// A loop over a path of one more table, and what it adds to the cost of the outer plan: a scan of the path for each outer row
/// (Selinger et al. 1979, section 5).
#[derive(Clone, Copy)]
pub struct CostedLoop<'a> {
    pub path: &'a Path,
    pub cost: Cost,
}

/// The loops over a table that are still to come, on top of plans on a set of tables. It takes no memory.
#[derive(Drop)]
pub struct Loops<'a> {
    paths: Paths<'a>,
    outer_rows: u64,
}

impl<'a> Model for Loops<'a> {
    ghost use Rattle.std.specs.Prelude.{List};
    ghost use Rattle.plan_space.specs.Loop.{LoopItem};

    ghost Value = { List LoopItem };

    ghost use Rattle.std.specs.Prelude.{map};
    ghost use Rattle.plan_space.specs.Loop.{with_scans};

    ghost view = { λ s. map (with_scans s.outer_rows) s.paths };
}

impl<'a> Loops<'a> {
    pub(crate) fn new(paths: Paths<'a>, outer_rows: u64) -> Loops<'a>
        ensures { result ≡ map (with_scans outer_rows) paths.entry }
    {
        Loops { paths, outer_rows }
    }
}

impl<'a> Iterator for Loops<'a> {
    type Item = CostedLoop<'a>;

    ghost use Rattle.std.specs.Iterator.{YieldsFirstBy, item_count};
    ghost use Rattle.plan_space.specs.Loops.{loop_of};

    ghost next_gives = { YieldsFirstBy loop_of (λ s. s) };

    ghost remaining = { item_count (λ s. s) };

    fn next(&mut self) -> Option<CostedLoop<'a>> {
        match self.paths.next() {
            Some(item) => Some(CostedLoop {
                path: item.path,
                cost: loop_cost(self.outer_rows, item.cost),
            }),
            None => None,
        }
    }
}

/// What a loop adds to the cost of the outer plan: a scan of the path, which costs so much, for each outer row (Selinger et al. 1979, section 5).
pub fn loop_cost(outer_rows: u64, path_cost: Cost) -> Cost
    ensures { result.number ≡ saturated (outer_rows * path_cost.number) }
{
    path_cost.times(outer_rows)
}
