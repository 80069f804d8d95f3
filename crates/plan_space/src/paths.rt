//! The access paths of a table, given one after another with their orders and costs.

ghost use Rattle.std.specs.Prelude.{◌≡◌, map};
ghost use Rattle.plan_tree.specs.Sets.{set_of};
ghost use Rattle.plan_space.specs.PathListed.{listed_path_of};
ghost use Rattle.plan_space.specs.Item.{open_items};

use crate::path_lists::NumberedPath;
use plan_tree::{Cost, Path, TableSet};
use std::marker::Model;

/// A path, the number of the order in which it gives its rows, and what one scan of it costs.
#[derive(Clone, Copy)]
pub struct CostedPath<'a> {
    pub path: &'a Path,
    pub order: usize,
    pub cost: Cost,
}

/// The paths of a table that are still to come, where the rows of a set of tables are known. It takes no memory.
#[derive(Drop)]
pub struct Paths<'a> {
    rest: &'a [NumberedPath],
    known: TableSet,
    // that a scan of each hands on
    rows: u64,
}

impl<'a> Model for Paths<'a> {
    ghost use Rattle.std.specs.Prelude.{List};
    ghost use Rattle.plan_space.specs.Item.{Item};

    ghost Value = { List Item };

    ghost use Rattle.std.specs.Prelude.{map};
    ghost use Rattle.plan_tree.specs.Sets.{set_of};
    ghost use Rattle.plan_space.specs.PathListed.{listed_path_of};
    ghost use Rattle.plan_space.specs.Item.{open_items};

    ghost view = { λ s. open_items (set_of s.known) s.rows (map listed_path_of s.rest.now) };
}

impl<'a> Paths<'a> {
    pub(crate) fn new(rest: &'a [NumberedPath], known: TableSet, rows: u64) -> Paths<'a>
        ensures { result ≡ open_items (set_of known) rows (map listed_path_of rest.now) }
    {
        Paths { rest, known, rows }
    }
}

impl<'a> Iterator for Paths<'a> {
    type Item = CostedPath<'a>;

    ghost use Rattle.std.specs.Iterator.{YieldsFirstBy, item_count};
    ghost use Rattle.plan_space.specs.Items.{item_of};

    ghost next_gives = { YieldsFirstBy item_of (λ s. s) };

    ghost remaining = { item_count (λ s. s) };

    fn next(&mut self) -> Option<CostedPath<'a>> {
        'paths: while let Some((first, others)) = self.rest.split_first() {
            self.rest = others;
            if first.required_outer.is_within(self.known) {
                return Some(CostedPath {
                    path: &first.path,
                    order: first.order,
                    cost: first.cost.cost(self.rows),
                });
            }
        }
        None
    }
}
