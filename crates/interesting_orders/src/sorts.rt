//! Orders that rows can be sorted into, one after another.

ghost use Rattle.std.specs.Prelude.{◌≡◌, ◌≤◌, ◌-◌, length, map};
ghost use Rattle.plan_tree.specs.Sets.{set_of};
ghost use Rattle.interesting_orders.specs.Sorts.{open_orders, tables_of_use};

use crate::order_use::OrderUse;
use crate::reach::are_within;
use plan_tree::TableSet;
use std::marker::Model;

/// The orders that are still to come into which rows of a set of tables may be sorted, by number, from the least on. It takes no
/// memory.
#[derive(Drop)]
pub struct Sorts<'a> {
    rest: &'a [OrderUse],
    // how many orders the block has
    count: usize,
    tables: TableSet,
}

impl<'a> Model for Sorts<'a> {
    ghost use Rattle.std.specs.Prelude.{ℕ, List};

    ghost Value = { List ℕ };

    ghost use Rattle.std.specs.Prelude.{◌-◌, ◌≤◌, length, map};
    ghost use Rattle.plan_tree.specs.Sets.{set_of};
    ghost use Rattle.interesting_orders.specs.Sorts.{open_orders, tables_of_use};

    ghost view = { λ s. open_orders (set_of s.tables) (s.count - length s.rest.now) (map tables_of_use s.rest.now) };

    ghost invariant = { λ s. length s.rest.now ≤ s.count };
}

impl<'a> Sorts<'a> {
    /// Those of the last orders of so many, of which each serves for what stands here.
    pub(crate) fn new(rest: &'a [OrderUse], count: usize, tables: TableSet) -> Sorts<'a>
        requires { length rest.now ≤ count }
        ensures { result ≡ open_orders (set_of tables) (count - length rest.now) (map tables_of_use rest.now) }
    {
        Sorts {
            rest,
            count,
            tables,
        }
    }
}

impl<'a> Iterator for Sorts<'a> {
    type Item = usize;

    ghost use Rattle.std.specs.Iterator.{YieldsFirst, item_count};

    ghost next_gives = { YieldsFirst (λ s. s) };

    ghost remaining = { item_count (λ s. s) };

    fn next(&mut self) -> Option<usize> {
        'orders: while let Some((first, others)) = self.rest.split_first() {
            let number = self.count - self.rest.len();
            self.rest = others;
            if are_within(first.tables, self.tables) {
                return Some(number);
            }
        }
        None
    }
}
