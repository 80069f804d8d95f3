//! What is known of each state: its cost so far, and whether it is settled.

ghost use Rattle.std.specs.Prelude.{ℕ, ◌≡◌, ◌+◌, ◌<◌, ◌≤◌, Some, None, IfOk, length, get_or, false};
ghost use Rattle.plan_tree.specs.Sets.{set_of};
ghost use Rattle.join_dp.specs.Costs.{unknown, IsFoundAt, IsSettledAt};
ghost use Rattle.join_dp.specs.Slots.{AreBehind, AreClearBehind, AreRows, AreSame};

use plan_tree::{Cost, TableSet};
use std::alloc::{AllocError, Global};

/// The costs of states. A set of tables has a row, with a place for each order, from the first of its states that is found. What is told of a
/// place stands in columns, as a record of both would take several times as much memory.
#[derive(Drop)]
pub(crate) struct StateCosts {
    orders: usize,
    rows: Vec<Option<usize>>,
    // the least cost that was found so far, `u64::MAX` where none is found
    costs: Vec<u64>,
    settled: Vec<bool>,
    ghost apart: { AreRows orders rows.items (length costs.items) },
    ghost clear: { AreClearBehind (length costs.items) settled.items },
}

impl StateCosts {
    ghost use Rattle.join_dp.specs.StateCosts.{costs_of};

    /// No state is found, of so many sets of tables and orders.
    pub fn new(alloc: Global, sets: usize, orders: usize) -> Result<StateCosts, AllocError>
        ensures sets { IfOk result (λ costs. (costs_of costs).sets ≡ sets) }
        ensures orders { IfOk result (λ costs. (costs_of costs).orders ≡ orders) }
        ensures costs { IfOk result (λ costs. (tables order : ℕ) → (costs_of costs).cost tables order ≡ unknown) }
        ensures settled { IfOk result (λ costs. (tables order : ℕ) → (costs_of costs).settled tables order ≡ false) }
    {
        let mut rows: Vec<Option<usize>> = Vec::new(alloc);
        'sets: for _ in 0..sets {
            rows.push(None)?;
        }
        Ok(StateCosts {
            orders,
            rows,
            costs: Vec::new(alloc),
            settled: Vec::new(alloc),
        })
    }

    /// The least cost of a state so far.
    pub fn cost(&self, tables: TableSet, order: usize) -> u64
        requires set { set_of tables < (costs_of self.now).sets }
        requires order { order < (costs_of self.now).orders }
        ensures { result ≡ (costs_of self.now).cost (set_of tables) order }
    {
        match self.rows[tables.place()] {
            Some(start) => self.costs[start + order],
            None => u64::MAX,
        }
    }

    /// Whether any state of a set may be found.
    pub fn has_row(&self, tables: TableSet) -> bool
        requires set { set_of tables < (costs_of self.now).sets }
        ensures none { result ≡ false → (order : ℕ) → (costs_of self.now).settled (set_of tables) order ≡ false }
    {
        self.rows[tables.place()].is_some()
    }

    /// Whether a state is settled.
    pub fn is_settled(&self, tables: TableSet, order: usize) -> bool
        requires set { set_of tables < (costs_of self.now).sets }
        requires order { order < (costs_of self.now).orders }
        ensures { result ≡ (costs_of self.now).settled (set_of tables) order }
    {
        match self.rows[tables.place()] {
            Some(start) => self.settled[start + order],
            None => false,
        }
    }

    /// Keeps the cost of a state that is found.
    pub fn find(&mut self, tables: TableSet, order: usize, cost: Cost) -> Result<(), AllocError>
        requires set { set_of tables < (costs_of self.old).sets }
        requires order { order < (costs_of self.old).orders }
        ensures { IfOk result (λ _. IsFoundAt (set_of tables) order cost.number (costs_of self.old) (costs_of self.new)) }
    {
        let (rows, costs, settled) = (&mut self.rows, &mut self.costs, &mut self.settled);
        let start = row(rows, costs, settled, self.orders, tables)?;
        self.costs[start + order] = cost.number;
        Ok(())
    }

    /// Settles a state that is found.
    pub fn settle(&mut self, tables: TableSet, order: usize)
        requires set { set_of tables < (costs_of self.old).sets }
        requires order { order < (costs_of self.old).orders }
        requires found { (costs_of self.old).cost (set_of tables) order < unknown }
        ensures { IsSettledAt (set_of tables) order (costs_of self.old) (costs_of self.new) }
    {
        if let Some(start) = self.rows[tables.place()] {
            self.settled[start + order] = true;
        }
    }
}

/// Where the row of a set begins, which is made if there is none.
fn row(
    rows: &mut Vec<Option<usize>>,
    costs: &mut Vec<u64>,
    settled: &mut Vec<bool>,
    orders: usize,
    tables: TableSet,
) -> Result<usize, AllocError>
    requires set { set_of tables < length rows.old.items }
    requires rows { AreRows orders rows.old.items (length costs.old.items) }
    requires clear { AreClearBehind (length costs.old.items) settled.old.items }
    ensures rows { AreRows orders rows.new.items (length costs.new.items) }
    ensures clear { AreClearBehind (length costs.new.items) settled.new.items }
    ensures sets { length rows.new.items ≡ length rows.old.items }
    ensures here { IfOk result (λ start. get_or rows.new.items (set_of tables) None ≡ Some start) }
    ensures costs { IfOk result (λ _. AreSame unknown orders rows.old.items costs.old.items rows.new.items costs.new.items) }
    ensures settled { IfOk result (λ _.
        AreSame false orders rows.old.items settled.old.items rows.new.items settled.new.items) }
{
    if let Some(start) = rows[tables.place()] {
        return Ok(start);
    }
    let start = costs.len();
    push_times(settled, false, orders)?;
    push_times(costs, u64::MAX, orders)?;
    rows[tables.place()] = Some(start);
    Ok(start)
}

/// Pushes an item so many times. An `Err` leaves some of them behind the others.
fn push_times<T: Copy>(items: &mut Vec<T>, item: T, count: usize) -> Result<(), AllocError>
    ensures all { IfOk result (λ _. AreBehind item items.old.items items.new.items count) }
    ensures some { (pushed : ℕ) × (pushed ≤ count) × AreBehind item items.old.items items.new.items pushed }
{
    'items: for _ in 0..count {
        items.push(item)?;
    }
    Ok(())
}
