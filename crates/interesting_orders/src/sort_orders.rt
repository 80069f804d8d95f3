//! The numbered orders of a block.

ghost use Rattle.std.specs.Prelude.{◌≡◌, ◌<◌, [], IfOk, OnOk, IfSome, fold, if◌then◌else◌, length, map};
ghost use Rattle.definitions.specs.Estimates.BlockTables.{table_at};
ghost use Rattle.definitions.specs.Estimates.Orders as spec;
ghost use Rattle.definitions.specs.Estimates.Version.{directions};
ghost use Rattle.definitions.specs.Plans.Numbering as numbering;
ghost use Rattle.definitions.specs.Plans.Order as order;
ghost use Rattle.definitions.specs.Table as tables;
ghost use Rattle.query_tree.specs.Bound.{block_of, column_of};
ghost use Rattle.estimate.specs.PlanConjuncts.{conjunct_of};
ghost use Rattle.plan_tree.specs.Plans.{key_of, order_of, orders_in};
ghost use Rattle.plan_tree.specs.Versions.{version_of};
ghost use Rattle.interesting_orders.specs.Keys.{index_keys, column_orders, read_key};
ghost use Rattle.interesting_orders.specs.Adding.{added, table_keys};

use crate::known::known_indexes;
use crate::places::sides;
use catalog::Table;
use estimate::{Estimate, PlanConjunct};
use plan_tree::{SortKey, Version};
use query_tree::BlockColumn;
use std::alloc::{AllocError, Global};
use std::marker::Model;

/// The orders of a block that plans may give their rows, by number: the empty one, the one that the block asks for, those of merge
/// conjuncts in text order, and those of indexes, table by table. None has two numbers.
#[derive(Drop)]
pub struct SortOrders {
    orders: Vec<Vec<SortKey>>,
}

impl Model for SortOrders {
    ghost use Rattle.std.specs.Prelude.{List};
    ghost use Rattle.definitions.specs.Plans.Order.{Order};

    ghost Value = { List Order };

    ghost use Rattle.plan_tree.specs.Plans.{orders_in};

    ghost view = { λ s. orders_in s.orders.items };
}

impl SortOrders {
    /// The orders of a block, of which the order that it asks for is known.
    pub fn new(
        alloc: Global,
        estimate: &Estimate,
        version: Version,
        required: &[SortKey],
    ) -> Result<SortOrders, AllocError>
        requires required { order_of required.now ≡ spec.required_of (block_of estimate.now.block) }
        ensures { IfOk result (λ orders. orders ≡ spec.orders_of (version_of version) estimate.now.database
            (block_of estimate.now.block)) }
    {
        let mut orders = SortOrders {
            orders: Vec::new(alloc),
        };
        orders.add(Vec::new(alloc))?;
        orders.add(Vec::from_slice(alloc, required)?)?;
        orders.add_merges(alloc, estimate.conjuncts())?;
        orders.add_indexes(alloc, estimate, version)?;
        Ok(orders)
    }

    /// All orders, by number.
    pub fn all(&self) -> &[Vec<SortKey>]
        ensures { orders_in result.now ≡ self.now }
    {
        self.orders.as_slice()
    }

    /// The number of an order; of one that has none, how many there are.
    pub fn number(&self, keys: &[SortKey]) -> usize
        ensures { result ≡ numbering.number_of self.now (order_of keys.now) }
    {
        'orders: for number in 0..self.orders.len() {
            if are_equal(keys, &self.orders[number]) {
                return number;
            }
        }
        self.orders.len()
    }

    /// The number of the order in which an index of a table is read, forward or backward; of one that has none, how many there are.
    pub fn index_number(
        &self,
        estimate: &Estimate,
        table: usize,
        index: usize,
        backward: bool,
    ) -> usize
        requires table { table < length (block_of estimate.now.block).tables }
        requires index { IfSome (table_at estimate.now.database (block_of estimate.now.block) table)
            (λ (t : tables.Table). index < length t.indexes) }
        ensures { result ≡ numbering.number_of self.now
            (spec.index_order estimate.now.database (block_of estimate.now.block) table index backward) }
    {
        let columns = estimate.table(table).index(index).columns();
        'orders: for number in 0..self.orders.len() {
            if is_of_index(&self.orders[number], table, columns, backward) {
                return number;
            }
        }
        self.orders.len()
    }

    /// Adds an order, if it isn't there.
    fn add(&mut self, order: Vec<SortKey>) -> Result<(), AllocError>
        ensures { OnOk result (self.new ≡ added self.old (order_of order.items)) }
    {
        if self.number(&order) == self.orders.len() {
            self.orders.push(order)?;
        }
        Ok(())
    }

    /// Adds the orders of merge conjuncts: each of the two columns, ascending.
    fn add_merges(&mut self, alloc: Global, conjuncts: &[PlanConjunct]) -> Result<(), AllocError>
        ensures { OnOk result (self.new ≡ fold added self.old
            (numbering.merge_orders (map conjunct_of conjuncts.now))) }
    {
        'conjuncts: for conjunct in conjuncts {
            if let Some((x, y)) = merge_columns(conjunct) {
                self.add(ascending_order(alloc, x)?)?;
                self.add(ascending_order(alloc, y)?)?;
            }
        }
        Ok(())
    }

    /// Adds the orders of the indexes of all tables.
    fn add_indexes(
        &mut self,
        alloc: Global,
        estimate: &Estimate,
        version: Version,
    ) -> Result<(), AllocError>
        ensures { OnOk result (self.new ≡ fold added self.old
            (spec.index_orders (version_of version) estimate.now.database (block_of estimate.now.block))) }
    {
        'tables: for table in 0..estimate.table_count() {
            self.add_table(alloc, version, table, estimate.table(table))?;
        }
        Ok(())
    }

    /// Adds the orders of the indexes of a table.
    fn add_table(
        &mut self,
        alloc: Global,
        version: Version,
        number: usize,
        table: &Table,
    ) -> Result<(), AllocError>
        ensures { OnOk result (self.new ≡ fold added self.old (table_keys (version_of version) number table.now)) }
    {
        let known = known_indexes(alloc, version, table)?;
        'indexes: for index in &known {
            self.add_index(alloc, version, number, table.index(*index).columns())?;
        }
        Ok(())
    }

    /// Adds the order of an index, or its two orders.
    fn add_index(
        &mut self,
        alloc: Global,
        version: Version,
        table: usize,
        columns: &[usize],
    ) -> Result<(), AllocError>
        ensures { OnOk result (self.new ≡ fold added self.old
            (map (index_keys table columns.now) (directions (version_of version)))) }
    {
        self.add(index_order(alloc, table, columns, false)?)?;
        if version.reads_backward() {
            self.add(index_order(alloc, table, columns, true)?)?;
        }
        Ok(())
    }
}

/// Whether two orders are one.
fn are_equal(a: &[SortKey], b: &[SortKey]) -> bool
    ensures { result ≡ numbering.same_order (order_of a.now) (order_of b.now) }
{
    if a.len() != b.len() {
        return false;
    }
    'keys: for place in 0..a.len() {
        if !is_same(a[place], b[place]) {
            return false;
        }
    }
    true
}

/// Whether an order is that in which an index is read.
fn is_of_index(order: &[SortKey], table: usize, columns: &[usize], backward: bool) -> bool
    ensures { result ≡ numbering.same_order (index_keys table columns.now backward) (order_of order.now) }
{
    if columns.len() != order.len() {
        return false;
    }
    'keys: for place in 0..columns.len() {
        if !is_same(index_key(table, columns[place], backward), order[place]) {
            return false;
        }
    }
    true
}

fn is_same(a: SortKey, b: SortKey) -> bool
    ensures { result ≡ numbering.same_key (key_of a) (key_of b) }
{
    a.column.table == b.column.table
        && a.column.number == b.column.number
        && a.descending == b.descending
}

/// The columns of a merge conjunct: it is early, and they are of two tables.
fn merge_columns(conjunct: &PlanConjunct) -> Option<(BlockColumn, BlockColumn)>
    ensures { column_orders result ≡ (if (conjunct_of conjunct.now).early then numbering.side_orders
        (conjunct_of conjunct.now).equated else []) }
{
    match sides(conjunct) {
        Some((x, y)) if x.table != y.table => Some((x, y)),
        _ => None,
    }
}

fn ascending_order(alloc: Global, column: BlockColumn) -> Result<Vec<SortKey>, AllocError>
    ensures { IfOk result (λ keys. order_of keys.items ≡ order.ascending (column_of column)) }
{
    let mut keys = Vec::new(alloc);
    keys.push(SortKey {
        column,
        descending: false,
    })?;
    Ok(keys)
}

fn index_key(table: usize, number: usize, backward: bool) -> SortKey
    ensures { key_of result ≡ read_key table backward number }
{
    SortKey {
        column: BlockColumn { table, number },
        descending: backward,
    }
}

/// The order in which an index on columns of a table is read.
fn index_order(
    alloc: Global,
    table: usize,
    columns: &[usize],
    backward: bool,
) -> Result<Vec<SortKey>, AllocError>
    ensures { IfOk result (λ keys. order_of keys.items ≡ index_keys table columns.now backward) }
{
    let mut keys = Vec::new(alloc);
    'columns: for column in columns {
        keys.push(index_key(table, *column, backward))?;
    }
    Ok(keys)
}
