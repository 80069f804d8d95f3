//! The paths of tables, for every set of tables whose rows are known.

ghost use Rattle.std.specs.Prelude.{◌≡◌, ◌<◌, IfOk, length, map};
ghost use Rattle.std.specs.List.{AllByRecursion};
ghost use Rattle.definitions.specs.Estimates.BlockSpace.{space_of};
ghost use Rattle.definitions.specs.Estimates.Orders as spec;
ghost use Rattle.definitions.specs.Estimates.Version as versions;
ghost use Rattle.definitions.specs.Plans.Numbering.{number_of};
ghost use Rattle.query_tree.specs.Bound.{block_of};
ghost use Rattle.plan_tree.specs.Plans.{path_of};
ghost use Rattle.plan_tree.specs.Sets.{set_of};
ghost use Rattle.access_paths.specs.Found.{FoundPath, found_path_of, Reads};
ghost use Rattle.plan_tree.specs.Versions.{version_of};
ghost use Rattle.plan_space.specs.PathListed.{AreListed, listed_path_of, with_number};
ghost use Rattle.plan_space.specs.Item.{AreItems};

use crate::paths::Paths;
use access_paths::{ScanCost, TablePath, table_paths};
use estimate::Estimate;
use interesting_orders::{SortOrders, known_indexes};
use plan_tree::{Path, TableSet, Version};
use std::alloc::{AllocError, Global};

/// A path of a table with the number of its order.
#[derive(Drop)]
pub(crate) struct NumberedPath {
    pub path: Path,
    /// The tables whose rows have to be known.
    pub required_outer: TableSet,
    pub cost: ScanCost,
    pub order: usize,
}

/// The paths of all tables of a block, for every set of tables whose rows are known.
#[derive(Drop)]
pub struct BlockPaths {
    tables: Vec<Vec<NumberedPath>>,
}

impl BlockPaths {
    ghost use Rattle.plan_space.specs.PathLists.{tables_in, AreBlockPaths};

    /// The paths of a version's plans, with the numbers of their orders.
    pub fn new(
        alloc: Global,
        estimate: &Estimate,
        version: Version,
        orders: &SortOrders,
    ) -> Result<BlockPaths, AllocError>
        requires orders { orders.now ≡ spec.orders_of (version_of version) estimate.now.database
            (block_of estimate.now.block) }
        ensures tables { IfOk result (λ p. tables_in p ≡ length (block_of estimate.now.block).tables) }
        ensures paths { IfOk result (AreBlockPaths (version_of version) estimate.now.database
            (block_of estimate.now.block)) }
    {
        let mut tables = Vec::new(alloc);
        'tables: for table in 0..estimate.table_count() {
            tables.push(listed_paths(alloc, estimate, version, orders, table)?)?;
        }
        Ok(BlockPaths { tables })
    }

    /// The paths of a table where the rows of a set of tables are known. It looks at each conjunct once, and at each path of the
    /// table as it comes to it.
    pub fn paths(&self, estimate: &Estimate, known: TableSet, table: usize) -> Paths<'_>
        requires table { table < tables_in self.now }
        requires block { table < length (block_of estimate.now.block).tables }
        ensures { (version : versions.Version) → AreBlockPaths version estimate.now.database
            (block_of estimate.now.block) self.now → AreItems
            (space_of version estimate.now.database (block_of estimate.now.block)) (set_of known) table result }
    {
        Paths::new(&self.tables[table], known, estimate.path_rows(known, table))
    }
}

/// The paths of a table with the numbers of their orders.
fn listed_paths(
    alloc: Global,
    estimate: &Estimate,
    version: Version,
    orders: &SortOrders,
    table: usize,
) -> Result<Vec<NumberedPath>, AllocError>
    requires table { table < length (block_of estimate.now.block).tables }
    requires orders { orders.now ≡ spec.orders_of (version_of version) estimate.now.database
        (block_of estimate.now.block) }
    ensures { IfOk result (λ paths. AreListed (version_of version) estimate.now.database (block_of estimate.now.block)
        table (map listed_path_of paths.items)) }
{
    let known = known_indexes(alloc, version, estimate.table(table))?;
    let found = table_paths(alloc, estimate, table, &known, version.reads_backward())?;
    with_orders(alloc, estimate, orders, table, found)
}

/// Paths with the numbers of their orders.
fn with_orders(
    alloc: Global,
    estimate: &Estimate,
    orders: &SortOrders,
    table: usize,
    found: Vec<TablePath>,
) -> Result<Vec<NumberedPath>, AllocError>
    requires table { table < length (block_of estimate.now.block).tables }
    requires reads { AllByRecursion (λ (x : FoundPath).
        Reads estimate.now.database (block_of estimate.now.block) table x.path) (map found_path_of found.items) }
    ensures { IfOk result (λ paths. map listed_path_of paths.items
        ≡ map (with_number estimate.now.database (block_of estimate.now.block) orders.now)
        (map found_path_of found.items)) }
{
    let mut paths = Vec::new(alloc);
    let mut rest = found.into_iter();
    'paths: while let Some(path) = rest.next() {
        paths.push(NumberedPath {
            required_outer: path.required_outer,
            cost: path.cost,
            order: order_number(estimate, orders, table, &path.path),
            path: path.path,
        })?;
    }
    Ok(paths)
}

/// The number of the order of a path's rows.
fn order_number(estimate: &Estimate, orders: &SortOrders, table: usize, path: &Path) -> usize
    requires table { table < length (block_of estimate.now.block).tables }
    requires reads { Reads estimate.now.database (block_of estimate.now.block) table (path_of path.now) }
    ensures { result ≡ number_of orders.now (spec.order_of_path estimate.now.database (block_of estimate.now.block)
        (path_of path.now)) }
{
    match path {
        Path::Segment { .. } => orders.number(&[]),
        Path::Index {
            index,
            backward,
            ..
        } => orders.index_number(estimate, table, *index, *backward),
        Path::Match {
            index,
            backward,
            ..
        } => orders.index_number(estimate, table, *index, *backward),
    }
}
