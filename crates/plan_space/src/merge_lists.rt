//! The merges that may bring tables, for every set of tables.

ghost use Rattle.std.specs.Prelude.{◌≡◌, ◌<◌, ◌*◌, IfOk, IfSome, OnOk, length};
ghost use Rattle.definitions.specs.Limits.{most_from_tables};
ghost use Rattle.definitions.specs.Plans.Cost.{saturated};
ghost use Rattle.definitions.specs.Plans.PlanSpace.{IsPath};
ghost use Rattle.definitions.specs.Plans.Space.{Space};
ghost use Rattle.definitions.specs.Plans.TableSet.{no_tables, only};
ghost use Rattle.definitions.specs.Estimates.PlanConjuncts as plans;
ghost use Rattle.definitions.specs.Estimates.Version.{Version};
ghost use Rattle.query_tree.specs.Bound.{block_of};
ghost use Rattle.plan_tree.specs.Plans.{path_of};
ghost use Rattle.plan_tree.specs.Sets.{set_of};
ghost use Rattle.interesting_orders.specs.Uses.{AreUses};
ghost use Rattle.plan_space.specs.Item.{AreItems, IsItem};
ghost use Rattle.plan_space.specs.Items.{item_of};
ghost use Rattle.plan_space.specs.PathLists as block_paths;
ghost use Rattle.plan_space.specs.Merge.{AddsMerges, AddsPath, AreMerges, ListsPathsOnce};
ghost use Rattle.plan_space.specs.MergeListed.{found_merge_of, AreMergesOf, IsWay};
ghost use Rattle.plan_space.specs.MergeSources.{estimated_space, merges_in, AreOfBlock, CanMergeBy, HasFigures};

use crate::listed::{MergeClause, MergeJoinPath};
use crate::merge_joins::Merges;
use crate::path_lists::BlockPaths;
use crate::paths::{CostedPath, Paths};
use crate::sort_costs::sort_cost_of;
use estimate::Estimate;
use interesting_orders::{EquivalenceClasses, InterestingOrders};
use plan_tree::{Cost, Path, TableSet};
use std::alloc::{AllocError, Global};

/// The merges that may bring each table of a block, on top of plans on any set of tables.
#[derive(Drop)]
pub struct BlockMerges {
    tables: Vec<Vec<MergeJoinPath>>,
}

impl BlockMerges {
    ghost use Rattle.plan_space.specs.MergeLists.{tables_in, AreBlockMerges};

    /// The merges of a block, by the paths of its tables and what its orders serve for.
    pub fn new(
        alloc: Global,
        estimate: &Estimate,
        paths: &BlockPaths,
        uses: &InterestingOrders,
    ) -> Result<BlockMerges, AllocError>
        requires paths { block_paths.tables_in paths.now ≡ length (block_of estimate.now.block).tables }
        ensures tables { IfOk result (λ m. tables_in m ≡ length (block_of estimate.now.block).tables) }
        ensures merges { (version : Version) → AreOfBlock version estimate.now paths.now uses.now →
            IfOk result (AreBlockMerges (estimated_space version estimate.now)) }
    {
        let mut tables = Vec::new(alloc);
        'tables: for table in 0..estimate.table_count() {
            tables.push(table_merges(alloc, estimate, paths, uses, table)?)?;
        }
        Ok(BlockMerges { tables })
    }

    /// The merges that bring a table on top of plans on a set of tables, of so many pairs of rows. It looks at each of the table's
    /// merges as it comes to it, and takes no memory.
    pub fn merges(&self, tables: TableSet, table: usize, pairs: u64) -> Merges<'_>
        requires { table < tables_in self.now }
        ensures { (space : Space) → AreBlockMerges space self.now →
            pairs ≡ saturated (space.cardinality (set_of tables) * space.cardinality (only table)) →
            AreMerges space (set_of tables) table result }
    {
        Merges::new(&self.tables[table], tables, pairs)
    }
}

/// The merges that may bring a table.
fn table_merges(
    alloc: Global,
    estimate: &Estimate,
    paths: &BlockPaths,
    uses: &InterestingOrders,
    table: usize,
) -> Result<Vec<MergeJoinPath>, AllocError>
    requires table { table < length (block_of estimate.now.block).tables }
    requires few { table < most_from_tables }
    requires paths { block_paths.tables_in paths.now ≡ length (block_of estimate.now.block).tables }
    ensures { (version : Version) → AreOfBlock version estimate.now paths.now uses.now →
        IfOk result (λ merges. AreMergesOf (estimated_space version estimate.now) table (merges_in merges)) }
{
    let alone = TableSet::only(table);
    let sort_cost = sort_cost_of(estimate, alone, estimate.cardinality(alone));
    let classes = uses.classes(alone);
    let mut merges = Vec::new(alloc);
    'conjuncts: for conjunct in 0..estimate.conjuncts().len() {
        if let Some(clause) = merge_way(estimate, uses, table, conjunct, sort_cost) {
            add_merges(
                &mut merges,
                uses,
                &classes,
                clause,
                paths.paths(estimate, TableSet::none(), table),
            )?;
        }
    }
    Ok(merges)
}

/// How a conjunct may merge a table, if it does.
fn merge_way(
    estimate: &Estimate,
    uses: &InterestingOrders,
    table: usize,
    conjunct: usize,
    sort_cost: Cost,
) -> Option<MergeClause>
    requires table { table < most_from_tables }
    requires conjunct { conjunct < length (plans.plan_conjuncts estimate.now.database (block_of estimate.now.block)) }
    ensures table { IfSome result (λ clause. clause.table ≡ table) }
    ensures exact { (space : Space) → HasFigures space estimate.now table sort_cost.number →
        AreUses space uses.now → IsWay space table conjunct result }
{
    let other = uses.merged_with(conjunct, table)?;
    Some(MergeClause {
        table,
        conjunct,
        other,
        selectivity: estimate.conjuncts()[conjunct].selectivity,
        sort_cost,
    })
}

/// Adds the merges of a conjunct: each path of the table that needs no rows of others, sorted, and as it is where its order serves, by
/// the classes of columns under the table alone.
fn add_merges(
    merges: &mut Vec<MergeJoinPath>,
    uses: &InterestingOrders,
    classes: &EquivalenceClasses,
    clause: MergeClause,
    paths: Paths<'_>,
) -> Result<(), AllocError>
    ensures { (space : Space) → CanMergeBy space clause uses.now classes.now →
        AreItems space no_tables clause.table paths.entry → ListsPathsOnce space clause.table →
        OnOk result (AddsMerges space clause.table clause.conjunct (merges_in merges.old) (merges_in merges.new)) }
{
    let mut rest = paths;
    'paths: while let Some(item) = rest.next() {
        add_path(merges, uses, classes, clause, item)?;
    }
    Ok(())
}

/// Adds the merges of a conjunct with a path.
fn add_path(
    merges: &mut Vec<MergeJoinPath>,
    uses: &InterestingOrders,
    classes: &EquivalenceClasses,
    clause: MergeClause,
    item: CostedPath<'_>,
) -> Result<(), AllocError>
    ensures { (space : Space) → CanMergeBy space clause uses.now classes.now → let path = path_of item.entry.path.now in
        IsItem space no_tables clause.table (item_of item.entry) → IsPath space no_tables path →
        OnOk result (AddsPath space clause.table clause.conjunct path (merges_in merges.old) (merges_in merges.new)) }
{
    let sorted = item.cost.plus(clause.sort_cost);
    merges.push(merge_path(clause, item.path, true, sorted)?)?;
    let alone = TableSet::only(clause.table);
    if uses.goes_by(classes, alone, item.order, clause.conjunct, clause.other) {
        merges.push(merge_path(clause, item.path, false, item.cost)?)?;
    }
    Ok(())
}

/// A merge of a conjunct with a path, whose inner side costs so much.
fn merge_path(
    clause: MergeClause,
    path: &Path,
    sorted: bool,
    cost: Cost,
) -> Result<MergeJoinPath, AllocError>
    ensures { IfOk result (λ merge. found_merge_of merge ≡
        record {
          conjunct = clause.conjunct;
          other = clause.other;
          inner =
              record { path = path_of path.now; sorted = sorted };
          cost = cost.number;
          selectivity = clause.selectivity;
        }) }
{
    Ok(MergeJoinPath {
        conjunct: clause.conjunct,
        other: clause.other,
        path: path.clone()?,
        sorted,
        cost,
        selectivity: clause.selectivity,
    })
}
