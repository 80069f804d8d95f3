//! The plan space of a block.

ghost use Rattle.std.specs.Prelude.{◌≡◌, ◌<◌, ◌≤◌, IfOk, length};
ghost use Rattle.std.specs.Bool.{Decides};
ghost use Rattle.definitions.specs.Limits.{most_from_tables};
ghost use Rattle.definitions.specs.Estimates.Laws.{HasPlans};
ghost use Rattle.definitions.specs.Plans.ColumnClass.{Satisfies};
ghost use Rattle.definitions.specs.Plans.Cost.{limit, cost_of};
ghost use Rattle.definitions.specs.Plans.Folding.{Folds};
ghost use Rattle.definitions.specs.Plans.PlanSpace.{CanSort, InSpace};
ghost use Rattle.definitions.specs.Plans.Space.{whole, order_at};
ghost use Rattle.definitions.specs.Plans.TableSet.{only};
ghost use Rattle.query_tree.specs.Bound.{block_of};
ghost use Rattle.plan_tree.specs.Plans.{order_of, orders_in, plan_of};
ghost use Rattle.plan_tree.specs.Sets.{set_of};
ghost use Rattle.plan_tree.specs.Versions.{version_of};
ghost use Rattle.interesting_orders.specs.Sorts.{AreSorts};
ghost use Rattle.plan_space.specs.Item.{AreItems};
ghost use Rattle.plan_space.specs.Loop.{AreLoops};
ghost use Rattle.plan_space.specs.Merge.{AreMerges};
ghost use Rattle.plan_space.specs.Planned.{space_in};
ghost use Rattle.definitions.specs.Plans.Search.{IsComplete};
ghost use Rattle.plan_space.specs.Relation.{IsRelation, LinksSay};
ghost use Rattle.plan_space.specs.Measures.{Measures};

use crate::join_graph::linked_to;
use crate::join_relation::JoinRelation;
use crate::loop_joins::Loops;
use crate::merge_joins::Merges;
use crate::merge_lists::BlockMerges;
use crate::notes::{PlanNote, add_notes};
use crate::path_lists::BlockPaths;
use crate::paths::Paths;
use crate::plan_summary::PlanSummary;
use crate::sort_costs::sort_cost_of;
use crate::summarising::summarise;
use estimate::Estimate;
use interesting_orders::{InterestingOrders, SortOrders, Sorts, required_order};
use plan_tree::{Cost, Plan, SortKey, TableSet, Version, saturating_product};
use std::alloc::{AllocError, Global};
use std::marker::Model;

/// The plans of a block, in one of the versions of the plan space: what each step of a plan may be, and what it costs. What is asked
/// of a table again and again is made once, and of a set of tables where the set is met (`JoinRelation`).
#[derive(Drop)]
pub struct Space<'a> {
    estimate: Estimate<'a>,
    version: Version,
    orders: SortOrders,
    paths: BlockPaths,
    merges: BlockMerges,
    uses: InterestingOrders,
}

impl<'a> Model for Space<'a> {
    ghost use Rattle.std.specs.Coded.{codes};
    ghost use Rattle.query_tree.specs.contracts.block.Block as b;
    ghost use Rattle.plan_space.specs.Planned.{Planned};

    ghost Value = { Planned };

    ghost coded = { Prim.hlevel (codes, b.the_row.coded) };

    ghost use Rattle.plan_space.specs.Inside.{planned, IsPlanSpace};

    ghost view = { planned };

    ghost invariant = { IsPlanSpace };
}

impl<'a> Space<'a> {
    /// The plan space of a block. It keeps each table's paths and merges and each order, and goes through the conjuncts for each table
    /// and order.
    pub fn new(
        alloc: Global,
        estimate: Estimate<'a>,
        version: Version,
    ) -> Result<Space<'a>, AllocError>
        requires { HasPlans (block_of estimate.block) }
        ensures version { IfOk result (λ s. s.version ≡ version_of version) }
        ensures database { IfOk result (λ s. s.database ≡ estimate.entry.database) }
        ensures block { IfOk result (λ s. s.block ≡ estimate.entry.block) }
    {
        let tables = estimate.table_count();
        let required = required_order(alloc, estimate.block())?;
        let orders = SortOrders::new(alloc, &estimate, version, &required)?;
        let paths = BlockPaths::new(alloc, &estimate, version, &orders)?;
        let uses = InterestingOrders::new(
            alloc,
            estimate.conjuncts(),
            orders.all(),
            &required,
            tables,
        )?;
        let merges = BlockMerges::new(alloc, &estimate, &paths, &uses)?;
        Ok(Space {
            estimate,
            version,
            orders,
            paths,
            merges,
            uses,
        })
    }

    /// How many tables the block has. What the theory of plans says of complete spaces holds of this one.
    pub fn table_count(&self) -> usize
        ensures exact { result ≡ (space_in self.now).table_count }
        ensures few { result ≤ most_from_tables }
        ensures complete { IsComplete (space_in self.now) }
    {
        self.estimate.table_count()
    }

    /// The set of all tables.
    pub fn whole(&self) -> TableSet
        ensures { set_of result ≡ whole (space_in self.now) }
    {
        TableSet::first(self.table_count())
    }

    /// The numbered orders, by number, the empty one first.
    pub fn orders(&self) -> &[Vec<SortKey>]
        ensures exact { orders_in result.now ≡ (space_in self.now).orders }
        ensures some { 0 < length result.now }
    {
        self.orders.all()
    }

    /// How many numbered orders there are.
    pub fn order_count(&self) -> usize
        ensures exact { result ≡ length (space_in self.now).orders }
        ensures some { 0 < result }
    {
        self.orders.all().len()
    }

    /// The plans on a set of tables, as joins go on from them. It looks at each conjunct for each of the tables, and takes no memory.
    pub fn relation(&self, tables: TableSet) -> JoinRelation<'_>
        ensures tables { result.tables ≡ tables }
        ensures exact { IsRelation (space_in self.now) result }
    {
        JoinRelation {
            tables,
            rows: self.cardinality(tables),
            uses: &self.uses,
            classes: self.uses.classes(tables),
            linked: self.linked(tables),
        }
    }

    /// The tables that conjuncts link to a set of tables; none where products of tables are free.
    fn linked(&self, tables: TableSet) -> Option<TableSet>
        ensures { LinksSay (space_in self.now) (set_of tables) result }
    {
        if self.version.has_free_products() {
            return None;
        }
        let conjuncts = self.estimate.conjuncts();
        Some(linked_to(conjuncts, tables, self.estimate.table_count()))
    }

    /// The paths of a table where the rows of a set of tables are known. It looks at each conjunct once, and at each path of the table
    /// as it comes to it.
    pub fn paths(&self, known: TableSet, table: usize) -> Paths<'_>
        requires { table < (space_in self.now).table_count }
        ensures { AreItems (space_in self.now) (set_of known) table result }
    {
        self.paths.paths(&self.estimate, known, table)
    }

    /// The loops over a table on top of plans on a set of tables, each with what it adds to a plan's cost (Selinger et al. 1979,
    /// section 5). It looks at each path of the table as it comes to it.
    pub fn loops(&self, outer: &JoinRelation<'_>, table: usize) -> Loops<'_>
        requires outer { IsRelation (space_in self.now) outer.now }
        requires table { table < (space_in self.now).table_count }
        ensures { AreLoops (space_in self.now) (set_of outer.now.tables) table result }
    {
        Loops::new(self.paths(outer.tables, table), outer.rows)
    }

    /// The merges that bring a table on top of plans on a set of tables. It looks at each merge of the table as it comes to it.
    pub fn merges(&self, outer: &JoinRelation<'_>, table: usize) -> Merges<'_>
        requires outer { IsRelation (space_in self.now) outer.now }
        requires table { table < (space_in self.now).table_count }
        ensures { AreMerges (space_in self.now) (set_of outer.now.tables) table result }
    {
        let pairs = saturating_product(outer.rows, self.table_rows(table));
        self.merges.merges(outer.tables, table, pairs)
    }

    /// Whether rows of a set of tables may be sorted into an order.
    pub fn can_sort(&self, tables: TableSet, order: usize) -> bool
        ensures { Decides result (CanSort (space_in self.now) (set_of tables) order) }
    {
        self.uses.can_sort(tables, order)
    }

    /// The orders into which rows of a set of tables may be sorted. It looks at each order as it comes to it.
    pub fn sorts(&self, tables: TableSet) -> Sorts<'_>
        ensures { AreSorts (space_in self.now) (set_of tables) result }
    {
        self.uses.sorts(tables)
    }

    /// The fold of an order at a set of tables: itself where it is still of use, else the empty one.
    pub fn fold(&self, tables: TableSet, order: usize) -> usize
        ensures exact { Folds (space_in self.now) (set_of tables) order result }
        ensures within { result ≤ order }
    {
        self.uses.fold(tables, order)
    }

    /// Whether rows of all tables in an order are in the one that the block asks for.
    pub fn gives_required(&self, order: usize) -> bool
        ensures { Decides result (Satisfies (space_in self.now) (whole (space_in self.now))
            (order_at (space_in self.now) order) (space_in self.now).required) }
    {
        self.uses.gives_required(order)
    }

    /// Whether rows of plans on a set of tables in one order are in another, too; an order without a number is empty. It looks at each
    /// conjunct, and goes through the keys.
    pub fn satisfies(&self, tables: TableSet, order: usize, wanted: usize) -> bool
        ensures { Decides result (Satisfies (space_in self.now) (set_of tables) (order_at (space_in self.now) order)
            (order_at (space_in self.now) wanted)) }
    {
        let classes = self.uses.classes(tables);
        self.uses
            .satisfies(&classes, self.keys(order), self.keys(wanted))
    }

    /// The keys of an order; one without a number is empty.
    fn keys(&self, order: usize) -> &[SortKey]
        ensures { order_of result.now ≡ order_at (space_in self.now) order }
    {
        match self.orders.all().get(order) {
            Some(keys) => keys,
            None => &[],
        }
    }

    /// How many rows a set of tables is taken to give. It looks at each conjunct for each of the tables.
    pub fn cardinality(&self, tables: TableSet) -> u64
        ensures exact { result ≡ (space_in self.now).cardinality (set_of tables) }
        ensures below { result ≤ limit }
    {
        self.estimate.cardinality(tables)
    }

    /// How many rows a table is taken to give, with what is known of it alone.
    fn table_rows(&self, table: usize) -> u64
        requires { table < (space_in self.now).table_count }
        ensures exact { result ≡ (space_in self.now).cardinality (only table) }
        ensures below { result ≤ limit }
    {
        self.estimate.cardinality(TableSet::only(table))
    }

    /// What a sort of the rows of a set of tables costs. It looks at each conjunct for each of the tables.
    pub fn sort_cost(&self, tables: TableSet) -> Cost
        ensures { result.number ≡ (space_in self.now).sort_cost (set_of tables) }
    {
        self.sort_cost_with(tables, self.cardinality(tables))
    }

    /// What a sort of the rows of a relation costs.
    pub fn sort_cost_on(&self, outer: &JoinRelation<'_>) -> Cost
        requires { IsRelation (space_in self.now) outer.now }
        ensures { result.number ≡ (space_in self.now).sort_cost (set_of outer.now.tables) }
    {
        self.sort_cost_with(outer.tables, outer.rows)
    }

    /// What a sort of the rows of a set of tables costs, where it is known how many they are.
    fn sort_cost_with(&self, tables: TableSet, rows: u64) -> Cost
        requires { rows ≡ (space_in self.now).cardinality (set_of tables) }
        ensures { result.number ≡ (space_in self.now).sort_cost (set_of tables) }
    {
        sort_cost_of(&self.estimate, tables, rows)
    }

    /// Adds what a reader should know of the figures that the block's plans rest on, where the block has this number and its least plan
    /// costs so much (own). Where memory runs out, the rest is left out: a note never costs an answer.
    pub fn add_notes(&self, alloc: Global, notes: &mut Vec<PlanNote>, block: usize, least: Cost) {
        let _ = add_notes(alloc, notes, block, &self.estimate, least);
    }

    /// What a plan comes to, or none where it is no plan of the block, on whichever of its tables. It looks at all paths or merges of
    /// a table for each step of the plan.
    pub fn summary(&self, plan: &Plan) -> Option<PlanSummary>
        ensures { Measures (space_in self.now) (plan_of plan.now) result }
    {
        summarise(self, plan)
    }

    /// Whether any plan is in the space: a plan of the block on all its tables.
    pub fn in_space(&self, plan: &Plan) -> bool
        ensures { Decides result (InSpace (space_in self.now) (plan_of plan.now)) }
    {
        match summarise(self, plan) {
            Some(found) => found.tables.place() == self.whole().place(),
            None => false,
        }
    }

    /// What a plan of the space costs.
    pub fn cost(&self, plan: &Plan) -> Cost
        requires { InSpace (space_in self.now) (plan_of plan.now) }
        ensures { result.number ≡ cost_of (space_in self.now) (plan_of plan.now) }
    {
        match summarise(self, plan) {
            Some(found) => found.cost,
            None => unreachable!(),
        }
    }
}
