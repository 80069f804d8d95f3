//! Sums a plan up: its tables, its order and its cost, if it is a plan of the block.

ghost use Rattle.std.specs.Prelude.{◌≡◌, ◌<◌, true, IfSome, option_map};
ghost use Rattle.std.specs.Bool.{Decides};
ghost use Rattle.definitions.specs.Limits.{most_from_tables};
ghost use Rattle.definitions.specs.Plans.Path.{table_of};
ghost use Rattle.definitions.specs.Plans.Plan as trees;
ghost use Rattle.definitions.specs.Plans.PlanSpace.{MayFollow};
ghost use Rattle.plan_tree.specs.Plans.{path_of, inner_of, plan_of};
ghost use Rattle.plan_tree.specs.Sets.{set_of};
ghost use Rattle.plan_space.specs.Items.{item_of};
ghost use Rattle.plan_space.specs.Loops.{loop_of};
ghost use Rattle.plan_space.specs.Merges.{merge_of};
ghost use Rattle.plan_space.specs.Planned.{space_in};
ghost use Rattle.plan_space.specs.Relation.{IsRelation};
ghost use Rattle.plan_space.specs.Measures.{IsMeasured, Measures, IsPathFound, IsLoopFound, IsMergeFound};

use crate::join_relation::JoinRelation;
use crate::loop_joins::CostedLoop;
use crate::merge_joins::CostedMerge;
use crate::paths::CostedPath;
use crate::plan_summary::PlanSummary;
use crate::same::are_one;
use crate::space::Space;
use plan_tree::{Inner, Path, Plan, TableSet};

/// What a plan comes to, if it is one of the block.
pub(crate) fn summarise(space: &Space, plan: &Plan) -> Option<PlanSummary>
    ensures { Measures (space_in space.now) (plan_of plan.now) result }
{
    match plan {
        Plan::Access(path) => access_summary(space, path),
        Plan::Loop { outer, path } => loop_summary(space, summarise(space, outer)?, path),
        Plan::Merge {
            outer,
            conjunct,
            inner,
        } => merge_summary(space, summarise(space, outer)?, *conjunct, inner),
        Plan::Sort { input, order } => sort_summary(space, summarise(space, input)?, *order),
    }
}

/// What the rows of one table come to.
fn access_summary(space: &Space, path: &Path) -> Option<PlanSummary>
    ensures { Measures (space_in space.now) (trees.Access (path_of path.now)) result }
{
    let item = find_path(space, TableSet::none(), path)?;
    Some(PlanSummary {
        tables: TableSet::only(path.table()),
        order: item.order,
        cost: item.cost,
    })
}

/// What a loop comes to, on top of a plan.
fn loop_summary(space: &Space, outer: PlanSummary, path: &Path) -> Option<PlanSummary>
    ensures { (plan : trees.Plan) → IsMeasured (space_in space.now) plan outer →
        Measures (space_in space.now) (trees.Loop plan (path_of path.now)) result }
{
    let relation = space.relation(outer.tables);
    if !follows(space, &relation, path.table()) {
        return None;
    }
    let item = find_loop(space, &relation, path)?;
    Some(PlanSummary {
        tables: outer.tables.with(path.table()),
        order: outer.order,
        cost: outer.cost.plus(item.cost),
    })
}

/// What a merge comes to, on top of a plan.
fn merge_summary(
    space: &Space,
    outer: PlanSummary,
    conjunct: usize,
    inner: &Inner,
) -> Option<PlanSummary>
    ensures { (plan : trees.Plan) → IsMeasured (space_in space.now) plan outer →
        Measures (space_in space.now) (trees.Merge plan conjunct (inner_of inner.now)) result }
{
    let relation = space.relation(outer.tables);
    let table = inner.path.table();
    if !follows(space, &relation, table) {
        return None;
    }
    if !relation.goes_by(outer.order, conjunct, table) {
        return None;
    }
    let item = find_merge(space, &relation, conjunct, inner)?;
    Some(PlanSummary {
        tables: outer.tables.with(table),
        order: outer.order,
        cost: outer.cost.plus(item.cost),
    })
}

/// What a sort comes to, on top of a plan.
fn sort_summary(space: &Space, input: PlanSummary, order: usize) -> Option<PlanSummary>
    ensures { (plan : trees.Plan) → IsMeasured (space_in space.now) plan input →
        Measures (space_in space.now) (trees.Sort plan order) result }
{
    if !space.can_sort(input.tables, order) {
        return None;
    }
    let sort_cost = space.sort_cost(input.tables);
    Some(PlanSummary {
        tables: input.tables,
        order,
        cost: input.cost.plus(sort_cost),
    })
}

/// Whether a table, whatever its number, may come next after a set of tables.
fn follows(space: &Space, outer: &JoinRelation<'_>, table: usize) -> bool
    requires { IsRelation (space_in space.now) outer.now }
    ensures few { result ≡ true → table < most_from_tables }
    ensures exact { Decides result (MayFollow (space_in space.now) (set_of outer.now.tables) table) }
{
    table < space.table_count() && outer.can_join_next(table)
}

/// A path among those where the rows of a set of tables are known.
fn find_path<'s>(space: &'s Space<'_>, known: TableSet, path: &Path) -> Option<CostedPath<'s>>
    ensures within { IfSome result (λ _. table_of (path_of path.now) < (space_in space.now).table_count) }
    ensures few { IfSome result (λ _. table_of (path_of path.now) < most_from_tables) }
    ensures exact { IsPathFound (space_in space.now) (set_of known) (path_of path.now) (option_map item_of result) }
{
    if path.table() >= space.table_count() {
        return None;
    }
    let mut rest = space.paths(known, path.table());
    'paths: while let Some(item) = rest.next() {
        if are_one(item.path, path) {
            return Some(item);
        }
    }
    None
}

/// A loop among those on top of plans on a set of tables.
fn find_loop<'s>(
    space: &'s Space<'_>,
    outer: &JoinRelation<'_>,
    path: &Path,
) -> Option<CostedLoop<'s>>
    requires outer { IsRelation (space_in space.now) outer.now }
    requires table { table_of (path_of path.now) < (space_in space.now).table_count }
    ensures { IsLoopFound (space_in space.now) (set_of outer.now.tables) (path_of path.now)
        (option_map loop_of result) }
{
    let mut rest = space.loops(outer, path.table());
    'loops: while let Some(item) = rest.next() {
        if are_one(item.path, path) {
            return Some(item);
        }
    }
    None
}

/// A merge among those on top of plans on a set of tables.
fn find_merge<'s>(
    space: &'s Space<'_>,
    outer: &JoinRelation<'_>,
    conjunct: usize,
    inner: &Inner,
) -> Option<CostedMerge<'s>>
    requires outer { IsRelation (space_in space.now) outer.now }
    requires table { table_of (path_of inner.now.path) < (space_in space.now).table_count }
    ensures { IsMergeFound (space_in space.now) (set_of outer.now.tables) conjunct (inner_of inner.now)
        (option_map merge_of result) }
{
    let mut rest = space.merges(outer, inner.path.table());
    'merges: while let Some(item) = rest.next() {
        if is_it(item, conjunct, inner) {
            return Some(item);
        }
    }
    None
}

/// Whether a merge is by a conjunct, with an inner side.
fn is_it(item: CostedMerge<'_>, conjunct: usize, inner: &Inner) -> bool
    ensures { Decides result (((merge_of item.entry).conjunct ≡ conjunct) ×
        ((merge_of item.entry).inner ≡ inner_of inner.now)) }
{
    item.conjunct == conjunct && item.sorted == inner.sorted && are_one(item.path, &inner.path)
}
