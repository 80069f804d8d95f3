//! The joins on top of the plans of each set of tables.

ghost use Rattle.std.specs.Prelude.{ℕ, ◌≡◌, ◌≢◌, ◌<◌, ◌≤◌, ◌^◌, [], ◌∷◌, ◌++◌, None, IfOk, length, get_or, map, option_map};
ghost use Rattle.std.specs.Bool.{Decides};
ghost use Rattle.definitions.specs.Limits.{most_from_tables};
ghost use Rattle.definitions.specs.Plans.Path.{Path};
ghost use Rattle.definitions.specs.Plans.PlanSpace.{MayFollow};
ghost use Rattle.plan_tree.specs.Sets.{set_of};
ghost use Rattle.join_dp.specs.JoinLists.{AreJoinsWith, AreLoops, AreMergesBelow, AreLists, IsBest, IsLonger, Stand, known_cost, less_dear, listed_merge};
ghost use Rattle.join_dp.specs.Joining.{join_cost, IsJoin};
ghost use Rattle.join_dp.specs.Steps as steps;
ghost use Rattle.join_dp.specs.Views.{added_of};
ghost use Rattle.plan_space.specs.Merges.{merge_of};
ghost use Rattle.plan_space.specs.Planned.{space_in};
ghost use Rattle.plan_space.specs.Relation.{IsRelation};

use crate::cheapest_path::cheapest_path;
use crate::step::{AddedJoin, Join};
use plan_space::{CostedMerge, JoinRelation, Space, loop_cost};
use plan_tree::{Cost, TableSet};
use std::alloc::{AllocError, Global};

/// Where the relation of a set stands, and where the joins on top of its plans do.
#[derive(Clone, Copy)]
pub(crate) struct Places {
    pub relation: usize,
    pub start: usize,
    pub end: usize,
}

/// The sets of tables that were met, as joins go on from them: the relation of each, and the joins on top of its plans, those that one of
/// them may need.
#[derive(Drop)]
pub(crate) struct JoinLists<'a> {
    pub relations: Vec<JoinRelation<'a>>,
    pub joins: Vec<AddedJoin<'a>>,
    pub places: Vec<Option<Places>>,
}

impl<'a> JoinLists<'a> {
    /// No joins, for so many sets of tables.
    pub fn new(alloc: Global, sets: usize) -> Result<JoinLists<'a>, AllocError>
        ensures sets { IfOk result (λ lists. length lists.places.items ≡ sets) }
        ensures none { IfOk result (λ lists. (tables : ℕ) → get_or lists.places.items tables None ≡ None) }
    {
        let mut places: Vec<Option<Places>> = Vec::new(alloc);
        'sets: for _ in 0..sets {
            places.push(None)?;
        }
        Ok(JoinLists {
            relations: Vec::new(alloc),
            joins: Vec::new(alloc),
            places,
        })
    }

    /// Where the joins on top of the plans of a set stand, if they are listed.
    pub fn places(&self, tables: TableSet) -> Option<Places>
        requires { set_of tables < length self.now.places.items }
        ensures { result ≡ get_or self.now.places.items (set_of tables) None }
    {
        self.places[tables.place()]
    }

    /// Lists the joins on top of the plans of a set, and keeps its relation.
    pub fn list(
        &mut self,
        space: &'a Space<'_>,
        outer: JoinRelation<'a>,
    ) -> Result<Places, AllocError>
        requires outer { IsRelation (space_in space.now) outer }
        requires set { set_of outer.tables < 2 ^ (space_in space.now).table_count }
        requires lists { AreLists (space_in space.now) self.old }
        requires none { get_or self.old.places.items (set_of outer.tables) None ≡ None }
        ensures lists { IfOk result (λ _. AreLists (space_in space.now) self.new) }
        ensures here { IfOk result (λ places. Stand self.new (set_of outer.entry.tables) places) }
        ensures others { IfOk result (λ _. (other : ℕ) → other ≢ set_of outer.entry.tables →
            get_or self.new.places.items other None ≡ get_or self.old.places.items other None) }
    {
        let start = self.joins.len();
        'tables: for table in 0..space.table_count() {
            push_last(space, &outer, table, &mut self.joins)?;
        }
        let tables = outer.tables;
        let relation = self.relations.len();
        let end = self.joins.len();
        let places = Places {
            relation,
            start,
            end,
        };
        self.relations.push(outer)?;
        self.places[tables.place()] = Some(places);
        Ok(places)
    }
}

/// Lists the joins by which a table comes last.
fn push_last<'a>(
    space: &'a Space<'_>,
    outer: &JoinRelation<'_>,
    table: usize,
    joins: &mut Vec<AddedJoin<'a>>,
) -> Result<(), AllocError>
    requires outer { IsRelation (space_in space.now) outer.now }
    requires table { table < (space_in space.now).table_count }
    ensures longer { IfOk result (λ _. IsLonger (map added_of joins.old.items) (map added_of joins.new.items)) }
    ensures joins { IfOk result (λ _. AreJoinsWith (space_in space.now) (map added_of joins.new.items)
        (set_of outer.now.tables)
        (length joins.old.items) (length joins.new.items) table) }
{
    if !outer.can_join_next(table) {
        return Ok(());
    }
    let known = push_loop(space, outer, table, joins)?;
    push_merges(space, outer, table, known, joins)
}

/// Lists the loop over a table that costs least, and tells what it adds to the cost of a plan, if there is one. The other loops go with the
/// same plans and add no less.
fn push_loop<'a>(
    space: &'a Space<'_>,
    outer: &JoinRelation<'_>,
    table: usize,
    joins: &mut Vec<AddedJoin<'a>>,
) -> Result<Option<Cost>, AllocError>
    requires outer { IsRelation (space_in space.now) outer.now }
    requires follows { MayFollow (space_in space.now) (set_of outer.now.tables) table }
    ensures longer { IfOk result (λ _. IsLonger (map added_of joins.old.items) (map added_of joins.new.items)) }
    ensures loops { IfOk result (λ known. AreLoops (space_in space.now) (map added_of joins.new.items)
        (set_of outer.now.tables)
        (length joins.old.items) (length joins.new.items) table (known_cost known)) }
{
    let Some(item) = cheapest_path(space, outer.tables, table) else {
        return Ok(None);
    };
    let cost = loop_cost(outer.rows, item.cost);
    joins.push(AddedJoin {
        table,
        join: Join::Loop { path: item.path },
        cost,
    })?;
    Ok(Some(cost))
}

/// Lists the merges with a table that add less to the cost of a plan than a join that goes with all plans, if one is known. Of those by one
/// conjunct, which go with the same plans, that which adds least is enough.
fn push_merges<'a>(
    space: &'a Space<'_>,
    outer: &JoinRelation<'_>,
    table: usize,
    known: Option<Cost>,
    joins: &mut Vec<AddedJoin<'a>>,
) -> Result<(), AllocError>
    requires outer { IsRelation (space_in space.now) outer.now }
    requires follows { MayFollow (space_in space.now) (set_of outer.now.tables) table }
    ensures longer { IfOk result (λ _. IsLonger (map added_of joins.old.items) (map added_of joins.new.items)) }
    ensures merges { IfOk result (λ _. AreMergesBelow (space_in space.now) (map added_of joins.new.items)
        (set_of outer.now.tables)
        (length joins.old.items) (length joins.new.items) table (known_cost known)) }
{
    let mut best: Option<CostedMerge<'a>> = None;
    'merges: for item in space.merges(outer, table) {
        if adds_less(item.cost, known) {
            best = Some(keep_best(best, item, table, joins)?);
        }
    }
    match best {
        Some(best) => push_merge(best, table, joins),
        None => Ok(()),
    }
}

/// The best merge with one more: the cheaper one of one conjunct; where the conjunct is another, the best one so far is listed.
fn keep_best<'a>(
    best: Option<CostedMerge<'a>>,
    item: CostedMerge<'a>,
    table: usize,
    joins: &mut Vec<AddedJoin<'a>>,
) -> Result<CostedMerge<'a>, AllocError>
    ensures { IfOk result (λ next. IsBest table (option_map merge_of best.entry) (merge_of item.entry)
        (map added_of joins.old.items) (merge_of next) (map added_of joins.new.items)) }
{
    let Some(best) = best else {
        return Ok(item);
    };
    if best.conjunct == item.conjunct {
        return Ok(cheaper_merge(best, item));
    }
    push_merge(best, table, joins)?;
    Ok(item)
}

/// The merge that adds less, of two.
fn cheaper_merge<'a>(best: CostedMerge<'a>, item: CostedMerge<'a>) -> CostedMerge<'a>
    ensures { merge_of result ≡ less_dear (merge_of best.entry) (merge_of item.entry) }
{
    if item.cost.number < best.cost.number {
        item
    } else {
        best
    }
}

/// Lists a merge with a table.
fn push_merge<'a>(
    merge: CostedMerge<'a>,
    table: usize,
    joins: &mut Vec<AddedJoin<'a>>,
) -> Result<(), AllocError>
    ensures { IfOk result (λ _. map added_of joins.new.items
        ≡ map added_of joins.old.items ++ listed_merge table (merge_of merge.entry) ∷ []) }
{
    joins.push(AddedJoin {
        table,
        join: Join::Merge {
            conjunct: merge.conjunct,
            path: merge.path,
            sorted: merge.sorted,
        },
        cost: merge.cost,
    })?;
    Ok(())
}

/// Whether a join that adds so much adds less than one that is known, if there is one.
fn adds_less(cost: Cost, known: Option<Cost>) -> bool
    ensures { Decides result (cost.number < known_cost known) }
{
    match known {
        Some(known) => cost.number < known.number,
        None => true,
    }
}
