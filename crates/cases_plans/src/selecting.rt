//! What a query answers by given plans of its blocks, whatever they cost.

ghost use Rattle.std.specs.Prelude.{◌≡◌, ◌<◌, ℕ, [], length, map};
ghost use Rattle.std.specs.Bool.{OnTrue};
ghost use Rattle.std.specs.List.{AllByRecursion};
ghost use Rattle.definitions.specs.Binding.Answerable.{IsAnswerable};
ghost use Rattle.definitions.specs.Binding.Formed.{AreFormed, IsFormedSomewhere};
ghost use Rattle.definitions.specs.Plans.PlanSpace.{GivesRequired, InSpace};
ghost use Rattle.definitions.specs.Queries.BoundBlock.{Blocks};
ghost use Rattle.definitions.specs.Table.{Database as Tables};
ghost use Rattle.definitions_answers.specs.Standing.{Stands};
ghost use Rattle.query_tree.specs.Bound.{block_of};
ghost use Rattle.plan_space.specs.Planned.{space_in};
ghost use Rattle.plan_tree.specs.Plans.{plan_of};
ghost use Rattle.scans.specs.Sources.{block_in};
ghost use Rattle.executor.specs.ReadyBlocks.{blocks_in, database_in, AreReady, IsReadyIn};

use crate::answer::{Answer, NONE};
use crate::blocks::query_blocks;
use crate::running::spelled_plan;
use catalog::Database;
use executor::{QueryWatch, ReadyBlock, ready_blocks, run_select};
use plan_space::{Plan, Space, Version};
use planner::least_plans;
use query_tree::Block;
use std::alloc::{AllocError, Global};

/// Nobody who would be told how far a query is.
#[derive(Drop)]
struct Unwatched;

impl QueryWatch for Unwatched {
    fn passed(&self, _combinations: u64) {}
}

/// Adds the rows that a query answers by plans of its blocks, which a text spells one behind another, and the work that this is; or that a
/// block may not be run by its plan. Plans are of the current version.
pub(crate) fn add_select(
    alloc: Global,
    database: &Database,
    query: &str,
    plans: &str,
    answer: &mut Answer,
) -> Result<(), AllocError> {
    match query_blocks(alloc, database, query) {
        Some(blocks) => add_planned(alloc, database, &blocks, plans, answer),
        None => {
            answer.fail();
            Ok(())
        }
    }
}

/// The same of a query's blocks.
fn add_planned(
    alloc: Global,
    database: &Database,
    blocks: &[Block],
    plans: &str,
    answer: &mut Answer,
) -> Result<(), AllocError>
    requires formed { AreFormed database.now (map block_of blocks.now) [] 0 }
    requires each { AllByRecursion (IsFormedSomewhere database.now) (map block_of blocks.now) }
    requires answerable { AllByRecursion IsAnswerable (map block_of blocks.now) }
{
    let chosen = least_plans(alloc, database, blocks)?;
    let mut query = ready_blocks(alloc, database, blocks, chosen)?;
    'numbers: for number in 0..blocks.len() {
        let block = &blocks[number];
        let text = plan_text(plans, number).unwrap_or("");
        let Some(plan) = spelled_plan(alloc, database, block, Version::Three, text)? else {
            answer.fail();
            return Ok(());
        };
        if !take_plan(&mut query[number], plan) {
            answer.add(NONE);
            return Ok(());
        }
    }
    if plan_text(plans, blocks.len()).is_some() {
        answer.fail();
        return Ok(());
    }
    add_answer(alloc, &query, answer)
}

/// The text of the plan of a number, from 0, if there is one.
fn plan_text(plans: &str, number: usize) -> Option<&str> {
    let mut place: usize = 0;
    for text in plans.split(';') {
        if place == number {
            return Some(text.trim_start());
        }
        place = place.saturating_add(1);
    }
    None
}

/// Has a block run by a plan, if it may be, and says so.
fn take_plan(ready: &mut ReadyBlock<'_>, plan: Plan) -> bool
    ensures ready { (db : Tables) (blocks : Blocks) (number : ℕ) → IsReadyIn db blocks number ready.old →
        IsReadyIn db blocks number ready.new }
    ensures block { block_in ready.new.source ≡ block_in ready.old.source }
{
    if may_run(&ready.space, &plan) {
        ready.plan = plan;
        return true;
    }
    false
}

/// Whether a block may be run by a plan: one of its space that gives the order that it asks for.
fn may_run(space: &Space<'_>, plan: &Plan) -> bool
    ensures { OnTrue result (InSpace (space_in space.now) (plan_of plan.now)
        × GivesRequired (space_in space.now) (plan_of plan.now)) }
{
    match space.summary(plan) {
        Some(found) => space.in_space(plan) && space.gives_required(found.order),
        None => false,
    }
}

/// Adds the rows that ready blocks answer, and their work.
fn add_answer(
    alloc: Global,
    query: &[ReadyBlock<'_>],
    answer: &mut Answer,
) -> Result<(), AllocError>
    requires query { AreReady query.now }
    requires outermost { 0 < length query.now }
    requires stands { Stands (database_in query.now) (blocks_in query.now) 0 [] }
{
    let Ok((text, work)) = run_select(alloc, query, &Unwatched) else {
        answer.fail();
        return Ok(());
    };
    add_rows(str::from_utf8(&text).unwrap_or(""), answer);
    answer.add(work);
    Ok(())
}

/// Adds the rows of a printed answer, which has a header before them and how many there are behind.
fn add_rows(text: &str, answer: &mut Answer) {
    let (_, rows) = text.split_once('\n').unwrap_or((text, ""));
    for line in rows.lines() {
        if !line.ends_with(" rows") {
            answer.add_row(line);
        }
    }
}
