//! What a row may ask of a block. Tables, conjuncts and sets of tables are numbered as in certificates: tables and conjuncts from 1, a set by
//! the sum of 2^(t-1) over its tables.

ghost use Rattle.estimate.specs.Estimated.{IsFormed};
ghost use Rattle.query_tree.specs.Bound.{block_of};

use crate::answer::{Answer, BAR, DOWN, number_of};
use crate::running::{add_run, space_of};
use catalog::Database;
use estimate::{Estimate, conjuncts};
use join_dp::{Tried, optimise};
use plan_space::{JoinRelation, Space, Version};
use plan_tree::TableSet;
use query_tree::Block;
use std::alloc::{AllocError, Global};

/// Adds the answer to a question about a block.
pub(crate) fn ask_block(
    alloc: Global,
    database: &Database,
    block: &Block,
    version: Version,
    question: &str,
    answer: &mut Answer,
) -> Result<(), AllocError>
    requires { IsFormed database.now (block_of block.now) }
{
    let (kind, rest) = question.split_once(' ').unwrap_or((question, ""));
    match kind {
        "share" => add_share(alloc, database, block, number_of(rest), answer),
        "run" => add_run(alloc, database, block, version, rest, answer),
        _ => {
            let space = space_of(alloc, database, block, version)?;
            ask_space(alloc, &space, kind, rest, answer)
        }
    }
}

/// Adds whether a conjunct is early, and its share in millionths.
fn add_share(
    alloc: Global,
    database: &Database,
    block: &Block,
    conjunct: u64,
    answer: &mut Answer,
) -> Result<(), AllocError>
    requires { IsFormed database.now (block_of block.now) }
{
    let conjuncts = conjuncts(alloc, block)?;
    let estimate = Estimate::new(alloc, database, block, &conjuncts)?;
    let place = (conjunct as usize).wrapping_sub(1);
    let Some(found) = estimate.conjuncts().get(place) else {
        answer.fail();
        return Ok(());
    };
    answer.add(u64::from(!found.conjunct.late));
    answer.add(u64::from(found.selectivity));
    Ok(())
}

/// Adds the answer to a question about a plan space.
fn ask_space(
    alloc: Global,
    space: &Space<'_>,
    kind: &str,
    rest: &str,
    answer: &mut Answer,
) -> Result<(), AllocError> {
    match kind {
        "orders" => add_orders(space, answer),
        "required" => add_required(space, answer),
        "solutions" => answer.add(tried(alloc, space)?.solutions),
        "steps" => {
            let most = number_of(rest.strip_prefix("at most ").unwrap_or(""));
            answer.add(u64::from(tried(alloc, space)?.steps <= most));
        }
        _ => ask_set(space, kind, number_of(rest), answer),
    }
    Ok(())
}

/// How much a search does.
fn tried(alloc: Global, space: &Space<'_>) -> Result<Tried, AllocError> {
    let (_, _, tried) = optimise(alloc, space)?;
    Ok(tried)
}

/// Adds the keys of each order: whether it goes down, and its table and column from 1.
fn add_orders(space: &Space<'_>, answer: &mut Answer) {
    for order in space.orders() {
        for key in order {
            if key.descending {
                answer.add(DOWN);
            }
            answer.add_from_one(key.column.table);
            answer.add_from_one(key.column.number);
        }
        answer.add(BAR);
    }
}

/// Adds the orders that give the one that is asked for.
fn add_required(space: &Space<'_>, answer: &mut Answer) {
    for order in 0..space.order_count() {
        if space.gives_required(order) {
            answer.add_place(order);
        }
    }
}

/// Adds the answer to a question about a set of tables.
fn ask_set(space: &Space<'_>, kind: &str, set: u64, answer: &mut Answer) {
    let Some(tables) = set_of_number(space, set) else {
        return answer.fail();
    };
    match kind {
        "rows" => answer.add(space.cardinality(tables)),
        "sort" => answer.add(space.sort_cost(tables).number),
        "sorts" => add_sorts(space, tables, answer),
        "folds" => add_folds(space, tables, answer),
        "serves" => add_serves(space, tables, answer),
        "next" => add_next(space, tables, answer),
        "leads" => add_leads(space, tables, answer),
        _ => answer.fail(),
    }
}

/// The set of a number, if the block has its tables.
fn set_of_number(space: &Space<'_>, set: u64) -> Option<TableSet> {
    let place = set as usize;
    if place > space.whole().place() {
        return None;
    }
    Some(TableSet::at(place))
}

/// Adds the orders that the rows of a set may be sorted into.
fn add_sorts(space: &Space<'_>, tables: TableSet, answer: &mut Answer) {
    let mut sorts = space.sorts(tables);
    'sorts: while let Some(order) = sorts.next() {
        answer.add_place(order);
    }
}

/// Adds the fold of each order at a set.
fn add_folds(space: &Space<'_>, tables: TableSet, answer: &mut Answer) {
    for order in 0..space.order_count() {
        answer.add_place(space.fold(tables, order));
    }
}

/// Adds for each order those that it gives too where a set is joined.
fn add_serves(space: &Space<'_>, tables: TableSet, answer: &mut Answer) {
    for order in 0..space.order_count() {
        for wanted in 0..space.order_count() {
            if space.satisfies(tables, order, wanted) {
                answer.add_place(wanted);
            }
        }
        answer.add(BAR);
    }
}

/// Adds the tables that may come next to a set.
fn add_next(space: &Space<'_>, tables: TableSet, answer: &mut Answer) {
    let outer = space.relation(tables);
    for table in 0..space.table_count() {
        if outer.can_join_next(table) {
            answer.add_from_one(table);
        }
    }
}

/// Adds the merges that a set's orders go by, of the first two conjuncts: order, conjunct and the table that comes next.
fn add_leads(space: &Space<'_>, tables: TableSet, answer: &mut Answer) {
    let outer = space.relation(tables);
    for order in 0..space.order_count() {
        add_led(space, &outer, order, 0, answer);
        add_led(space, &outer, order, 1, answer);
    }
}

fn add_led(
    space: &Space<'_>,
    outer: &JoinRelation<'_>,
    order: usize,
    conjunct: usize,
    answer: &mut Answer,
) {
    for table in 0..space.table_count() {
        if outer.goes_by(order, conjunct, table) {
            answer.add_place(order);
            answer.add_from_one(conjunct);
            answer.add_from_one(table);
            answer.add(BAR);
        }
    }
}
