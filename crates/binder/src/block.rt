//! Binds one query block: its FROM, then WHERE, GROUP BY, HAVING and its result columns, as one bound block.

ghost use Rattle.std.specs.Prelude.{◌≡◌, ◌≤◌, ◌<◌, IsTrue, length, map, slice_set};
ghost use Rattle.query_rules.specs.Judging.{takes_functions};
ghost use Rattle.definitions.specs.Limits.{most_blocks};
ghost use Rattle.query_tree.specs.Bound.{block_of};
ghost use Rattle.parse_tree.specs.Trees.{block_of as query_of, condition_of as tree_condition_of};
ghost use Rattle.binder.specs.Blocks.{OptionAnswer};
ghost use Rattle.binder.specs.Clauses.{ClausesAnswer};
ghost use Rattle.query_rules.specs.Leaves.{InSight};
ghost use Rattle.query_rules.specs.Meaning.{place_of};
ghost use Rattle.binder.specs.Meaning.{progress_of, BlockAnswer};

use crate::condition::condition;
use crate::items::{ResultColumns, result_columns};
use catalog::Database;
use parse_tree::Expr;
use query_rules::{
    BindFault, Clause, ClauseKind, QueryFault, Scopes, group_columns, is_grouped, judge_limits,
    shown_place,
};
use query_tree::{Aggregate, Block, Condition, Item, ValueType};
use std::alloc::Global;
use std::mem;

/// How many blocks a query may have (own).
pub const MAX_BLOCKS: usize = 32;

/// A query block with those inside it, behind the blocks before, and the type of its only column.
#[cycle(binding)]
pub(crate) fn block<'d, 'q: 'd>(
    alloc: Global,
    database: &'d Database,
    outer: &Scopes<'d>,
    blocks: &mut Vec<Block>,
    query: &'q parse_tree::Block,
) -> Result<Option<ValueType>, BindFault<'q>>
    requires sight { InSight database.now outer.now }
    requires few { length blocks.old.items ≤ most_blocks }
    ensures { BlockAnswer database.now outer.now (map block_of blocks.old.items) (map block_of blocks.new.items)
        (query_of query.now) result }
{
    let number = blocks.len();
    if number >= MAX_BLOCKS {
        return Err(BindFault::Refused(QueryFault::ManyBlocks(query)));
    }
    let scopes = outer.inside(alloc, database, &query.sources.tables)?;
    let grouped = is_grouped(query);
    judge_limits(query, grouped)?;
    let groups = group_columns(alloc, &scopes, &query.groups)?;
    let tables = scopes.own_tables(alloc)?;
    blocks.push(empty(alloc))?;
    let place = shown_place(grouped, &groups);
    let Clauses {
        items,
        only,
        condition,
        having,
        functions,
    } = bound_clauses(alloc, database, &scopes, place, blocks, query)?;
    let block = Block {
        tables,
        distinct: query.distinct,
        items,
        condition,
        groups,
        having,
        functions,
        order: Vec::new(alloc),
    };
    put(blocks, number, block);
    Ok(only)
}

/// Puts a block in the place of the one of a number.
#[inline(never)]
fn put(blocks: &mut Vec<Block>, number: usize, block: Block)
    requires { number < length blocks.old.items }
    ensures { map block_of blocks.new.items ≡ slice_set (map block_of blocks.old.items) number (block_of block) }
{
    // The block that stood there is dropped as a whole.
    drop(mem::replace(&mut blocks[number], block));
}

/// A block whose parts are not bound yet: blocks inside it are numbered behind it.
#[inline(never)]
fn empty(alloc: Global) -> Block {
    Block {
        tables: Vec::new(alloc),
        distinct: false,
        items: Vec::new(alloc),
        condition: None,
        groups: Vec::new(alloc),
        having: None,
        functions: Vec::new(alloc),
        order: Vec::new(alloc),
    }
}

/// What is bound of the clauses of a block: its result columns and the type of the only one, WHERE
/// and HAVING, and the set functions in them.
#[derive(Drop)]
struct Clauses {
    items: Vec<Item>,
    only: Option<ValueType>,
    condition: Option<Condition>,
    having: Option<Condition>,
    functions: Vec<Aggregate>,
}

/// The clauses of a block, of which result columns and HAVING stand in a clause that is given.
#[cycle(binding)]
#[inline(never)]
fn bound_clauses<'d, 'q: 'd>(
    alloc: Global,
    database: &'d Database,
    scopes: &Scopes<'d>,
    place: ClauseKind<'_>,
    blocks: &mut Vec<Block>,
    query: &'q parse_tree::Block,
) -> Result<Clauses, BindFault<'q>>
    requires sight { InSight database.now scopes.now }
    requires shown { IsTrue (takes_functions (place_of place)) }
    requires few { length blocks.old.items ≤ most_blocks }
    ensures { ClausesAnswer database.now scopes.now (place_of place.entry) (map block_of blocks.old.items)
        (map block_of blocks.new.items) (query_of query.now) result }
{
    let shown = Clause {
        alloc,
        database,
        scopes,
        place,
    };
    let within = Clause {
        place: ClauseKind::Where,
        ..shown
    };
    let mut functions = Vec::new(alloc);
    let ResultColumns { items, only } = result_columns(
        &shown,
        blocks,
        &mut functions,
        &query.list,
    )?;
    let condition = optional_condition(&within, blocks, &mut functions, &query.condition)?;
    let having = optional_condition(&shown, blocks, &mut functions, &query.having)?;
    Ok(Clauses {
        items,
        only,
        condition,
        having,
        functions,
    })
}

/// The condition of WHERE or HAVING, if there is one.
#[cycle(binding)]
#[inline(never)]
fn optional_condition<'d, 'q: 'd>(
    clause: &Clause<'_, '_, 'd>,
    blocks: &mut Vec<Block>,
    functions: &mut Vec<Aggregate>,
    expr: &'q Option<Expr>,
) -> Result<Option<Condition>, BindFault<'q>>
    requires sight { InSight clause.now.database.now clause.now.scopes.now }
    requires few { length blocks.old.items ≤ most_blocks }
    ensures { OptionAnswer clause.now (progress_of blocks.old.items functions.old.items)
        (progress_of blocks.new.items functions.new.items) (tree_condition_of expr.now) result }
{
    match expr {
        Some(expr) => Ok(Some(condition(clause, blocks, functions, expr)?)),
        None => Ok(None),
    }
}
