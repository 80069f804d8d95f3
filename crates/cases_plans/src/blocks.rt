//! The bound blocks of queries.

ghost use Rattle.std.specs.Prelude.{[], IfSome, map};
ghost use Rattle.std.specs.List.{AllByRecursion};
ghost use Rattle.definitions.specs.Binding.Answerable.{IsAnswerable};
ghost use Rattle.definitions.specs.Binding.Formed.{AreFormed, IsFormedSomewhere};
ghost use Rattle.query_tree.specs.Bound.{block_of};
ghost use Rattle.estimate.specs.Estimated.{IsFormed};

use binder::bind;
use catalog::Database;
use lexer::lex;
use query_tree::Block;
use std::alloc::Global;
use syntax::{Select, Statement, parse};

/// The outermost block of a query over a database; `None` where it is refused, or is no query.
pub(crate) fn block(alloc: Global, database: &Database, query: &str) -> Option<Block>
    ensures { IfSome result (λ b. IsFormed database.now (block_of b)) }
{
    let Some(mut blocks) = query_blocks(alloc, database, query) else {
        return None;
    };
    if blocks.is_empty() {
        return None;
    }
    Some(blocks.swap_remove(0))
}

/// All blocks of a query over a database, in the order of their numbers; `None` where it is refused, or is no query.
pub(crate) fn query_blocks(alloc: Global, database: &Database, query: &str) -> Option<Vec<Block>>
    ensures formed { IfSome result (λ blocks. AreFormed database.now (map block_of blocks.items) [] 0) }
    ensures each { IfSome result (λ blocks. AllByRecursion (IsFormedSomewhere database.now) (map block_of blocks.items)) }
    ensures answerable { IfSome result (λ blocks. AllByRecursion IsAnswerable (map block_of blocks.items)) }
{
    let tokens = lex(alloc, query).ok()?;
    let read = parse(alloc, &tokens, query.len()).ok()?;
    match read.statements.first() {
        Some(Statement::Query(select)) => bound(alloc, database, select),
        _ => None,
    }
}

fn bound(alloc: Global, database: &Database, select: &Select) -> Option<Vec<Block>>
    ensures formed { IfSome result (λ blocks. AreFormed database.now (map block_of blocks.items) [] 0) }
    ensures each { IfSome result (λ blocks. AllByRecursion (IsFormedSomewhere database.now) (map block_of blocks.items)) }
    ensures answerable { IfSome result (λ blocks. AllByRecursion IsAnswerable (map block_of blocks.items)) }
{
    // A look at its tables tells what holds of a database.
    let _tables = database.tables();
    let Ok(blocks) = bind(alloc, database, select) else {
        return None;
    };
    Some(blocks)
}
