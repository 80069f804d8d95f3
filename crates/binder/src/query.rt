//! Binds a whole query: its outermost block with all blocks inside, and the keys of ORDER BY.

ghost use Rattle.std.specs.Prelude.{[], IfOk, IfErr, IfSome, map};
ghost use Rattle.definitions.specs.Invariant.{IsDatabase};
ghost use Rattle.definitions.specs.Binding.Faults.{Binds, QueryFaulty};
ghost use Rattle.definitions.specs.Binding.Formed.{AreFormed, AreWritten};
ghost use Rattle.query_tree.specs.Bound.{block_of};
ghost use Rattle.parse_tree.specs.Trees.{select_of};
ghost use Rattle.query_rules.specs.Meaning.{bind_refusal};

use crate::block::block;
use catalog::Database;
use parse_tree::Select;
use query_rules::{BindFault, Scopes, bound_order};
use query_tree::Block;
use std::alloc::Global;

/// The blocks of a query, with its names bound in a database: the outermost first, the others in the order of their words SELECT.
/// Or a fault that the query has: of several any one may be told.
pub fn bind<'d, 'q: 'd>(
    alloc: Global,
    database: &'d Database,
    query: &'q Select,
) -> Result<Vec<Block>, BindFault<'q>>
    requires valid { IsDatabase database.now }
    ensures bound { IfOk result (λ blocks. Binds database.now (select_of query.now) (map block_of blocks.items)) }
    ensures formed { IfOk result (λ blocks. AreWritten database.now (select_of query.now) →
        AreFormed database.now (map block_of blocks.items) [] 0) }
    ensures refused { IfErr result (λ f. IfSome (bind_refusal f) (QueryFaulty database.now (select_of query.now))) }
{
    let mut blocks = Vec::new(alloc);
    block(
        alloc,
        database,
        &Scopes::outside(alloc),
        &mut blocks,
        &query.block,
    )?;
    blocks[0].order = bound_order(alloc, &query.block.list, &blocks[0].items, &query.order)?;
    Ok(blocks)
}
