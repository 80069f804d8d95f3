//! The order that a block asks of its rows.

ghost use Rattle.std.specs.Prelude.{◌≡◌, IfOk, flat_map, map, option_map};
ghost use Rattle.definitions.specs.Estimates.Orders as spec;
ghost use Rattle.definitions.specs.Plans.Order as order;
ghost use Rattle.definitions.specs.Queries.Answer as answer;
ghost use Rattle.query_tree.specs.Bound as bound;
ghost use Rattle.plan_tree.specs.Plans.{key_of, order_of};
ghost use Rattle.interesting_orders.specs.Keys.{order_by};

use plan_tree::SortKey;
use predicates::column_of;
use query_tree::{Block, BlockColumn, Item, Key};
use std::alloc::{AllocError, Global};

/// The order that a block asks of its rows: of a grouped one the columns of GROUP BY, ascending (own); else that of ORDER BY, if
/// its keys are all columns (ISO/IEC 9075:1992, 13.1). It is empty where the block asks for none.
pub fn required_order(alloc: Global, block: &Block) -> Result<Vec<SortKey>, AllocError>
    ensures { IfOk result (λ keys. order_of keys.items ≡ spec.required_of (bound.block_of block.now)) }
{
    if is_grouped(block) {
        group_order(alloc, &block.groups)
    } else {
        item_order(alloc, &block.items, &block.order)
    }
}

/// Whether a block is grouped: it has GROUP BY, HAVING or a set function (ISO/IEC 9075:1992, 7.8, 7.9).
pub fn is_grouped(block: &Block) -> bool
    ensures { result ≡ answer.is_grouped (bound.block_of block.now) }
{
    !block.groups.is_empty() || block.having.is_some() || !block.functions.is_empty()
}

/// The order of columns, each ascending.
fn group_order(alloc: Global, columns: &[BlockColumn]) -> Result<Vec<SortKey>, AllocError>
    ensures { IfOk result (λ keys. order_of keys.items ≡ flat_map order.ascending (map bound.column_of columns.now)) }
{
    let mut keys = Vec::new(alloc);
    'columns: for column in columns {
        keys.push(SortKey {
            column: *column,
            descending: false,
        })?;
    }
    Ok(keys)
}

/// The order of keys of ORDER BY, if they are all columns, else none.
fn item_order(alloc: Global, items: &[Item], order: &[Key]) -> Result<Vec<SortKey>, AllocError>
    ensures { IfOk result (λ keys. order_of keys.items
        ≡ order_by (map bound.item_of items.now) (map bound.key_of order.now)) }
{
    let mut keys = Vec::new(alloc);
    'keys: for key in order {
        match sort_key(items, *key) {
            Some(key) => keys.push(key)?,
            None => return Ok(Vec::new(alloc)),
        }
    }
    Ok(keys)
}

/// The key of an order that one of ORDER BY is, if its result column is a column of a table.
fn sort_key(items: &[Item], key: Key) -> Option<SortKey>
    ensures { option_map key_of result ≡ spec.sort_key (map bound.item_of items.now) (bound.key_of key) }
{
    let column = column_of(&items.get(key.item)?.value)?;
    Some(SortKey {
        column,
        descending: key.descending,
    })
}
