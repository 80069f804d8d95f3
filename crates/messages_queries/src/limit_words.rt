//! The limits that queries pass, in words: how many there may be, and how many there are.

use crate::blocks_around::{blocks_around, count_blocks};
use crate::limits::count_conjuncts;
use crate::list_lengths::ListLengths;
use binder::{
    MAX_BLOCKS, MAX_CONJUNCTS, MAX_FROM_TABLES, MAX_GROUP_COLUMNS, MAX_ITEMS, MAX_KEYS,
    MAX_MEMBERS, MAX_SCALE, QueryFault,
};
use std::alloc::Global;
use std::fmt::{self, Formatter};
use syntax::{Block, Expr, ListKind, Name, Select, SelectList};

/// Writes which limit a query passes, as one line without its end.
pub(crate) fn write_limit<W: fmt::Write>(
    f: &mut Formatter<W>,
    alloc: Global,
    query: &Select,
    lengths: ListLengths,
    fault: QueryFault,
) -> fmt::Result {
    let Some((whole, most, parts)) = limit_of(fault) else {
        return Ok(());
    };
    write!(f, "{whole} at most {most} {parts}")?;
    match count_of(alloc, query, lengths, fault) {
        Some(count) => write!(f, ", and this one has {count}"),
        None => Ok(()),
    }
}

/// A limit of queries: what has it, the number, and of what.
fn limit_of(fault: QueryFault) -> Option<(&'static str, usize, &'static str)> {
    let limit = match fault {
        QueryFault::ManyTables(_) => ("a FROM has", MAX_FROM_TABLES, "tables"),
        QueryFault::ManyBlocks(_) => ("a query has", MAX_BLOCKS, SELECTS),
        QueryFault::ManyKeys(_) => ("ORDER BY takes", MAX_KEYS, "keys"),
        QueryFault::GreatScale(_) => ("a number has", usize::from(MAX_SCALE), DIGITS),
        QueryFault::GreatProduct(_) => ("a product has", usize::from(MAX_SCALE), DIGITS),
        QueryFault::ManyConjuncts(_) => ("a WHERE has", MAX_CONJUNCTS, "conditions joined by AND"),
        QueryFault::ManyMembers(_) => ("a list of IN has", MAX_MEMBERS, "members"),
        QueryFault::ManyItems(_) => ("a select list has", MAX_ITEMS, "items"),
        QueryFault::ManyGroups(_) => ("GROUP BY takes", MAX_GROUP_COLUMNS, "columns"),
        _ => return None,
    };
    Some(limit)
}

const SELECTS: &str = "SELECTs, those of its subqueries among them";

const DIGITS: &str = "digits behind the point";

/// How many there are of what passes a limit, where that is known.
fn count_of(
    alloc: Global,
    query: &Select,
    lengths: ListLengths,
    fault: QueryFault,
) -> Option<usize> {
    let start = query.block.start;
    match fault {
        QueryFault::ManyTables(name) => tables_around(alloc, query, lengths, name),
        // Blocks in elements that a list has no room for aren't in the tree.
        QueryFault::ManyBlocks(_) if !lengths.long_lists.is_empty() => None,
        QueryFault::ManyBlocks(_) => count_blocks(alloc, query).ok(),
        QueryFault::ManyKeys(_) => Some(lengths.written(ListKind::Keys, start, query.order.len())),
        QueryFault::GreatScale(numeral) => Some(usize::from(numeral.scale)),
        QueryFault::ManyConjuncts(condition) => Some(count_conjuncts(condition)),
        QueryFault::ManyMembers(list) => members_of(list, lengths),
        QueryFault::ManyItems(block) => items_of(block, lengths),
        QueryFault::ManyGroups(block) => {
            Some(lengths.written(ListKind::GroupColumns, block.start, block.groups.len()))
        }
        _ => None,
    }
}

/// How many tables the FROM has that a name stands in.
fn tables_around(
    alloc: Global,
    query: &Select,
    lengths: ListLengths,
    name: &Name,
) -> Option<usize> {
    let blocks = blocks_around(alloc, query, name.start).ok()?;
    let block = blocks.last()?;
    let kept = block.sources.tables.len();
    Some(lengths.written(ListKind::Tables, block.start, kept))
}

fn members_of(list: &Expr, lengths: ListLengths) -> Option<usize> {
    match list {
        Expr::InList { start, members, .. } => {
            Some(lengths.written(ListKind::Members, *start, members.len()))
        }
        _ => None,
    }
}

/// How many items a list has that is written out.
fn items_of(block: &Block, lengths: ListLengths) -> Option<usize> {
    match &block.list {
        SelectList::Items(items) => {
            Some(lengths.written(ListKind::Items, block.start, items.len()))
        }
        SelectList::Asterisk { .. } => None,
    }
}
