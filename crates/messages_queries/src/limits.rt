//! The first part of a query that is one too many.

use crate::query_places::{start_of, start_of_column};
use binder::{MAX_CONJUNCTS, MAX_GROUP_COLUMNS, MAX_ITEMS, MAX_MEMBERS};
use query_rules::is_conjunction;
use syntax::{Block, Expr, SelectList};

/// Where the first condition of a WHERE begins that is one too many.
pub(crate) fn start_of_conjunct(condition: &Expr) -> usize {
    let mut before = MAX_CONJUNCTS;
    match conjunct_behind(condition, &mut before) {
        Some(conjunct) => start_of(conjunct),
        None => start_of(condition),
    }
}

/// How many conditions AND joins in a WHERE.
pub(crate) fn count_conjuncts(condition: &Expr) -> usize {
    let mut left = usize::MAX;
    let _ = conjunct_behind(condition, &mut left);
    usize::MAX.saturating_sub(left)
}

/// The first condition of those that AND joins behind so many others, from which those that are passed are taken.
fn conjunct_behind<'q>(condition: &'q Expr, before: &mut usize) -> Option<&'q Expr> {
    match condition {
        Expr::Line { first, others } if is_conjunction(others) => {
            if let Some(found) = conjunct_behind(first, before) {
                return Some(found);
            }
            for operand in others {
                if let Some(found) = conjunct_behind(&operand.value, before) {
                    return Some(found);
                }
            }
            None
        }
        _ if *before == 0 => Some(condition),
        _ => {
            *before = before.saturating_sub(1);
            None
        }
    }
}

/// Where the first member of a list of IN stands that is one too many; NULL has no place of its own.
pub(crate) fn start_of_member(list: &Expr) -> usize {
    match list {
        Expr::InList { members, .. } => match members.get(MAX_MEMBERS) {
            Some(Some(member)) => start_of(member),
            _ => start_of(list),
        },
        _ => start_of(list),
    }
}

/// Where the first result column stands that is one too many; where an asterisk stands for them, the block begins.
pub(crate) fn start_of_item(block: &Block) -> usize {
    match &block.list {
        SelectList::Items(items) => match items.get(MAX_ITEMS) {
            Some(item) => start_of(&item.value),
            None => block.start,
        },
        SelectList::Asterisk { start } => *start,
    }
}

/// Where the first column of GROUP BY stands that is one too many.
pub(crate) fn start_of_group(block: &Block) -> usize {
    match block.groups.get(MAX_GROUP_COLUMNS) {
        Some(column) => start_of_column(column),
        None => block.start,
    }
}
