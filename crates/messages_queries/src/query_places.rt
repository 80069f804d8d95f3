//! Where the faults of queries stand in the script.

use crate::limits::{start_of_conjunct, start_of_group, start_of_item, start_of_member};
use binder::QueryFault;
use syntax::{Block, ColumnReference, Expr, Key, KeyName, SelectList};

/// The byte of the script that a fault is about.
pub fn offset_of_fault(fault: QueryFault) -> usize {
    match fault {
        QueryFault::ManyTables(name) | QueryFault::NoTable(name) | QueryFault::NameTwice(name) => {
            name.start
        }
        QueryFault::NoColumn(column)
        | QueryFault::AmbiguousColumn(column)
        | QueryFault::GroupNotOwn(column)
        | QueryFault::OuterInFunction(column)
        | QueryFault::Ungrouped(column) => start_of_column(column),
        QueryFault::GreatScale(numeral) => numeral.start,
        QueryFault::GreatProduct(operand) => operand.start,
        QueryFault::TextForNumber(expr)
        | QueryFault::NumberForText(expr)
        | QueryFault::NumberWithText(expr)
        | QueryFault::TextWithNumber(expr)
        | QueryFault::ConditionForValue(expr)
        | QueryFault::ValueForCondition(expr)
        | QueryFault::MisplacedFunction(expr) => start_of(expr),
        QueryFault::ManyConjuncts(condition) => start_of_conjunct(condition),
        QueryFault::ManyMembers(list) => start_of_member(list),
        QueryFault::StarOfGroups(block) => start_of_list(block),
        QueryFault::NotOneColumn(block)
        | QueryFault::ManyBlocks(block)
        | QueryFault::MisplacedQuery(block) => block.start,
        QueryFault::ManyGroups(block) => start_of_group(block),
        QueryFault::ManyItems(block) => start_of_item(block),
        QueryFault::UnknownKey(key) | QueryFault::ManyKeys(key) => start_of_key(key),
    }
}

fn start_of_list(block: &Block) -> usize {
    match &block.list {
        SelectList::Asterisk { start } => *start,
        SelectList::Items(_) => block.start,
    }
}

fn start_of_key(key: &Key) -> usize {
    match &key.name {
        KeyName::Name(name) => name.start,
        KeyName::Position(position) => position.start,
    }
}

/// Where an expression begins, by the name, the literal or the word that stands first in it.
pub(crate) fn start_of(expr: &Expr) -> usize {
    match expr {
        Expr::Column(reference) => start_of_column(reference),
        Expr::Numeral(numeral) => numeral.start,
        Expr::String(string) => string.start,
        Expr::Signed { operand: first, .. }
        | Expr::Line { first, .. }
        | Expr::Compare { left: first, .. }
        | Expr::CompareAll { left: first, .. }
        | Expr::IsNull { value: first, .. }
        | Expr::Between { value: first, .. }
        | Expr::Like { value: first, .. }
        | Expr::InList { value: first, .. }
        | Expr::InQuery { value: first, .. } => start_of(first),
        Expr::Not { start, .. }
        | Expr::Exists { start, .. }
        | Expr::Scalar { start, .. }
        | Expr::CountRows { start }
        | Expr::Function { start, .. } => *start,
    }
}

/// Where a column reference begins.
pub(crate) fn start_of_column(reference: &ColumnReference) -> usize {
    match &reference.qualifier {
        Some(qualifier) => qualifier.start,
        None => reference.name.start,
    }
}
