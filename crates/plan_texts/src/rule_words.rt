//! Broken rules of the plan space, in words.

use crate::broken_rules::BrokenRule;
use crate::paths_apart::PathFault;
use plan_names::BlockNames;
use std::fmt::{self, Formatter};

/// Writes which rule a step breaks, as one line without its end.
pub(crate) fn write_rule<'n, W: fmt::Write>(
    f: &mut Formatter<W>,
    names: &'n BlockNames<'_>,
    rule: BrokenRule,
) -> fmt::Result {
    match rule {
        BrokenRule::TableThere { table } => write!(f, "{} is there already", names.table(table)),
        BrokenRule::Path { table, fault } => write_path_fault(f, names, table, fault),
        BrokenRule::NoEquation { conjunct } => write!(
            f,
            "{} equates no columns of two tables",
            names.numbered_conjunct(conjunct)
        ),
        BrokenRule::OtherTables { conjunct, table } => write!(
            f,
            "{} equates no column of {} with one of these",
            names.numbered_conjunct(conjunct),
            names.table(table)
        ),
        BrokenRule::OuterOrder { column } => write!(
            f,
            "a merge wants these rows in the order of {}",
            names.column(column)
        ),
        BrokenRule::InnerOrder { column } => write!(
            f,
            "a merge wants the rows of its path in the order of {}, by the path itself or sorted",
            names.column(column)
        ),
        BrokenRule::LaterTables { tables } => write!(
            f,
            "the order goes by columns of {}, not there yet",
            names.tables(tables)
        ),
        BrokenRule::NoTable | BrokenRule::Product | BrokenRule::NoOrder | BrokenRule::EmptyOrder =>
            f.write_str(plain_words(rule)),
    }
}

fn plain_words(rule: BrokenRule) -> &'static str {
    match rule {
        BrokenRule::NoTable => "the block has no such table",
        BrokenRule::Product => "conditions link other tables to these, and products come last",
        BrokenRule::EmptyOrder => "there is nothing to sort by",
        _ => "there is no such order",
    }
}

/// Writes why a path is none of a table's.
fn write_path_fault<'n, W: fmt::Write>(
    f: &mut Formatter<W>,
    names: &'n BlockNames<'_>,
    table: usize,
    fault: PathFault,
) -> fmt::Result {
    match fault {
        PathFault::LaterRows { tables } => write!(
            f,
            "it compares with values of {}, whose rows aren't known there",
            names.tables(tables)
        ),
        PathFault::Unmatched {
            index,
            conjunct,
            place,
        } => write!(
            f,
            "{} can't be matched with column {} of the index {}",
            names.numbered_conjunct(conjunct),
            place.saturating_add(1),
            names.index(table, index)
        ),
        PathFault::OtherVersion => f.write_str("it is none of this version of the plan space"),
    }
}
