//! Why texts are refused, in words.

use crate::reason::{Ending, Lack, PlanFault, Reason};
use crate::spelling::{StateName, TableNames};
use crate::step_words::{write_step, write_wrong};
use certificate_files::{BadState, Missing, Rule, TextFault, Told, Version};
use plan_texts::form_problem;
use plan_tree::MAX_MATCHED;
use std::fmt::{self, Formatter};

/// Writes why a text is refused, as one line without its end.
pub(crate) fn write_reason<W: fmt::Write>(f: &mut Formatter<W>, reason: &Reason) -> fmt::Result {
    match reason {
        Reason::Form { expected, ending } => {
            f.write_str(form_problem(*expected))?;
            f.write_str(match ending {
                Ending::Nothing => ", found the end of the file",
                _ => "",
            })
        }
        Reason::Missing(lack) => write_missing(f, *lack),
        Reason::Unordered { before, state } => write_unordered(f, *before, *state),
        Reason::Great { cost, target } => write!(
            f,
            "states cost less than the target, {target}, and this one costs {cost}"
        ),
        Reason::Step(step) => write_step(f, step),
        Reason::Final(state) => write!(
            f,
            "the state of {state} has all tables and gives the order asked for, so that it can't be listed"
        ),
        Reason::Plan(fault) => write_plan(f, fault),
        Reason::Plain(told) => f.write_str(plain_problem(*told)),
    }
}

/// That a number isn't there, and how many are.
fn write_missing<W: fmt::Write>(f: &mut Formatter<W>, lack: Lack) -> fmt::Result {
    let Lack {
        missing,
        version,
        count,
    } = lack;
    match missing {
        Missing::Block(number) => write!(f, "this is the text of block {number}"),
        Missing::Table(table) => write_absent(f, table, count, "table", "tables"),
        Missing::Index { table, index } => write_no_index(f, version, table, index, count),
        Missing::Conjunct(number) => write_absent(f, number, count, "conjunct", "conjuncts"),
        Missing::Order(order) => write_no_order(f, order, count),
        Missing::StateTables { tables, .. } => write_no_tables(f, tables, count),
        Missing::StateOrder { order, .. } => write_state_order(f, order, count),
    }
}

/// `there is no table 3: the block has 2 tables`.
fn write_absent<W: fmt::Write>(
    f: &mut Formatter<W>,
    number: u64,
    count: Option<usize>,
    one: &str,
    many: &str,
) -> fmt::Result {
    write!(f, "there is no {one} {number}")?;
    write_count(f, "the block has", count, one, many)
}

/// `: the block has 2 tables`, if the number is known.
fn write_count<W: fmt::Write>(
    f: &mut Formatter<W>,
    has: &str,
    count: Option<usize>,
    one: &str,
    many: &str,
) -> fmt::Result {
    match count {
        None => Ok(()),
        Some(0) => write!(f, ": {has} no {many}"),
        Some(count) => {
            let noun = if count == 1 { one } else { many };
            write!(f, ": {has} {count} {noun}")
        }
    }
}

/// That an index isn't there. In the first version indexes go by their column.
fn write_no_index<W: fmt::Write>(
    f: &mut Formatter<W>,
    version: Version,
    table: u64,
    index: u64,
    count: Option<usize>,
) -> fmt::Result {
    match version {
        Version::One => write!(f, "table {table} has no index on column {index} alone"),
        Version::Two | Version::Three => {
            write!(f, "table {table} has no index {index}")?;
            write_count(f, "it has", count, "index", "indexes")
        }
    }
}

fn write_no_order<W: fmt::Write>(
    f: &mut Formatter<W>,
    order: u64,
    count: Option<usize>,
) -> fmt::Result {
    write!(f, "there is no order {order}")?;
    match count {
        None => Ok(()),
        Some(0 | 1) => f.write_str(": the block has order 0 alone"),
        Some(count) => write!(
            f,
            ": the block has the orders 0 to {}",
            count.saturating_sub(1)
        ),
    }
}

fn write_no_tables<W: fmt::Write>(
    f: &mut Formatter<W>,
    tables: u64,
    greatest: Option<usize>,
) -> fmt::Result {
    write!(f, "{tables} is no set of the block's tables")?;
    match greatest {
        None => Ok(()),
        Some(0 | 1) => f.write_str(": the one set is 1"),
        Some(greatest) => write!(f, ": the sets are 1 to {greatest}"),
    }
}

/// That a state has an order that isn't one of its tables.
fn write_state_order<W: fmt::Write>(
    f: &mut Formatter<W>,
    order: u64,
    count: Option<usize>,
) -> fmt::Result {
    match count {
        Some(count) if order < count as u64 => {
            write!(
                f,
                "order {order} goes by a table that isn't among those of the state"
            )
        }
        _ => write_no_order(f, order, count),
    }
}

/// That a state doesn't stand behind the one before it.
fn write_unordered<W: fmt::Write>(
    f: &mut Formatter<W>,
    before: StateName,
    state: StateName,
) -> fmt::Result {
    write!(
        f,
        "{state} can't stand behind {before}: states rise by their sets of tables, then by their orders"
    )
}

/// Why a plan doesn't meet the target.
fn write_plan<W: fmt::Write>(f: &mut Formatter<W>, fault: &PlanFault) -> fmt::Result {
    match fault {
        PlanFault::Outside(step) => {
            f.write_str("this is no plan of the block's plan space")?;
            match step {
                Some(wrong) => write_wrong(f, wrong),
                None => Ok(()),
            }
        }
        PlanFault::Long => write!(
            f,
            "an index has at most {MAX_MATCHED} columns, and this plan matches one by more conjuncts"
        ),
        PlanFault::Partial { tables, count } => write!(
            f,
            "the plan has {} alone, and the block has {count} tables",
            TableNames(*tables)
        ),
        PlanFault::Order { order } => write!(
            f,
            "the plan gives its rows in order {order}, which isn't the order asked for"
        ),
        PlanFault::Cost { cost, target } => {
            write!(f, "the plan costs {cost}, and the target is {target}")
        }
    }
}

/// What is known of a refused text from its printed line.
fn plain_problem(told: Told) -> &'static str {
    match told {
        Told::Fails { rule, .. } => match rule {
            Rule::Accesses => "an access costs less than the bound of its state",
            Rule::Joins =>
                "a join leads from a listed state below the bound of the state that it reaches",
            Rule::Sorts =>
                "a sort leads from a listed state below the bound of the state that it reaches",
            Rule::Target => "the plan isn't shown to cost the target",
        },
        Told::Faulty(TextFault::States(BadState::NotBehind { .. })) =>
            "states rise by their sets of tables, then by their orders",
        Told::Faulty(TextFault::States(BadState::NotBelow { .. })) =>
            "states cost less than the target",
        Told::Faulty(_) | Told::Passes => "this is no text of a certificate",
    }
}
