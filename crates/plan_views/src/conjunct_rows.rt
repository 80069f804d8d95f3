//! The conjuncts of a block, and what they are taken to leave.

use catalog::Table as StoredTable;
use estimate::PlanConjunct;
use plan_pages::{MadeTable, Table, number, words};
use planned_queries::BlockView;
use predicates::column_of;
use query_tree::{BlockColumn, Condition};
use std::alloc::{AllocError, Global};

/// A table of the conjuncts: number, words, share of rows in millionths, where the share comes from, and whether plans apply it.
pub(crate) fn conjunct_table(alloc: Global, block: &BlockView<'_>) -> Result<Table, AllocError> {
    let mut rows = MadeTable::new(
        alloc,
        "conjuncts",
        "conjuncts",
        &[
            number("number", "conjunct"),
            words("condition", "condition"),
            number("share", "millionths"),
            words("source", "keeps"),
            words("applied", "applied"),
        ],
    );
    let mut place: u64 = 0;
    for conjunct in block.estimate.conjuncts() {
        place = place.saturating_add(1);
        let condition = block.names.condition(conjunct.conjunct.condition);
        rows.begin_row(0, false);
        rows.put_number(place);
        rows.put_text(format!(in alloc; "{condition}"));
        rows.put_number(u64::from(conjunct.selectivity));
        rows.put_text(source_words(alloc, block, conjunct));
        rows.put_word(applied_word(conjunct));
    }
    rows.finish()
}

fn applied_word(conjunct: &PlanConjunct<'_>) -> &'static str {
    if conjunct.conjunct.late {
        "last, outside the plan"
    } else {
        "as soon as its tables are there"
    }
}

/// What share a conjunct keeps and what that rests on: `one in 500 (keys of C (CNO))`, `a third (nothing known of I.QTY)`.
fn source_words(
    alloc: Global,
    block: &BlockView<'_>,
    conjunct: &PlanConjunct<'_>,
) -> Result<String, AllocError> {
    let share = share_words(alloc, u64::from(conjunct.selectivity))?;
    let (left, right) = columns_of(conjunct);
    for column in [left, right] {
        if let Some(column) = column
            && let Some(keys) = own_keys(block, column)
        {
            return format!(in alloc; "{share} ({keys} keys of {})", block.names.column(column));
        }
    }
    match left {
        Some(column) => format!(in alloc;
            "{share} (no index on {} alone)",
            block.names.column(column)
        ),
        None => format!(in alloc; "{share} (by its form)"),
    }
}

/// `one in 500` where the share is that of a whole number, else `.. of a million`.
fn share_words(alloc: Global, millionths: u64) -> Result<String, AllocError> {
    match millionths {
        0 => format!(in alloc; "none"),
        333_333 | 333_334 => format!(in alloc; "a third"),
        1_000_000 => format!(in alloc; "all"),
        share => {
            let parts = 1_000_000_u64.checked_div(share).unwrap_or(1);
            if parts.saturating_mul(share) > 999_000 && parts > 1 {
                format!(in alloc; "one in {parts}")
            } else {
                format!(in alloc; "{share} of a million")
            }
        }
    }
}

/// How many keys the index on a column alone has, where there is one.
fn own_keys(block: &BlockView<'_>, column: BlockColumn) -> Option<u64> {
    let stored: &StoredTable = block.names.stored_table(column.table)?;
    for number in 0..stored.index_count() {
        let index = stored.index(number);
        if index.is_on(&[column.number]) {
            return Some(index.statistics().keys);
        }
    }
    None
}

/// The columns that a conjunct's share rests on: both sides of `column = column`, else the column that is compared.
pub(crate) fn columns_of(
    conjunct: &PlanConjunct<'_>,
) -> (Option<BlockColumn>, Option<BlockColumn>) {
    let terms = conjunct.conjunct.terms;
    match conjunct.conjunct.condition {
        Condition::Compare { .. } => (
            terms.left.map(|sided| sided.column),
            terms.right.map(|sided| sided.column),
        ),
        Condition::Between { value, .. }
        | Condition::InList { value, .. }
        | Condition::IsNull { value, .. }
        | Condition::Like { value, .. } => (column_of(value), None),
        _ => (None, None),
    }
}
