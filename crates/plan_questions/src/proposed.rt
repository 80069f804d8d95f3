//! Indexes that a query could use.

use crate::answers::{Answer, QueryPlanner, Question};
use plan_views::{PlannedTable, PlanningScript, UsedColumn, ViewFault};
use std::alloc::{AllocError, Global};

/// So many indexes a table may have (own).
const MAX_INDEXES: usize = 16;

/// CREATE INDEX for each list of one or two columns of a table that conjuncts, orders or groups of a script's query go by, and that has no
/// index yet, as far as the table may have more; of tables that have rows, since an index's statistics are counted over them.
///
/// # Errors
/// Why the query can't be planned, or that memory ran out.
pub fn proposals<P: QueryPlanner>(
    alloc: Global,
    planner: &P,
    script: &PlanningScript,
) -> Result<String, ViewFault> {
    let mut used = Vec::new(alloc);
    for answer in planner.ask(script, Question::Columns)? {
        if let Answer::Columns(columns) = answer {
            for column in columns {
                used.push(column)?;
            }
        }
    }
    let mut text = String::new(alloc);
    for table in &script.tables {
        if table.loaded > 0 {
            let numbers = numbers_of(alloc, table, &used)?;
            add_proposals(alloc, &mut text, table, &numbers)?;
        }
    }
    Ok(text)
}

/// The numbers of a table's columns that are used, each once.
fn numbers_of(
    alloc: Global,
    table: &PlannedTable,
    used: &[UsedColumn],
) -> Result<Vec<usize>, AllocError> {
    let mut numbers = Vec::new(alloc);
    for own in used {
        if own.table.as_str() == table.name.as_str()
            && let Some(number) = table.column(own.column.as_str())
            && !numbers.contains(&number)
        {
            numbers.push(number)?;
        }
    }
    Ok(numbers)
}

fn add_proposals(
    alloc: Global,
    text: &mut String,
    table: &PlannedTable,
    numbers: &[usize],
) -> Result<(), AllocError> {
    let mut left = MAX_INDEXES.saturating_sub(table.indexes.len());
    for first in numbers {
        left = add_proposal(alloc, text, table, &[*first], left)?;
    }
    for first in numbers {
        for second in numbers {
            if first != second {
                left = add_proposal(alloc, text, table, &[*first, *second], left)?;
            }
        }
    }
    Ok(())
}

/// Adds a proposal where there is room for it, and gives the room that is left.
fn add_proposal(
    alloc: Global,
    text: &mut String,
    table: &PlannedTable,
    columns: &[usize],
    left: usize,
) -> Result<usize, AllocError> {
    if left == 0 || table.index_on(columns).is_some() {
        return Ok(left);
    }
    let list = table.columns_of(columns);
    text.push_str(&format!(in alloc; "CREATE INDEX ON {} {list};\n", table.name)?)?;
    Ok(left.saturating_sub(1))
}
