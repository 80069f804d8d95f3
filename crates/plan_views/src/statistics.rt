//! The tables of a block with their statistics and indexes.

use plan_pages::{MadeTable, Table, number, words};
use planned_queries::{BlockView, PlannedIndex, PlannedTable, PlanningScript};
use std::alloc::{AllocError, Global};

/// A table of the block's tables, in the order of FROM, each above its indexes.
pub(crate) fn statistics_table(
    alloc: Global,
    script: &PlanningScript,
    block: &BlockView<'_>,
) -> Result<Table, AllocError> {
    let mut rows = MadeTable::new(
        alloc,
        "tables",
        "tables and indexes",
        &[
            words("name", "table"),
            number("number", "number"),
            number("rows", "rows"),
            number("pages", "pages"),
            number("keys", "keys"),
            words("form", ""),
            words("statistics", "statistics"),
        ],
    );
    for number in 0..block.names.table_count() {
        if let Some(stored) = block.names.stored_table(number)
            && let Some(planned) = script.table(stored.name())
        {
            let called = block.names.table(number);
            add_table(alloc, &mut rows, called, number, planned);
        }
    }
    rows.finish()
}

fn add_table(
    alloc: Global,
    rows: &mut MadeTable,
    called: &str,
    number: usize,
    planned: &PlannedTable,
) {
    rows.begin_row(0, false);
    if called == planned.name.as_str() {
        rows.put_word(called);
    } else {
        rows.put_text(format!(in alloc; "{} {called}", planned.name));
    }
    rows.put_number((number as u64).saturating_add(1));
    rows.put_number(planned.statistics.rows);
    rows.put_number(planned.statistics.pages);
    rows.put_nothing();
    rows.put_nothing();
    rows.put_word(if planned.is_counted() {
        "counted"
    } else {
        "set"
    });
    let mut place: u64 = 0;
    for index in &planned.indexes {
        place = place.saturating_add(1);
        add_index(alloc, rows, planned, index, place);
    }
}

fn add_index(
    alloc: Global,
    rows: &mut MadeTable,
    planned: &PlannedTable,
    index: &PlannedIndex,
    place: u64,
) {
    let columns = planned.columns_of(&index.columns);
    rows.begin_row(1, false);
    rows.put_text(format!(in alloc; "index {columns}"));
    rows.put_number(place);
    rows.put_nothing();
    rows.put_number(index.statistics.pages);
    rows.put_number(index.statistics.keys);
    rows.put_word(match (index.is_unique, index.statistics.clustered) {
        (true, true) => "unique, clustered",
        (true, false) => "unique",
        (false, true) => "clustered",
        (false, false) => "",
    });
    rows.put_nothing();
}
