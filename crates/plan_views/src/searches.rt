//! The search: its states and the steps that its certificate compares.

use crate::trees::order_words;
use plan_pages::{MadeParts, MadeTable, Table, number, words};
use planned_queries::{BlockView, KeptComparison, MANY_STATES, StateKey, Way, key_of, state_of};
use std::alloc::{AllocError, Global};

/// Puts the parts of a search: how much there is, the states with the steps that led there, and the comparisons.
pub(crate) fn put_search(
    alloc: Global,
    block: &BlockView<'_>,
    all: bool,
    parts: &mut MadeParts,
) -> Result<(), AllocError> {
    let ledger = &block.ledger;
    let way = Way::of(alloc, block.space(), block.plan())?;
    let (states, shown) = (block.certificate().states.len(), ledger.kept.len());
    parts.put_figure("states", "listed states", states as u64);
    parts.put_figure("shown", "comparisons below", shown as u64);
    parts.put_figure("comparisons", "of all comparisons", ledger.heard);
    parts.put_table(layer_table(alloc, block));
    parts.put_table(state_table(alloc, block, &way, all));
    parts.put_table(comparison_table(alloc, block));
    Ok(())
}

/// How many states are listed of each number of tables.
fn layer_table(alloc: Global, block: &BlockView<'_>) -> Result<Table, AllocError> {
    let mut rows = MadeTable::new(
        alloc,
        "layers",
        "states by number of tables",
        &[number("tables", "tables"), number("states", "states")],
    );
    for size in 1..block.space().table_count().saturating_add(1) {
        rows.begin_row(0, false);
        rows.put_number(size as u64);
        rows.put_number(states_of_size(block, size));
    }
    rows.finish()
}

/// How many states are listed of sets of so many tables.
fn states_of_size(block: &BlockView<'_>, size: usize) -> u64 {
    let mut count: u64 = 0;
    for state in &block.certificate().states {
        if size_of(state.tables.place()) == size {
            count = count.saturating_add(1);
        }
    }
    count
}

/// How many tables a set has, by its place among all sets.
pub(crate) fn size_of(place: usize) -> usize {
    place.count_ones() as usize
}

/// The listed states with the steps that led there; of many those on the plan's way alone.
fn state_table(
    alloc: Global,
    block: &BlockView<'_>,
    way: &Way,
    all: bool,
) -> Result<Table, AllocError> {
    let mut rows = MadeTable::new(
        alloc,
        "state",
        "states",
        &[
            words("tables", "tables"),
            words("order", "order"),
            number("cost", "least cost"),
            words("step", "reached by"),
        ],
    );
    let is_whole = all || block.certificate().states.len() <= MANY_STATES;
    for state in &block.certificate().states {
        let key = key_of(state);
        let is_marked = way.has(key);
        if is_whole || is_marked {
            add_state(alloc, &mut rows, block, state.cost, key, is_marked);
        }
    }
    if let Some(found) = block.space().summary(block.plan()) {
        let last = state_of(block.space(), found);
        let target = block.certificate().target;
        add_state(alloc, &mut rows, block, target, last, true);
    }
    rows.finish()
}

fn add_state(
    alloc: Global,
    rows: &mut MadeTable,
    block: &BlockView<'_>,
    cost: u64,
    key: StateKey,
    marked: bool,
) {
    let tables = block.names.tables(key.tables);
    rows.begin_row(0, marked);
    rows.put_text(format!(in alloc; "{tables}"));
    rows.put_text(order_words(alloc, block, key.order));
    rows.put_number(cost);
    match block.ledger.reaching(key) {
        Some(kept) => rows.put_text(kept_words(alloc, block, kept)),
        None => rows.put_nothing(),
    }
}

/// A step in words, and the state that it begins from.
pub(crate) fn kept_words(
    alloc: Global,
    block: &BlockView<'_>,
    kept: &KeptComparison,
) -> Result<String, AllocError> {
    let orders = block.space().orders();
    let step = block.names.step(orders, kept.step());
    match kept.from {
        Some(from) => format!(in alloc;
            "{step} on {}",
            block.names.state(orders, from.tables, from.order)
        ),
        None => format!(in alloc; "{step}"),
    }
}

/// A state in words.
pub(crate) fn state_words(
    alloc: Global,
    block: &BlockView<'_>,
    key: StateKey,
) -> Result<String, AllocError> {
    let orders = block.space().orders();
    let state = block.names.state(orders, key.tables, key.order);
    format!(in alloc; "{state}")
}

/// The comparisons that are kept, each with what lies above the bound.
fn comparison_table(alloc: Global, block: &BlockView<'_>) -> Result<Table, AllocError> {
    let mut rows = MadeTable::new(
        alloc,
        "comparison",
        "comparisons with bounds",
        &[
            words("step", "step"),
            words("to", "leads to"),
            number("cost", "cost"),
            number("bound", "bound"),
            number("above", "above"),
        ],
    );
    for kept in &block.ledger.kept {
        rows.begin_row(0, false);
        rows.put_text(kept_words(alloc, block, kept));
        rows.put_text(state_words(alloc, block, kept.to));
        rows.put_number(kept.cost.number);
        rows.put_number(kept.bound);
        rows.put_number(kept.above());
    }
    rows.finish()
}
