//! A plan as a tree.

use certificate::write_text;
use plan_pages::{MadeTable, Table, number, words};
use plan_tree::Plan;
use planned_queries::{BlockView, PlanSteps, Shown, step_words};
use std::alloc::{AllocError, Global};
use std::fmt::Write;

/// A plan's steps, the last one above what it stands on, each with its order, rows, pages and cost.
pub(crate) fn plan_table(
    alloc: Global,
    block: &BlockView<'_>,
    plan: &Plan,
    title: &str,
) -> Result<Table, AllocError> {
    let steps = PlanSteps::of(alloc, block.space(), plan)?;
    let mut rows = MadeTable::new(
        alloc,
        "plan",
        title,
        &[
            words("step", "step"),
            words("order", "order"),
            number("rows", "rows"),
            number("pages", "pages"),
            number("own", "this step"),
            number("cost", "so far"),
            number("share", "of all, %"),
        ],
    );
    let whole = cost_of_last(&steps);
    for place in 0..steps.len() {
        if let Some(shown) = steps.shown(place) {
            add_step(alloc, &mut rows, block, &shown, place, whole);
        }
    }
    rows.finish()
}

/// What a plan costs.
fn cost_of_last(steps: &PlanSteps<'_>) -> u64 {
    match steps.shown(0) {
        Some(last) => last.summary.cost.number,
        None => 0,
    }
}

fn add_step(
    alloc: Global,
    rows: &mut MadeTable,
    block: &BlockView<'_>,
    shown: &Shown<'_>,
    depth: usize,
    whole: u64,
) {
    let tables = shown.summary.tables;
    rows.begin_row(depth, false);
    rows.put_text(step_words(alloc, block, shown));
    rows.put_text(order_words(alloc, block, shown.summary.order));
    rows.put_number(block.estimate.cardinality(tables));
    rows.put_number(block.estimate.pages(tables));
    rows.put_number(shown.own);
    rows.put_number(shown.summary.cost.number);
    rows.put_found(percentage(shown.own, whole));
}

/// An order by the names of its columns.
pub(crate) fn order_words(
    alloc: Global,
    block: &BlockView<'_>,
    order: usize,
) -> Result<String, AllocError> {
    match block.space().orders().get(order) {
        Some(keys) => format!(in alloc; "{}", block.names.order(keys)),
        None => String::from_str(alloc, "none"),
    }
}

/// A part of a whole in hundredths, rounded.
fn percentage(part: u64, whole: u64) -> Option<u64> {
    let hundredths = u128::from(part)
        .saturating_mul(100)
        .saturating_add(u128::from(whole) / 2);
    u64::try_from(hundredths.checked_div(u128::from(whole))?).ok()
}

/// `60 + 1000 + 660 + 6000 = 7720`, from the first step on; none of a single step.
pub(crate) fn sum_words(
    alloc: Global,
    block: &BlockView<'_>,
    plan: &Plan,
) -> Result<Option<String>, AllocError> {
    let steps = PlanSteps::of(alloc, block.space(), plan)?;
    if steps.len() < 2 {
        return Ok(None);
    }
    let mut text = String::new(alloc);
    let mut separator = "";
    for place in (0..steps.len()).rev() {
        if let Some(shown) = steps.shown(place) {
            let own = shown.own;
            write!(text, "{separator}{own}")?;
            separator = " + ";
        }
    }
    let whole = cost_of_last(&steps);
    write!(text, " = {whole}")?;
    Ok(Some(text))
}

/// EXPLAIN's line of the least plan.
pub(crate) fn plan_line(alloc: Global, block: &BlockView<'_>) -> Result<String, AllocError> {
    let own = &block.planned.own;
    let bytes = write_text(
        alloc,
        &own.certified_block(),
        &block.planned.plan,
        &block.planned.certificate,
    )?;
    let whole = str::from_utf8(&bytes).unwrap_or("");
    for line in whole.lines() {
        if line.starts_with("PLAN ") {
            return String::from_str(alloc, line);
        }
    }
    Ok(String::new(alloc))
}
