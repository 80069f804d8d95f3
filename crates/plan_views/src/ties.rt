//! Steps that cost the same as the plan's own.

use crate::searches::{kept_words, state_words};
use plan_pages::{MadeParts, MadeTable, number, words};
use planned_queries::{
    BlockView, KeptComparison, PlanStep, PlanSteps, are_one_state, is_same_path, key_of, state_of,
};
use std::alloc::{AllocError, Global};

/// So many of them are shown.
const SHOWN: usize = 16;

/// Puts the steps that lead to a state of the least plan's way at its cost there, without being the plan's, if there are any: the first of
/// them, and how many more there are.
pub(crate) fn put_ties(
    alloc: Global,
    block: &BlockView<'_>,
    parts: &mut MadeParts,
) -> Result<(), AllocError> {
    let steps = PlanSteps::of(alloc, block.space(), block.plan())?;
    let mut rows = tie_table(alloc);
    let mut left_out: usize = 0;
    for kept in &block.ledger.kept {
        if kept.above() == 0 && is_tie(block, &steps, kept) {
            if rows.row_count() < SHOWN {
                add_tie(alloc, &mut rows, block, kept);
            } else {
                left_out = left_out.saturating_add(1);
            }
        }
    }
    // A row for which memory was wanting isn't counted, so the table is looked at, and not how many rows were begun.
    let table = rows.finish()?;
    if !table.rows.is_empty() {
        parts.put_table(Ok(table));
    }
    if left_out > 0 {
        let text = format!(in alloc; "{left_out} more steps cost the same as the plan's own.");
        parts.put_line("more", text);
    }
    Ok(())
}

fn tie_table(alloc: Global) -> MadeTable {
    MadeTable::new(
        alloc,
        "ties",
        "steps that cost the same as the plan's own",
        &[
            words("step", "step"),
            words("to", "leads to"),
            number("cost", "cost"),
        ],
    )
}

fn add_tie(alloc: Global, rows: &mut MadeTable, block: &BlockView<'_>, kept: &KeptComparison) {
    rows.begin_row(0, false);
    rows.put_text(kept_words(alloc, block, kept));
    rows.put_text(state_words(alloc, block, kept.to));
    rows.put_number(kept.cost.number);
}

/// Whether a step leads to a state of the plan's way, and isn't the plan's own.
fn is_tie(block: &BlockView<'_>, steps: &PlanSteps<'_>, kept: &KeptComparison) -> bool {
    for place in 0..steps.len() {
        if let Some(shown) = steps.shown(place)
            && are_one_state(state_of(block.space(), shown.summary), kept.to)
        {
            return !is_own(block, steps, place, kept);
        }
    }
    false
}

/// Whether a step is that of the plan at a place, from the same state on.
fn is_own(
    block: &BlockView<'_>,
    steps: &PlanSteps<'_>,
    place: usize,
    kept: &KeptComparison,
) -> bool {
    let is_step = match steps.shown(place) {
        Some(shown) => are_one_step(shown.step, kept.step()),
        None => false,
    };
    let is_from = match (&kept.from, steps.shown(place.saturating_add(1))) {
        (Some(from), Some(below)) => are_one_state(
            state_of(block.space(), below.summary),
            key_of(from),
        ),
        (None, None) => true,
        _ => false,
    };
    is_step && is_from
}

fn are_one_step(one: PlanStep<'_>, other: PlanStep<'_>) -> bool {
    match (one, other) {
        (PlanStep::Access(path), PlanStep::Access(wanted))
        | (PlanStep::Loop(path), PlanStep::Loop(wanted)) => is_same_path(path, wanted),
        (
            PlanStep::Merge {
                conjunct,
                path,
                sorted,
            },
            PlanStep::Merge {
                conjunct: by,
                path: wanted,
                sorted: as_well,
            },
        ) => conjunct == by && sorted == as_well && is_same_path(path, wanted),
        (PlanStep::Sort { order }, PlanStep::Sort { order: wanted }) => order == wanted,
        _ => false,
    }
}
