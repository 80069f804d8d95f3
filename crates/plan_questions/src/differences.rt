//! Two queries' least plans, step by step.

use crate::answers::QueryPlanner;
use crate::sweeps::outlines_of;
use plan_pages::{MadeParts, MadeTable, Section, Table, number, words};
use plan_views::{BlockOutline, PlanningScript, StepOutline, ViewFault};
use std::alloc::{AllocError, Global};

/// A section for each pair of blocks of one number.
pub(crate) fn difference_sections<P: QueryPlanner>(
    alloc: Global,
    planner: &P,
    first: &PlanningScript,
    second: &PlanningScript,
) -> Result<Vec<Section>, ViewFault> {
    let before = outlines_of(alloc, planner, first, &[])?;
    let after = outlines_of(alloc, planner, second, &[])?;
    let mut sections = Vec::new(alloc);
    for (number, (one, other)) in before.iter().zip(after.iter()).enumerate() {
        sections.push(difference_section(alloc, number, one, other)?)?;
    }
    if before.len() != after.len() {
        let (first, second) = (before.len(), after.len());
        let plural = if first == 1 { "" } else { "s" };
        return Err(ViewFault::Refused(format!(in alloc;
            "the first query has {first} block{plural}, and the second {second}"
        )?));
    }
    Ok(sections)
}

fn difference_section(
    alloc: Global,
    number: usize,
    before: &BlockOutline,
    after: &BlockOutline,
) -> Result<Section, AllocError> {
    let shown = number.saturating_add(1);
    let mut parts = MadeParts::new(alloc);
    parts.put_figure("first", "the first least plan costs", before.target);
    parts.put_figure("second", "the second", after.target);
    parts.put_table(step_table(alloc, before, after));
    Ok(Section {
        key: "block",
        number: Some(shown as u64),
        title: format!(in alloc; "block {shown}")?,
        parts: parts.finish()?,
    })
}

/// The steps from the first on: what both begin with, then those of the first plan alone and of the second.
fn step_table(
    alloc: Global,
    before: &BlockOutline,
    after: &BlockOutline,
) -> Result<Table, AllocError> {
    let mut rows = MadeTable::new(
        alloc,
        "difference",
        "steps, the first one first",
        &[
            words("sign", ""),
            words("step", "step"),
            number("first", "first"),
            number("second", "second"),
        ],
    );
    let common = common_steps(&before.steps, &after.steps);
    let shared = before.steps.iter().rev().zip(after.steps.iter().rev());
    for (one, other) in shared.take(common) {
        add_step(&mut rows, "=", one, Some(one.own), Some(other.own));
    }
    for step in before.steps.iter().rev().skip(common) {
        add_step(&mut rows, "-", step, Some(step.own), None);
    }
    for step in after.steps.iter().rev().skip(common) {
        add_step(&mut rows, "+", step, None, Some(step.own));
    }
    rows.finish()
}

/// How many steps two plans begin with that are the same in words.
fn common_steps(before: &[StepOutline], after: &[StepOutline]) -> usize {
    let mut count: usize = 0;
    for (one, other) in before.iter().rev().zip(after.iter().rev()) {
        if one.words.as_str() != other.words.as_str() {
            break;
        }
        count = count.saturating_add(1);
    }
    count
}

fn add_step(
    rows: &mut MadeTable,
    sign: &str,
    step: &StepOutline,
    first: Option<u64>,
    second: Option<u64>,
) {
    rows.begin_row(0, false);
    rows.put_word(sign);
    rows.put_word(&step.words);
    rows.put_found(first);
    rows.put_found(second);
}
