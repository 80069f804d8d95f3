//! A block's section of a page.

use crate::asked::asked_words;
use crate::conjunct_rows::conjunct_table;
use crate::pictures::picture;
use crate::searches::put_search;
use crate::statistics::statistics_table;
use crate::ties::put_ties;
use crate::trees::{plan_line, plan_table, sum_words};
use crate::whys::why_parts;
use crate::written::written_plan;
use plan_pages::{MadeParts, Part, Section};
use plan_tree::Plan;
use planned_queries::{BlockView, PlanningScript, View, ViewFault};
use std::alloc::{AllocError, Global};

/// The section of a block.
pub fn section(
    alloc: Global,
    script: &PlanningScript,
    view: View<'_>,
    block: &BlockView<'_>,
) -> Result<Section, ViewFault> {
    let parts = match view {
        // a plan is of the outermost block; of the others nothing is said
        View::Why { plan } if block.number == 0 => why_parts(alloc, block, plan)?,
        _ => parts_of(alloc, script, view, block)?,
    };
    let shown = block.shown_number();
    Ok(Section {
        key: "block",
        number: Some(shown as u64),
        title: format!(in alloc; "block {shown}")?,
        parts,
    })
}

fn parts_of(
    alloc: Global,
    script: &PlanningScript,
    view: View<'_>,
    block: &BlockView<'_>,
) -> Result<Vec<Part>, AllocError> {
    let mut parts = MadeParts::new(alloc);
    match view {
        View::Tree { certificates: None } => put_tree(alloc, script, block, &mut parts)?,
        View::Tree {
            certificates: Some(_),
        } => put_written(alloc, script, block, &mut parts)?,
        View::Search { all, .. } => put_search(alloc, block, all, &mut parts)?,
        View::Page => put_page(alloc, script, block, &mut parts)?,
        View::Why { .. } | View::Sweep { .. } | View::Indexes { .. } => {}
    }
    parts.finish()
}

/// Puts conjuncts, tables, the least plan, and what there is to say of it.
fn put_tree(
    alloc: Global,
    script: &PlanningScript,
    block: &BlockView<'_>,
    parts: &mut MadeParts,
) -> Result<(), AllocError> {
    put_given(alloc, script, block, parts);
    let title = format!(in alloc; "least plan, {}", block.certificate().target)?;
    put_plan(alloc, block, block.plan(), &title, parts);
    put_ties(alloc, block, parts)?;
    parts.put_any_line("asked", asked_words(alloc, block));
    parts.put_line("certificate", certificate_words(alloc, block));
    parts.put_line("spelling", plan_line(alloc, block));
    Ok(())
}

/// Puts what a block's plans are planned by: its conjuncts, its tables and their indexes.
fn put_given(alloc: Global, script: &PlanningScript, block: &BlockView<'_>, parts: &mut MadeParts) {
    parts.put_table(conjunct_table(alloc, block));
    parts.put_table(statistics_table(alloc, script, block));
}

/// Puts a plan as a tree, and what its steps come to.
fn put_plan(alloc: Global, block: &BlockView<'_>, plan: &Plan, title: &str, parts: &mut MadeParts) {
    parts.put_table(plan_table(alloc, block, plan, title));
    parts.put_any_line("sum", sum_words(alloc, block, plan));
}

/// What the contract of `planner::PlannedBlock::new` says: the check isn't run for it, which takes as long as the search.
fn certificate_words(alloc: Global, block: &BlockView<'_>) -> Result<String, AllocError> {
    let states = block.certificate().states.len();
    let plural = if states == 1 { "" } else { "s" };
    format!(in alloc; "Its certificate of {states} state{plural} is proved to pass the check.")
}

/// Puts the same of a plan that a file of certificates gives.
fn put_written(
    alloc: Global,
    script: &PlanningScript,
    block: &BlockView<'_>,
    parts: &mut MadeParts,
) -> Result<(), AllocError> {
    put_given(alloc, script, block, parts);
    match written_plan(alloc, block)? {
        Some(plan) => put_plan(alloc, block, &plan, "the plan of the file", parts),
        None => parts.put_words(
            "unread",
            "The file has no plan for this block that can be read.",
        ),
    }
    let target = block.certificate().target;
    parts.put_figure("least", "a least plan costs", target);
    Ok(())
}

/// Puts tree, search as a picture and as tables, and the steps that lost by little.
fn put_page(
    alloc: Global,
    script: &PlanningScript,
    block: &BlockView<'_>,
    parts: &mut MadeParts,
) -> Result<(), AllocError> {
    put_tree(alloc, script, block, parts)?;
    parts.put_graph(picture(alloc, block));
    put_search(alloc, block, false, parts)
}
