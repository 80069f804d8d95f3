//! The pages of views.

use crate::answers::{Answer, QueryPlanner, Question};
use crate::differences::difference_sections;
use crate::index_changes::index_sections;
use crate::sweeps::sweep_sections;
use plan_pages::{Page, Section};
use plan_views::{PlanningScript, View, ViewFault, foot};
use std::alloc::Global;

/// The page of a view of a query's plans. What is varied in the script is put back before the call ends.
///
/// # Errors
/// Why the question can't be answered, or that memory ran out.
pub fn page<P: QueryPlanner>(
    alloc: Global,
    planner: &P,
    script: &mut PlanningScript,
    view: View<'_>,
) -> Result<Page, ViewFault> {
    let sections = sections(alloc, planner, script, view)?;
    Ok(Page {
        view: view.name(),
        title: String::from_str(alloc, script.query.as_str())?,
        sections,
        foot: foot(alloc, view)?,
    })
}

fn sections<P: QueryPlanner>(
    alloc: Global,
    planner: &P,
    script: &mut PlanningScript,
    view: View<'_>,
) -> Result<Vec<Section>, ViewFault> {
    match view {
        View::Sweep { figure, values } => sweep_sections(alloc, planner, script, figure, values),
        View::Indexes => index_sections(alloc, planner, script),
        View::Tree { .. } | View::Why { .. } | View::Search { .. } | View::Page => {
            asked_sections(alloc, planner, script, view)
        }
    }
}

/// The sections of a view that shows each block by itself.
fn asked_sections<P: QueryPlanner>(
    alloc: Global,
    planner: &P,
    script: &PlanningScript,
    view: View<'_>,
) -> Result<Vec<Section>, ViewFault> {
    let mut sections = Vec::new(alloc);
    for answer in planner.ask(script, Question::Section { script, view })? {
        if let Answer::Section(section) = answer {
            sections.push(section)?;
        }
    }
    Ok(sections)
}

/// Two queries' plans step by step.
///
/// # Errors
/// Why one of them can't be planned, or that memory ran out.
pub fn difference<P: QueryPlanner>(
    alloc: Global,
    planner: &P,
    first: &PlanningScript,
    second: &PlanningScript,
) -> Result<Page, ViewFault> {
    Ok(Page {
        view: "diff",
        title: String::from_str(alloc, second.query.as_str())?,
        sections: difference_sections(alloc, planner, first, second)?,
        foot: foot(alloc, View::Tree { certificates: None })?,
    })
}
