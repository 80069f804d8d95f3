//! Which comparisons of the check are kept.

use crate::views::Interest;
use crate::ways::Way;
use cert_check::Comparison;
use plan_texts::{BlockNames, PlanTextFault, read_plan};
use plan_tree::TableSet;
use planner::PlannedBlock;
use std::alloc::{AllocError, Global};

/// Of more states than these, comparisons are kept that lead to the plan's way.
pub const MANY_STATES: usize = 64;

/// Which comparisons are kept.
#[derive(Drop)]
pub(crate) struct Wanted {
    /// Those that cost at most so many hundredths more than their bound; none where all are.
    within: Option<u64>,
    /// Of those the ones that lead to a state of a plan's way, where one is named.
    way: Option<Way>,
    /// Whether all others are counted.
    are_counted: bool,
}

impl Wanted {
    /// What is wanted of a block's comparisons; none where nothing is. It fails where memory runs out.
    pub fn of(
        alloc: Global,
        names: &BlockNames<'_>,
        planned: &PlannedBlock<'_>,
        interest: Interest<'_>,
    ) -> Result<Option<Wanted>, AllocError> {
        let has_many = planned.certificate.states.len() > MANY_STATES;
        let (within, way, are_counted) = match interest {
            Interest::Nothing | Interest::Verdict => return Ok(None),
            Interest::All => (None, None, true),
            Interest::Within(percent) => (Some(percent), None, true),
            Interest::Near(percent) if !has_many => (Some(percent), None, true),
            Interest::Near(percent) => (Some(percent), Some(least_way(alloc, planned)?), true),
            Interest::Way => (Some(0), Some(least_way(alloc, planned)?), false),
            Interest::WayOf(text) => (Some(0), Some(way_of(alloc, names, planned, text)?), false),
        };
        Ok(Some(Wanted {
            within,
            way,
            are_counted,
        }))
    }

    /// Whether a comparison is kept.
    pub fn has(&self, comparison: &Comparison<'_>) -> bool {
        let is_near = match self.within {
            Some(percent) => is_within(comparison, percent),
            None => true,
        };
        is_near
            && match &self.way {
                Some(way) => way.has(comparison.to),
                None => true,
            }
    }

    /// Whether steps from the states of a set of tables are asked for: others lead to none that is kept.
    pub fn begins_at(&self, tables: TableSet) -> bool {
        match &self.way {
            Some(way) => self.are_counted || way.is_near(tables),
            None => true,
        }
    }
}

/// Whether a comparison costs at most so many hundredths more than its bound.
fn is_within(comparison: &Comparison<'_>, percent: u64) -> bool {
    let above = u128::from(comparison.cost.number.saturating_sub(comparison.bound));
    above.saturating_mul(100) <= u128::from(comparison.bound).saturating_mul(u128::from(percent))
}

fn least_way(alloc: Global, planned: &PlannedBlock<'_>) -> Result<Way, AllocError> {
    Way::of(alloc, &planned.own.space, &planned.plan)
}

/// The way of a plan that a text gives; that of the least plan where the text is no plan, which is told elsewhere.
fn way_of(
    alloc: Global,
    names: &BlockNames<'_>,
    planned: &PlannedBlock<'_>,
    text: &str,
) -> Result<Way, AllocError> {
    match read_plan(alloc, names, &planned.own, text) {
        Ok(plan) => Way::of(alloc, &planned.own.space, &plan),
        Err(PlanTextFault::Memory) => Err(AllocError),
        Err(_) => least_way(alloc, planned),
    }
}
