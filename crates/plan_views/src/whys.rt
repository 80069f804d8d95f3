//! What a plan loses against the least one, and where.

use crate::searches::{kept_words, state_words};
use crate::trees::{order_words, plan_table};
use plan_pages::{MadeParts, MadeTable, Part, Table, number, words};
use plan_tree::Plan;
use planned_queries::{
    BlockView, PlanSteps, PlanTextFault, Shown, ViewFault, outside, read_plan, state_of, step_words,
};
use std::alloc::{AllocError, Global};

/// The parts that say what a plan of a text loses.
pub(crate) fn why_parts(
    alloc: Global,
    block: &BlockView<'_>,
    text: &str,
) -> Result<Vec<Part>, ViewFault> {
    let own = &block.planned.own;
    match read_plan(alloc, &block.names, own, text) {
        Ok(plan) => Ok(parts_of(alloc, block, &plan)?),
        Err(PlanTextFault::Memory) => Err(ViewFault::Memory),
        Err(fault) => {
            let words = format!(in alloc; "{text}: {fault}")?;
            Err(ViewFault::Refused(words))
        }
    }
}

fn parts_of(alloc: Global, block: &BlockView<'_>, plan: &Plan) -> Result<Vec<Part>, AllocError> {
    let mut parts = MadeParts::new(alloc);
    let target = block.certificate().target;
    let title = format!(in alloc; "the least plan, {target}")?;
    parts.put_line("plan", plan_words(alloc, block, plan));
    put_losses(alloc, block, plan, &mut parts)?;
    parts.put_table(plan_table(alloc, block, block.plan(), &title));
    parts.finish()
}

fn plan_words(alloc: Global, block: &BlockView<'_>, plan: &Plan) -> Result<String, AllocError> {
    let plan = block.names.plan(block.space().orders(), plan);
    format!(in alloc; "{plan}")
}

/// Puts the steps of a plan with what each loses, and below them what that comes to.
fn put_losses(
    alloc: Global,
    block: &BlockView<'_>,
    plan: &Plan,
    parts: &mut MadeParts,
) -> Result<(), AllocError> {
    let losses = Losses::of(alloc, block, plan)?;
    parts.put_table(loss_table(alloc, block, &losses));
    match missing_words(alloc, block, plan)? {
        // of a plan that doesn't answer the block nothing is lost: it is none
        Some(words) => parts.put_line("outside", Ok(words)),
        None => {
            parts.put_line("lost", lost_words(alloc, block, &losses));
            parts.put_any_line("instead", instead_words(alloc, block, &losses));
        }
    }
    Ok(())
}

/// Why a plan doesn't answer the block, if it doesn't: a rule of the plan space that it breaks, tables that it leaves out, or its order.
fn missing_words(
    alloc: Global,
    block: &BlockView<'_>,
    plan: &Plan,
) -> Result<Option<String>, AllocError> {
    let own = &block.planned.own;
    if let Some(reason) = outside(&block.names, own, plan) {
        return Ok(Some(format!(in alloc; "This is no plan of the plan space: {reason}.")?));
    }
    let Some(found) = own.space.summary(plan) else {
        return Ok(None);
    };
    if found.tables.place() != own.space.whole().place() {
        let tables = block.names.tables(found.tables);
        return Ok(Some(format!(in alloc; "This plan reads {tables} alone.")?));
    }
    if own.space.gives_required(found.order) {
        return Ok(None);
    }
    let order = order_words(alloc, block, found.order)?;
    Ok(Some(format!(in alloc;
        "Its rows come in order of {order}, which isn't the order that is asked for."
    )?))
}

/// The steps of a plan, with what is lost by each.
#[derive(Drop)]
struct Losses<'p> {
    steps: PlanSteps<'p>,
    /// What is lost so far, of each step.
    lost: Vec<u64>,
}

impl<'p> Losses<'p> {
    fn of(alloc: Global, block: &BlockView<'_>, plan: &'p Plan) -> Result<Losses<'p>, AllocError> {
        let steps = PlanSteps::of(alloc, block.space(), plan)?;
        let mut lost = Vec::new(alloc);
        for place in 0..steps.len() {
            let so_far = match steps.shown(place) {
                Some(shown) => shown
                    .summary
                    .cost
                    .number
                    .saturating_sub(bound_of(block, &shown)),
                None => 0,
            };
            lost.push(so_far)?;
        }
        Ok(Losses { steps, lost })
    }

    fn lost_so_far(&self, place: usize) -> u64 {
        self.lost.get(place).copied().unwrap_or(0)
    }

    /// What a step loses by itself.
    fn lost_at(&self, place: usize) -> u64 {
        self.lost_so_far(place)
            .saturating_sub(self.lost_so_far(place.saturating_add(1)))
    }

    /// The step that loses most, if any loses; the last one of several.
    fn worst(&self) -> Option<usize> {
        let mut worst = None;
        let mut most = 1;
        for place in 0..self.lost.len() {
            if self.lost_at(place) >= most {
                most = self.lost_at(place);
                worst = Some(place);
            }
        }
        worst
    }
}

fn bound_of(block: &BlockView<'_>, shown: &Shown<'_>) -> u64 {
    block.bound(shown.summary.tables, shown.summary.order)
}

fn loss_table(
    alloc: Global,
    block: &BlockView<'_>,
    losses: &Losses<'_>,
) -> Result<Table, AllocError> {
    let mut rows = MadeTable::new(
        alloc,
        "yours",
        "yours",
        &[
            words("step", "step"),
            number("own", "this step"),
            number("cost", "so far"),
            number("bound", "bound"),
            number("lost", "lost so far"),
        ],
    );
    let worst = losses.worst();
    for place in 0..losses.steps.len() {
        if let Some(shown) = losses.steps.shown(place) {
            rows.begin_row(place, worst == Some(place));
            rows.put_text(step_words(alloc, block, &shown));
            rows.put_number(shown.own);
            rows.put_number(shown.summary.cost.number);
            rows.put_number(bound_of(block, &shown));
            rows.put_number(losses.lost_so_far(place));
        }
    }
    rows.finish()
}

/// What is lost in all, at which step most of it, and at what cost of that step the plan would tie.
fn lost_words(
    alloc: Global,
    block: &BlockView<'_>,
    losses: &Losses<'_>,
) -> Result<String, AllocError> {
    let whole = losses.lost_so_far(0);
    let (Some(worst), Some(last)) = (losses.worst(), losses.steps.shown(0)) else {
        return String::from_str(
            alloc,
            "Nothing is lost: each part costs no more than its bound.",
        );
    };
    let Some(shown) = losses.steps.shown(worst) else {
        return format!(in alloc; "{whole} is lost.");
    };
    let step = step_words(alloc, block, &shown)?;
    let (here, cost) = (losses.lost_at(worst), last.summary.cost.number);
    if here < whole || shown.own < whole {
        return format!(in alloc;
            "It costs {cost}, {whole} too much. Most is lost by this step, {here}: {step}. No cost of it alone would make the plan tie."
        );
    }
    let tie = shown.own.saturating_sub(whole);
    format!(in alloc;
        "It costs {cost}, {whole} too much, all of it by this step: {step}. It would tie if that cost {tie}."
    )
}

/// The step that leads at the least cost to where a plan loses most; none where it loses nothing.
fn instead_words(
    alloc: Global,
    block: &BlockView<'_>,
    losses: &Losses<'_>,
) -> Result<Option<String>, AllocError> {
    let shown = match losses.worst() {
        Some(worst) => losses.steps.shown(worst),
        None => None,
    };
    let Some(shown) = shown else {
        return Ok(None);
    };
    let key = state_of(block.space(), shown.summary);
    let state = state_words(alloc, block, key)?;
    let words = match block.ledger.reaching(key) {
        Some(kept) => {
            let (step, bound) = (kept_words(alloc, block, kept)?, kept.bound);
            format!(in alloc; "The least that {state} costs is {bound}, by {step}.")?
        }
        None => format!(in alloc;
            "No step leads to {state} for less than the target, which is its bound."
        )?,
    };
    Ok(Some(words))
}
