//! A comparison that is kept.

ghost use Rattle.std.specs.Prelude.{◌≡◌, ◌-◌, IfOk};
ghost use Rattle.cert_check.specs.Comparisons.{comparison_of, kept_comparison_of, kept_step_of, step_of};

use crate::comparison::{Comparison, PlanStep};
use crate::verdict::StateKey;
use plan_tree::{Cost, Path, State};
use std::alloc::AllocError;

/// A comparison that outlives the one who made it.
#[derive(Drop)]
pub struct KeptComparison {
    step: KeptStep,
    /// The state that the step begins from; none for an access.
    pub from: Option<State>,
    pub to: StateKey,
    pub cost: Cost,
    pub bound: u64,
}

#[derive(Drop)]
enum KeptStep {
    Access(Path),
    Loop(Path),
    Merge {
        conjunct: usize,
        path: Path,
        sorted: bool,
    },
    Sort {
        order: usize,
    },
}

impl KeptComparison {
    /// A comparison by itself. It fails where memory runs out.
    pub fn new(comparison: &Comparison<'_>) -> Result<KeptComparison, AllocError>
        ensures { IfOk result (λ kept. kept_comparison_of kept ≡ comparison_of comparison.now) }
    {
        match kept_step(comparison.step) {
            Ok(step) => Ok(KeptComparison {
                step,
                from: comparison.from,
                to: comparison.to,
                cost: comparison.cost,
                bound: comparison.bound,
            }),
            Err(fault) => Err(fault),
        }
    }

    /// The comparison that is kept.
    pub fn comparison(&self) -> Comparison<'_>
        ensures { comparison_of result ≡ kept_comparison_of self.now }
    {
        Comparison {
            step: self.step(),
            from: self.from,
            to: self.to,
            cost: self.cost,
            bound: self.bound,
        }
    }

    /// The step that is compared.
    pub fn step(&self) -> PlanStep<'_>
        ensures { step_of result ≡ kept_step_of self.now.step }
    {
        match &self.step {
            KeptStep::Access(path) => PlanStep::Access(path),
            KeptStep::Loop(path) => PlanStep::Loop(path),
            KeptStep::Merge {
                conjunct,
                path,
                sorted,
            } => PlanStep::Merge {
                conjunct: *conjunct,
                path,
                sorted: *sorted,
            },
            KeptStep::Sort { order } => PlanStep::Sort { order: *order },
        }
    }

    /// How much it costs more than the bound of the state that it leads to.
    pub fn above(&self) -> u64
        ensures { result ≡ self.now.cost.number - self.now.bound }
    {
        self.cost.number.saturating_sub(self.bound)
    }
}

/// A step with a path of its own.
fn kept_step(step: PlanStep<'_>) -> Result<KeptStep, AllocError>
    ensures { IfOk result (λ kept. kept_step_of kept ≡ step_of step.entry) }
{
    match step {
        PlanStep::Access(path) => Ok(KeptStep::Access(path.clone()?)),
        PlanStep::Loop(path) => Ok(KeptStep::Loop(path.clone()?)),
        PlanStep::Merge {
            conjunct,
            path,
            sorted,
        } => Ok(KeptStep::Merge {
            conjunct,
            path: path.clone()?,
            sorted,
        }),
        PlanStep::Sort { order } => Ok(KeptStep::Sort { order }),
    }
}
