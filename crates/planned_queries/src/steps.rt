//! The steps of a plan with what they come to.

use crate::block_views::BlockView;
use cert_check::{PlanStep, PlanSummary, Space};
use plan_texts::{are_same, last_step};
use plan_tree::{Path, Plan, TableSet};
use query_tree::Condition;
use std::alloc::{AllocError, Global};
use std::fmt::{self, Display, Formatter};

/// The steps of a plan, the last one first; each stands on the one behind it.
#[derive(Drop)]
pub struct PlanSteps<'p> {
    steps: Vec<StepOfPlan<'p>>,
}

/// A step, and what the plan comes to that ends with it; none where that is no plan of the space.
#[derive(Clone, Copy)]
struct StepOfPlan<'p> {
    plan: &'p Plan,
    summary: Option<PlanSummary>,
}

/// A step with what it comes to.
#[derive(Clone, Copy)]
pub struct Shown<'p> {
    pub step: PlanStep<'p>,
    /// Of the plan that ends with it.
    pub summary: PlanSummary,
    /// The tables of the plan that it stands on.
    pub outer: TableSet,
    /// What it adds to the cost of the plan that it stands on.
    pub own: u64,
}

impl<'p> PlanSteps<'p> {
    /// The steps of a plan, with what they come to in a plan space. It fails where memory runs out.
    pub fn of(
        alloc: Global,
        space: &Space<'_>,
        plan: &'p Plan,
    ) -> Result<PlanSteps<'p>, AllocError> {
        let mut all = PlanSteps {
            steps: Vec::new(alloc),
        };
        all.add(space, plan)?;
        Ok(all)
    }

    fn add(&mut self, space: &Space<'_>, plan: &'p Plan) -> Result<(), AllocError> {
        self.steps.push(StepOfPlan {
            plan,
            summary: space.summary(plan),
        })?;
        match plan {
            Plan::Access(_) => Ok(()),
            Plan::Loop { outer: below, .. }
            | Plan::Merge { outer: below, .. }
            | Plan::Sort { input: below, .. } => self.add(space, below),
        }
    }

    /// How many steps there are.
    pub fn len(&self) -> usize {
        self.steps.len()
    }

    /// A step by its number, from 0, if the plan that ends with it is one of the space.
    pub fn shown(&self, number: usize) -> Option<Shown<'p>> {
        let here = self.steps.get(number)?;
        let summary = here.summary?;
        let below = match self.steps.get(number.saturating_add(1)) {
            Some(below) => below.summary,
            None => None,
        };
        let (outer, before) = match below {
            Some(below) => (below.tables, below.cost.number),
            None => (TableSet::none(), 0),
        };
        Some(Shown {
            step: last_step(here.plan),
            summary,
            outer,
            own: summary.cost.number.saturating_sub(before),
        })
    }
}

/// What a scan of a path costs where the rows of a set of tables are known.
fn scan_cost(space: &Space<'_>, known: TableSet, path: &Path) -> Option<u64> {
    if path.table() >= space.table_count() {
        return None;
    }
    for item in space.paths(known, path.table()) {
        if is_same_path(item.path, path) {
            return Some(item.cost.number);
        }
    }
    None
}

/// Whether two paths are one.
pub fn is_same_path(one: &Path, other: &Path) -> bool {
    one.table() == other.table() && are_same(one, other)
}

/// A step in words: `loop over I by (ONO) on 2: O.ONO = I.ONO, 500 times, 12 each`.
pub fn step_words(
    alloc: Global,
    block: &BlockView<'_>,
    shown: &Shown<'_>,
) -> Result<String, AllocError> {
    format!(in alloc; "{}", StepWords { block, shown })
}

#[derive(Clone, Copy)]
struct StepWords<'w, 'a> {
    block: &'w BlockView<'a>,
    shown: &'w Shown<'w>,
}

impl Display for StepWords<'_, '_> {
    fn fmt<W: fmt::Write>(&self, f: &mut Formatter<W>) -> fmt::Result {
        let names = &self.block.names;
        match self.shown.step {
            PlanStep::Access(path) => {
                names.path(path).fmt(f)?;
                self.write_matched(f, path)
            }
            PlanStep::Loop(path) => {
                write!(f, "loop over {}", names.path(path))?;
                self.write_matched(f, path)?;
                self.write_times(f, path)
            }
            PlanStep::Merge {
                conjunct,
                path,
                sorted,
            } => {
                let sorted = if sorted { "sorted " } else { "" };
                write!(f, "merge with {sorted}{} on ", names.path(path))?;
                self.write_conjunct(f, conjunct)
            }
            PlanStep::Sort { order } => match self.block.space().orders().get(order) {
                Some(keys) => write!(f, "sort by {}", names.order(keys)),
                None => f.write_str("sort"),
            },
        }
    }
}

impl StepWords<'_, '_> {
    /// The conjuncts that a path matches with its index.
    fn write_matched<W: fmt::Write>(&self, f: &mut Formatter<W>, path: &Path) -> fmt::Result {
        let Path::Match { conjuncts, .. } = path else {
            return Ok(());
        };
        let mut separator = ": ";
        for number in conjuncts.as_slice() {
            f.write_str(separator)?;
            self.write_conjunct(f, *number)?;
            separator = " AND ";
        }
        Ok(())
    }

    fn write_conjunct<W: fmt::Write>(&self, f: &mut Formatter<W>, number: usize) -> fmt::Result {
        let found: Option<&Condition> = self.block.names.conjunct(number);
        match found {
            Some(condition) => self.block.names.condition(condition).fmt(f),
            None => write!(f, "conjunct {}", number.saturating_add(1)),
        }
    }

    /// How often the path is scanned, and what each scan costs.
    fn write_times<W: fmt::Write>(&self, f: &mut Formatter<W>, path: &Path) -> fmt::Result {
        let outer = self.shown.outer;
        let times = self.block.estimate.cardinality(outer);
        match scan_cost(self.block.space(), outer, path) {
            Some(each) => write!(f, ", {times} times, {each} each"),
            None => Ok(()),
        }
    }
}
