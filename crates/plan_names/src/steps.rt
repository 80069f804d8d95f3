//! States and steps by name.

use crate::names::BlockNames;
use crate::plans::keys_of;
use cert_check::PlanStep;
use plan_tree::{Path, Plan, SortKey, TableSet};
use std::fmt::{self, Display, Formatter};

/// What plans are compared at, by name: a set of tables and an order of their rows, as `C, O in order of O.ODATE` or `C in no order`.
#[derive(Clone, Copy)]
pub struct StateText<'n, 'a> {
    pub(crate) names: &'n BlockNames<'a>,
    pub(crate) orders: &'n [Vec<SortKey>],
    pub(crate) tables: TableSet,
    pub(crate) order: usize,
}

impl Display for StateText<'_, '_> {
    fn fmt<W: fmt::Write>(&self, f: &mut Formatter<W>) -> fmt::Result {
        let tables = self.names.tables(self.tables);
        match keys_of(self.orders, self.order) {
            [] => write!(f, "{tables} in no order"),
            keys => write!(f, "{tables} in order of {}", self.names.order(keys)),
        }
    }
}

/// A step of a plan by name: `the access C by (CITY) on 3`, `a loop over all of O`, `a merge by C.CNO = O.CNO (conjunct 1) with sorted all of O`,
/// `a sort by O.ODATE`.
#[derive(Clone, Copy)]
pub struct StepText<'n, 'a> {
    pub(crate) names: &'n BlockNames<'a>,
    pub(crate) orders: &'n [Vec<SortKey>],
    pub(crate) step: PlanStep<'n>,
}

impl Display for StepText<'_, '_> {
    fn fmt<W: fmt::Write>(&self, f: &mut Formatter<W>) -> fmt::Result {
        let names = self.names;
        let (words, path) = match self.step {
            PlanStep::Access(path) => ("the access ", path),
            PlanStep::Loop(path) => ("a loop over ", path),
            PlanStep::Merge {
                conjunct,
                path,
                sorted,
            } => return write_merge(f, names, conjunct, path, sorted),
            PlanStep::Sort { order } => {
                let keys = keys_of(self.orders, order);
                return write!(f, "a sort by {}", names.order(keys));
            }
        };
        write!(f, "{words}{}", names.path(path))
    }
}

fn write_merge<'n, W: fmt::Write>(
    f: &mut Formatter<W>,
    names: &'n BlockNames<'_>,
    conjunct: usize,
    path: &'n Path,
    sorted: bool,
) -> fmt::Result {
    let sorted = if sorted { "sorted " } else { "" };
    write!(
        f,
        "a merge by {} with {sorted}{}",
        names.numbered_conjunct(conjunct),
        names.path(path)
    )
}

/// A conjunct of the block with its number, from 1: `C.CNO = O.CNO (conjunct 1)`.
#[derive(Clone, Copy)]
pub struct ConjunctText<'n, 'a> {
    pub(crate) names: &'n BlockNames<'a>,
    pub(crate) number: usize,
}

impl Display for ConjunctText<'_, '_> {
    fn fmt<W: fmt::Write>(&self, f: &mut Formatter<W>) -> fmt::Result {
        let number = self.number.saturating_add(1);
        match self.names.conjunct(self.number) {
            Some(condition) => write!(f, "{} (conjunct {number})", self.names.condition(condition)),
            None => write!(f, "conjunct {number}"),
        }
    }
}

/// The last step of a plan.
pub fn last_step(plan: &Plan) -> PlanStep<'_> {
    match plan {
        Plan::Access(path) => PlanStep::Access(path),
        Plan::Loop { path, .. } => PlanStep::Loop(path),
        Plan::Merge {
            conjunct,
            inner,
            ..
        } => PlanStep::Merge {
            conjunct: *conjunct,
            path: &inner.path,
            sorted: inner.sorted,
        },
        Plan::Sort { order, .. } => PlanStep::Sort { order: *order },
    }
}

/// The plan on top of which the last step of a plan stands; an access stands on none.
pub fn plan_below(plan: &Plan) -> Option<&Plan> {
    match plan {
        Plan::Access(_) => None,
        Plan::Loop { outer, .. } | Plan::Merge { outer, .. } => Some(outer),
        Plan::Sort { input, .. } => Some(input),
    }
}
