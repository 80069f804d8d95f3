//! Access paths and plans by name.

use crate::names::BlockNames;
use plan_tree::{Inner, Path, Plan, SortKey};
use std::fmt::{self, Display, Formatter};

/// An access path by name: `all of C`, `all of C by (CITY) back`, `C by (CITY) on 3`.
#[derive(Clone, Copy)]
pub struct PathText<'n, 'a> {
    pub(crate) names: &'n BlockNames<'a>,
    pub(crate) path: &'n Path,
}

impl Display for PathText<'_, '_> {
    fn fmt<W: fmt::Write>(&self, f: &mut Formatter<W>) -> fmt::Result {
        match self.path {
            Path::Segment { table } => write!(f, "all of {}", self.names.table(*table)),
            Path::Index {
                index,
                backward,
                ..
            } => self.write_by_index(f, "all of ", *index, &[], *backward),
            Path::Match {
                index,
                conjuncts,
                backward,
                ..
            } => self.write_by_index(f, "", *index, conjuncts.as_slice(), *backward),
        }
    }
}

impl PathText<'_, '_> {
    /// `all of C by (CITY) back`, or `C by (CITY) on 3`.
    fn write_by_index<W: fmt::Write>(
        &self,
        f: &mut Formatter<W>,
        before: &str,
        index: usize,
        conjuncts: &[usize],
        backward: bool,
    ) -> fmt::Result {
        let table = self.path.table();
        let (name, columns) = (self.names.table(table), self.names.index(table, index));
        let back = if backward { " back" } else { "" };
        write!(f, "{before}{name} by {columns}{}{back}", Matched(conjuncts))
    }
}

/// The conjuncts that an index is matched by, counted from 1, if there are any: ` on 1, 3`.
#[derive(Clone, Copy)]
struct Matched<'n>(&'n [usize]);

impl Display for Matched<'_> {
    fn fmt<W: fmt::Write>(&self, f: &mut Formatter<W>) -> fmt::Result {
        let mut before = " on ";
        for number in self.0 {
            write!(f, "{before}{}", number.saturating_add(1))?;
            before = ", ";
        }
        Ok(())
    }
}

/// A plan by name: `sort (C by (CITY) on 3) by C.NAME loop all of O`.
#[derive(Clone, Copy)]
pub struct PlanText<'n, 'a> {
    pub(crate) names: &'n BlockNames<'a>,
    pub(crate) orders: &'n [Vec<SortKey>],
    pub(crate) plan: &'n Plan,
}

impl Display for PlanText<'_, '_> {
    fn fmt<W: fmt::Write>(&self, f: &mut Formatter<W>) -> fmt::Result {
        write_plan(f, self.names, self.orders, self.plan)
    }
}

fn write_plan<'n, W: fmt::Write>(
    f: &mut Formatter<W>,
    names: &'n BlockNames<'_>,
    orders: &'n [Vec<SortKey>],
    plan: &'n Plan,
) -> fmt::Result {
    match plan {
        Plan::Access(path) => names.path(path).fmt(f),
        Plan::Loop { outer, path } => {
            write_plan(f, names, orders, outer)?;
            write!(f, " loop {}", names.path(path))
        }
        Plan::Merge {
            outer,
            conjunct,
            inner,
        } => {
            write_plan(f, names, orders, outer)?;
            write_merge(f, names, *conjunct, inner)
        }
        Plan::Sort { input, order } => {
            f.write_str("sort (")?;
            write_plan(f, names, orders, input)?;
            let keys = keys_of(orders, *order);
            write!(f, ") by {}", names.order(keys))
        }
    }
}

/// ` merge on 1 sorted all of O`.
fn write_merge<'n, W: fmt::Write>(
    f: &mut Formatter<W>,
    names: &'n BlockNames<'_>,
    conjunct: usize,
    inner: &'n Inner,
) -> fmt::Result {
    let sorted = if inner.sorted { "sorted " } else { "" };
    write!(
        f,
        " merge on {} {sorted}{}",
        conjunct.saturating_add(1),
        names.path(&inner.path)
    )
}

/// The keys of a numbered order; one without a number has none.
pub(crate) fn keys_of(orders: &[Vec<SortKey>], order: usize) -> &[SortKey] {
    match orders.get(order) {
        Some(keys) => keys.as_slice(),
        None => &[],
    }
}
