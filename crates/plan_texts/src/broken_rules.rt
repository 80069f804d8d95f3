//! Why a plan is none of the plan space.

use crate::paths_apart::{PathFault, path_fault};
use crate::rule_words::write_rule;
use certificate::{BlockSpace, PlanSummary, Space};
use plan_names::{BlockNames, last_step, plan_below};
use plan_tree::{Inner, MAX_FROM_TABLES, Path, Plan, SortKey, TableSet};
use predicates::equated_columns;
use query_tree::BlockColumn;
use std::fmt::{self, Display, Formatter};

/// The rule of the plan space that a step breaks (Selinger et al. 1979, section 5).
#[derive(Clone, Copy)]
pub enum BrokenRule {
    /// The block has no such table.
    NoTable,
    /// The table is in the plan below.
    TableThere { table: usize },
    /// Conjuncts link other tables to those of the plan below: products come last.
    Product,
    Path { table: usize, fault: PathFault },
    /// The conjunct equates no columns of two tables.
    NoEquation { conjunct: usize },
    /// It does, but not one of the table and one of the plan below.
    OtherTables { conjunct: usize, table: usize },
    /// The rows of the plan below don't come in the order of their merge column.
    OuterOrder { column: BlockColumn },
    /// The rows of the inner path don't, and aren't sorted.
    InnerOrder { column: BlockColumn },
    /// There is no order of this number.
    NoOrder,
    /// There is nothing to sort by.
    EmptyOrder,
    /// The order goes by columns of tables that aren't there.
    LaterTables { tables: TableSet },
}

/// Why a plan is none of the plan space: its lowest step that can't stand where it does, and the rule that it breaks.
#[derive(Clone, Copy)]
pub struct OutsideText<'n, 'a> {
    names: &'n BlockNames<'a>,
    orders: &'n [Vec<SortKey>],
    /// The plan up to that step, and what the plan below it comes to.
    part: &'n Plan,
    below: Option<PlanSummary>,
    rule: BrokenRule,
}

/// Why a plan is none of a block's plan space; none where it is one, on whichever of the block's tables.
pub fn outside<'n, 'a>(
    names: &'n BlockNames<'a>,
    own: &'n BlockSpace<'_>,
    plan: &'n Plan,
) -> Option<OutsideText<'n, 'a>> {
    let part = wrong_part(&own.space, plan)?;
    let below = match plan_below(part) {
        Some(below) => own.space.summary(below),
        None => None,
    };
    Some(OutsideText {
        names,
        orders: own.space.orders(),
        part,
        below,
        rule: broken_rule(names, &own.space, part, below),
    })
}

/// The least part of a plan that is no plan of the block.
fn wrong_part<'p>(space: &Space, plan: &'p Plan) -> Option<&'p Plan> {
    if space.summary(plan).is_some() {
        return None;
    }
    match plan {
        Plan::Access(_) => Some(plan),
        Plan::Loop { outer: below, .. }
        | Plan::Merge { outer: below, .. }
        | Plan::Sort { input: below, .. } => Some(wrong_part(space, below).unwrap_or(plan)),
    }
}

/// The rule that the last step of a plan breaks.
fn broken_rule(
    names: &BlockNames,
    space: &Space,
    part: &Plan,
    below: Option<PlanSummary>,
) -> BrokenRule {
    match (part, below) {
        (Plan::Access(path), _) => broken_by_access(space, path),
        (Plan::Loop { path, .. }, Some(below)) => broken_by_loop(space, below, path),
        (
            Plan::Merge {
                conjunct,
                inner,
                ..
            },
            Some(below),
        ) => broken_by_merge(names, space, below, *conjunct, inner),
        (Plan::Sort { order, .. }, Some(below)) => broken_by_sort(space, below, *order),
        _ => BrokenRule::NoOrder,
    }
}

fn broken_by_access(space: &Space, path: &Path) -> BrokenRule {
    if path.table() >= space.table_count() {
        return BrokenRule::NoTable;
    }
    broken_by_path(space, TableSet::none(), path)
}

/// Why a path isn't there where the rows of a set of tables are known.
fn broken_by_path(space: &Space, known: TableSet, path: &Path) -> BrokenRule {
    BrokenRule::Path {
        table: path.table(),
        fault: path_fault(space, known, path).unwrap_or(PathFault::OtherVersion),
    }
}

fn broken_by_loop(space: &Space, below: PlanSummary, path: &Path) -> BrokenRule {
    match broken_by_table(space, below, path.table()) {
        Some(rule) => rule,
        None => broken_by_path(space, below.tables, path),
    }
}

/// Why a table can't come next.
fn broken_by_table(space: &Space, below: PlanSummary, table: usize) -> Option<BrokenRule> {
    if table >= space.table_count() {
        return Some(BrokenRule::NoTable);
    }
    if below.tables.has(table) {
        return Some(BrokenRule::TableThere { table });
    }
    if space.relation(below.tables).can_join_next(table) {
        None
    } else {
        Some(BrokenRule::Product)
    }
}

fn broken_by_merge(
    names: &BlockNames,
    space: &Space,
    below: PlanSummary,
    conjunct: usize,
    inner: &Inner,
) -> BrokenRule {
    let table = inner.path.table();
    if let Some(rule) = broken_by_table(space, below, table) {
        return rule;
    }
    if let Some(fault) = path_fault(space, TableSet::none(), &inner.path) {
        return BrokenRule::Path { table, fault };
    }
    let (outer, inner) = match merge_columns(names, below.tables, conjunct, table) {
        Ok(columns) => columns,
        Err(rule) => return rule,
    };
    let relation = space.relation(below.tables);
    if relation.goes_by(below.order, conjunct, table) {
        BrokenRule::InnerOrder { column: inner }
    } else {
        BrokenRule::OuterOrder { column: outer }
    }
}

/// The two columns of a merge conjunct, that of the plan below first.
fn merge_columns(
    names: &BlockNames,
    below: TableSet,
    conjunct: usize,
    table: usize,
) -> Result<(BlockColumn, BlockColumn), BrokenRule> {
    let equated = match names.conjunct(conjunct) {
        Some(condition) => equated_columns(condition),
        None => None,
    };
    match equated {
        Some((one, other)) if one.table == other.table => {
            Err(BrokenRule::NoEquation { conjunct })
        }
        Some((outer, inner)) if inner.table == table && below.has(outer.table) => {
            Ok((outer, inner))
        }
        Some((inner, outer)) if inner.table == table && below.has(outer.table) => {
            Ok((outer, inner))
        }
        Some(_) => Err(BrokenRule::OtherTables { conjunct, table }),
        None => Err(BrokenRule::NoEquation { conjunct }),
    }
}

fn broken_by_sort(space: &Space, below: PlanSummary, order: usize) -> BrokenRule {
    let Some(keys) = space.orders().get(order) else {
        return BrokenRule::NoOrder;
    };
    if keys.is_empty() {
        return BrokenRule::EmptyOrder;
    }
    BrokenRule::LaterTables {
        tables: tables_apart(keys, below.tables),
    }
}

/// The tables of keys that aren't in a set.
fn tables_apart(keys: &[SortKey], tables: TableSet) -> TableSet {
    let mut apart = TableSet::none();
    for key in keys {
        let table = key.column.table;
        if !tables.has(table) && table < MAX_FROM_TABLES {
            apart = apart.with(table);
        }
    }
    apart
}

impl<'n> OutsideText<'n, '_> {
    /// The plan up to the step that can't stand where it does, and that step last.
    pub fn part(&self) -> &'n Plan {
        self.part
    }
}

impl Display for OutsideText<'_, '_> {
    /// `a merge by C.CNO = O.CNO (conjunct 1) with all of O can't stand on C in no order: ..`, as one line without its end.
    fn fmt<W: fmt::Write>(&self, f: &mut Formatter<W>) -> fmt::Result {
        let names = self.names;
        let step = names.step(self.orders, last_step(self.part));
        match self.below {
            Some(below) => {
                let below = names.state(self.orders, below.tables, below.order);
                write!(f, "{step} can't stand on {below}: ")?;
            }
            None => write!(f, "{step} is none of the block: ")?,
        }
        write_rule(f, names, self.rule)
    }
}
