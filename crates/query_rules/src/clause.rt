//! What the expressions of a clause are bound in.

use crate::scopes::Scopes;
use catalog::Database;
use query_tree::BlockColumn;
use std::alloc::Global;

/// Where an expression stands in its block: in WHERE, where blocks may stand in it; in a result column or HAVING, where set
/// functions may, and where columns are those of GROUP BY if the block is grouped; or in the argument of a set function.
#[derive(Clone, Copy)]
pub enum ClauseKind<'s> {
    Where,
    Shown,
    Grouped(&'s [BlockColumn]),
    Argument,
}

/// A clause of a query block, and the tables in its sight.
#[derive(Clone, Copy)]
pub struct Clause<'s, 'g, 'd> {
    pub alloc: Global,
    pub database: &'d Database,
    pub scopes: &'s Scopes<'d>,
    pub place: ClauseKind<'g>,
}
