//! A conjunct, taken apart.

ghost use Rattle.std.specs.Prelude.{◌≡◌, option_map};
ghost use Rattle.definitions.specs.Estimates.PlanConjuncts as plans;
ghost use Rattle.definitions.specs.Queries.Conjuncts.{condition_tables, is_late};
ghost use Rattle.query_tree.specs.Bound.{condition_of};
ghost use Rattle.plan_tree.specs.Sets.{set_of};
ghost use Rattle.predicates.specs.Columns.{pair_of};
ghost use Rattle.predicates.specs.Membership.{column_membership};
ghost use Rattle.predicates.specs.Terms.{terms_of};
ghost use Rattle.predicates.specs.Views.{membership_of, terms_in};
ghost use Rattle.predicates.specs.TermSets.{terms_set};

use crate::column_term::ColumnTerms;
use crate::membership::Membership;
use plan_tree::TableSet;
use query_tree::{BlockColumn, Condition};

/// A conjunct: a part of WHERE that every row has to meet, taken apart once.
#[derive(Clone, Copy)]
pub struct Conjunct<'a> {
    pub condition: &'a Condition,
    /// Whether it can raise, or names no table: then it is evaluated only where all early ones are true (own).
    pub late: bool,
    /// The tables of its block that it names.
    pub tables: TableSet,
    /// What it says of the columns that stand alone on its sides.
    pub terms: ColumnTerms<'a>,
    /// The two columns, where it is `column = column`.
    pub equated: Option<(BlockColumn, BlockColumn)>,
    /// What it says of a column, where it is `column IN (subquery)` or `column NOT IN (subquery)`.
    pub membership: Option<Membership>,
    pub ghost judged: { late ≡ is_late (condition_of condition.now) },
    pub ghost named: { set_of tables ≡ condition_tables (condition_of condition.now) },
    pub ghost said: { terms_in terms ≡ terms_of (condition_of condition.now) } by { terms_set _ _ },
    pub ghost equal: { option_map pair_of equated ≡ plans.equated_columns (condition_of condition.now) },
    pub ghost belongs: { option_map membership_of membership ≡ column_membership (condition_of condition.now) },
}
