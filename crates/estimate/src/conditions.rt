//! The selectivity of a conjunct, which puts together those of its parts.

ghost use Rattle.std.specs.Prelude.{◌≡◌, ◌≤◌};
ghost use Rattle.definitions.specs.Table.{Database};
ghost use Rattle.definitions.specs.Queries.BoundBlock.{Block};
ghost use Rattle.definitions.specs.Estimates.Fractions.{million};
ghost use Rattle.definitions.specs.Estimates.Selectivity as spec;
ghost use Rattle.query_tree.specs.Bound.{condition_of};
ghost use Rattle.predicates.specs.Naming.{NamesFew};
ghost use Rattle.predicates.specs.Parts.{condition_in};
ghost use Rattle.estimate.specs.Tables.{tables_of, AreTablesOf};

use crate::fractions::{MILLION, ONE_TENTH, ONE_THIRD, either_of, negated_if, rest_of, share};
use crate::selectivity_shares::{between_share, comparison_share, list_share, null_share};
use catalog::Table;
use predicates::{Conjunct, column_of, column_terms, range_term};
use query_tree::Condition;

/// The share of rows on which a conjunct of a block is taken to be true, in millionths (Selinger et al. 1979, table 1; some
/// numbers are own). The tables are those of the block, in the order of FROM.
pub(crate) fn selectivity(tables: &[&Table], conjunct: Conjunct<'_>) -> u32
    ensures exact { (db : Database) (block : Block) → AreTablesOf db block (tables_of tables.now) →
        result ≡ spec.selectivity db block (condition_in conjunct.entry) }
    ensures below { result ≤ million }
{
    match conjunct.condition {
        Condition::Compare { op, .. } => comparison_share(tables, *op, conjunct.terms),
        condition => part_selectivity(tables, condition),
    }
}

/// That of a condition that may be a part of one.
fn part_selectivity(tables: &[&Table], condition: &Condition) -> u32
    requires few { NamesFew (condition_of condition.now) }
    ensures exact { (db : Database) (block : Block) → AreTablesOf db block (tables_of tables.now) →
        result ≡ spec.selectivity db block (condition_of condition.now) }
    ensures below { result ≤ million }
{
    match condition {
        Condition::Compare { op, .. } => comparison_share(tables, *op, column_terms(condition)),
        Condition::IsNull { negated, value } => negated_if(*negated, null_share(column_of(value))),
        Condition::Between {
            negated,
            value,
            low,
            high,
        } => negated_if(
            *negated,
            between_share(tables, range_term(value, low, high)),
        ),
        Condition::Like { negated, .. } => negated_if(*negated, ONE_TENTH),
        Condition::InList {
            negated,
            value,
            members,
        } => negated_if(
            *negated,
            list_share(tables, column_of(value), members.len()),
        ),
        Condition::InQuery { negated, .. } => negated_if(*negated, ONE_THIRD),
        Condition::Quantified { .. } | Condition::Exists { .. } => ONE_THIRD,
        Condition::Not(operand) => rest_of(part_selectivity(tables, operand)),
        Condition::And(parts) => {
            let mut left = MILLION;
            'all: for part in parts {
                left = share(u64::from(left), part_selectivity(tables, part)) as u32;
            }
            left
        }
        Condition::Or(parts) => {
            let mut met = 0;
            'any: for part in parts {
                met = either_of(met, part_selectivity(tables, part));
            }
            met
        }
    }
}
