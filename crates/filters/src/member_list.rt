//! Lists of IN and NOT IN, and how the words of rows that pass their members are put together.

ghost use Rattle.std.specs.Prelude.{ℕ, ◌≡◌, ◌≤◌, IfOk, IfSome, is_some};
ghost use Rattle.definitions.specs.Queries.Conjuncts.{tables_named};
ghost use Rattle.sqlvalue.specs.Meaning.{op_of};
ghost use Rattle.query_tree.specs.Bound.{condition_of, member_of, value_of as tree_of};
ghost use Rattle.predicates.specs.Naming.{AreFew, NamesFew};
ghost use Rattle.filters.specs.Comparisons.{is_list_beside, is_member_beside, member_op, IsMemberOf};
ghost use Rattle.filters.specs.Compiled.{IsListOf};
ghost use Rattle.filters.specs.Words.{word_by, words_together};

use crate::comparison::{Comparison, compared_with};
use columns::all_rows;
use query_tree::{Condition, ValueExpr};
use sqlvalue::ComparisonOperator;
use std::alloc::{AllocError, Global};

/// A condition `column IN (members)`, or `column NOT IN (members)`, as the comparisons of the column with each member: there is none with NULL.
#[derive(Drop)]
pub struct MemberList<'a> {
    pub(crate) negated: bool,
    pub(crate) members: Vec<Option<Comparison<'a>>>,
}

/// A condition as such a list of a column of the table; none where it is no list, its value is no such column, or a member names one.
pub(crate) fn list_of(
    alloc: Global,
    condition: &Condition,
    table: usize,
) -> Result<Option<MemberList<'_>>, AllocError>
    requires few { NamesFew (condition_of condition.now) }
    ensures some { IfOk result (λ list. is_some list ≡ is_list_beside table (condition_of condition.now)) }
    ensures same { IfOk result (λ list. IfSome list (IsListOf table (condition_of condition.now))) }
{
    let Condition::InList {
        negated,
        value,
        members,
    } = condition
    else {
        return Ok(None);
    };
    let op = member_operator(*negated);
    let mut comparisons = Vec::with_capacity(alloc, members.len())?;
    'members: for member in members {
        let Some(comparison) = compared_member(table, value, op, member) else {
            return Ok(None);
        };
        comparisons.push(comparison)?;
    }
    Ok(Some(MemberList {
        negated: *negated,
        members: comparisons,
    }))
}

/// The comparison of a value with a member, where the one is a column of the table and the other names none. With NULL there is no
/// comparison, and that is known too.
fn compared_member<'a>(
    table: usize,
    own: &ValueExpr,
    op: ComparisonOperator,
    member: &'a Option<ValueExpr>,
) -> Option<Option<Comparison<'a>>>
    requires few { IfSome (member_of member.now) (λ other. AreFew (tables_named other)) }
    ensures some { is_some result ≡ is_member_beside table (tree_of own.now) (member_of member.now) }
    ensures same { IfSome result (IsMemberOf table (op_of op) (tree_of own.now) (member_of member.now)) }
{
    match member {
        Some(other) => match compared_with(table, own, op, other) {
            Some(comparison) => Some(Some(comparison)),
            None => None,
        },
        None => Some(None),
    }
}

/// The operator that compares a value with each member: under NOT IN it differs from all, under IN it is equal to one (ISO/IEC 9075:1992, 8.4).
fn member_operator(negated: bool) -> ComparisonOperator
    ensures { op_of result ≡ member_op negated }
{
    if negated {
        ComparisonOperator::NotEquals
    } else {
        ComparisonOperator::Equals
    }
}

impl MemberList<'_> {
    /// Of so many rows, those that pass where there is no member: all under NOT IN, none under IN.
    pub fn rows_without_members(&self, count: usize) -> u64
        requires { count ≤ 64 }
        ensures { (first : ℕ) → result ≡ word_by (λ row. self.now.negated) first count }
    {
        if self.negated { all_rows(count) } else { 0 }
    }

    /// The rows that pass some members and one more, whose rows a word has: those in both words under NOT IN, those in either under IN.
    pub fn with_member(&self, met: u64, word: u64) -> u64
        ensures { result ≡ words_together self.now.negated met word }
    {
        if self.negated { met & word } else { met | word }
    }
}
