//! What stands in conditions and values: the conjuncts of a condition, the values that it speaks of, and the inner blocks that it asks for.

ghost use Rattle.std.specs.Prelude.{◌≡◌, ◌++◌, ◌∷◌, [], OnOk, map};
ghost use Rattle.definitions.specs.Queries.Conjuncts.{blocks_in, compared_blocks, conjuncts_of, member_values, tested_blocks, values_of};
ghost use Rattle.query_tree.specs.Bound.{condition_of, member_of, value_of};
ghost use Rattle.query_tree.specs.Walks.{conditions_in, trees_of};

use crate::condition::Condition;
use crate::value::ValueExpr;
use std::alloc::AllocError;

/// Adds the conjuncts of a condition, in text order: its parts under AND, and their parts under AND (own). It fails where memory runs out.
pub fn push_conjuncts<'a>(
    conjuncts: &mut Vec<&'a Condition>,
    condition: &'a Condition,
) -> Result<(), AllocError>
    ensures { OnOk result (conditions_in conjuncts.new.items
        ≡ conditions_in conjuncts.old.items ++ conjuncts_of (condition_of condition.now)) }
{
    match condition {
        Condition::And(parts) => {
            for part in parts {
                push_conjuncts(conjuncts, part)?;
            }
            Ok(())
        }
        other => {
            conjuncts.push(other)?;
            Ok(())
        }
    }
}

/// Adds the values that a condition speaks of, in text order. It fails where memory runs out.
pub fn push_values<'a>(
    values: &mut Vec<&'a ValueExpr>,
    condition: &'a Condition,
) -> Result<(), AllocError>
    ensures { OnOk result (trees_of values.new.items ≡ trees_of values.old.items ++ values_of
        (condition_of condition.now)) }
{
    match condition {
        Condition::Compare { left, right, .. } => values.extend_from_slice(&[left, right]),
        Condition::Quantified { value, .. } => values.extend_from_slice(&[value]),
        Condition::IsNull { value, .. } => values.extend_from_slice(&[value]),
        Condition::Like { value, .. } => values.extend_from_slice(&[value]),
        Condition::InQuery { value, .. } => values.extend_from_slice(&[value]),
        Condition::Between {
            value,
            low,
            high,
            ..
        } => values.extend_from_slice(&[value, low, high]),
        Condition::InList { value, members, .. } => {
            values.extend_from_slice(&[value])?;
            push_members(values, members)
        }
        Condition::Exists { .. } => Ok(()),
        Condition::Not(operand) => push_values(values, operand),
        Condition::And(parts) | Condition::Or(parts) => {
            for part in parts {
                push_values(values, part)?;
            }
            Ok(())
        }
    }
}

/// The members of an IN list; NULL is none.
fn push_members<'a>(
    values: &mut Vec<&'a ValueExpr>,
    members: &'a [Option<ValueExpr>],
) -> Result<(), AllocError>
    ensures { OnOk result (trees_of values.new.items ≡ trees_of values.old.items ++ member_values
        (map member_of members.now)) }
{
    'members: for member in members {
        push_member(values, member)?;
    }
    Ok(())
}

fn push_member<'a>(
    values: &mut Vec<&'a ValueExpr>,
    member: &'a Option<ValueExpr>,
) -> Result<(), AllocError>
    ensures { OnOk result (trees_of values.new.items ≡ trees_of values.old.items ++ member_values
        (member_of member.now ∷ [])) }
{
    match member {
        Some(value) => values.extend_from_slice(&[value]),
        None => Ok(()),
    }
}

/// Adds the numbers of the inner blocks that a condition itself tests, by a quantifier, IN or EXISTS, in text order (ISO/IEC 9075:1992, 8.4, 8.7
/// and 8.8). It fails where memory runs out.
pub fn push_tested(blocks: &mut Vec<usize>, condition: &Condition) -> Result<(), AllocError>
    ensures { OnOk result (blocks.new.items ≡ blocks.old.items ++ tested_blocks (condition_of condition.now)) }
{
    match condition {
        Condition::Quantified { block, .. } => blocks.extend_from_slice(&[*block]),
        Condition::InQuery { block, .. } => blocks.extend_from_slice(&[*block]),
        Condition::Exists { block } => blocks.extend_from_slice(&[*block]),
        Condition::Not(operand) => push_tested(blocks, operand),
        Condition::And(parts) | Condition::Or(parts) => {
            for part in parts {
                push_tested(blocks, part)?;
            }
            Ok(())
        }
        Condition::Compare { .. }
        | Condition::IsNull { .. }
        | Condition::Between { .. }
        | Condition::Like { .. }
        | Condition::InList { .. } => Ok(()),
    }
}

/// Adds the numbers of the inner blocks that a condition compares a value with, by a quantifier or IN, in text order (ISO/IEC 9075:1992, 8.4 and
/// 8.7). It fails where memory runs out.
pub fn push_compared(blocks: &mut Vec<usize>, condition: &Condition) -> Result<(), AllocError>
    ensures { OnOk result (blocks.new.items ≡ blocks.old.items ++ compared_blocks (condition_of condition.now)) }
{
    match condition {
        Condition::Quantified { block, .. } => blocks.extend_from_slice(&[*block]),
        Condition::InQuery { block, .. } => blocks.extend_from_slice(&[*block]),
        Condition::Not(operand) => push_compared(blocks, operand),
        Condition::And(parts) | Condition::Or(parts) => {
            for part in parts {
                push_compared(blocks, part)?;
            }
            Ok(())
        }
        Condition::Exists { .. }
        | Condition::Compare { .. }
        | Condition::IsNull { .. }
        | Condition::Between { .. }
        | Condition::Like { .. }
        | Condition::InList { .. } => Ok(()),
    }
}

/// Adds the numbers of the inner blocks that a value holds, in text order. It fails where memory runs out.
pub fn push_blocks(blocks: &mut Vec<usize>, expr: &ValueExpr) -> Result<(), AllocError>
    ensures { OnOk result (blocks.new.items ≡ blocks.old.items ++ blocks_in (value_of expr.now)) }
{
    match expr {
        ValueExpr::Subquery { block, .. } => blocks.extend_from_slice(&[*block]),
        ValueExpr::Signed { operand, .. } => push_blocks(blocks, operand),
        ValueExpr::Chain { first, others } => {
            push_blocks(blocks, first)?;
            for operand in others {
                push_blocks(blocks, &operand.value)?;
            }
            Ok(())
        }
        _ => Ok(()),
    }
}
