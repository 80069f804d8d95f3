//! Which types go together as operands, and the type of what comes of them.

ghost use Rattle.std.specs.Prelude.{ℕ, ◌≡◌, ◌≢◌, ◌≤◌, ◌<◌, Some, IfOk, IfErr, OnOk, map};
ghost use Rattle.definitions.specs.Limits.{greatest_scale};
ghost use Rattle.definitions.specs.Grammar.{operands};
ghost use Rattle.definitions.specs.Refusal as refusal;
ghost use Rattle.definitions.specs.ValueType.{NumberType, TextType, type_kind};
ghost use Rattle.definitions.specs.Binding.BoundForm as form;
ghost use Rattle.definitions.specs.Binding.Faults.{is_logical};
ghost use Rattle.definitions.specs.Binding.Types as types;
ghost use Rattle.definitions.specs.Binding.Types.{joined_type};
ghost use Rattle.query_tree.specs.Bound.{operator_of as bound_operator_of, value_type_of};
ghost use Rattle.parse_tree.specs.Trees.{function_of, operand_of, operator_of};
ghost use Rattle.definitions.specs.Value.{Numbers};
ghost use Rattle.query_rules.specs.Judging.{IsFine};
ghost use Rattle.query_rules.specs.Leaves.{WantsNumbers};
ghost use Rattle.query_rules.specs.Meaning.{query_refusal};

use crate::fault::QueryFault;
use crate::leaf::{MAX_SCALE, Typed};
use parse_tree::{Expr, LineOperator, Operand, SetFunction};
use query_tree::{Operator, ValueType};

/// The digits that a quotient has behind the point, at least (own).
const QUOTIENT_SCALE: u8 = 6;

/// The scale of a value that has to be a number.
pub fn number_scale<'a>(value_type: ValueType, expr: &'a Expr) -> Result<u8, QueryFault<'a>>
    ensures ok { IfOk result (λ scale. value_type_of value_type ≡ NumberType scale) }
    ensures text { IfErr result (λ f. value_type_of value_type ≡ TextType) }
    ensures refused { IfErr result (λ f. query_refusal f ≡ refusal.MixedKinds) }
{
    match value_type {
        ValueType::Number { scale } => Ok(scale),
        ValueType::Text => Err(QueryFault::TextForNumber(expr)),
    }
}

/// That two values are of one kind (ISO/IEC 9075:1992, 8.2, syntax rule 2).
#[inline(never)]
pub fn judge_kinds<'a>(
    left: ValueType,
    right: ValueType,
    expr: &'a Expr,
) -> Result<(), QueryFault<'a>>
    ensures alike { OnOk result (type_kind (value_type_of left) ≡ type_kind (value_type_of right)) }
    ensures apart { IfErr result (λ f. type_kind (value_type_of left) ≢ type_kind (value_type_of right)) }
    ensures refused { IfErr result (λ f. query_refusal f ≡ refusal.MixedKinds) }
{
    match (left, right) {
        (ValueType::Number { .. }, ValueType::Text) => Err(QueryFault::NumberWithText(expr)),
        (ValueType::Text, ValueType::Number { .. }) => Err(QueryFault::TextWithNumber(expr)),
        _ => Ok(()),
    }
}

pub fn operator(operator: LineOperator) -> Operator
    ensures { bound_operator_of result ≡ form.operator_of (operator_of operator) }
{
    match operator {
        LineOperator::Plus => Operator::Plus,
        LineOperator::Minus => Operator::Minus,
        LineOperator::Times => Operator::Times,
        LineOperator::Divided | LineOperator::And | LineOperator::Or => Operator::Over,
    }
}

/// Whether operands behind the first stand under AND or OR.
pub fn are_logical(others: &[Operand]) -> bool
    ensures { result ≡ is_logical (operands (map operand_of others.now)) }
{
    match others.first() {
        Some(operand) => matches!(operand.operator, LineOperator::And | LineOperator::Or),
        None => false,
    }
}

/// The scale of two numbers with an operator between them (ISO/IEC 9075:1992, 6.12, syntax rule 1; the limit is own).
pub fn joined_scale<'a>(left: u8, operand: &'a Operand, right: u8) -> Result<u8, QueryFault<'a>>
    requires left { left ≤ greatest_scale }
    requires right { right ≤ greatest_scale }
    ensures ok { IfOk result (λ scale. joined_type (operator_of operand.now.operator) (Some (NumberType left))
        (Some (NumberType right)) ≡ Some (NumberType scale)) }
    ensures fine { IfOk result (λ scale. scale ≤ greatest_scale) }
    ensures great { IfErr result (λ f. (scale : ℕ) × (joined_type (operator_of operand.now.operator)
        (Some (NumberType left)) (Some (NumberType right)) ≡ Some (NumberType scale)) × (greatest_scale < scale)) }
    ensures refused { IfErr result (λ f. query_refusal f ≡ refusal.ScaleTooGreat) }
{
    match operator(operand.operator) {
        Operator::Plus | Operator::Minus => Ok(left.max(right)),
        Operator::Times if left as u16 + right as u16 > MAX_SCALE as u16 => {
            Err(QueryFault::GreatProduct(operand))
        }
        Operator::Times => Ok(left + right),
        Operator::Over => Ok(left.max(QUOTIENT_SCALE)),
    }
}

/// The type of a set function's values (ISO/IEC 9075:1992, 6.5, syntax rules 6 and 7).
pub fn function_type<'a>(
    function: SetFunction,
    argument: ValueType,
    expr: &'a Expr,
) -> Result<ValueType, QueryFault<'a>>
    requires { IsFine (value_type_of argument) }
    ensures ok { IfOk result (λ t. types.function_type (function_of function) (Some (value_type_of argument))
        ≡ Some (value_type_of t)) }
    ensures fine { IfOk result (λ t. IsFine (value_type_of t)) }
    ensures numbers { OnOk result (WantsNumbers (function_of function) → type_kind (value_type_of argument) ≡ Numbers) }
    ensures text { IfErr result (λ f. WantsNumbers (function_of function) × (value_type_of argument ≡ TextType)) }
    ensures refused { IfErr result (λ f. query_refusal f ≡ refusal.MixedKinds) }
{
    match function {
        SetFunction::Count => Ok(ValueType::Number { scale: 0 }),
        SetFunction::Sum => {
            let scale = number_scale(argument, expr)?;
            Ok(ValueType::Number { scale })
        }
        SetFunction::Avg => {
            let scale = number_scale(argument, expr)?;
            Ok(ValueType::Number {
                scale: scale.max(QUOTIENT_SCALE),
            })
        }
        SetFunction::Min | SetFunction::Max => Ok(argument),
    }
}
