//! Values as SQL has them.

use crate::names::BlockNames;
use parse_tree::SetFunction;
use query_tree::{Aggregate, NumberLiteral, Operator, ValueExpr};
use std::fmt::{self, Display, Formatter};

/// A value of a block, as SQL has it.
#[derive(Clone, Copy)]
pub struct ValueText<'n, 'a> {
    pub(crate) names: &'n BlockNames<'a>,
    pub(crate) value: &'n ValueExpr,
}

impl Display for ValueText<'_, '_> {
    fn fmt<W: fmt::Write>(&self, f: &mut Formatter<W>) -> fmt::Result {
        write_value(f, self.names, self.value, Binding::Sum)
    }
}

/// How strongly the parts of a value are bound, the weakest first (ISO/IEC 9075:1992, 6.12).
#[derive(Clone, Copy, PartialEq, Eq, PartialOrd, Ord)]
pub(crate) enum Binding {
    Sum,
    Product,
    Sign,
    Primary,
}

fn binding_of(value: &ValueExpr) -> Binding {
    match value {
        ValueExpr::Chain { others, .. } => match others.first() {
            Some(operand) => binding_of_operator(operand.operator),
            None => Binding::Primary,
        },
        ValueExpr::Signed { .. } => Binding::Sign,
        _ => Binding::Primary,
    }
}

fn binding_of_operator(operator: Operator) -> Binding {
    match operator {
        Operator::Plus | Operator::Minus => Binding::Sum,
        Operator::Times | Operator::Over => Binding::Product,
    }
}

/// Writes a value, in parentheses if it is bound more weakly than its place asks.
pub(crate) fn write_value<'n, W: fmt::Write>(
    f: &mut Formatter<W>,
    names: &'n BlockNames<'_>,
    value: &'n ValueExpr,
    least: Binding,
) -> fmt::Result {
    let (open, close) = if binding_of(value) < least {
        ("(", ")")
    } else {
        ("", "")
    };
    f.write_str(open)?;
    match value {
        ValueExpr::Signed { minus, operand } => {
            f.write_str(if *minus { "-" } else { "+" })?;
            write_value(f, names, operand, Binding::Primary)?;
        }
        ValueExpr::Chain { first, others } => {
            write_value(f, names, first, binding_of(value))?;
            for operand in others {
                let (sign, least) = sign_of(operand.operator);
                f.write_str(sign)?;
                write_value(f, names, &operand.value, least)?;
            }
        }
        leaf => write_leaf(f, names, leaf)?,
    }
    f.write_str(close)
}

/// What stands before an operand behind the first, and how strongly its parts have to be bound.
fn sign_of(operator: Operator) -> (&'static str, Binding) {
    match operator {
        Operator::Plus => (" + ", Binding::Product),
        Operator::Minus => (" - ", Binding::Product),
        Operator::Times => (" * ", Binding::Sign),
        Operator::Over => (" / ", Binding::Sign),
    }
}

/// A value without operands.
fn write_leaf<'n, W: fmt::Write>(
    f: &mut Formatter<W>,
    names: &'n BlockNames<'_>,
    value: &'n ValueExpr,
) -> fmt::Result {
    match value {
        ValueExpr::Column { column, .. } => names.column(*column).fmt(f),
        ValueExpr::Parameter {
            between,
            column,
            ..
        } => names.outer_column(*between, *column).fmt(f),
        ValueExpr::Number(number) => write_number(f, *number),
        ValueExpr::Text(text) => Quoted(text.as_str()).fmt(f),
        ValueExpr::AggregateValue { number, .. } => write_aggregate(f, names, *number),
        ValueExpr::Subquery { block, .. } => write!(f, "(block {})", block.saturating_add(1)),
        ValueExpr::Signed { .. } | ValueExpr::Chain { .. } => Ok(()),
    }
}

/// A number at its scale: `12.50`.
fn write_number<W: fmt::Write>(f: &mut Formatter<W>, literal: NumberLiteral) -> fmt::Result {
    let number = literal.number();
    let (whole, rest) = number.parts();
    let scale = usize::from(number.scale);
    if scale == 0 {
        write!(f, "{whole}")
    } else {
        write!(f, "{whole}.{rest:0scale$}")
    }
}

/// A text between quotes, those inside doubled.
#[derive(Clone, Copy)]
pub(crate) struct Quoted<'t>(pub &'t str);

impl Display for Quoted<'_> {
    fn fmt<W: fmt::Write>(&self, f: &mut Formatter<W>) -> fmt::Result {
        f.write_str("'")?;
        for character in self.0.chars() {
            if character == '\'' {
                f.write_str("'")?;
            }
            f.write_char(character)?;
        }
        f.write_str("'")
    }
}

/// A set function of the block, by its number: `SUM(DISTINCT O.PRICE)`. An argument with operands is left out.
fn write_aggregate<'n, W: fmt::Write>(
    f: &mut Formatter<W>,
    names: &'n BlockNames<'_>,
    number: usize,
) -> fmt::Result {
    let Some(
        Aggregate::OfValues {
            function,
            distinct,
            argument,
            ..
        },
    ) = names.function(number)
    else {
        return f.write_str("COUNT(*)");
    };
    let distinct = if *distinct { "DISTINCT " } else { "" };
    write!(f, "{}({distinct}", word_of(*function))?;
    match argument {
        ValueExpr::Column { column, .. } => write!(f, "{})", names.column(*column)),
        _ => f.write_str("..)"),
    }
}

fn word_of(function: SetFunction) -> &'static str {
    match function {
        SetFunction::Count => "COUNT",
        SetFunction::Sum => "SUM",
        SetFunction::Avg => "AVG",
        SetFunction::Min => "MIN",
        SetFunction::Max => "MAX",
    }
}
