//! Binds value expressions, their set functions and their subqueries, and finds their types.

ghost use Rattle.std.specs.Prelude.{◌≡◌, ◌≤◌, ◌++◌, ◌∷◌, [], false, length, map, IfOk, IfErr, OnOk, OnErr, IsTrue, IsFalse};
ghost use Rattle.definitions.specs.Limits.{most_blocks};
ghost use Rattle.definitions.specs.Statement.{Function, Line};
ghost use Rattle.definitions.specs.Queries.BoundBlock.{Blocks, AggregateValue};
ghost use Rattle.definitions.specs.Refusal as refusal;
ghost use Rattle.query_tree.specs.Bound.{bound_function_of, value_of, value_type_of};
ghost use Rattle.parse_tree.specs.Trees.{expr_of, function_of};
ghost use Rattle.query_rules.specs.Judging.{takes_functions};
ghost use Rattle.query_rules.specs.Leaves.{InSight};
ghost use Rattle.binder.specs.Meaning.{IsLine, progress_of, ValueAnswer};
ghost use Rattle.query_rules.specs.Meaning.{place_of, query_refusal};

use crate::condition::column_of_query;
use parse_tree::{Expr, Operand, SetFunction};
use query_rules::{
    BindFault, Clause, ClauseKind, QueryFault, Typed, are_logical, column, function_type,
    joined_scale, number, number_scale, operator, string,
};
use query_tree::{Aggregate, Block, Operand as BoundOperand, ValueExpr, ValueType};
use std::alloc::AllocError;

/// A value (ISO/IEC 9075:1992, 6.11), its blocks and set functions behind those before.
#[cycle(binding)]
pub(crate) fn value<'d, 'q: 'd>(
    clause: &Clause<'_, '_, 'd>,
    blocks: &mut Vec<Block>,
    functions: &mut Vec<Aggregate>,
    expr: &'q Expr,
) -> Result<Typed, BindFault<'q>>
    requires sight { InSight clause.now.database.now clause.now.scopes.now }
    requires few { length blocks.old.items ≤ most_blocks }
    ensures { ValueAnswer clause.now (progress_of blocks.old.items functions.old.items)
        (progress_of blocks.new.items functions.new.items) (expr_of expr.now) result }
{
    match expr {
        Expr::Column(reference) => column(clause, reference),
        Expr::Numeral(numeral) => Ok(number(numeral)?),
        Expr::String(literal) => Ok(string(clause.alloc, literal)?),
        Expr::Signed { minus, operand, .. } => {
            let typed = value(clause, blocks, functions, operand)?;
            let signed = Box::new(clause.alloc, typed.value)?;
            let scale = number_scale(typed.value_type, operand)?;
            Ok(Typed {
                value: ValueExpr::Signed {
                    minus: *minus,
                    operand: signed,
                },
                value_type: ValueType::Number { scale },
            })
        }
        Expr::Line { others, .. } if !are_logical(others) => chain(clause, blocks, functions, expr),
        Expr::Scalar { start, query } => {
            let (block, value_type) = column_of_query(clause, blocks, query)?;
            Ok(Typed {
                value: ValueExpr::Subquery {
                    block,
                    value_type,
                    start: *start,
                },
                value_type,
            })
        }
        Expr::CountRows { .. } => {
            judge_function(clause.place, expr)?;
            let value_type = ValueType::Number { scale: 0 };
            Ok(aggregate_value(functions, Aggregate::CountRows, value_type)?)
        }
        Expr::Function {
            start,
            function,
            distinct,
            argument,
        } => {
            judge_function(clause.place, expr)?;
            set_function(clause, functions, *function, *distinct, *start, argument)
        }
        _ => Err(BindFault::Refused(QueryFault::ConditionForValue(expr))),
    }
}

/// Operands of one line (ISO/IEC 9075:1992, 6.12).
#[cycle(binding)]
fn chain<'d, 'q: 'd>(
    clause: &Clause<'_, '_, 'd>,
    blocks: &mut Vec<Block>,
    functions: &mut Vec<Aggregate>,
    line: &'q Expr,
) -> Result<Typed, BindFault<'q>>
    requires sight { InSight clause.now.database.now clause.now.scopes.now }
    requires few { length blocks.old.items ≤ most_blocks }
    requires arithmetic { IsLine line.now false }
    ensures { ValueAnswer clause.now (progress_of blocks.old.items functions.old.items)
        (progress_of blocks.new.items functions.new.items) (expr_of line.now) result }
{
    let Expr::Line { first, others } = line else {
        unreachable!()
    };
    let typed = value(clause, blocks, functions, first)?;
    let head = Box::new(clause.alloc, typed.value)?;
    let mut scale = number_scale(typed.value_type, first)?;
    let mut joined = Vec::new(clause.alloc);
    'operands: for operand in others {
        let typed = value(clause, blocks, functions, &operand.value)?;
        joined.push(BoundOperand {
            operator: operator(operand.operator),
            start: operand.start,
            value: typed.value,
        })?;
        let right = number_scale(typed.value_type, &operand.value)?;
        scale = joined_scale(scale, operand, right)?;
    }
    Ok(Typed {
        value: ValueExpr::Chain {
            first: head,
            others: joined,
        },
        value_type: ValueType::Number { scale },
    })
}

/// A set function of an argument (ISO/IEC 9075:1992, 6.5).
#[cycle(binding)]
fn set_function<'d, 'q: 'd>(
    clause: &Clause<'_, '_, 'd>,
    functions: &mut Vec<Aggregate>,
    function: SetFunction,
    distinct: bool,
    start: usize,
    argument: &'q Expr,
) -> Result<Typed, BindFault<'q>>
    requires sight { InSight clause.now.database.now clause.now.scopes.now }
    requires shown { IsTrue (takes_functions (place_of clause.now.place)) }
    ensures { (bound : Blocks) → length bound ≤ most_blocks →
        ValueAnswer clause.now (record { blocks = bound; functions = map bound_function_of functions.old.items })
        (record { blocks = bound; functions = map bound_function_of functions.new.items })
        (Function (function_of function) distinct (expr_of argument.now)) result }
{
    let inside = Clause {
        place: ClauseKind::Argument,
        ..*clause
    };
    let mut no_blocks = Vec::new(clause.alloc);
    let mut no_functions = Vec::new(clause.alloc);
    let typed = value(&inside, &mut no_blocks, &mut no_functions, argument)?;
    let value_type = function_type(function, typed.value_type, argument)?;
    let bound = Aggregate::OfValues {
        function,
        distinct,
        start,
        argument: typed.value,
    };
    Ok(aggregate_value(functions, bound, value_type)?)
}

/// The value of one more set function.
fn aggregate_value(
    functions: &mut Vec<Aggregate>,
    function: Aggregate,
    value_type: ValueType,
) -> Result<Typed, AllocError>
    ensures value { IfOk result (λ t. value_of t.value
        ≡ AggregateValue (length functions.old.items) (value_type_of value_type)) }
    ensures typed { IfOk result (λ t. t.value_type ≡ value_type) }
    ensures functions { OnOk result (functions.new.items ≡ functions.old.items ++ function ∷ []) }
{
    let number = functions.len();
    functions.push(function)?;
    Ok(Typed {
        value: ValueExpr::AggregateValue { number, value_type },
        value_type,
    })
}

/// That a set function may stand in a place.
fn judge_function<'a>(place: ClauseKind, expr: &'a Expr) -> Result<(), QueryFault<'a>>
    ensures ok { OnOk result (IsTrue (takes_functions (place_of place.entry))) }
    ensures misplaced { OnErr result (IsFalse (takes_functions (place_of place.entry))) }
    ensures refused { IfErr result (λ f. query_refusal f ≡ refusal.MisplacedFunction) }
{
    match place {
        ClauseKind::Shown | ClauseKind::Grouped(_) => Ok(()),
        ClauseKind::Where | ClauseKind::Argument => Err(QueryFault::MisplacedFunction(expr)),
    }
}
