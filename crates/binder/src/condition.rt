//! Conditions, and the subqueries in them.

ghost use Rattle.std.specs.Prelude.{◌≤◌, List, length, map, true};
ghost use Rattle.definitions.specs.Grammar.{member_list};
ghost use Rattle.definitions.specs.Limits.{most_blocks};
ghost use Rattle.definitions.specs.Statement.{Line, Not, IsNull, Like, Exists};
ghost use Rattle.definitions.specs.Queries.BoundBlock as spec;
ghost use Rattle.query_tree.specs.Bound.{block_of};
ghost use Rattle.parse_tree.specs.Trees.{block_of as query_of, expr_of, text_of};
ghost use Rattle.query_rules.specs.Leaves.{InSight};
ghost use Rattle.binder.specs.Meaning.{IsBetween, IsComparison, IsInQuery, IsLine, IsList, IsQuantified, members_in, progress_of, ColumnAnswer, ConditionAnswer, MembersAnswer, QueryAnswer};

use crate::value::value;
use parse_tree::{Expr, LineOperator, MAX_MEMBERS, Operand, StringLiteral};
use query_rules::{BindFault, Clause, ClauseKind, QueryFault, are_logical, judge_kinds};
use query_tree::{Aggregate, Block, Condition, ValueExpr, ValueType};

/// A condition (ISO/IEC 9075:1992, 8.12), its blocks and set functions behind those before.
#[cycle(binding)]
pub(crate) fn condition<'d, 'q: 'd>(
    clause: &Clause<'_, '_, 'd>,
    blocks: &mut Vec<Block>,
    functions: &mut Vec<Aggregate>,
    expr: &'q Expr,
) -> Result<Condition, BindFault<'q>>
    requires sight { InSight clause.now.database.now clause.now.scopes.now }
    requires few { length blocks.old.items ≤ most_blocks }
    ensures { ConditionAnswer clause.now (progress_of blocks.old.items functions.old.items)
        (progress_of blocks.new.items functions.new.items) (expr_of expr.now) result }
{
    match expr {
        Expr::Line { others, .. } if are_logical(others) => {
            logical(clause, blocks, functions, expr)
        }
        Expr::Not { operand, .. } => negation(clause, blocks, functions, operand),
        Expr::Compare { .. } => comparison(clause, blocks, functions, expr),
        Expr::CompareAll { .. } => quantified_comparison(clause, blocks, functions, expr),
        Expr::IsNull {
            negated,
            value: operand,
            ..
        } => null_test(clause, blocks, functions, *negated, operand),
        Expr::Between { .. } => between(clause, blocks, functions, expr),
        Expr::Like {
            negated,
            value: operand,
            pattern,
            ..
        } => like(clause, blocks, functions, *negated, operand, pattern),
        Expr::InList { .. } => in_list(clause, blocks, functions, expr),
        Expr::InQuery { .. } => in_query(clause, blocks, functions, expr),
        Expr::Exists { query, .. } => exists(clause, blocks, functions, query),
        _ => Err(BindFault::Refused(QueryFault::ValueForCondition(expr))),
    }
}

/// NOT (8.12).
#[cycle(binding)]
#[inline(never)]
fn negation<'d, 'q: 'd>(
    clause: &Clause<'_, '_, 'd>,
    blocks: &mut Vec<Block>,
    functions: &mut Vec<Aggregate>,
    operand: &'q Expr,
) -> Result<Condition, BindFault<'q>>
    requires sight { InSight clause.now.database.now clause.now.scopes.now }
    requires few { length blocks.old.items ≤ most_blocks }
    ensures { ConditionAnswer clause.now (progress_of blocks.old.items functions.old.items)
        (progress_of blocks.new.items functions.new.items) (Not (expr_of operand.now)) result }
{
    let operand = condition(clause, blocks, functions, operand)?;
    Ok(Condition::Not(Box::new(clause.alloc, operand)?))
}

/// Two values that are compared (8.2).
#[cycle(binding)]
#[inline(never)]
fn comparison<'d, 'q: 'd>(
    clause: &Clause<'_, '_, 'd>,
    blocks: &mut Vec<Block>,
    functions: &mut Vec<Aggregate>,
    expr: &'q Expr,
) -> Result<Condition, BindFault<'q>>
    requires sight { InSight clause.now.database.now clause.now.scopes.now }
    requires few { length blocks.old.items ≤ most_blocks }
    requires comparison { IsComparison expr.now }
    ensures { ConditionAnswer clause.now (progress_of blocks.old.items functions.old.items)
        (progress_of blocks.new.items functions.new.items) (expr_of expr.now) result }
{
    let Expr::Compare {
        op,
        left,
        right: other,
        ..
    } = expr
    else {
        unreachable!()
    };
    let left = value(clause, blocks, functions, left)?;
    let right = value(clause, blocks, functions, other)?;
    judge_kinds(left.value_type, right.value_type, other)?;
    Ok(Condition::Compare {
        op: *op,
        left: left.value,
        right: right.value,
    })
}

/// A value that is compared with all rows of a subquery, or with any (8.7).
#[cycle(binding)]
#[inline(never)]
fn quantified_comparison<'d, 'q: 'd>(
    clause: &Clause<'_, '_, 'd>,
    blocks: &mut Vec<Block>,
    functions: &mut Vec<Aggregate>,
    expr: &'q Expr,
) -> Result<Condition, BindFault<'q>>
    requires sight { InSight clause.now.database.now clause.now.scopes.now }
    requires few { length blocks.old.items ≤ most_blocks }
    requires quantified { IsQuantified expr.now }
    ensures { ConditionAnswer clause.now (progress_of blocks.old.items functions.old.items)
        (progress_of blocks.new.items functions.new.items) (expr_of expr.now) result }
{
    let Expr::CompareAll {
        op,
        quantifier,
        left,
        query,
        ..
    } = expr
    else {
        unreachable!()
    };
    let left = value(clause, blocks, functions, left)?;
    let (block, value_type) = column_of_query(clause, blocks, query)?;
    judge_kinds(left.value_type, value_type, expr)?;
    Ok(Condition::Quantified {
        op: *op,
        quantifier: *quantifier,
        value: left.value,
        block,
    })
}

/// IS NULL (8.6).
#[cycle(binding)]
#[inline(never)]
fn null_test<'d, 'q: 'd>(
    clause: &Clause<'_, '_, 'd>,
    blocks: &mut Vec<Block>,
    functions: &mut Vec<Aggregate>,
    negated: bool,
    operand: &'q Expr,
) -> Result<Condition, BindFault<'q>>
    requires sight { InSight clause.now.database.now clause.now.scopes.now }
    requires few { length blocks.old.items ≤ most_blocks }
    ensures { ConditionAnswer clause.now (progress_of blocks.old.items functions.old.items)
        (progress_of blocks.new.items functions.new.items) (IsNull negated (expr_of operand.now)) result }
{
    let typed = value(clause, blocks, functions, operand)?;
    Ok(Condition::IsNull {
        negated,
        value: typed.value,
    })
}

/// BETWEEN (8.3).
#[cycle(binding)]
#[inline(never)]
fn between<'d, 'q: 'd>(
    clause: &Clause<'_, '_, 'd>,
    blocks: &mut Vec<Block>,
    functions: &mut Vec<Aggregate>,
    expr: &'q Expr,
) -> Result<Condition, BindFault<'q>>
    requires sight { InSight clause.now.database.now clause.now.scopes.now }
    requires few { length blocks.old.items ≤ most_blocks }
    requires between { IsBetween expr.now }
    ensures { ConditionAnswer clause.now (progress_of blocks.old.items functions.old.items)
        (progress_of blocks.new.items functions.new.items) (expr_of expr.now) result }
{
    let Expr::Between {
        negated,
        value: operand,
        low: least,
        high: greatest,
        ..
    } = expr
    else {
        unreachable!()
    };
    let typed = value(clause, blocks, functions, operand)?;
    let low = value(clause, blocks, functions, least)?;
    let high = value(clause, blocks, functions, greatest)?;
    judge_kinds(typed.value_type, low.value_type, least)?;
    judge_kinds(typed.value_type, high.value_type, greatest)?;
    Ok(Condition::Between {
        negated: *negated,
        value: typed.value,
        low: low.value,
        high: high.value,
    })
}

/// LIKE, of a text (8.5).
#[cycle(binding)]
#[inline(never)]
fn like<'d, 'q: 'd>(
    clause: &Clause<'_, '_, 'd>,
    blocks: &mut Vec<Block>,
    functions: &mut Vec<Aggregate>,
    negated: bool,
    operand: &'q Expr,
    pattern: &'q StringLiteral,
) -> Result<Condition, BindFault<'q>>
    requires sight { InSight clause.now.database.now clause.now.scopes.now }
    requires few { length blocks.old.items ≤ most_blocks }
    ensures { ConditionAnswer clause.now (progress_of blocks.old.items functions.old.items)
        (progress_of blocks.new.items functions.new.items) (Like negated (expr_of operand.now)
        (text_of pattern.now)) result }
{
    let pattern = String::from_str(clause.alloc, pattern.text.as_str())?;
    let typed = value(clause, blocks, functions, operand)?;
    if let ValueType::Number { .. } = typed.value_type {
        return Err(BindFault::Refused(QueryFault::NumberForText(operand)));
    }
    Ok(Condition::Like {
        negated,
        value: typed.value,
        pattern,
    })
}

/// IN with a list (8.4).
#[cycle(binding)]
#[inline(never)]
fn in_list<'d, 'q: 'd>(
    clause: &Clause<'_, '_, 'd>,
    blocks: &mut Vec<Block>,
    functions: &mut Vec<Aggregate>,
    list: &'q Expr,
) -> Result<Condition, BindFault<'q>>
    requires sight { InSight clause.now.database.now clause.now.scopes.now }
    requires few { length blocks.old.items ≤ most_blocks }
    requires list { IsList list.now }
    ensures { ConditionAnswer clause.now (progress_of blocks.old.items functions.old.items)
        (progress_of blocks.new.items functions.new.items) (expr_of list.now) result }
{
    let Expr::InList {
        negated,
        value: operand,
        members,
        ..
    } = list
    else {
        unreachable!()
    };
    if members.len() > MAX_MEMBERS {
        return Err(BindFault::Refused(QueryFault::ManyMembers(list)));
    }
    let typed = value(clause, blocks, functions, operand)?;
    let members = bound_members(clause, blocks, functions, typed.value_type, list)?;
    Ok(Condition::InList {
        negated: *negated,
        value: typed.value,
        members,
    })
}

/// IN with a subquery (8.4).
#[cycle(binding)]
#[inline(never)]
fn in_query<'d, 'q: 'd>(
    clause: &Clause<'_, '_, 'd>,
    blocks: &mut Vec<Block>,
    functions: &mut Vec<Aggregate>,
    expr: &'q Expr,
) -> Result<Condition, BindFault<'q>>
    requires sight { InSight clause.now.database.now clause.now.scopes.now }
    requires few { length blocks.old.items ≤ most_blocks }
    requires query { IsInQuery expr.now }
    ensures { ConditionAnswer clause.now (progress_of blocks.old.items functions.old.items)
        (progress_of blocks.new.items functions.new.items) (expr_of expr.now) result }
{
    let Expr::InQuery {
        negated,
        value: operand,
        query,
        ..
    } = expr
    else {
        unreachable!()
    };
    let typed = value(clause, blocks, functions, operand)?;
    let (block, value_type) = column_of_query(clause, blocks, query)?;
    judge_kinds(typed.value_type, value_type, expr)?;
    Ok(Condition::InQuery {
        negated: *negated,
        value: typed.value,
        block,
    })
}

/// EXISTS (8.8).
#[cycle(binding)]
#[inline(never)]
fn exists<'d, 'q: 'd>(
    clause: &Clause<'_, '_, 'd>,
    blocks: &mut Vec<Block>,
    functions: &mut Vec<Aggregate>,
    query: &'q parse_tree::Block,
) -> Result<Condition, BindFault<'q>>
    requires sight { InSight clause.now.database.now clause.now.scopes.now }
    requires few { length blocks.old.items ≤ most_blocks }
    ensures { ConditionAnswer clause.now (progress_of blocks.old.items functions.old.items)
        (progress_of blocks.new.items functions.new.items) (Exists (query_of query.now)) result }
{
    let (block, _) = inner_block(clause, blocks, query)?;
    Ok(Condition::Exists { block })
}

/// The operands of one AND or OR (ISO/IEC 9075:1992, 8.12).
#[cycle(binding)]
#[inline(never)]
fn logical<'d, 'q: 'd>(
    clause: &Clause<'_, '_, 'd>,
    blocks: &mut Vec<Block>,
    functions: &mut Vec<Aggregate>,
    line: &'q Expr,
) -> Result<Condition, BindFault<'q>>
    requires sight { InSight clause.now.database.now clause.now.scopes.now }
    requires few { length blocks.old.items ≤ most_blocks }
    requires logical { IsLine line.now true }
    ensures { ConditionAnswer clause.now (progress_of blocks.old.items functions.old.items)
        (progress_of blocks.new.items functions.new.items) (expr_of line.now) result }
{
    let Expr::Line { first, others } = line else {
        unreachable!()
    };
    let mut parts = Vec::new(clause.alloc);
    parts.push(condition(clause, blocks, functions, first)?)?;
    'operands: for operand in others {
        parts.push(condition(clause, blocks, functions, &operand.value)?)?;
    }
    match others[0].operator {
        LineOperator::And => Ok(Condition::And(parts)),
        _ => Ok(Condition::Or(parts)),
    }
}

/// The members of an IN list, which are of the kind of a type (ISO/IEC 9075:1992, 8.4).
#[cycle(binding)]
#[inline(never)]
fn bound_members<'d, 'q: 'd>(
    clause: &Clause<'_, '_, 'd>,
    blocks: &mut Vec<Block>,
    functions: &mut Vec<Aggregate>,
    value_type: ValueType,
    list: &'q Expr,
) -> Result<Vec<Option<ValueExpr>>, BindFault<'q>>
    requires sight { InSight clause.now.database.now clause.now.scopes.now }
    requires few { length blocks.old.items ≤ most_blocks }
    requires list { IsList list.now }
    ensures { MembersAnswer clause.now (progress_of blocks.old.items functions.old.items)
        (progress_of blocks.new.items functions.new.items) value_type (members_in (expr_of list.now)) result }
{
    let Expr::InList { members, .. } = list else {
        unreachable!()
    };
    let mut bound = Vec::new(clause.alloc);
    'members: for member in members {
        match member {
            Some(expr) => {
                let typed = value(clause, blocks, functions, expr)?;
                bound.push(Some(typed.value))?;
                judge_kinds(value_type, typed.value_type, expr)?;
            }
            None => bound.push(None)?,
        }
    }
    Ok(bound)
}

/// A subquery of one column: its block's number, and the type of its column (ISO/IEC 9075:1992, 7.11).
#[cycle(binding)]
pub(crate) fn column_of_query<'d, 'q: 'd>(
    clause: &Clause<'_, '_, 'd>,
    blocks: &mut Vec<Block>,
    query: &'q parse_tree::Block,
) -> Result<(usize, ValueType), BindFault<'q>>
    requires sight { InSight clause.now.database.now clause.now.scopes.now }
    requires few { length blocks.old.items ≤ most_blocks }
    ensures { (functions : List spec.Aggregate) → ColumnAnswer clause.now
        (record { blocks = map block_of blocks.old.items; functions = functions })
        (record { blocks = map block_of blocks.new.items; functions = functions }) (query_of query.now) result }
{
    match inner_block(clause, blocks, query)? {
        (block, Some(value_type)) => Ok((block, value_type)),
        (_, None) => Err(BindFault::Refused(QueryFault::NotOneColumn(query))),
    }
}

/// A subquery: its block's number, and the type of its column if it has one alone.
#[cycle(binding)]
#[inline(never)]
fn inner_block<'d, 'q: 'd>(
    clause: &Clause<'_, '_, 'd>,
    blocks: &mut Vec<Block>,
    query: &'q parse_tree::Block,
) -> Result<(usize, Option<ValueType>), BindFault<'q>>
    requires sight { InSight clause.now.database.now clause.now.scopes.now }
    requires few { length blocks.old.items ≤ most_blocks }
    ensures { (functions : List spec.Aggregate) → QueryAnswer clause.now
        (record { blocks = map block_of blocks.old.items; functions = functions })
        (record { blocks = map block_of blocks.new.items; functions = functions }) (query_of query.now) result }
{
    match clause.place {
        ClauseKind::Where => {
            let number = blocks.len();
            let only = crate::block::block(
                clause.alloc,
                clause.database,
                clause.scopes,
                blocks,
                query,
            )?;
            Ok((number, only))
        }
        _ => Err(BindFault::Refused(QueryFault::MisplacedQuery(query))),
    }
}
