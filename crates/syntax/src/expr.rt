//! Expressions. Each function reads one rule of the grammar; what a token opens is read within the levels below.

ghost use Rattle.std.specs.Prelude.{◌+◌, ◌++◌, [], IfOk, map, Ok};
ghost use Rattle.definitions.specs.Grammar as grammar;
ghost use Rattle.definitions.specs.Grammar.{within};
ghost use Rattle.definitions.specs.Limits.{most_members};
ghost use Rattle.definitions.specs.Token.{OpenParen, Reserved};
ghost use Rattle.definitions.specs.Word as words;
ghost use Rattle.lexer.specs.Meaning.{word_of};
ghost use Rattle.sqlvalue.specs.Meaning.{op_of};
ghost use Rattle.parse_tree.specs.Trees.{block_of, column_of, expr_of, function_of, member_of};
ghost use Rattle.syntax_cursor.specs.Leaves.{line_kind};
ghost use Rattle.syntax_cursor.specs.Places as leaf;
ghost use Rattle.syntax_cursor.specs.Places.{GoesOn, Stands, if_there, one};
ghost use Rattle.syntax_cursor.specs.Reading.{Eats, EatsAsterisk, Parses, ParsesFlat, Place, viewed};
ghost use Rattle.syntax.specs.Places.{all, block_leaves, expr_leaves, function_leaf, op_leaf, reference_leaves};
ghost use Rattle.syntax.specs.Reading.{LineAt, OperandAt};

use crate::element::keep;
use crate::query;
use lexer::{Symbol, Word};
use parse_tree::{
    Block, ColumnReference, ComparisonOperator, Expr, ListKind, ListPlace, Operand, SetFunction,
};
use syntax_cursor::{Cursor, LineKind, ParseStop, TokenClass};

/// `operand { operator operand }`, of one of the four kinds (ISO/IEC 9075:1992, 8.12 and 6.12).
#[cycle(expressions)]
pub fn line(cursor: &mut Cursor, kind: LineKind, levels: u8) -> Result<Expr, ParseStop>
    ensures reads { Parses (LineAt (line_kind kind)) levels cursor.old cursor.new (viewed expr_of result) }
    ensures placed { IfOk result (λ expr. Stands cursor.old cursor.new (expr_leaves expr)) }
{
    let head = operand(cursor, kind, levels)?;
    let mut others = Vec::new(cursor.alloc);
    'operands: loop {
        let start = cursor.start();
        let Some(operator) = cursor.take_line_operator(kind) else {
            break;
        };
        let value = operand(cursor, kind, levels)?;
        others.push(Operand {
            operator,
            start,
            value,
        })?;
    }
    if others.is_empty() {
        return Ok(head);
    }
    let first = Box::new(cursor.alloc, head)?;
    Ok(Expr::Line { first, others })
}

#[cycle(expressions)]
fn operand(cursor: &mut Cursor, kind: LineKind, levels: u8) -> Result<Expr, ParseStop>
    ensures reads { Parses (OperandAt (line_kind kind)) levels cursor.old cursor.new (viewed expr_of result) }
    ensures placed { IfOk result (λ expr. Stands cursor.old cursor.new (expr_leaves expr)) }
{
    match kind {
        LineKind::Disjunction => line(cursor, LineKind::Conjunction, levels),
        LineKind::Conjunction => negation(cursor, levels),
        LineKind::Sum => line(cursor, LineKind::Product, levels),
        LineKind::Product => signed_operand(cursor, levels),
    }
}

/// `NOT negation | test` (ISO/IEC 9075:1992, 8.12).
#[cycle(expressions)]
#[inline(never)]
fn negation(cursor: &mut Cursor, levels: u8) -> Result<Expr, ParseStop>
    ensures reads { Parses (λ m. grammar.NegationOf (within m)) levels cursor.old cursor.new (viewed expr_of result) }
    ensures placed { IfOk result (λ expr. Stands cursor.old cursor.new (expr_leaves expr)) }
{
    let start = cursor.start();
    if !cursor.eat_word(Word::Not) {
        return test(cursor, levels);
    }
    let below = cursor.below(levels)?;
    let operand = negation(cursor, below)?;
    let operand = Box::new(cursor.alloc, operand)?;
    Ok(Expr::Not { start, operand })
}

/// `sum [ tail ]` (ISO/IEC 9075:1992, 8.1).
#[cycle(expressions)]
fn test(cursor: &mut Cursor, levels: u8) -> Result<Expr, ParseStop>
    ensures reads { Parses (λ m. grammar.TestOf (within m)) levels cursor.old cursor.new (viewed expr_of result) }
    ensures placed { IfOk result (λ expr. Stands cursor.old cursor.new (expr_leaves expr)) }
{
    let value = line(cursor, LineKind::Sum, levels)?;
    let left = Box::new(cursor.alloc, value)?;
    tail(cursor, left, levels)
}

/// What stands behind a value.
#[cycle(expressions)]
#[inline(never)]
fn tail(cursor: &mut Cursor, value: Box<Expr>, levels: u8) -> Result<Expr, ParseStop>
    ensures reads { Parses (λ m. grammar.TailOf (within m) (expr_of value.value)) levels cursor.old cursor.new
        (viewed expr_of result) }
    ensures placed { IfOk result (λ expr. GoesOn (expr_leaves value.value) cursor.old cursor.new (expr_leaves expr)) }
{
    let start = cursor.start();
    if let Some(op) = cursor.take_comparison() {
        comparison(cursor, start, op, value, levels)
    } else if cursor.eat_word_as(Word::Is, TokenClass::Operator) {
        null_test(cursor, start, value)
    } else if cursor.eat_word_as(Word::Not, TokenClass::Operator) {
        predicate(cursor, true, value, levels)
    } else {
        predicate(cursor, false, value, levels)
    }
}

/// What stands behind a comparison operator (ISO/IEC 9075:1992, 8.2 and 8.7).
#[cycle(expressions)]
#[inline(never)]
fn comparison(
    cursor: &mut Cursor,
    start: usize,
    op: ComparisonOperator,
    value: Box<Expr>,
    levels: u8,
) -> Result<Expr, ParseStop>
    ensures reads { Parses (λ m. grammar.ComparedOf (within m) (op_of op) (expr_of value.value)) levels cursor.old
        cursor.new (viewed expr_of result) }
    ensures placed { IfOk result (λ expr. GoesOn (expr_leaves value.value ++ one (op_leaf (op_of op)) start) cursor.old
        cursor.new (expr_leaves expr)) }
{
    let Some(quantifier) = cursor.take_quantifier() else {
        let right = line(cursor, LineKind::Sum, levels)?;
        let right = Box::new(cursor.alloc, right)?;
        return Ok(Expr::Compare {
            start,
            op,
            left: value,
            right,
        });
    };
    cursor.expect_symbol(Symbol::OpenParen)?;
    let below = cursor.below(levels)?;
    let query = subquery(cursor, below)?;
    Ok(Expr::CompareAll {
        start,
        op,
        quantifier,
        left: value,
        query,
    })
}

/// `[ NOT ] NULL` behind IS (ISO/IEC 9075:1992, 8.6).
#[inline(never)]
fn null_test(cursor: &mut Cursor, start: usize, value: Box<Expr>) -> Result<Expr, ParseStop>
    ensures reads { ParsesFlat (grammar.NullOf (expr_of value.value)) cursor.old cursor.new (viewed expr_of result) }
    ensures placed { IfOk result (λ expr. GoesOn (expr_leaves value.value ++ one (leaf.Reserved words.Is) start)
        cursor.old cursor.new (expr_leaves expr)) }
{
    let negated = cursor.eat_word(Word::Not);
    cursor.expect_word(Word::Null)?;
    Ok(Expr::IsNull {
        start,
        negated,
        value,
    })
}

/// `BETWEEN .. | LIKE .. | IN ..`; or, but not behind NOT, nothing.
#[cycle(expressions)]
#[inline(never)]
fn predicate(
    cursor: &mut Cursor,
    negated: bool,
    value: Box<Expr>,
    levels: u8,
) -> Result<Expr, ParseStop>
    ensures reads { Parses (λ m. grammar.PredicateOf (within m) negated (expr_of value.value)) levels cursor.old
        cursor.new (viewed expr_of result) }
    ensures placed { IfOk result (λ expr. GoesOn (expr_leaves value.value) cursor.old cursor.new (expr_leaves expr)) }
{
    let start = cursor.start();
    if eat_predicate(cursor, negated, Word::Between) {
        between(cursor, start, negated, value, levels)
    } else if eat_predicate(cursor, negated, Word::Like) {
        like(cursor, start, negated, value)
    } else if eat_predicate(cursor, negated, Word::In) {
        cursor.expect_symbol(Symbol::OpenParen)?;
        let below = cursor.below(levels)?;
        in_list(cursor, start, negated, value, below)
    } else if negated {
        Err(cursor.stop())
    } else {
        Ok(Box::into_inner(value))
    }
}

/// Passes the word of a predicate if it stands here; behind NOT nothing else can stand.
fn eat_predicate(cursor: &mut Cursor, negated: bool, word: Word) -> bool
    ensures { Eats (Reserved (word_of word)) cursor.old cursor.new result }
{
    let class = if negated {
        TokenClass::Word(word)
    } else {
        TokenClass::Operator
    };
    cursor.eat_word_as(word, class)
}

/// `sum AND sum` behind BETWEEN (ISO/IEC 9075:1992, 8.3).
#[cycle(expressions)]
#[inline(never)]
fn between(
    cursor: &mut Cursor,
    start: usize,
    negated: bool,
    value: Box<Expr>,
    levels: u8,
) -> Result<Expr, ParseStop>
    ensures reads { Parses (λ m. grammar.BetweenOf (within m) negated (expr_of value.value)) levels cursor.old
        cursor.new (viewed expr_of result) }
    ensures placed { IfOk result (λ expr. GoesOn (expr_leaves value.value ++ one (leaf.Reserved words.Between) start)
        cursor.old cursor.new (expr_leaves expr)) }
{
    let low = line(cursor, LineKind::Sum, levels)?;
    let low = Box::new(cursor.alloc, low)?;
    cursor.expect_word(Word::And)?;
    let high = line(cursor, LineKind::Sum, levels)?;
    let high = Box::new(cursor.alloc, high)?;
    Ok(Expr::Between {
        start,
        negated,
        value,
        low,
        high,
    })
}

/// The pattern behind LIKE (ISO/IEC 9075:1992, 8.5).
#[inline(never)]
fn like(
    cursor: &mut Cursor,
    start: usize,
    negated: bool,
    value: Box<Expr>,
) -> Result<Expr, ParseStop>
    ensures reads { ParsesFlat (grammar.LikeOf negated (expr_of value.value)) cursor.old cursor.new
        (viewed expr_of result) }
    ensures placed { IfOk result (λ expr. GoesOn (expr_leaves value.value ++ one (leaf.Reserved words.Like) start)
        cursor.old cursor.new (expr_leaves expr)) }
{
    let pattern = cursor.string()?;
    Ok(Expr::Like {
        start,
        negated,
        value,
        pattern,
    })
}

/// What stands behind `IN (` (ISO/IEC 9075:1992, 8.4).
#[cycle(expressions)]
#[inline(never)]
fn in_list(
    cursor: &mut Cursor,
    start: usize,
    negated: bool,
    value: Box<Expr>,
    levels: u8,
) -> Result<Expr, ParseStop>
    ensures reads { Parses (λ m. grammar.InListOf (within m) negated (expr_of value.value)) levels cursor.old cursor.new
        (viewed expr_of result) }
    ensures placed { IfOk result (λ expr. GoesOn (expr_leaves value.value ++ one (leaf.Reserved words.In) start)
        cursor.old cursor.new (expr_leaves expr)) }
{
    if cursor.sees_word(Word::Select) {
        let query = subquery(cursor, levels)?;
        return Ok(Expr::InQuery {
            start,
            negated,
            value,
            query,
        });
    }
    let members = members(cursor, start, levels)?;
    cursor.expect_symbol(Symbol::CloseParen)?;
    Ok(Expr::InList {
        start,
        negated,
        value,
        members,
    })
}

/// `member { "," member }`, behind the word IN at an offset.
#[cycle(expressions)]
#[inline(never)]
fn members(cursor: &mut Cursor, owner: usize, levels: u8) -> Result<Vec<Option<Expr>>, ParseStop>
    ensures reads { Parses (λ m. grammar.ListOf most_members (grammar.MemberOf (within m))) levels cursor.old cursor.new
        (viewed (λ (xs : _). map member_of xs.items) result) }
    ensures placed { IfOk result (λ xs. Stands cursor.old cursor.new (all (if_there expr_leaves) xs.items)) }
{
    let mut members = Vec::new(cursor.alloc);
    let first = member(cursor, levels)?;
    members.push(first)?;
    let mut count: usize = 1;
    'members: loop {
        if !cursor.eat_symbol(Symbol::Comma) {
            break;
        }
        let member = member(cursor, levels)?;
        keep(&mut members, ListKind::Members, member)?;
        count = count.saturating_add(1);
    }
    let kind = ListKind::Members;
    cursor.end_list(ListPlace { kind, owner }, members.len(), count)?;
    Ok(members)
}

/// `sum | NULL`; NULL is none.
#[cycle(expressions)]
#[inline(never)]
fn member(cursor: &mut Cursor, levels: u8) -> Result<Option<Expr>, ParseStop>
    ensures reads { Parses (λ m. grammar.MemberOf (within m)) levels cursor.old cursor.new (viewed member_of result) }
    ensures placed { IfOk result (λ member. Stands cursor.old cursor.new (if_there expr_leaves member)) }
{
    if cursor.eat_word(Word::Null) {
        return Ok(None);
    }
    let value = line(cursor, LineKind::Sum, levels)?;
    Ok(Some(value))
}

/// `( "+" | "-" ) signed | primary` (ISO/IEC 9075:1992, 6.12).
#[cycle(expressions)]
fn signed_operand(cursor: &mut Cursor, levels: u8) -> Result<Expr, ParseStop>
    ensures reads { Parses (λ m. grammar.SignOf (within m)) levels cursor.old cursor.new (viewed expr_of result) }
    ensures placed { IfOk result (λ expr. Stands cursor.old cursor.new (expr_leaves expr)) }
{
    let start = cursor.start();
    let Some(minus) = cursor.take_sign(TokenClass::Value) else {
        return primary(cursor, levels);
    };
    let below = cursor.below(levels)?;
    let operand = signed_operand(cursor, below)?;
    let operand = Box::new(cursor.alloc, operand)?;
    Ok(Expr::Signed {
        start,
        minus,
        operand,
    })
}

/// A number, a string, a function, EXISTS, a parenthesis or a column.
#[cycle(expressions)]
fn primary(cursor: &mut Cursor, levels: u8) -> Result<Expr, ParseStop>
    ensures reads { Parses (λ m. grammar.PrimaryOf (within m)) levels cursor.old cursor.new (viewed expr_of result) }
    ensures placed { IfOk result (λ expr. Stands cursor.old cursor.new (expr_leaves expr)) }
{
    let start = cursor.start();
    if let Some(number) = cursor.take_number(TokenClass::Value) {
        Ok(Expr::Numeral(number))
    } else if let Some(string) = cursor.take_string(TokenClass::Value)? {
        Ok(Expr::String(string))
    } else if let Some(function) = cursor.take_set_function() {
        cursor.expect_symbol(Symbol::OpenParen)?;
        let below = cursor.below(levels)?;
        argument(cursor, start, function, below)
    } else {
        other_primary(cursor, levels)
    }
}

/// EXISTS, a parenthesis or a column.
#[cycle(expressions)]
fn other_primary(cursor: &mut Cursor, levels: u8) -> Result<Expr, ParseStop>
    ensures reads { Parses (λ m. grammar.OtherPrimaryOf (within m)) levels cursor.old cursor.new
        (viewed expr_of result) }
    ensures placed { IfOk result (λ expr. Stands cursor.old cursor.new (expr_leaves expr)) }
{
    let start = cursor.start();
    if cursor.eat_word_as(Word::Exists, TokenClass::Value) {
        cursor.expect_symbol(Symbol::OpenParen)?;
        let below = cursor.below(levels)?;
        let query = subquery(cursor, below)?;
        Ok(Expr::Exists { start, query })
    } else if cursor.eat_symbol_as(Symbol::OpenParen, TokenClass::Value) {
        let below = cursor.below(levels)?;
        parenthesis(cursor, start, below)
    } else {
        let column = column_reference(cursor, TokenClass::Value)?;
        Ok(Expr::Column(column))
    }
}

/// What stands behind a set function and `(` (ISO/IEC 9075:1992, 6.5).
#[cycle(expressions)]
#[inline(never)]
fn argument(
    cursor: &mut Cursor,
    start: usize,
    function: SetFunction,
    levels: u8,
) -> Result<Expr, ParseStop>
    ensures reads { Parses (λ m. grammar.ArgumentOf (within m) (function_of function)) levels cursor.old cursor.new
        (viewed expr_of result) }
    ensures placed { IfOk result (λ expr. GoesOn (one (function_leaf (function_of function)) start) cursor.old
        cursor.new (expr_leaves expr)) }
{
    if eat_asterisk(cursor, function) {
        cursor.expect_symbol(Symbol::CloseParen)?;
        return Ok(Expr::CountRows { start });
    }
    let distinct = query::distinct(cursor);
    let argument = line(cursor, LineKind::Disjunction, levels)?;
    let argument = Box::new(cursor.alloc, argument)?;
    cursor.expect_symbol(Symbol::CloseParen)?;
    Ok(Expr::Function {
        start,
        function,
        distinct,
        argument,
    })
}

/// Passes the asterisk of `COUNT(*)` if it stands here.
fn eat_asterisk(cursor: &mut Cursor, function: SetFunction) -> bool
    ensures { EatsAsterisk (function_of function) cursor.old cursor.new result }
{
    match function {
        SetFunction::Count => cursor.eat_symbol(Symbol::Asterisk),
        _ => false,
    }
}

/// What stands behind `(`, with the parenthesis that closes it (ISO/IEC 9075:1992, 6.11 and 7.11).
#[cycle(expressions)]
fn parenthesis(cursor: &mut Cursor, start: usize, levels: u8) -> Result<Expr, ParseStop>
    ensures reads { Parses (λ m. grammar.ParenthesisOf (within m)) levels cursor.old cursor.new
        (viewed expr_of result) }
    ensures placed { IfOk result (λ expr. (from : Place) → Stands from cursor.old [] →
        Stands from cursor.old (one (leaf.Mark OpenParen) start) → Stands from cursor.new (expr_leaves expr)) }
{
    if cursor.sees_word(Word::Select) {
        let query = subquery(cursor, levels)?;
        return Ok(Expr::Scalar { start, query });
    }
    let inner = line(cursor, LineKind::Disjunction, levels)?;
    cursor.expect_symbol(Symbol::CloseParen).and(Ok(inner))
}

/// A query block, and the parenthesis that closes it (ISO/IEC 9075:1992, 7.11).
#[cycle(expressions)]
#[inline(never)]
fn subquery(cursor: &mut Cursor, levels: u8) -> Result<Box<Block>, ParseStop>
    ensures reads { Parses (λ m. grammar.SubqueryOf (within m)) levels cursor.old cursor.new (viewed (λ (b : _).
        block_of b.value) result) }
    ensures placed { IfOk result (λ query. Stands cursor.old cursor.new (block_leaves query.value)) }
{
    let query = query::block(cursor, levels)?;
    let query = Box::new(cursor.alloc, query)?;
    cursor.expect_symbol(Symbol::CloseParen)?;
    Ok(query)
}

/// `name [ "." name ]`, where a rule looks for a class of tokens (ISO/IEC 9075:1992, 6.4).
#[inline(never)]
pub fn column_reference(
    cursor: &mut Cursor,
    class: TokenClass,
) -> Result<ColumnReference, ParseStop>
    ensures reads { ParsesFlat grammar.ReferenceAt cursor.old cursor.new (viewed column_of result) }
    ensures placed { IfOk result (λ reference. Stands cursor.old cursor.new (reference_leaves reference)) }
{
    let first = cursor.name(class)?;
    if !cursor.eat_symbol(Symbol::Point) {
        return Ok(ColumnReference {
            qualifier: None,
            name: first,
        });
    }
    let name = cursor.name(TokenClass::Name)?;
    Ok(ColumnReference {
        qualifier: Some(first),
        name,
    })
}
