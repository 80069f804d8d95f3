//! The tokens that stand for an operator, a function or a type.

ghost use Rattle.std.specs.Prelude.{◌≡◌, Some, option_map};
ghost use Rattle.definitions.specs.Grammar as grammar;
ghost use Rattle.lexer.specs.Meaning.{kind_of};
ghost use Rattle.sqlvalue.specs.Meaning.{op_of};
ghost use Rattle.parse_tree.specs.Trees.{operator_of, quantifier_of, function_of};
ghost use Rattle.syntax_cursor.specs.Leaves.{line_kind, type_word_of};
ghost use Rattle.syntax_cursor.specs.Reading.{Takes};

use crate::class::TokenClass;
use crate::cursor::Cursor;
use lexer::{Symbol, TokenKind, Word};
use parse_tree::{ComparisonOperator, LineOperator, Quantifier, SetFunction};

/// The four kinds of line, the loosest first (ISO/IEC 9075:1992, 8.12 and 6.12).
#[derive(Clone, Copy)]
pub enum LineKind {
    Disjunction,
    Conjunction,
    Sum,
    Product,
}

/// The words of one type (ISO/IEC 9075:1992, 6.1).
#[derive(Clone, Copy)]
pub enum TypeWord {
    Smallint,
    Integer,
    Numeric,
    Char,
}

impl Cursor<'_, '_> {
    /// Passes an operator of a kind of line, if one stands here.
    pub fn take_line_operator(&mut self, kind: LineKind) -> Option<LineOperator>
        ensures { Takes (grammar.operator_in (line_kind kind)) operator_of self.old self.new result }
    {
        let token = self.look(class_of(kind))?;
        let operator = line_operator(kind, token.kind)?;
        self.pass();
        Some(operator)
    }

    /// Passes a comparison operator, if one stands here (ISO/IEC 9075:1992, 8.2).
    pub fn take_comparison(&mut self) -> Option<ComparisonOperator>
        ensures { Takes grammar.op_in op_of self.old self.new result }
    {
        let token = self.look(TokenClass::Operator)?;
        let op = comparison(token.kind)?;
        self.pass();
        Some(op)
    }

    /// Passes a quantifier, if one stands here (ISO/IEC 9075:1992, 8.7).
    pub fn take_quantifier(&mut self) -> Option<Quantifier>
        ensures { Takes grammar.quantifier_in quantifier_of self.old self.new result }
    {
        let token = self.look(TokenClass::Quantifier)?;
        let quantifier = quantifier(token.kind)?;
        self.pass();
        Some(quantifier)
    }

    /// Passes a sign, if one stands here; whether it is minus (ISO/IEC 9075:1992, 5.3).
    pub fn take_sign(&mut self, class: TokenClass) -> Option<bool>
        ensures { Takes grammar.sign_in (λ minus. minus) self.old self.new result }
    {
        let token = self.look(class)?;
        let minus = is_minus(token.kind)?;
        self.pass();
        Some(minus)
    }

    /// Passes the name of a set function, if one stands here (ISO/IEC 9075:1992, 6.5).
    pub fn take_set_function(&mut self) -> Option<SetFunction>
        ensures { Takes grammar.function_in function_of self.old self.new result }
    {
        let token = self.look(TokenClass::Value)?;
        let function = set_function(token.kind)?;
        self.pass();
        Some(function)
    }

    /// Passes the word of a type, if one stands here (ISO/IEC 9075:1992, 6.1).
    pub fn take_type_word(&mut self) -> Option<TypeWord>
        ensures { Takes grammar.type_word type_word_of self.old self.new result }
    {
        let token = self.look(TokenClass::Type)?;
        let word = type_word(token.kind)?;
        self.pass();
        Some(word)
    }
}

/// What a rule looks for behind an operand of a kind of line.
fn class_of(kind: LineKind) -> TokenClass {
    match kind {
        LineKind::Disjunction => TokenClass::Word(Word::Or),
        LineKind::Conjunction => TokenClass::Word(Word::And),
        LineKind::Sum | LineKind::Product => TokenClass::Arithmetic,
    }
}

fn line_operator(kind: LineKind, token: TokenKind) -> Option<LineOperator>
    ensures { (text : _) → grammar.operator_in (line_kind kind) (Some (kind_of text token))
        ≡ option_map operator_of result }
{
    match (kind, token) {
        (LineKind::Disjunction, TokenKind::Reserved(Word::Or)) => Some(LineOperator::Or),
        (LineKind::Conjunction, TokenKind::Reserved(Word::And)) => Some(LineOperator::And),
        (LineKind::Sum, TokenKind::Mark(Symbol::Plus)) => Some(LineOperator::Plus),
        (LineKind::Sum, TokenKind::Mark(Symbol::Minus)) => Some(LineOperator::Minus),
        (LineKind::Product, TokenKind::Mark(Symbol::Asterisk)) => Some(LineOperator::Times),
        (LineKind::Product, TokenKind::Mark(Symbol::Solidus)) => Some(LineOperator::Divided),
        _ => None,
    }
}

fn comparison(token: TokenKind) -> Option<ComparisonOperator>
    ensures { (text : _) → grammar.op_in (Some (kind_of text token)) ≡ option_map op_of result }
{
    match token {
        TokenKind::Mark(Symbol::Equals) => Some(ComparisonOperator::Equals),
        TokenKind::Mark(Symbol::NotEquals) => Some(ComparisonOperator::NotEquals),
        TokenKind::Mark(Symbol::LessThan) => Some(ComparisonOperator::LessThan),
        TokenKind::Mark(Symbol::GreaterThan) => Some(ComparisonOperator::GreaterThan),
        TokenKind::Mark(Symbol::LessOrEquals) => Some(ComparisonOperator::LessOrEquals),
        TokenKind::Mark(Symbol::GreaterOrEquals) => Some(ComparisonOperator::GreaterOrEquals),
        _ => None,
    }
}

fn quantifier(token: TokenKind) -> Option<Quantifier>
    ensures { (text : _) → grammar.quantifier_in (Some (kind_of text token)) ≡ option_map quantifier_of result }
{
    match token {
        TokenKind::Reserved(Word::All) => Some(Quantifier::All),
        TokenKind::Reserved(Word::Any | Word::Some) => Some(Quantifier::Any),
        _ => None,
    }
}

fn is_minus(token: TokenKind) -> Option<bool>
    ensures { (text : _) → grammar.sign_in (Some (kind_of text token)) ≡ result }
{
    match token {
        TokenKind::Mark(Symbol::Plus) => Some(false),
        TokenKind::Mark(Symbol::Minus) => Some(true),
        _ => None,
    }
}

fn set_function(token: TokenKind) -> Option<SetFunction>
    ensures { (text : _) → grammar.function_in (Some (kind_of text token)) ≡ option_map function_of result }
{
    match token {
        TokenKind::Reserved(Word::Count) => Some(SetFunction::Count),
        TokenKind::Reserved(Word::Sum) => Some(SetFunction::Sum),
        TokenKind::Reserved(Word::Avg) => Some(SetFunction::Avg),
        TokenKind::Reserved(Word::Min) => Some(SetFunction::Min),
        TokenKind::Reserved(Word::Max) => Some(SetFunction::Max),
        _ => None,
    }
}

fn type_word(token: TokenKind) -> Option<TypeWord>
    ensures { (text : _) → grammar.type_word (Some (kind_of text token)) ≡ option_map type_word_of result }
{
    match token {
        TokenKind::Reserved(Word::Smallint) => Some(TypeWord::Smallint),
        TokenKind::Reserved(Word::Integer | Word::Int) => Some(TypeWord::Integer),
        TokenKind::Reserved(Word::Numeric | Word::Decimal | Word::Dec) => Some(TypeWord::Numeric),
        TokenKind::Reserved(Word::Char | Word::Character) => Some(TypeWord::Char),
        _ => None,
    }
}
