//! Reads the statements other than queries.

ghost use Rattle.std.specs.Prelude.{[], IfOk, map, option_map};
ghost use Rattle.definitions.specs.Grammar as grammar;
ghost use Rattle.definitions.specs.Grammar.{within};
ghost use Rattle.parse_tree.specs.Trees.{bound_of, constraint_of, statistics_of, name_of, range_of, statement_of};
ghost use Rattle.sqlvalue.specs.Meaning.{declared_of};
ghost use Rattle.syntax_cursor.specs.Places.{Stands, if_there, name_leaves};
ghost use Rattle.syntax_cursor.specs.Reading.{Parses, ParsesFlat, viewed};
ghost use Rattle.syntax.specs.Places.{all, bound_leaves, statistics_leaves, range_leaves, statement_leaves};

use crate::element::{Element, comma_list};
use crate::query;
use lexer::{Symbol, Word};
use parse_tree::{
    Bound, ColumnDefinition, Constraint, IndexStatistics, ListKind, ListPlace, Name, Range,
    Statement,
};
use sqlvalue::DeclaredType;
use syntax_cursor::{Cursor, ParseStop, TokenClass, TypeWord};

pub fn statement(cursor: &mut Cursor, levels: u8) -> Result<Statement, ParseStop>
    ensures reads { Parses (λ m. grammar.StatementOf (within m)) levels cursor.old cursor.new
        (viewed statement_of result) }
    ensures placed { IfOk result (λ statement. Stands cursor.old cursor.new (statement_leaves statement)) }
{
    if cursor.eat_word(Word::Create) {
        create(cursor)
    } else if cursor.eat_word(Word::Load) {
        load(cursor)
    } else if cursor.eat_word(Word::Set) {
        set_statistics(cursor)
    } else if cursor.eat_word(Word::Explain) {
        let select = query::select(cursor, levels)?;
        Ok(Statement::Explain(select))
    } else {
        let select = query::select(cursor, levels)?;
        Ok(Statement::Query(select))
    }
}

/// What stands behind CREATE.
fn create(cursor: &mut Cursor) -> Result<Statement, ParseStop>
    ensures reads { ParsesFlat grammar.CreateAt cursor.old cursor.new (viewed statement_of result) }
    ensures placed { IfOk result (λ statement. Stands cursor.old cursor.new (statement_leaves statement)) }
{
    if cursor.eat_word(Word::Table) {
        create_table(cursor)
    } else {
        create_index(cursor)
    }
}

/// `name "(" column { "," column } ")"` (ISO/IEC 9075:1992, 11.3).
fn create_table(cursor: &mut Cursor) -> Result<Statement, ParseStop>
    ensures reads { ParsesFlat grammar.TableAt cursor.old cursor.new (viewed statement_of result) }
    ensures placed { IfOk result (λ statement. Stands cursor.old cursor.new (statement_leaves statement)) }
{
    let name = cursor.name(TokenClass::Name)?;
    cursor.expect_symbol(Symbol::OpenParen)?;
    let place = ListPlace {
        kind: ListKind::Columns,
        owner: name.start,
    };
    let columns = comma_list::<ColumnDefinition>(cursor, place)?;
    cursor.expect_symbol(Symbol::CloseParen)?;
    Ok(Statement::CreateTable { name, columns })
}

/// `[ UNIQUE ] INDEX ON name names` (own).
fn create_index(cursor: &mut Cursor) -> Result<Statement, ParseStop>
    ensures reads { ParsesFlat grammar.IndexAt cursor.old cursor.new (viewed statement_of result) }
    ensures placed { IfOk result (λ statement. Stands cursor.old cursor.new (statement_leaves statement)) }
{
    let unique = cursor.eat_word(Word::Unique);
    cursor.expect_word(Word::Index)?;
    cursor.expect_word(Word::On)?;
    let table = cursor.name(TokenClass::Name)?;
    let columns = names(cursor, table.start)?;
    Ok(Statement::CreateIndex {
        unique,
        table,
        columns,
    })
}

/// `"(" name { "," name } ")"`, behind the name of a table at an offset.
fn names(cursor: &mut Cursor, owner: usize) -> Result<Vec<Name>, ParseStop>
    ensures reads { ParsesFlat grammar.NamesAt cursor.old cursor.new (viewed (λ (xs : _).
        map name_of xs.items) result) }
    ensures placed { IfOk result (λ xs. Stands cursor.old cursor.new (all name_leaves xs.items)) }
{
    cursor.expect_symbol(Symbol::OpenParen)?;
    let kind = ListKind::IndexColumns;
    let names = comma_list::<Name>(cursor, ListPlace { kind, owner })?;
    cursor.expect_symbol(Symbol::CloseParen)?;
    Ok(names)
}

/// A type (ISO/IEC 9075:1992, 6.1).
fn declared_type(cursor: &mut Cursor) -> Result<DeclaredType, ParseStop>
    ensures reads { ParsesFlat grammar.TypeAt cursor.old cursor.new (viewed declared_of result) }
    ensures placed { IfOk result (λ declared. Stands cursor.old cursor.new []) }
{
    let Some(word) = cursor.take_type_word() else {
        return Err(cursor.stop());
    };
    match word {
        TypeWord::Smallint => Ok(DeclaredType::Smallint),
        TypeWord::Integer => Ok(DeclaredType::Integer),
        TypeWord::Numeric => numeric_parameters(cursor),
        TypeWord::Char => char_length(cursor),
    }
}

/// `"(" count [ "," count ] ")"`; the scale is 0 if none is written.
fn numeric_parameters(cursor: &mut Cursor) -> Result<DeclaredType, ParseStop>
    ensures reads { ParsesFlat grammar.ParametersAt cursor.old cursor.new (viewed declared_of result) }
    ensures placed { IfOk result (λ declared. Stands cursor.old cursor.new []) }
{
    cursor.expect_symbol(Symbol::OpenParen)?;
    let precision = cursor.count()?;
    let scale = scale(cursor)?;
    cursor.expect_symbol(Symbol::CloseParen)?;
    Ok(DeclaredType::Numeric {
        precision: precision.units,
        scale,
    })
}

/// `[ "," count ]`, or 0.
fn scale(cursor: &mut Cursor) -> Result<u128, ParseStop>
    ensures reads { ParsesFlat grammar.ScaleAt cursor.old cursor.new (viewed (λ scale. scale) result) }
    ensures placed { IfOk result (λ scale. Stands cursor.old cursor.new []) }
{
    if !cursor.eat_symbol(Symbol::Comma) {
        return Ok(0);
    }
    let scale = cursor.count()?;
    Ok(scale.units)
}

/// `[ "(" count ")" ]`; the length is 1 if none is written.
fn char_length(cursor: &mut Cursor) -> Result<DeclaredType, ParseStop>
    ensures reads { ParsesFlat grammar.LengthAt cursor.old cursor.new (viewed declared_of result) }
    ensures placed { IfOk result (λ declared. Stands cursor.old cursor.new []) }
{
    if !cursor.eat_symbol(Symbol::OpenParen) {
        return Ok(DeclaredType::Char { length: 1 });
    }
    let length = cursor.count()?;
    cursor.expect_symbol(Symbol::CloseParen)?;
    Ok(DeclaredType::Char {
        length: length.units,
    })
}

/// `[ NOT NULL [ UNIQUE | PRIMARY KEY ] ]` (ISO/IEC 9075:1992, 11.4 and 11.7).
fn constraint(cursor: &mut Cursor) -> Result<Constraint, ParseStop>
    ensures reads { ParsesFlat grammar.ConstraintAt cursor.old cursor.new (viewed constraint_of result) }
    ensures placed { IfOk result (λ constraint. Stands cursor.old cursor.new []) }
{
    if !cursor.eat_word(Word::Not) {
        return Ok(Constraint::Nullable);
    }
    cursor.expect_word(Word::Null)?;
    if cursor.eat_word(Word::Unique) {
        return Ok(Constraint::Unique);
    }
    if !cursor.eat_word(Word::Primary) {
        return Ok(Constraint::NotNull);
    }
    cursor.expect_word(Word::Key)?;
    Ok(Constraint::PrimaryKey)
}

/// `name FROM string` (own).
fn load(cursor: &mut Cursor) -> Result<Statement, ParseStop>
    ensures reads { ParsesFlat grammar.LoadAt cursor.old cursor.new (viewed statement_of result) }
    ensures placed { IfOk result (λ statement. Stands cursor.old cursor.new (statement_leaves statement)) }
{
    let table = cursor.name(TokenClass::Name)?;
    cursor.expect_word(Word::From)?;
    let file = cursor.string()?;
    Ok(Statement::Load { table, file })
}

/// What stands behind SET (own).
fn set_statistics(cursor: &mut Cursor) -> Result<Statement, ParseStop>
    ensures reads { ParsesFlat grammar.SetAt cursor.old cursor.new (viewed statement_of result) }
    ensures placed { IfOk result (λ statement. Stands cursor.old cursor.new (statement_leaves statement)) }
{
    cursor.expect_word(Word::Statistics)?;
    let table = cursor.name(TokenClass::Name)?;
    if cursor.eat_word(Word::Rows) {
        let rows = cursor.count()?;
        cursor.expect_word(Word::Pages)?;
        let pages = cursor.count()?;
        return Ok(Statement::SetTableStatistics { table, rows, pages });
    }
    let columns = names(cursor, table.start)?;
    let statistics = index_statistics(cursor)?;
    Ok(Statement::SetIndexStatistics {
        table,
        columns,
        statistics,
    })
}

/// `KEYS count PAGES count [ CLUSTERED ] [ LOW bound HIGH bound ]`.
fn index_statistics(cursor: &mut Cursor) -> Result<IndexStatistics, ParseStop>
    ensures reads { ParsesFlat grammar.StatisticsAt cursor.old cursor.new (viewed statistics_of result) }
    ensures placed { IfOk result (λ statistics. Stands cursor.old cursor.new (statistics_leaves statistics)) }
{
    cursor.expect_word(Word::Keys)?;
    let keys = cursor.count()?;
    cursor.expect_word(Word::Pages)?;
    let pages = cursor.count()?;
    let clustered = cursor.eat_word(Word::Clustered);
    let range = range(cursor)?;
    Ok(IndexStatistics {
        keys,
        pages,
        clustered,
        range,
    })
}

fn range(cursor: &mut Cursor) -> Result<Option<Range>, ParseStop>
    ensures reads { ParsesFlat grammar.RangeAt cursor.old cursor.new (viewed (option_map range_of) result) }
    ensures placed { IfOk result (λ range. Stands cursor.old cursor.new (if_there range_leaves range)) }
{
    if !cursor.eat_word(Word::Low) {
        return Ok(None);
    }
    let low = bound(cursor)?;
    cursor.expect_word(Word::High)?;
    let high = bound(cursor)?;
    Ok(Some(Range { low, high }))
}

/// `[ "+" | "-" ] number` (ISO/IEC 9075:1992, 5.3).
fn bound(cursor: &mut Cursor) -> Result<Bound, ParseStop>
    ensures reads { ParsesFlat grammar.BoundAt cursor.old cursor.new (viewed bound_of result) }
    ensures placed { IfOk result (λ bound. Stands cursor.old cursor.new (bound_leaves bound)) }
{
    let minus = cursor.take_sign(TokenClass::Number).unwrap_or(false);
    let Some(number) = cursor.take_number(TokenClass::Number) else {
        return Err(cursor.stop());
    };
    Ok(Bound { minus, number })
}

impl Element for Name {
    ghost use Rattle.definitions.specs.Statement.{Name};
    ghost use Rattle.definitions.specs.Grammar.{NameAt};
    ghost use Rattle.definitions.proofs.Grammar.{name_alike};
    ghost use Rattle.parse_tree.specs.Trees.{name_of};
    ghost use Rattle.syntax_cursor.specs.Places.{name_leaves};

    ghost Tree = { Name };

    ghost rule = { NameAt };

    ghost reads_one_way = { name_alike };

    ghost tree_of = { name_of };

    ghost leaves = { name_leaves };

    fn read(cursor: &mut Cursor) -> Result<Name, ParseStop> {
        cursor.name(TokenClass::Name)
    }
}

impl Element for ColumnDefinition {
    ghost use Rattle.definitions.specs.Statement.{ColumnDefinition};
    ghost use Rattle.definitions.specs.Grammar.{ColumnAt};
    ghost use Rattle.definitions.proofs.Grammar.{column_alike};
    ghost use Rattle.parse_tree.specs.Trees.{definition_of};
    ghost use Rattle.syntax.specs.Places.{definition_leaves};

    ghost Tree = { ColumnDefinition };

    ghost rule = { ColumnAt };

    ghost reads_one_way = { column_alike };

    ghost tree_of = { definition_of };

    ghost leaves = { definition_leaves };

    /// `name type [ constraint ]` (ISO/IEC 9075:1992, 11.4).
    fn read(cursor: &mut Cursor) -> Result<ColumnDefinition, ParseStop> {
        let name = cursor.name(TokenClass::Name)?;
        let declared = declared_type(cursor)?;
        let constraint = constraint(cursor)?;
        Ok(ColumnDefinition {
            name,
            declared,
            constraint,
        })
    }
}
