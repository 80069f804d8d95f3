//! Query blocks and their order.

ghost use Rattle.std.specs.Prelude.{◌≡◌, [], IfOk, false, map, option_map};
ghost use Rattle.definitions.specs.Token.{Reserved};
ghost use Rattle.definitions.specs.Word as spec;
ghost use Rattle.definitions.specs.Grammar as grammar;
ghost use Rattle.definitions.specs.Grammar.{within};
ghost use Rattle.definitions.specs.Limits.{most_items};
ghost use Rattle.lexer.specs.Meaning.{word_of};
ghost use Rattle.parse_tree.specs.Trees.{block_of, column_of, condition_of, item_of, key_of, key_name_of, list_of, name_of, select_of, source_of};
ghost use Rattle.syntax_cursor.specs.Places as leaf;
ghost use Rattle.syntax_cursor.specs.Places.{Stands, has_leaf, if_there, name_leaves};
ghost use Rattle.syntax_cursor.specs.Reading.{Given, Parses, ParsesFlat, viewed};
ghost use Rattle.syntax.specs.Places.{all, block_leaves, expr_leaves, item_leaves, key_leaves, key_name_leaves, list_leaves, reference_leaves, select_leaves};

use crate::element::{Element, comma_list, keep};
use crate::expr;
use lexer::{Symbol, Word};
use parse_tree::{
    Block, ColumnReference, Expr, Item, Key, KeyName, ListKind, ListPlace, Name, Select,
    SelectList, Source, Sources,
};
use syntax_cursor::{Cursor, LineKind, ParseStop, TokenClass};

/// A query block (ISO/IEC 9075:1992, 7.9).
#[cycle(expressions)]
pub fn block(cursor: &mut Cursor, levels: u8) -> Result<Block, ParseStop>
    ensures reads { Parses (λ m. grammar.BlockOf (within m)) levels cursor.old cursor.new (viewed block_of result) }
    ensures placed { IfOk result (λ block. Stands cursor.old cursor.new (block_leaves block)) }
{
    let start = cursor.start();
    cursor.expect_word(Word::Select)?;
    let distinct = distinct(cursor);
    let list = select_list(cursor, start, levels)?;
    cursor.expect_word(Word::From)?;
    let place = ListPlace {
        kind: ListKind::Tables,
        owner: start,
    };
    let tables = comma_list::<Source>(cursor, place)?;
    let condition = condition_behind(cursor, Word::Where, levels)?;
    let groups = groups(cursor, start)?;
    let having = condition_behind(cursor, Word::Having, levels)?;
    Ok(Block {
        start,
        distinct,
        list,
        sources: Sources { tables },
        condition,
        groups,
        having,
    })
}

/// `[ ALL | DISTINCT ]`, whether DISTINCT (ISO/IEC 9075:1992, 6.5 and 7.9).
pub fn distinct(cursor: &mut Cursor) -> bool
    ensures reads { Given grammar.DistinctAt cursor.old cursor.new result }
    ensures placed { Stands cursor.old cursor.new [] }
{
    if cursor.eat_word(Word::All) {
        return false;
    }
    cursor.eat_word(Word::Distinct)
}

/// `"*" | item { "," item }`, of a block that begins at an offset (ISO/IEC 9075:1992, 7.9).
#[cycle(expressions)]
#[inline(never)]
fn select_list(cursor: &mut Cursor, owner: usize, levels: u8) -> Result<SelectList, ParseStop>
    ensures reads { Parses (λ m. grammar.SelectListOf (within m)) levels cursor.old cursor.new (viewed list_of result) }
    ensures placed { IfOk result (λ list. Stands cursor.old cursor.new (list_leaves list)) }
{
    let start = cursor.start();
    if cursor.eat_symbol(Symbol::Asterisk) {
        return Ok(SelectList::Asterisk { start });
    }
    let items = items(cursor, owner, levels)?;
    Ok(SelectList::Items(items))
}

#[cycle(expressions)]
#[inline(never)]
fn items(cursor: &mut Cursor, owner: usize, levels: u8) -> Result<Vec<Item>, ParseStop>
    ensures reads { Parses (λ m. grammar.ListOf most_items (grammar.ItemOf (within m))) levels cursor.old cursor.new
        (viewed (λ (xs : _). map item_of xs.items) result) }
    ensures placed { IfOk result (λ xs. Stands cursor.old cursor.new (all item_leaves xs.items)) }
{
    let mut items = Vec::new(cursor.alloc);
    let first = item(cursor, levels)?;
    items.push(first)?;
    let mut count: usize = 1;
    'items: loop {
        if !cursor.eat_symbol(Symbol::Comma) {
            break;
        }
        let item = item(cursor, levels)?;
        keep(&mut items, ListKind::Items, item)?;
        count = count.saturating_add(1);
    }
    let kind = ListKind::Items;
    cursor.end_list(ListPlace { kind, owner }, items.len(), count)?;
    Ok(items)
}

/// `expr [ AS name ]` (ISO/IEC 9075:1992, 7.9).
#[cycle(expressions)]
#[inline(never)]
fn item(cursor: &mut Cursor, levels: u8) -> Result<Item, ParseStop>
    ensures reads { Parses (λ m. grammar.ItemOf (within m)) levels cursor.old cursor.new (viewed item_of result) }
    ensures placed { IfOk result (λ item. Stands cursor.old cursor.new (item_leaves item)) }
{
    let value = expr::line(cursor, LineKind::Disjunction, levels)?;
    let alias = alias(cursor)?;
    Ok(Item { value, alias })
}

/// `[ AS name ]`.
fn alias(cursor: &mut Cursor) -> Result<Option<Name>, ParseStop>
    ensures reads { ParsesFlat (grammar.Optional (Reserved spec.As) grammar.NameAt) cursor.old cursor.new
        (viewed (option_map name_of) result) }
    ensures placed { IfOk result (λ alias. Stands cursor.old cursor.new (if_there name_leaves alias)) }
{
    if !cursor.eat_word(Word::As) {
        return Ok(None);
    }
    let name = cursor.name(TokenClass::Name)?;
    Ok(Some(name))
}

/// `[ word expr ]`, the word being WHERE or HAVING (ISO/IEC 9075:1992, 7.6 and 7.8).
#[cycle(expressions)]
#[inline(never)]
fn condition_behind(cursor: &mut Cursor, word: Word, levels: u8) -> Result<Option<Expr>, ParseStop>
    ensures reads { Parses (λ m. grammar.ConditionOf (within m) (word_of word)) levels cursor.old cursor.new
        (viewed condition_of result) }
    ensures placed { has_leaf (leaf.Reserved (word_of word)) ≡ false →
        IfOk result (λ condition. Stands cursor.old cursor.new (if_there expr_leaves condition)) }
{
    if !cursor.eat_word(word) {
        return Ok(None);
    }
    let condition = expr::line(cursor, LineKind::Disjunction, levels)?;
    Ok(Some(condition))
}

/// `[ GROUP BY column { "," column } ]`, of a block that begins at an offset (ISO/IEC 9075:1992, 7.7).
#[inline(never)]
fn groups(cursor: &mut Cursor, owner: usize) -> Result<Vec<ColumnReference>, ParseStop>
    ensures reads { ParsesFlat grammar.GroupsAt cursor.old cursor.new (viewed (λ (xs : _).
        map column_of xs.items) result) }
    ensures placed { IfOk result (λ xs. Stands cursor.old cursor.new (all reference_leaves xs.items)) }
{
    if !cursor.eat_word(Word::Group) {
        return Ok(Vec::new(cursor.alloc));
    }
    cursor.expect_word(Word::By)?;
    let kind = ListKind::GroupColumns;
    comma_list::<ColumnReference>(cursor, ListPlace { kind, owner })
}

/// A query: `block [ ORDER BY key { "," key } ]` (ISO/IEC 9075:1992, 13.1).
pub fn select(cursor: &mut Cursor, levels: u8) -> Result<Select, ParseStop>
    ensures reads { Parses (λ m. grammar.SelectOf (within m)) levels cursor.old cursor.new (viewed select_of result) }
    ensures placed { IfOk result (λ select. Stands cursor.old cursor.new (select_leaves select)) }
{
    let block = block(cursor, levels)?;
    let order = order(cursor, block.start)?;
    Ok(Select { block, order })
}

/// `[ ORDER BY key { "," key } ]`, of a query that begins at an offset.
fn order(cursor: &mut Cursor, owner: usize) -> Result<Vec<Key>, ParseStop>
    ensures reads { ParsesFlat grammar.OrderAt cursor.old cursor.new (viewed (λ (xs : _). map key_of xs.items) result) }
    ensures placed { IfOk result (λ xs. Stands cursor.old cursor.new (all key_leaves xs.items)) }
{
    if !cursor.eat_word(Word::Order) {
        return Ok(Vec::new(cursor.alloc));
    }
    cursor.expect_word(Word::By)?;
    let kind = ListKind::Keys;
    comma_list::<Key>(cursor, ListPlace { kind, owner })
}

/// `name | count`.
fn key_name(cursor: &mut Cursor) -> Result<KeyName, ParseStop>
    ensures reads { ParsesFlat grammar.KeyNameAt cursor.old cursor.new (viewed key_name_of result) }
    ensures placed { IfOk result (λ name. Stands cursor.old cursor.new (key_name_leaves name)) }
{
    if let Some(name) = cursor.take_name(TokenClass::Name)? {
        return Ok(KeyName::Name(name));
    }
    let position = cursor.count()?;
    Ok(KeyName::Position(position))
}

/// `[ ASC | DESC ]`, whether DESC.
fn is_descending(cursor: &mut Cursor) -> bool
    ensures reads { Given grammar.DirectionAt cursor.old cursor.new result }
    ensures placed { Stands cursor.old cursor.new [] }
{
    if cursor.eat_word(Word::Asc) {
        return false;
    }
    cursor.eat_word(Word::Desc)
}

impl Element for Source {
    ghost use Rattle.definitions.specs.Statement.{Source};
    ghost use Rattle.definitions.specs.Grammar.{SourceAt};
    ghost use Rattle.definitions.proofs.Grammar.{source_alike};
    ghost use Rattle.parse_tree.specs.Trees.{source_of};
    ghost use Rattle.syntax.specs.Places.{source_leaves};

    ghost Tree = { Source };

    ghost rule = { SourceAt };

    ghost reads_one_way = { source_alike };

    ghost tree_of = { source_of };

    ghost leaves = { source_leaves };

    /// `name [ name ]` (ISO/IEC 9075:1992, 6.3).
    fn read(cursor: &mut Cursor) -> Result<Source, ParseStop> {
        let table = cursor.name(TokenClass::Name)?;
        let correlation = cursor.take_name(TokenClass::Name)?;
        Ok(Source { table, correlation })
    }
}

impl Element for ColumnReference {
    ghost use Rattle.definitions.specs.Statement.{ColumnReference};
    ghost use Rattle.definitions.specs.Grammar.{ReferenceAt};
    ghost use Rattle.definitions.proofs.Grammar.{reference_alike};
    ghost use Rattle.parse_tree.specs.Trees.{column_of};
    ghost use Rattle.syntax.specs.Places.{reference_leaves};

    ghost Tree = { ColumnReference };

    ghost rule = { ReferenceAt };

    ghost reads_one_way = { reference_alike };

    ghost tree_of = { column_of };

    ghost leaves = { reference_leaves };

    fn read(cursor: &mut Cursor) -> Result<ColumnReference, ParseStop> {
        expr::column_reference(cursor, TokenClass::Name)
    }
}

impl Element for Key {
    ghost use Rattle.definitions.specs.Statement.{SortSpecification};
    ghost use Rattle.definitions.specs.Grammar.{KeyAt};
    ghost use Rattle.definitions.proofs.Grammar.{key_alike};
    ghost use Rattle.parse_tree.specs.Trees.{key_of};
    ghost use Rattle.syntax.specs.Places.{key_leaves};

    ghost Tree = { SortSpecification };

    ghost rule = { KeyAt };

    ghost reads_one_way = { key_alike };

    ghost tree_of = { key_of };

    ghost leaves = { key_leaves };

    /// `(name | count) [ ASC | DESC ]` (ISO/IEC 9075:1992, 13.1).
    fn read(cursor: &mut Cursor) -> Result<Key, ParseStop> {
        let name = key_name(cursor)?;
        let descending = is_descending(cursor);
        Ok(Key { name, descending })
    }
}
