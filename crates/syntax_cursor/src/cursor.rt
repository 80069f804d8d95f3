//! The words that the rules are written in: a cursor over the tokens of a script.

ghost use Rattle.std.specs.Prelude.{◌≡◌, ◌↔◌, option_copied, ◌+◌, ◌-◌, ◌≤◌, ◌<◌, length, slice_get, Some, None, IsTrue, IfOk, IfErr, IfSome, IfNone, OnOk, OnSome, suc};
ghost use Rattle.std.specs.Bool.{OnTrue, OnFalse};
ghost use Rattle.definitions.specs.Characters.{folded};
ghost use Rattle.definitions.specs.Token.{Mark, Reserved};
ghost use Rattle.definitions.specs.Rule.{At};
ghost use Rattle.definitions.specs.Grammar.{NameAt, CountAt, StringAt, name_in, count_in, string_in};
ghost use Rattle.lexer.specs.Meaning.{kind_of, kinds_of, symbol_of, word_of};
ghost use Rattle.lexer.specs.Quoted.{quoted_text};
ghost use Rattle.syntax_cursor.specs.declared.stop.ParseStop.TheVariants as stop;
ghost use Rattle.parse_tree.specs.Lists.{most_of};
ghost use Rattle.parse_tree.specs.Trees.{count_of, name_of, text_of};
ghost use Rattle.syntax_cursor.specs.Places.{Stands, count_leaves, if_there, name_leaves, numeral_leaves, start_at, string_leaves};
ghost use Rattle.syntax_cursor.specs.Reading.{IsNext, EndsList, Eats, Expects, Takes, TakesNumber, ParsesFlat, starts_of, viewed};

use crate::class::{TokenClass, Wanted};
use crate::stop::ParseStop;
use crate::text::{in_upper_case, without_quotes};
use lexer::{Symbol, Token, TokenKind, Word};
use parse_tree::{Count, ListPlace, LongList, Name, Numeral, StringLiteral};
use std::alloc::Global;
use std::marker::Model;

/// A place in the tokens of a script, and what the rules look for at one of its places.
#[derive(Drop)]
pub struct Cursor<'t, 's> {
    pub alloc: Global,
    tokens: &'t [Token<'s>],
    at: usize,
    /// The place whose classes are noted, if there is one.
    watched: Option<usize>,
    wanted: Wanted,
    /// The lists past their limits that are read so far.
    long_lists: Vec<LongList>,
}

impl<'t, 's> Model for Cursor<'t, 's> {
    ghost use Rattle.std.specs.Prelude.{◌≤◌, length};
    ghost use Rattle.syntax_cursor.specs.Reading.{Place, starts_of};
    ghost use Rattle.lexer.specs.Meaning.{kinds_of};

    ghost Value = { Place };

    ghost view = { λ s. record {
      tokens = kinds_of s.tokens.now;
      starts = starts_of s.tokens.now;
      at = s.at;
      long_lists = length s.long_lists.items;
    } };

    ghost invariant = { λ s. s.at ≤ length s.tokens.now };
}

impl<'t, 's> Cursor<'t, 's> {
    /// The beginning of some tokens. What the rules look for is noted at one place alone, if it is given: to note it
    /// at each would take as long as reading.
    pub fn new(alloc: Global, tokens: &'t [Token<'s>], watched: Option<usize>) -> Cursor<'t, 's>
        ensures { result ≡ record {
          tokens = kinds_of tokens.now;
          starts = starts_of tokens.now;
          at = 0;
          long_lists = 0;
        } }
    {
        Cursor {
            alloc,
            tokens,
            at: 0,
            watched,
            wanted: Wanted::nothing(),
            long_lists: Vec::new(alloc),
        }
    }

    /// A place in some tokens; what the rules look for is noted nowhere.
    pub fn at_place(alloc: Global, tokens: &'t [Token<'s>], at: usize) -> Cursor<'t, 's>
        requires { at ≤ length tokens.now }
        ensures { result ≡ record {
          tokens = kinds_of tokens.now;
          starts = starts_of tokens.now;
          at = at;
          long_lists = 0;
        } }
    {
        Cursor {
            alloc,
            tokens,
            at,
            watched: None,
            wanted: Wanted::nothing(),
            long_lists: Vec::new(alloc),
        }
    }

    /// How many tokens are passed.
    pub fn place(&self) -> usize
        ensures { result ≡ self.now.at }
    {
        self.at
    }

    /// Whether all tokens are passed.
    pub fn is_at_end(&self) -> bool
        ensures end { OnTrue result (self.now.at ≡ length self.now.tokens) }
        ensures before { OnFalse result (self.now.at < length self.now.tokens) }
    {
        self.at == self.tokens.len()
    }

    /// The token that stands here, where a rule looks for a class of tokens.
    pub fn look(&mut self, class: TokenClass) -> Option<&'t Token<'s>>
        ensures same { self.new ≡ self.old }
        ensures token { IfSome result (λ token. slice_get self.old.tokens self.old.at
            ≡ Some (kind_of token.now.text.now token.now.kind)) }
        ensures end { IfNone result (slice_get self.old.tokens self.old.at ≡ None) }
        ensures inside { OnSome result (self.old.at < length self.old.tokens) }
        ensures start { IfSome result (λ token. token.now.start ≡ start_at self.old) }
    {
        let token = token_at(self.tokens, self.at);
        self.note(class);
        token
    }

    /// Notes that a rule looks for a class of tokens, at the place that is watched.
    fn note(&mut self, class: TokenClass)
        ensures { self.new ≡ self.old }
    {
        if self.watched == Some(self.at) {
            self.wanted.add(class);
        }
    }

    /// Passes the token that stands here.
    pub fn pass(&mut self)
        requires { self.old.at < length self.old.tokens }
        ensures { IsNext self.old self.new }
    {
        self.at += 1;
    }

    /// The offset of the token that stands here; 0 at the end.
    pub fn start(&self) -> usize
        ensures { result ≡ start_at self.now }
    {
        match self.tokens.get(self.at) {
            Some(token) => token.start,
            None => 0,
        }
    }

    /// That nothing goes on with the token that stands here.
    pub fn stop(&self) -> ParseStop
        ensures { result ≡ stop.Token self.now.at }
    {
        ParseStop::Token(self.at)
    }

    /// The levels within a token that was just passed, of the levels around it.
    pub fn below(&self, levels: u8) -> Result<u8, ParseStop>
        ensures ok { IfOk result (λ below. levels ≡ suc below) }
        ensures deep { IfErr result (λ fault. (levels ≡ 0) × (fault ≡ stop.Deep (self.now.at - 1))) }
    {
        match levels.checked_sub(1) {
            Some(below) => Ok(below),
            None => Err(ParseStop::Deep(self.at.saturating_sub(1))),
        }
    }

    /// Whether a reserved word stands here, where a rule looks for a class of tokens.
    fn sees(&mut self, word: Word, class: TokenClass) -> bool
        ensures same { self.new ≡ self.old }
        ensures stands { IsTrue result ↔ At self.old.tokens self.old.at (Reserved (word_of word)) }
    {
        match self.look(class) {
            Some(token) => is_word(token.kind, word),
            None => false,
        }
    }

    /// Whether a reserved word stands here.
    pub fn sees_word(&mut self, word: Word) -> bool
        ensures same { self.new ≡ self.old }
        ensures stands { IsTrue result ↔ At self.old.tokens self.old.at (Reserved (word_of word)) }
    {
        self.sees(word, TokenClass::Word(word))
    }

    /// Passes a reserved word if it stands here, and tells whether it does.
    pub fn eat_word(&mut self, word: Word) -> bool
        ensures { Eats (Reserved (word_of word)) self.old self.new result }
    {
        self.eat_word_as(word, TokenClass::Word(word))
    }

    /// The same where a rule looks for a class of tokens.
    pub fn eat_word_as(&mut self, word: Word, class: TokenClass) -> bool
        ensures { Eats (Reserved (word_of word)) self.old self.new result }
    {
        let stands = self.sees(word, class);
        if stands {
            self.pass();
        }
        stands
    }

    /// Passes a symbol if it stands here, and tells whether it does.
    pub fn eat_symbol(&mut self, symbol: Symbol) -> bool
        ensures { Eats (Mark (symbol_of symbol)) self.old self.new result }
    {
        self.eat_symbol_as(symbol, TokenClass::Symbol(symbol))
    }

    /// The same where a rule looks for a class of tokens.
    pub fn eat_symbol_as(&mut self, symbol: Symbol, class: TokenClass) -> bool
        ensures { Eats (Mark (symbol_of symbol)) self.old self.new result }
    {
        let stands = self.sees_symbol(symbol, class);
        if stands {
            self.pass();
        }
        stands
    }

    /// Whether a symbol stands here, where a rule looks for a class of tokens.
    fn sees_symbol(&mut self, symbol: Symbol, class: TokenClass) -> bool
        ensures same { self.new ≡ self.old }
        ensures stands { IsTrue result ↔ At self.old.tokens self.old.at (Mark (symbol_of symbol)) }
    {
        match self.look(class) {
            Some(token) => is_symbol(token.kind, symbol),
            None => false,
        }
    }

    /// Passes a reserved word, which must stand here.
    pub fn expect_word(&mut self, word: Word) -> Result<(), ParseStop>
        ensures { Expects (Reserved (word_of word)) self.old self.new result }
    {
        if self.eat_word(word) {
            Ok(())
        } else {
            Err(self.stop())
        }
    }

    /// Passes a symbol, which must stand here.
    pub fn expect_symbol(&mut self, symbol: Symbol) -> Result<(), ParseStop>
        ensures { Expects (Mark (symbol_of symbol)) self.old self.new result }
    {
        if self.eat_symbol(symbol) {
            Ok(())
        } else {
            Err(self.stop())
        }
    }

    /// Passes a name if one stands here (ISO/IEC 9075:1992, 5.4), where a rule looks for a class of tokens.
    pub fn take_name(&mut self, class: TokenClass) -> Result<Option<Name>, ParseStop>
        ensures ok { IfOk result (Takes name_in name_of self.old self.new) }
        ensures placed { IfOk result (λ name. Stands self.old self.new (if_there name_leaves name)) }
        ensures memory { IfErr result (λ fault. fault ≡ stop.Memory) }
    {
        let Some(token) = self.look(class) else {
            return Ok(None);
        };
        if !is_name(token.kind) {
            return Ok(None);
        }
        self.pass();
        let text = in_upper_case(self.alloc, token.text)?;
        let start = token.start;
        Ok(Some(Name { text, start }))
    }

    /// A name (ISO/IEC 9075:1992, 5.4), where a rule looks for a class of tokens.
    pub fn name(&mut self, class: TokenClass) -> Result<Name, ParseStop>
        ensures reads { ParsesFlat NameAt self.old self.new (viewed name_of result) }
        ensures placed { IfOk result (λ name. Stands self.old self.new (name_leaves name)) }
    {
        let Some(name) = self.take_name(class)? else {
            return Err(self.stop());
        };
        Ok(name)
    }

    /// A number without a point (ISO/IEC 9075:1992, 5.3, unsigned integer).
    pub fn count(&mut self) -> Result<Count, ParseStop>
        ensures reads { ParsesFlat CountAt self.old self.new (viewed count_of result) }
        ensures placed { IfOk result (λ count. Stands self.old self.new (count_leaves count)) }
    {
        let Some(token) = self.look(TokenClass::WholeNumber) else {
            return Err(self.stop());
        };
        let Some(units) = whole(token) else {
            return Err(self.stop());
        };
        self.pass();
        let start = token.start;
        Ok(Count { units, start })
    }

    /// Passes an unsigned number if one stands here (ISO/IEC 9075:1992, 5.3), where a rule looks for a class of
    /// tokens.
    pub fn take_number(&mut self, class: TokenClass) -> Option<Numeral>
        ensures taken { TakesNumber self.old self.new result }
        ensures placed { Stands self.old self.new (if_there numeral_leaves result) }
    {
        let token = self.look(class)?;
        let number = token.numeral()?;
        self.pass();
        Some(Numeral {
            units: number.units,
            digits: number.digits,
            scale: number.fraction.unwrap_or(0),
            start: token.start,
        })
    }

    /// Passes a character string literal if one stands here (ISO/IEC 9075:1992, 5.3), where a rule looks for a
    /// class of tokens.
    pub fn take_string(&mut self, class: TokenClass) -> Result<Option<StringLiteral>, ParseStop>
        ensures ok { IfOk result (Takes string_in text_of self.old self.new) }
        ensures placed { IfOk result (λ string. Stands self.old self.new (if_there string_leaves string)) }
        ensures memory { IfErr result (λ fault. fault ≡ stop.Memory) }
    {
        let Some(token) = self.look(class) else {
            return Ok(None);
        };
        if !is_string(token.kind) {
            return Ok(None);
        }
        self.pass();
        let text = without_quotes(self.alloc, token.text)?;
        let start = token.start;
        Ok(Some(StringLiteral { text, start }))
    }

    /// A character string literal (ISO/IEC 9075:1992, 5.3).
    pub fn string(&mut self) -> Result<StringLiteral, ParseStop>
        ensures reads { ParsesFlat StringAt self.old self.new (viewed text_of result) }
        ensures placed { IfOk result (λ string. Stands self.old self.new (string_leaves string)) }
    {
        let Some(string) = self.take_string(TokenClass::String)? else {
            return Err(self.stop());
        };
        Ok(string)
    }

    /// Ends a list that was read up to here: notes it, if more of its elements are kept than it may have. `count` is how many
    /// are written.
    pub fn end_list(&mut self, place: ListPlace, kept: usize, count: usize) -> Result<(), ParseStop>
        ensures ok { OnOk result (EndsList (most_of place.kind) kept self.old self.new) }
        ensures memory { IfErr result (λ fault. fault ≡ stop.Memory) }
    {
        if kept > place.kind.most() {
            self.long_lists.push(LongList { place, count })?;
        }
        Ok(())
    }

    /// The lists past their limits that were read.
    pub fn into_long_lists(self) -> Vec<LongList>
        ensures { length result.items ≡ self.entry.long_lists }
    {
        self.long_lists
    }

    /// What the rules have looked for at the place that is watched.
    pub fn wanted_here(&self) -> Wanted {
        self.wanted
    }
}

fn token_at<'t, 's>(tokens: &'t [Token<'s>], at: usize) -> Option<&'t Token<'s>>
    ensures there { option_copied result ≡ slice_get tokens.now at }
{
    tokens.get(at)
}

fn is_word(kind: TokenKind, word: Word) -> bool
    ensures { (text : _) → (IsTrue result ↔ (kind_of text kind ≡ Reserved (word_of word))) }
{
    match kind {
        TokenKind::Reserved(found) => found == word,
        _ => false,
    }
}

fn is_symbol(kind: TokenKind, symbol: Symbol) -> bool
    ensures { (text : _) → (IsTrue result ↔ (kind_of text kind ≡ Mark (symbol_of symbol))) }
{
    match kind {
        TokenKind::Mark(found) => found == symbol,
        _ => false,
    }
}

fn is_name(kind: TokenKind) -> bool
    ensures stands { OnTrue result ((text : _) → name_in (Some (kind_of text kind)) ≡ Some (folded text)) }
    ensures none { OnFalse result ((text : _) → name_in (Some (kind_of text kind)) ≡ None) }
{
    match kind {
        TokenKind::Name => true,
        _ => false,
    }
}

fn is_string(kind: TokenKind) -> bool
    ensures stands { OnTrue result ((text : _) → string_in (Some (kind_of text kind)) ≡ Some (quoted_text text)) }
    ensures none { OnFalse result ((text : _) → string_in (Some (kind_of text kind)) ≡ None) }
{
    match kind {
        TokenKind::String => true,
        _ => false,
    }
}

/// The units of a number without a point.
fn whole(token: &Token) -> Option<u128>
    ensures { count_in (Some (kind_of token.now.text.now token.now.kind)) ≡ result }
{
    let number = token.numeral()?;
    match number.fraction {
        Some(_) => None,
        None => Some(number.units),
    }
}
