//! Lists: what is kept of them, and those of what has no levels: names, columns, sources, keys.

ghost use Rattle.std.specs.Prelude.{◌≡◌, ◌<◌, map, length, IfOk, IfErr, OnOk};
ghost use Rattle.definitions.specs.Grammar.{ListOf};
ghost use Rattle.parse_tree.specs.Lists.{most_of};
ghost use Rattle.syntax_cursor.specs.declared.stop.ParseStop.TheVariants as stop;
ghost use Rattle.syntax_cursor.specs.Places.{Stands};
ghost use Rattle.syntax_cursor.specs.Reading.{ParsesFlat, viewed};
ghost use Rattle.syntax.specs.Lists.{IsKept};
ghost use Rattle.syntax.specs.Places.{all};

use lexer::Symbol;
use parse_tree::{ListKind, ListPlace};
use syntax_cursor::{Cursor, ParseStop};

/// An element of a list: what stands between two commas.
pub trait Element: Drop {
    ghost use Rattle.std.specs.Prelude.{List, IfOk};
    ghost use Rattle.definitions.specs.Rule.{Rule};
    ghost use Rattle.definitions.proofs.Alike.{Alike};
    ghost use Rattle.syntax_cursor.specs.Places.{Placed, Stands};
    ghost use Rattle.syntax_cursor.specs.Reading.{ParsesFlat, viewed};

    ghost Tree: { Type 0 };

    ghost rule: { Rule Tree };

    ghost reads_one_way: { Alike rule rule };

    ghost tree_of: { Self → Tree };

    ghost leaves: { Self → List Placed };

    /// Reads one element at the cursor's place.
    fn read(cursor: &mut Cursor) -> Result<Self, ParseStop>
        ensures reads { ParsesFlat rule cursor.old cursor.new (viewed tree_of result) }
        ensures placed { IfOk result (λ x. Stands cursor.old cursor.new (leaves x)) };
}

/// `element { "," element }`, of a list that has its place in a statement.
pub fn comma_list<T: Element>(cursor: &mut Cursor, place: ListPlace) -> Result<Vec<T>, ParseStop>
    ensures reads { ParsesFlat (ListOf (most_of place.kind) T.rule) cursor.old cursor.new (viewed (λ (xs : _).
        map T.tree_of xs.items) result) }
    ensures some { IfOk result (λ xs. 0 < length xs.items) }
    ensures placed { IfOk result (λ xs. Stands cursor.old cursor.new (all T.leaves xs.items)) }
{
    let mut elements = Vec::new(cursor.alloc);
    let first = T::read(cursor)?;
    elements.push(first)?;
    let mut count: usize = 1;
    'elements: loop {
        if !cursor.eat_symbol(Symbol::Comma) {
            break;
        }
        let element = T::read(cursor)?;
        keep(&mut elements, place.kind, element)?;
        count = count.saturating_add(1);
    }
    cursor.end_list(place, elements.len(), count)?;
    Ok(elements)
}

/// Keeps an element of a list that is read, unless one more than are allowed are kept already.
pub fn keep<T: Drop>(kept: &mut Vec<T>, kind: ListKind, element: T) -> Result<(), ParseStop>
    ensures ok { OnOk result (IsKept (most_of kind) kept.old.items element kept.new.items) }
    ensures memory { IfErr result (λ fault. fault ≡ stop.Memory) }
{
    if kept.len() <= kind.most() {
        kept.push(element)?;
    }
    Ok(())
}
