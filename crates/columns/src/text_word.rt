//! A comparison of texts with a text, by words of bits.

ghost use Rattle.std.specs.Prelude.{ℕ, List, ◌≡◌, ◌≤◌, ◌*◌, ◌⊎◌, ◌++◌, [], length as list_length, map};
ghost use Rattle.std.specs.declared.cmp.Ordering.{Ordering as Order};
ghost use Rattle.definitions.specs.Value.{text_cmp};
ghost use Rattle.definitions.specs.Truth.{agrees};
ghost use Rattle.definitions.specs.Scanning.{word_of};
ghost use Rattle.sqlvalue.specs.Meaning.{op_of};
ghost use Rattle.columns.specs.TextRows.{is_wanted, texts_in};

use sqlvalue::ComparisonOperator;
use std::cmp::Ordering;

/// The orders that an operator asks, so that no row asks for the operator again.
#[derive(Clone, Copy)]
struct Wanted {
    less: bool,
    equal: bool,
    greater: bool,
}

impl Wanted {
    fn of(op: ComparisonOperator) -> Wanted
        ensures { (order : Order) → is_wanted result order ≡ agrees (op_of op) order }
    {
        Wanted {
            less: op.agrees(Ordering::Less),
            equal: op.agrees(Ordering::Equal),
            greater: op.agrees(Ordering::Greater),
        }
    }

    fn has(self, order: Ordering) -> bool
        ensures { result ≡ is_wanted self order }
    {
        match order {
            Ordering::Less => self.less,
            Ordering::Equal => self.equal,
            Ordering::Greater => self.greater,
        }
    }
}

/// Which texts of a column agree with a comparison with a value: bit i is set exactly where the
/// i-th does (ISO/IEC 9075:1992, 8.2, general rule 3). The texts stand in a row, each `length`
/// characters long.
pub(crate) fn texts_word(
    characters: &[u8],
    length: usize,
    rows: usize,
    op: ComparisonOperator,
    value: &[u8],
) -> u64
    requires few { rows ≤ 64 }
    requires within { rows * length ≤ list_length characters.now }
    ensures { result ≡ word_of (map (λ text. agrees (op_of op) (text_cmp text value.now))
        (texts_in length rows characters.now)) }
{
    let wanted = Wanted::of(op);
    let (head, tail) = value.split_at(length.min(value.len()));
    let past = order_to_spaces(tail).reverse();
    let mut word = 0;
    for row in 0..rows {
        let text = &characters[row * length..row * length + length];
        let met = wanted.has(order_of(text, head, past));
        word += u64::from(met) << row;
    }
    word
}

/// How a text compares with a value of which it is as long as the head or longer; `past` is how
/// spaces compare with the value's tail, where there is one.
fn order_of(text: &[u8], head: &[u8], past: Ordering) -> Ordering
    requires { list_length head.now ≤ list_length text.now }
    ensures { (tail : List ℕ) → past ≡ text_cmp [] tail →
        (list_length head.now ≡ list_length text.now) ⊎ (tail ≡ []) → result ≡ text_cmp text.now (head.now ++ tail) }
{
    let (front, rest) = text.split_at(head.len());
    match front.cmp(head) {
        Ordering::Equal => order_to_spaces(rest).then(past),
        unequal => unequal,
    }
}

/// How two texts compare (ISO/IEC 9075:1992, 8.2, general rule 3).
pub(crate) fn order_of_texts(text: &[u8], other: &[u8]) -> Ordering
    ensures { result ≡ text_cmp text.now other.now }
{
    let (head, tail) = other.split_at(text.len().min(other.len()));
    order_of(text, head, order_to_spaces(tail).reverse())
}

/// How a text compares with spaces.
fn order_to_spaces(text: &[u8]) -> Ordering
    ensures { result ≡ text_cmp text.now [] }
{
    for byte in text {
        if *byte != b' ' {
            return byte.cmp(&b' ');
        }
    }
    Ordering::Equal
}
