//! Where numbers that aren't there are written.

use crate::places::{Spot, offset_of};
use certificate_files::Missing;

/// Where in a text of a block a number is written that isn't there.
pub(crate) fn offset_of_missing(text: &[u8], missing: Missing) -> usize {
    match missing {
        Missing::Block(_) => offset_of(text, Spot::Block),
        Missing::Table(_) | Missing::Index { .. } | Missing::Conjunct(_) | Missing::Order(_) => {
            let plan = offset_of(text, Spot::Plan);
            let offset = offset_in_plan(text.get(plan..).unwrap_or(&[]), missing);
            plan.saturating_add(offset)
        }
        Missing::StateTables { state, .. } => offset_of(text, Spot::StateTables(state)),
        Missing::StateOrder { state, .. } => offset_of(text, Spot::StateOrder(state)),
    }
}

/// Where in a plan it is written.
fn offset_in_plan(plan: &[u8], missing: Missing) -> usize {
    let mut table = 0;
    let mut number = Number {
        start: 0,
        before: b' ',
        value: 0,
    };
    let mut before = b' ';
    for (offset, byte) in plan.iter().enumerate() {
        if byte.is_ascii_digit() {
            number = number.with_digit(offset, before, *byte);
        } else if before.is_ascii_digit() {
            if number.is_it(missing, table, *byte) {
                return number.start;
            }
            if number.is_table() {
                table = number.value;
            }
        }
        before = *byte;
    }
    0
}

/// A number of a plan, where it begins, and the byte before it.
#[derive(Clone, Copy)]
struct Number {
    start: usize,
    before: u8,
    value: u64,
}

impl Number {
    /// The number with one more digit behind a byte, or a new one where that is none.
    fn with_digit(self, offset: usize, before: u8, digit: u8) -> Number {
        let unit = u64::from(digit.saturating_sub(b'0'));
        if before.is_ascii_digit() {
            Number {
                value: self.value.saturating_mul(10).saturating_add(unit),
                ..self
            }
        } else {
            Number {
                start: offset,
                before,
                value: unit,
            }
        }
    }

    /// Whether it is the one that isn't there, by the number of the table before it and the byte behind it.
    fn is_it(self, missing: Missing, table: u64, behind: u8) -> bool {
        match missing {
            Missing::Table(wanted) => self.is_table() && self.value == wanted,
            Missing::Index { table: of, index } => {
                self.before == b'.' && table == of && self.value == index
            }
            Missing::Conjunct(wanted) => self.is_conjunct(behind) && self.value == wanted,
            Missing::Order(wanted) => self.is_order(behind) && self.value == wanted,
            Missing::Block(_) | Missing::StateTables { .. } | Missing::StateOrder { .. } => false,
        }
    }

    /// `SEG t`
    fn is_table(self) -> bool {
        self.before == b' '
    }

    /// `MATCH t.i/g` or `MERGE(plan,g,path)`
    fn is_conjunct(self, behind: u8) -> bool {
        self.before == b'/' || self.before == b',' && behind == b','
    }

    /// `SORT(plan,k)`
    fn is_order(self, behind: u8) -> bool {
        self.before == b',' && behind == b')'
    }
}
