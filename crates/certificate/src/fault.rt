//! What can be wrong with the text of a plan and its certificate.

use certificate_syntax::Expected;
use plan_tree::State;

/// A number of a text that isn't there, as it is written.
#[derive(Clone, Copy)]
pub enum Missing {
    /// The text is of another block of the query.
    Block(u64),
    Table(u64),
    /// In the first version an index goes by its column.
    Index { table: u64, index: u64 },
    Conjunct(u64),
    Order(u64),
    /// The tables of a state, which goes by its place in the list.
    StateTables { state: usize, tables: u64 },
    /// The order of a state, which isn't numbered, or goes by other tables too.
    StateOrder { state: usize, order: u64 },
}

/// A state that can't stand at its place in the list.
#[derive(Clone, Copy)]
pub enum BadState {
    /// It doesn't stand behind the one before it: states go by their sets of tables, then by their orders.
    NotBehind {
        place: usize,
        before: State,
        own: State,
    },
    /// It doesn't cost less than the target.
    NotBelow {
        place: usize,
        cost: u64,
        target: u64,
    },
}

/// Why a text is no spelling of a plan and a certificate of a block (own).
#[derive(Clone, Copy)]
pub enum TextFault {
    /// The bytes are no text of a certificate: with the byte at this offset reading didn't go on.
    Form { at: usize, expected: Expected },
    /// A number isn't there.
    Missing(Missing),
    /// The states don't rise, or one of them isn't below the target.
    States(BadState),
    /// Out of memory.
    Memory,
}
