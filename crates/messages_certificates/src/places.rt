//! Where things stand in the text of a block that has the form of one: its lines are `CERTIFICATE`, `BLOCK`, `PLAN`, `TARGET`, and then
//! a line `STATE` for each state.

/// What stands in a text.
#[derive(Clone, Copy)]
pub(crate) enum Spot {
    /// The number of the block.
    Block,
    Plan,
    Target,
    /// The tables of a state, which goes by its place in the list.
    StateTables(usize),
    StateOrder(usize),
    StateCost(usize),
}

/// How many lines stand before the first state.
const LINES_BEFORE_STATES: usize = 4;

/// Where it stands.
pub(crate) fn offset_of(text: &[u8], spot: Spot) -> usize {
    match spot {
        Spot::Block => offset_of_word(text, 1, 1),
        Spot::Plan => offset_of_word(text, 2, 1),
        Spot::Target => offset_of_word(text, 3, 1),
        Spot::StateTables(state) => offset_of_word(text, line_of(state), 1),
        Spot::StateOrder(state) => offset_of_word(text, line_of(state), 2),
        Spot::StateCost(state) => offset_of_word(text, line_of(state), 3),
    }
}

/// The line of a state, counted from 0.
fn line_of(state: usize) -> usize {
    state.saturating_add(LINES_BEFORE_STATES)
}

/// Where a word of a line begins, both counted from 0.
fn offset_of_word(text: &[u8], line: usize, word: usize) -> usize {
    let begin = offset_behind(text, b'\n', line);
    let rest = text.get(begin..).unwrap_or(&[]);
    begin.saturating_add(offset_behind(rest, b' ', word))
}

/// The offset behind so many of a byte; the end where there are fewer.
fn offset_behind(text: &[u8], mark: u8, count: usize) -> usize {
    let mut left = count;
    for (offset, byte) in text.iter().enumerate() {
        if left == 0 {
            return offset;
        }
        if *byte == mark {
            left = left.saturating_sub(1);
        }
    }
    text.len()
}
