//! Why bytes are no certificate: the byte at which none goes on so, and what was expected there.

use crate::words::Word;
use thiserror::Error;

/// Why bytes say nothing.
#[derive(Clone, Copy, Debug, Error)]
pub enum FormFault {
    /// They aren't the text of a certificate: with the byte at this offset reading didn't go on.
    #[error("no certificate, from byte {at} on")]
    Form { at: usize, expected: Expected },
    /// Want of memory.
    #[error("out of memory")]
    Memory,
}

/// What was looked for where reading didn't go on.
#[derive(Clone, Copy, Debug)]
pub enum Expected {
    /// One word.
    Word(Word),
    /// `SEG`, `IDX` or `MATCH`
    Path,
    /// `ACCESS`, `LOOP`, `MERGE` or `SORT`
    Plan,
    /// A number.
    Number,
    /// A number without a leading zero.
    PlainNumber,
    /// A number that is not above 10^18.
    SmallNumber,
    /// No word of a plan more.
    FewerWords,
    /// An index that is read forward, as each is in version 1.
    Forward,
    /// One conjunct alone, as in version 1.
    OneConjunct,
    /// The end of the text.
    EndOfText,
}
