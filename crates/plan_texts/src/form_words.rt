//! What a text in EXPLAIN's spelling is to go on with, in words.

use certificate::{Expected, Version, Word};

/// What is amiss where reading didn't go on.
pub fn form_problem(expected: Expected) -> &'static str {
    match expected {
        Expected::Word(word) => word_problem(word),
        Expected::Path => "expected SEG, IDX or MATCH",
        Expected::Plan => "expected ACCESS, LOOP, MERGE or SORT",
        Expected::Number => "expected a number",
        Expected::PlainNumber => "expected a number without leading zeros",
        Expected::SmallNumber => "expected a number of at most 10^18",
        Expected::FewerWords => "a plan has at most 64 words ACCESS, LOOP, MERGE and SORT",
        Expected::Forward => "expected \")\": in version 1 indexes are read forward",
        Expected::OneConjunct => "in version 1 one conjunct matches an index",
        Expected::EndOfText => "expected the end of the text",
    }
}

/// That a word is wanted.
fn word_problem(word: Word) -> &'static str {
    match word {
        Word::Certificate(Version::One) => "expected the line CERTIFICATE 1",
        Word::Certificate(Version::Two) => "expected the line CERTIFICATE 2",
        Word::Certificate(Version::Three) => "expected the line CERTIFICATE 3",
        Word::Block => "expected BLOCK and a space",
        Word::Plan => "expected PLAN and a space",
        Word::Target => "expected TARGET and a space",
        Word::State => "expected STATE and a space",
        Word::End => "expected STATE and a space, or the line END",
        Word::LineEnd => "expected the end of the line",
        Word::Space => "expected a space",
        Word::Access => "expected \"ACCESS(\"",
        Word::Loop => "expected \"LOOP(\"",
        Word::Merge => "expected \"MERGE(\"",
        Word::Sort => "expected \"SORT(\"",
        Word::Sorted => "expected SORTED and a space",
        Word::Comma => "expected \",\"",
        Word::Bracket => "expected \")\"",
        Word::Segment => "expected SEG and a space",
        Word::Index => "expected IDX and a space",
        Word::Match => "expected MATCH and a space",
        Word::Point => "expected \".\"",
        Word::Slash => "expected \"/\"",
        Word::Back => "expected a space and BACK",
    }
}
