//! The words of a text, its marks among them.

ghost use Rattle.std.specs.Prelude.{◌≡◌};
ghost use Rattle.definitions.specs.Certificates.Text.{first_line};
ghost use Rattle.plan_tree.specs.Versions.{version_of};
ghost use Rattle.certificate_syntax.specs.Words.{word_text};
ghost use Rattle.certificate_syntax.specs.Reading.{ReadsWord};

use crate::fault::Expected;
use crate::stop::{TextStop, stop_before};
use plan_tree::Version;

/// A word or a mark that stands in texts, with the spaces and the bracket that belong to it, as `bytes` tells.
#[derive(Clone, Copy, Debug)]
pub enum Word {
    /// The first line, which names the version.
    Certificate(Version),
    Block,
    Plan,
    Target,
    State,
    End,
    LineEnd,
    Space,
    Access,
    Loop,
    Merge,
    Sort,
    Sorted,
    Comma,
    Bracket,
    Segment,
    Index,
    Match,
    Point,
    Slash,
    Back,
}

impl Word {
    /// How it is written.
    pub fn bytes(self) -> &'static [u8]
        ensures { result.now ≡ word_text self }
    {
        match self {
            Word::Certificate(version) => version_line(version),
            Word::Block => b"BLOCK ",
            Word::Plan => b"PLAN ",
            Word::Target => b"TARGET ",
            Word::State => b"STATE ",
            Word::End => b"END\n",
            Word::LineEnd => b"\n",
            Word::Space => b" ",
            Word::Access => b"ACCESS(",
            Word::Loop => b"LOOP(",
            Word::Merge => b"MERGE(",
            Word::Sort => b"SORT(",
            Word::Sorted => b"SORTED ",
            Word::Comma => b",",
            Word::Bracket => b")",
            Word::Segment => b"SEG ",
            Word::Index => b"IDX ",
            Word::Match => b"MATCH ",
            Word::Point => b".",
            Word::Slash => b"/",
            Word::Back => b" BACK",
        }
    }
}

fn version_line(version: Version) -> &'static [u8]
    ensures { result.now ≡ first_line (version_of version) }
{
    match version {
        Version::One => b"CERTIFICATE 1\n",
        Version::Two => b"CERTIFICATE 2\n",
        Version::Three => b"CERTIFICATE 3\n",
    }
}

/// What is left behind a word that has to stand here.
pub(crate) fn pass<'a>(text: &'a [u8], word: Word) -> Result<&'a [u8], TextStop>
    ensures { ReadsWord (word_text word) text.now result }
{
    match text.strip_prefix(word.bytes()) {
        Some(rest) => Ok(rest),
        None => Err(stop_before(text, Expected::Word(word))),
    }
}
