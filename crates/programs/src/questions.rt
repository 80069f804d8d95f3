//! What the command line of `sqlr-plan` asks for.

use crate::requests::Source;

/// What is asked, and how it is answered.
#[derive(Drop)]
pub struct Asked {
    pub question: Question,
    pub options: Options,
}

/// What is asked of one script, or of two.
#[derive(Drop)]
pub enum Question {
    One { script: Source, view: AskedView },
    Difference { first: Source, second: Source },
}

/// What is asked of the query of a script.
#[derive(Drop)]
pub enum AskedView {
    Tree { certificates: Option<Source> },
    Why { plan: String },
    Sweep { figure: String, values: Vec<String> },
    Indexes,
    Search { all: bool, within: Option<u64> },
    Statistics,
    Page,
}

/// What all questions may say.
#[derive(Clone, Copy)]
pub struct Options {
    /// Which SELECT or EXPLAIN of a script is meant, from 1; the last where none is given.
    pub query: Option<u64>,
    pub is_json: bool,
    /// Whether trees are drawn in box drawing characters, whatever the terminal shows.
    pub is_unicode: bool,
}
