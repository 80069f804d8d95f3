//! Pages and their sections.

use crate::graphs::Graph;
use crate::tables::Table;

/// What one view tells, in the order in which it is told.
#[derive(Drop)]
pub struct Page {
    pub view: &'static str,
    pub title: String,
    pub sections: Vec<Section>,
    /// What is proved and what isn't; the last lines.
    pub foot: Vec<String>,
}

/// A block of the query, or the whole.
#[derive(Drop)]
pub struct Section {
    pub key: &'static str,
    /// The block's number from 1; none of the whole.
    pub number: Option<u64>,
    pub title: String,
    pub parts: Vec<Part>,
}

/// A part of a section.
#[derive(Drop)]
pub enum Part {
    /// A sentence.
    Line {
        key: &'static str,
        text: String,
    },
    /// A number with its name.
    Figure {
        key: &'static str,
        title: &'static str,
        value: u64,
    },
    Table(Table),
    Graph(Graph),
}

impl Part {
    /// The key and the text of a sentence.
    pub fn line(&self) -> Option<(&'static str, &str)> {
        match self {
            Part::Line { key, text } => Some((*key, text.as_str())),
            Part::Figure { .. } | Part::Table(_) | Part::Graph(_) => None,
        }
    }
}
