//! Parts of a section that are being made.

use crate::graphs::Graph;
use crate::pages::Part;
use crate::tables::Table;
use std::alloc::{AllocError, Global};

/// The parts of a section, which are put one behind another. Where memory is wanting for one, that is remembered, and there are none in the end.
#[derive(Drop)]
pub struct MadeParts {
    alloc: Global,
    parts: Vec<Part>,
    lacks_memory: bool,
}

impl MadeParts {
    pub fn new(alloc: Global) -> MadeParts {
        MadeParts {
            alloc,
            parts: Vec::new(alloc),
            lacks_memory: false,
        }
    }

    fn put(&mut self, part: Part) {
        self.lacks_memory |= self.parts.push(part).is_err();
    }

    /// Puts a sentence, if there was memory to make it.
    pub fn put_line(&mut self, key: &'static str, text: Result<String, AllocError>) {
        match text {
            Ok(text) => self.put(Part::Line { key, text }),
            Err(AllocError) => self.lacks_memory = true,
        }
    }

    pub fn put_words(&mut self, key: &'static str, words: &str) {
        self.put_line(key, String::from_str(self.alloc, words));
    }

    /// Puts a sentence, if there is one.
    pub fn put_any_line(&mut self, key: &'static str, text: Result<Option<String>, AllocError>) {
        match text {
            Ok(Some(text)) => self.put(Part::Line { key, text }),
            Ok(None) => {}
            Err(AllocError) => self.lacks_memory = true,
        }
    }

    pub fn put_figure(&mut self, key: &'static str, title: &'static str, value: u64) {
        self.put(Part::Figure { key, title, value });
    }

    pub fn put_table(&mut self, table: Result<Table, AllocError>) {
        match table {
            Ok(table) => self.put(Part::Table(table)),
            Err(AllocError) => self.lacks_memory = true,
        }
    }

    pub fn put_graph(&mut self, graph: Result<Graph, AllocError>) {
        match graph {
            Ok(graph) => self.put(Part::Graph(graph)),
            Err(AllocError) => self.lacks_memory = true,
        }
    }

    /// All of them.
    pub fn finish(self) -> Result<Vec<Part>, AllocError> {
        if self.lacks_memory {
            return Err(AllocError);
        }
        Ok(self.parts)
    }
}
