//! Printed lines in the order in which they first came, each once.

ghost use Rattle.std.specs.Prelude.{◌≡◌, ◌++◌, [], is_some, length, nat_eq, not, IfOk, IfSome, OnOk};
ghost use Rattle.std.specs.Cmp.Lexicographic.{pointwise};
ghost use Rattle.std.specs.List.{list_any};
ghost use Rattle.definitions_answers.specs.Lines.{with_line};
ghost use Rattle.result_lines.specs.Lines.{joined_lines, lines_of};

use indexmap::IndexSet;
use std::alloc::{AllocError, Global};

/// Lines in the order in which they were first seen, each once (ISO/IEC 9075:1992, 7.9: SELECT DISTINCT).
#[derive(Drop)]
pub struct DistinctLines {
    set: IndexSet<Vec<u8>>,
}

impl DistinctLines {
    /// Lines of which none has come yet.
    pub fn new(alloc: Global) -> DistinctLines
        ensures { lines_of result ≡ [] }
    {
        DistinctLines {
            set: IndexSet::new(alloc),
        }
    }

    /// Lines of which none has come yet, if repeats are to be left out.
    pub fn if_distinct(alloc: Global, distinct: bool) -> Option<DistinctLines>
        ensures nothing { IfSome result (λ lines. lines_of lines ≡ []) }
        ensures distinct { is_some result ≡ distinct }
    {
        if distinct {
            Some(DistinctLines::new(alloc))
        } else {
            None
        }
    }

    /// Adds a line behind the others, unless it is there, and tells whether it was added. A line that is there takes no memory.
    pub fn add(&mut self, alloc: Global, line: &Vec<u8>) -> Result<bool, AllocError>
        ensures lines { OnOk result (lines_of self.new ≡ with_line (lines_of self.old) line.now.items) }
        ensures added { IfOk result (λ added. added
            ≡ not (list_any (pointwise nat_eq line.now.items) (lines_of self.old))) }
    {
        if self.set.contains(line) {
            return Ok(false);
        }
        let mut own = Vec::new(alloc);
        own.extend_from_slice(line)?;
        self.set.insert_full(own)?;
        Ok(true)
    }

    /// How many there are.
    pub fn len(&self) -> usize
        ensures { result ≡ length (lines_of self.now) }
    {
        self.set.len()
    }

    /// Writes them one after another.
    pub fn write(&self, out: &mut Vec<u8>) -> Result<(), AllocError>
        ensures { OnOk result (out.new.items ≡ out.old.items ++ joined_lines (lines_of self.now)) }
    {
        'places: for place in 0..self.set.len() {
            if let Some(line) = self.set.get_index(place) {
                out.extend_from_slice(line)?;
            }
        }
        Ok(())
    }
}
