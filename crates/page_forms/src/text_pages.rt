//! Pages as text.

use crate::column_widths::split_fitting;
use crate::drawing::Drawing;
use crate::text_tables::{LINE, table_text};
use crate::written::Written;
use plan_pages::{Page, Part, Section, Table};
use std::alloc::{AllocError, Global};

/// A page as text, in lines of at most 120 columns. Its graphs are left out.
pub fn page_text(alloc: Global, page: &Page, drawing: Drawing) -> Result<String, AllocError> {
    let mut text = Text {
        alloc,
        drawing,
        written: Written::new(alloc),
        wants_gap: false,
    };
    text.put_line(&page.title);
    for section in &page.sections {
        text.put_section(section);
    }
    text.want_gap();
    for line in &page.foot {
        text.put_line(line);
    }
    text.written.finish()
}

/// What is written of a page.
#[derive(Drop)]
struct Text {
    alloc: Global,
    drawing: Drawing,
    written: Written,
    /// Whether a line is left free before what comes next.
    wants_gap: bool,
}

impl Text {
    fn put_section(&mut self, section: &Section) {
        self.want_gap();
        self.put_line(&section.title);
        for part in &section.parts {
            self.put_part(part);
        }
    }

    fn put_part(&mut self, part: &Part) {
        match part {
            Part::Line { text, .. } => self.put_line(text),
            Part::Figure { title, value, .. } => self.put_figure(title, *value),
            Part::Table(table) => self.put_table(table),
            Part::Graph(_) => {}
        }
    }

    fn put_figure(&mut self, title: &str, value: u64) {
        match format!(in self.alloc; "{title}: {value}") {
            Ok(line) => self.put_line(&line),
            Err(AllocError) => self.written.fail(),
        }
    }

    /// Puts a table, with a line left free before it and behind it.
    fn put_table(&mut self, table: &Table) {
        self.want_gap();
        if !table.is_tree() {
            self.put_line(&table.title);
        }
        self.put_gap();
        match table_text(self.alloc, table, self.drawing) {
            Ok(text) => self.written.put(&text),
            Err(AllocError) => self.written.fail(),
        }
        self.want_gap();
    }

    /// Puts a sentence line by line, if there is one.
    fn put_line(&mut self, sentence: &str) {
        for line in sentence.lines() {
            self.put_folded(line);
        }
    }

    /// Puts a line, in several ones where it is long.
    fn put_folded(&mut self, line: &str) {
        self.put_gap();
        let mut rest = line;
        for _ in 0..line.len() {
            if rest.is_empty() {
                break;
            }
            let (head, behind) = split_fitting(rest, LINE);
            self.written.put(head);
            self.written.put("\n");
            rest = behind;
        }
    }

    /// Leaves a line free before what comes next, unless nothing stands before it.
    fn want_gap(&mut self) {
        self.wants_gap = !self.written.is_empty();
    }

    fn put_gap(&mut self) {
        if self.wants_gap {
            self.written.put("\n");
            self.wants_gap = false;
        }
    }
}
