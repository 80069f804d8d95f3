//! Messages on a file of certificates, as they are shown.

use crate::finding::{Message, Query, block_message};
use crate::page::Page;
use catalog::Database;
use certificate_files::FileTold;
use messages_excerpts::LineColumn;
use parse_tree::Select;
use query_tree::Block;
use std::alloc::Global;
use std::fmt::{self, Display, Formatter};

/// What people are told of a file of certificates: of each block whose text is refused where it is, `plans.txt:5:7: block 1: ..`, with
/// the line and a caret under the place; and where the file goes on behind the last block's text.
#[derive(Drop)]
pub struct FileReport<'r> {
    name: &'r str,
    file: &'r [u8],
    messages: Vec<Message>,
    rest: Option<usize>,
    block_count: usize,
}

impl<'r> FileReport<'r> {
    /// The messages on a file, by the name that they call it and what was told of it. Where memory runs out they say less, or are fewer.
    pub fn new(
        alloc: Global,
        name: &'r str,
        file: &'r [u8],
        database: &Database,
        query: &Select,
        blocks: &[Block],
        told: &FileTold<'_>,
    ) -> FileReport<'r> {
        FileReport {
            name,
            file,
            messages: messages(alloc, file, database, query, blocks, told),
            rest: told.rest,
            block_count: blocks.len(),
        }
    }

    /// `plans.txt:5:7: `.
    fn write_place<W: fmt::Write>(&self, f: &mut Formatter<W>, place: LineColumn) -> fmt::Result {
        let LineColumn { line, column } = place;
        write!(f, "{}:{line}:{column}: ", self.name)
    }

    fn write_message<W: fmt::Write>(
        &self,
        f: &mut Formatter<W>,
        page: &mut Page<'_>,
        message: &Message,
    ) -> fmt::Result {
        self.write_place(f, page.locate(message.offset))?;
        let number = message.block.saturating_add(1);
        writeln!(f, "block {number}: {}", message.reason)?;
        page.write_line(f, message.offset)?;
        if let Some(named) = &message.named {
            writeln!(f, "by names: {named}")?;
        }
        f.write_str(message.reason.hint())?;
        if message.offset == 0 {
            write_head_hint(f, self.file)?;
        }
        Ok(())
    }

    /// That the file goes on behind the last text.
    fn write_rest<W: fmt::Write>(
        &self,
        f: &mut Formatter<W>,
        page: &mut Page<'_>,
        offset: usize,
    ) -> fmt::Result {
        self.write_place(f, page.locate(offset))?;
        let count = self.block_count;
        let (blocks, texts) = if count == 1 {
            ("block", "its text")
        } else {
            ("blocks", "their texts")
        };
        writeln!(
            f,
            "rest: the query has {count} {blocks}, and this stands behind {texts}"
        )?;
        page.write_line(f, offset)
    }
}

impl Display for FileReport<'_> {
    fn fmt<W: fmt::Write>(&self, f: &mut Formatter<W>) -> fmt::Result {
        let mut page = Page::new(self.file);
        for message in &self.messages {
            self.write_message(f, &mut page, message)?;
        }
        match self.rest {
            Some(offset) => self.write_rest(f, &mut page, offset),
            None => Ok(()),
        }
    }
}

/// A first line of at most so many bytes is shown whole.
const SHORT: usize = 40;

/// Writes a hint on what stands before the first text of a file, as a line, if anything does.
fn write_head_hint<W: fmt::Write>(f: &mut Formatter<W>, file: &[u8]) -> fmt::Result {
    let text = str::from_utf8(file).unwrap_or("");
    if text.starts_with("\u{feff}") {
        return f.write_str("hint: save the file without a byte order mark\n");
    }
    if text.starts_with("CERTIFICATE ") {
        return Ok(());
    }
    let Some((before, _)) = text.split_once("\nCERTIFICATE ") else {
        return Ok(());
    };
    let line = before.lines().count().saturating_add(1);
    let first = before.lines().next().unwrap_or("");
    if first.len() <= SHORT {
        write!(f, "hint: its first line is {first}: ")?;
    } else {
        f.write_str("hint: ")?;
    }
    writeln!(
        f,
        "the certificate begins at line {line}, and the lines before it are what other statements print"
    )
}

/// What is told of each block whose text is refused.
fn messages(
    alloc: Global,
    file: &[u8],
    database: &Database,
    tree: &Select,
    blocks: &[Block],
    told: &FileTold<'_>,
) -> Vec<Message> {
    let query = Query { tree, blocks };
    let mut messages = Vec::new(alloc);
    for number in 0..blocks.len() {
        if let Some(message) = block_message(alloc, database, query, number, file, told) {
            // no room: one message fewer
            let _ = messages.push(message);
        }
    }
    messages
}
