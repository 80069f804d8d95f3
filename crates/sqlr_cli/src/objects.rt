//! Rows as JSON.

use crate::answer::{Answer, Cell, put_single, split_fields};
use json::{Writer, is_number};
use std::alloc::{AllocError, Global};

/// An array of objects, one a row, each on a line of its own, whose keys are the names of the columns.
pub fn json_text(alloc: Global, answer: &Answer<'_>) -> Result<Vec<u8>, AllocError> {
    let mut names = Vec::new(alloc);
    split_fields(answer.names, &mut names)?;
    let mut objects = Objects {
        names,
        fields: Vec::new(alloc),
        text: String::new(alloc),
    };
    let mut written = Vec::new(alloc);
    for row in answer.rows.lines() {
        written = objects.with_object(written, row)?;
    }
    let end = if written.is_empty() { "[]\n" } else { "\n]\n" };
    written.extend_from_slice(end.as_bytes())?;
    Ok(written)
}

/// The names of the columns, the fields of the row that was read last, and the text of one of them.
#[derive(Drop)]
struct Objects<'t> {
    names: Vec<&'t str>,
    fields: Vec<&'t str>,
    text: String,
}

impl<'t> Objects<'t> {
    /// What is written, and the object of a row behind it.
    fn with_object(&mut self, written: Vec<u8>, row: &'t str) -> Result<Vec<u8>, AllocError> {
        split_fields(row, &mut self.fields)?;
        let before = if written.is_empty() { "[\n" } else { ",\n" };
        let mut written = written;
        written.extend_from_slice(before.as_bytes())?;
        let mut writer = Writer::new(written);
        self.put_object(&mut writer)?;
        Ok(writer.into_inner())
    }

    fn put_object(&mut self, writer: &mut Writer<Global>) -> Result<(), AllocError> {
        writer.begin_object()?;
        for (number, field) in self.fields.iter().enumerate() {
            if let Some(name) = self.names.get(number) {
                writer.key(name)?;
                put_value(writer, field, &mut self.text)?;
            }
        }
        writer.end_object()
    }
}

fn put_value(
    writer: &mut Writer<Global>,
    field: &str,
    text: &mut String,
) -> Result<(), AllocError> {
    match Cell::read(field) {
        Cell::Null => writer.null(),
        Cell::Number(number) => put_number(writer, number),
        Cell::Text(doubled) => {
            put_single(doubled, text)?;
            writer.string(text)
        }
    }
}

/// Each number of an answer is one of JSON, which is tested here and not proved: any other field would be a string.
fn put_number(writer: &mut Writer<Global>, number: &str) -> Result<(), AllocError> {
    if is_number(number) {
        writer.number(number)
    } else {
        writer.string(number)
    }
}
