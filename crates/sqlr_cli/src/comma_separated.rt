//! Rows as CSV.

use crate::answer::{Answer, Cell, put_single, split_fields};
use csv::Writer;
use std::alloc::{AllocError, Global};

/// What LOAD reads as NULL.
const NULL: &str = "\\N";

/// A line of names, and one for each row, in the form that LOAD reads: NULL is `\N`, and texts have no blanks at
/// their end.
pub fn csv_text(alloc: Global, answer: &Answer<'_>) -> Result<Vec<u8>, AllocError> {
    let mut records = Records {
        fields: Vec::new(alloc),
        text: String::new(alloc),
    };
    let mut writer = Writer::from_writer(Vec::new(alloc));
    records.put_answer(&mut writer, answer)?;
    match writer.into_inner() {
        Ok(written) => Ok(written),
        Err(_) => Err(AllocError),
    }
}

/// The fields of the line that was read last, and the text of one of them.
#[derive(Drop)]
struct Records<'t> {
    fields: Vec<&'t str>,
    text: String,
}

impl<'t> Records<'t> {
    fn put_answer(
        &mut self,
        writer: &mut Writer<Vec<u8>>,
        answer: &Answer<'t>,
    ) -> Result<(), AllocError> {
        self.put_names(writer, answer.names)?;
        for row in answer.rows.lines() {
            self.put_row(writer, row)?;
        }
        Ok(())
    }

    fn put_names(
        &mut self,
        writer: &mut Writer<Vec<u8>>,
        names: &'t str,
    ) -> Result<(), AllocError> {
        split_fields(names, &mut self.fields)?;
        for name in &self.fields {
            put_field(writer, name)?;
        }
        end_record(writer)
    }

    fn put_row(&mut self, writer: &mut Writer<Vec<u8>>, row: &'t str) -> Result<(), AllocError> {
        split_fields(row, &mut self.fields)?;
        for field in &self.fields {
            put_cell(writer, field, &mut self.text)?;
        }
        end_record(writer)
    }
}

fn put_cell(
    writer: &mut Writer<Vec<u8>>,
    field: &str,
    text: &mut String,
) -> Result<(), AllocError> {
    match Cell::read(field) {
        Cell::Null => put_field(writer, NULL),
        Cell::Number(number) => put_field(writer, number),
        Cell::Text(doubled) => {
            put_single(doubled, text)?;
            put_field(writer, text)
        }
    }
}

/// A writer into memory fails only where there is none left.
fn put_field(writer: &mut Writer<Vec<u8>>, field: &str) -> Result<(), AllocError> {
    match writer.write_field(field.as_bytes()) {
        Ok(()) => Ok(()),
        Err(_) => Err(AllocError),
    }
}

fn end_record(writer: &mut Writer<Vec<u8>>) -> Result<(), AllocError> {
    match writer.end_record() {
        Ok(()) => Ok(()),
        Err(_) => Err(AllocError),
    }
}
