//! Sources, read.

use crate::broken::{BROKEN_OFF, broken_off};
use crate::requests::Source;
use crate::standard_error::StandardError;
use messages_excerpts::{LineColumn, Lines};
use std::fs;
use std::io::{self, Read};
use std::rt::Runtime;

/// Where sources are read from. What is wrong with one is said on standard error.
#[derive(Drop)]
pub struct Input<'a, R: Runtime + AllocGlobal> {
    pub rt: &'a R,
    pub standard_error: &'a StandardError<'a, R>,
    /// Whether standard input may be typed at a terminal.
    pub is_typed: bool,
    /// What is said where the name of a file that isn't there is a statement.
    pub statement_hint: &'static str,
}

impl<R: Runtime + AllocGlobal> Input<'_, R> {
    /// The text of a script, or the status to end with where it is none or can't be read.
    pub fn read_script(&self, source: &Source) -> Result<String, u8> {
        let bytes = self.read(source)?;
        let name = source_name(source);
        let script = self.text_of(name, bytes)?;
        if has_endless_remark(&script) {
            self.standard_error.tell(format_args!(
                "{name}: its lines end in CR alone, so that a remark goes on to the end of the script"
            ));
        }
        Ok(script)
    }

    /// The bytes of a source, or the status to end with where it can't be read.
    pub fn read(&self, source: &Source) -> Result<Vec<u8>, u8> {
        let bytes = match source {
            Source::File(name) => fs::read(self.rt, name),
            Source::StandardInput => self.read_standard_input(),
            Source::Text(text) => copied(text),
        };
        match bytes {
            Ok(bytes) => Ok(bytes),
            Err(reason) => {
                let name = source_name(source);
                let is_statement = is_statement(name);
                let status = broken_off(self.standard_error, name, reason);
                if is_statement {
                    self.standard_error.tell(self.statement_hint);
                }
                Err(status)
            }
        }
    }

    /// The bytes of standard input; where someone types them, a line says what is waited for.
    fn read_standard_input(&self) -> io::Result<Vec<u8>> {
        if self.is_typed {
            self.standard_error
                .tell_person("reading standard input up to its end, which Ctrl-D gives");
        }
        let mut bytes = Vec::new(self.rt.alloc());
        self.rt.reader().read_to_end(&mut bytes)?;
        Ok(bytes)
    }

    /// The text of a script, or the status to end with where it is none.
    fn text_of(&self, name: &str, bytes: Vec<u8>) -> Result<String, u8> {
        match String::from_utf8(bytes) {
            Ok(text) => Ok(text),
            Err(fault) => {
                let valid = fault.utf8_error().valid_up_to();
                self.tell_not_text(name, &fault.into_bytes(), valid);
                Err(BROKEN_OFF)
            }
        }
    }

    /// Says which byte of a script isn't UTF-8, and in which encoding it seems to be.
    fn tell_not_text(&self, name: &str, bytes: &[u8], valid: usize) {
        if let [0xff, 0xfe, ..] | [0xfe, 0xff, ..] = bytes {
            self.standard_error
                .tell(format_args!("{name}: this is UTF-16: save it in UTF-8"));
            return;
        }
        let (before, behind) = bytes.split_at(valid.min(bytes.len()));
        let text = str::from_utf8(before).unwrap_or("");
        let LineColumn { line, column } = Lines::new(text).locate(before.len());
        let byte = behind.first().copied().unwrap_or(0);
        self.standard_error.tell(format_args!(
            "{name}:{line}:{column}: byte {byte:02X} is not UTF-8: save the script in UTF-8"
        ));
    }
}

/// What messages call a source: standard input is called as other programs of SQL call it.
pub fn source_name(source: &Source) -> &str {
    match source {
        Source::File(name) => name.as_str(),
        Source::StandardInput => "<stdin>",
        Source::Text(_) => "<command>",
    }
}

/// Whether a script has a remark, and lines that end in CR alone, which ends no remark (ISO/IEC 9075:1992, 5.2).
fn has_endless_remark(script: &str) -> bool {
    let bytes = script.as_bytes();
    bytes.contains(&b'\r') && !bytes.contains(&b'\n') && script.contains("--")
}

/// Whether a name of a file is a statement, by its blanks and its first word or its last sign.
fn is_statement(name: &str) -> bool {
    let Some((word, _)) = name.split_once(' ') else {
        return false;
    };
    name.trim_end().ends_with(";") || word.eq_ignore_ascii_case("SELECT")
}

fn copied(text: &String) -> io::Result<Vec<u8>> {
    Ok(text.clone()?.into_bytes())
}
