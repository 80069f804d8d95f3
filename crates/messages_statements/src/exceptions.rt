//! Messages on exceptions.

use messages_excerpts::{LineColumn, write_excerpt};
use sqlvalue::Exception;
use std::fmt::{self, Display, Formatter};

/// A message on an exception, as it is shown: `script.sql:3:10: exception 22012: division by zero`, the line of the script with a
/// caret under the operator, the set function or the subquery that raised it, and a hint where one is sure.
#[derive(Drop)]
pub struct ExceptionReport<'r> {
    pub(crate) script_name: &'r str,
    pub(crate) script: &'r str,
    pub(crate) offset: usize,
    pub(crate) place: LineColumn,
    pub(crate) exception: Exception,
}

impl Display for ExceptionReport<'_> {
    fn fmt<W: fmt::Write>(&self, f: &mut Formatter<W>) -> fmt::Result {
        let LineColumn { line, column } = self.place;
        let (state, words) = (self.exception.state(), words_of(self.exception));
        writeln!(
            f,
            "{}:{line}:{column}: exception {state}: {words}",
            self.script_name
        )?;
        write_excerpt(f, self.script, self.offset)?;
        match self.exception {
            Exception::Cardinality => {
                f.write_str("hint: IN, ANY and ALL take subqueries of many rows\n")
            }
            Exception::OutOfRange | Exception::DivisionByZero => Ok(()),
        }
    }
}

fn words_of(exception: Exception) -> &'static str {
    match exception {
        Exception::OutOfRange => "the result has more than 38 digits",
        Exception::DivisionByZero => "division by zero",
        Exception::Cardinality => "the subquery has more than one row",
    }
}
