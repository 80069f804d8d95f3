//! Standard output as a sink.

use crate::aligned::table_text;
use crate::answer::Answer;
use crate::comma_separated::csv_text;
use crate::objects::json_text;
use catalog::Database;
use messages_statements::Reporter;
use programs::requests::{AnswerForm, RunOptions};
use programs::{StandardError, tell_beside};
use sqlr::{
    CheckedFile, Failures, LoadProgress, LongList, Name, Planned, Progress, Refused, Sink,
    SinkFault,
};
use sqlvalue::Raise;
use std::alloc::Global;
use std::cell::Cell;
use std::io::{self, Write};
use std::rt::Runtime;
use std::sync::ledger::Ledger;

/// How many messages of a run are printed.
const MAX_MESSAGES: u64 = 1000;

/// Puts what is printed into a writer, which tells nothing of what it has taken, and says at once on
/// standard error what is wrong with a refused statement.
#[derive(Drop)]
pub struct Output<'a, 's, L: Ledger, R: Runtime + AllocGlobal, W: Write + Drop> {
    pub rt: &'a R,
    pub writer: W,
    pub standard_error: &'a StandardError<'a, R>,
    pub options: RunOptions,
    pub reporter: Reporter<'s>,
    pub script_name: &'s str,
    /// What messages call the file of certificates, if there is one.
    pub certificates_name: &'s str,
    /// How many messages on statements there were.
    pub messages: Cell<u64>,
    pub failures: Failures<L>,
    /// Why the writer failed last.
    pub fault: Option<io::Error>,
    /// Whether it takes no more because a statement was refused, and the run is to end there.
    pub has_stopped: bool,
}

impl<L: Ledger, R: Runtime + AllocGlobal, W: Write + Drop> Sink for Output<'_, '_, L, R, W> {
    ghost use Rattle.std.specs.Prelude.{None};

    ghost taken = { λ _. None };

    ghost failures = { λ s. s.failures };

    fn put(&mut self, bytes: &[u8]) -> Result<(), SinkFault> {
        self.standard_error.clear_notice();
        let (rt, form) = (self.rt, self.options.form);
        let written = write_text(&mut self.writer, rt, self.standard_error, form, bytes);
        if self.options.is_timed {
            self.standard_error.tell_time();
        }
        self.standard_error.begin_statement();
        match written {
            Ok(()) if self.options.stops && is_refusal(bytes) => {
                // No other answer ends a run, and a statement that is refused has changed nothing.
                self.failures.rise();
                self.has_stopped = true;
                Err(SinkFault)
            }
            Ok(()) => Ok(()),
            Err(reason) => {
                self.failures.rise();
                self.fault = Some(reason);
                Err(SinkFault)
            }
        }
    }

    fn report(&mut self, refused: &Refused, long_lists: &[LongList], database: &Database) {
        if self.may_tell() {
            let report = self.reporter.report(refused, long_lists, database);
            let missing = report.missing_file();
            self.standard_error.print(report);
            if let Some(file) = missing {
                tell_beside(self.rt, self.standard_error, self.script_name, file);
            }
        }
    }

    fn report_exception(&mut self, raise: Raise) {
        if self.may_tell() {
            let report = self.reporter.report_exception(raise);
            self.standard_error.print(report);
        }
    }

    fn report_load(&mut self, table: &Name, database: &Database) {
        let report = self.reporter.report_load(table, database);
        if !report.is_empty() && self.may_tell() {
            self.standard_error.print(report);
        }
    }

    fn report_plans(&self, planned: Planned<'_>, database: &Database) {
        let report = self.reporter.report_plans(planned, database);
        if !report.is_empty() && self.may_tell() {
            self.standard_error.print(report);
        }
    }

    fn report_progress(&self, progress: Progress) {
        match progress {
            Progress::Load(
                LoadProgress {
                    records,
                    bytes,
                    of_bytes,
                },
            ) => {
                let share = bytes
                    .saturating_mul(100)
                    .checked_div(of_bytes)
                    .unwrap_or(100);
                self.standard_error.show_progress(format_args!(
                    "{records} rows so far, {share} % of the file"
                ));
            }
            Progress::Select { combinations } => {
                self.standard_error
                    .show_progress(format_args!("{combinations} rows so far"));
            }
        }
    }

    fn report_certificates(&mut self, checked: &CheckedFile, database: &Database) {
        let name = self.certificates_name;
        let report = self.reporter.report_certificates(name, checked, database);
        self.standard_error.print(report);
    }
}

impl<L: Ledger, R: Runtime + AllocGlobal, W: Write + Drop> Output<'_, '_, L, R, W> {
    /// Counts a message, and tells whether it is printed.
    fn may_tell(&self) -> bool {
        self.messages.set(self.messages.get().saturating_add(1));
        self.messages.get() <= MAX_MESSAGES
    }

    /// How many messages were left out.
    pub fn left_out(&self) -> u64 {
        self.messages.get().saturating_sub(MAX_MESSAGES)
    }
}

/// Writes a statement's text as it is, or in the form that is asked for.
fn write_text<R: Runtime + AllocGlobal, W: Write>(
    writer: &mut W,
    rt: &R,
    standard_error: &StandardError<R>,
    form: Option<AnswerForm>,
    bytes: &[u8],
) -> io::Result<()> {
    let (Some(form), Ok(text)) = (form, str::from_utf8(bytes)) else {
        return write_and_flush(writer, bytes);
    };
    match (Answer::read(text), form) {
        (Some(answer), form) => write_answer(writer, rt.alloc(), &answer, form),
        (None, AnswerForm::Table) => write_and_flush(writer, bytes),
        // Other programs read these forms, and are to find nothing but answers.
        (None, AnswerForm::Csv | AnswerForm::Json) => {
            standard_error.print(text);
            Ok(())
        }
    }
}

fn write_answer<W: Write>(
    writer: &mut W,
    alloc: Global,
    answer: &Answer<'_>,
    form: AnswerForm,
) -> io::Result<()> {
    match form {
        AnswerForm::Csv => write_and_flush(writer, &csv_text(alloc, answer)?),
        AnswerForm::Json => write_and_flush(writer, &json_text(alloc, answer)?),
        AnswerForm::Table => write_and_flush(writer, table_text(alloc, answer)?.as_bytes()),
    }
}

fn write_and_flush<W: Write>(writer: &mut W, bytes: &[u8]) -> io::Result<()> {
    writer.write_all(bytes)?;
    writer.flush()
}

/// Whether a statement's text says that it is refused, or raises.
fn is_refusal(text: &[u8]) -> bool {
    text.starts_with(b"error ") || text.starts_with(b"exception ")
}
