//! What is heard of a script that is read for its last query.

ghost use Rattle.std.specs.Prelude.{None};

use catalog::Database;
use messages_statements::Reporter;
use plan_questions::PlanningScript;
use programs::{StandardError, tell_beside};
use sqlr::{
    CheckedFile, LoadProgress, LongList, Name, Planned, Progress, Refused, Sink, SinkFault,
};
use sqlvalue::Raise;
use std::alloc::AllocError;
use std::rt::Runtime;

/// A sink that keeps what is printed, says at once on standard error what is wrong with a refused statement, and notes what
/// the query is planned over.
#[derive(Drop)]
pub(crate) struct Listener<'a, 's, R: Runtime + AllocGlobal> {
    pub rt: &'a R,
    pub standard_error: &'a StandardError<'a, R>,
    pub reporter: Reporter<'s>,
    pub script_name: &'s str,
    /// What messages call the file of certificates, if there is one.
    pub certificates_name: Option<&'s str>,
    /// The query's text.
    pub query: &'s str,
    /// What the query is planned over, once that is known.
    pub planned: Option<Result<PlanningScript, AllocError>>,
    /// What is printed.
    pub printed: Vec<u8>,
    /// Whether memory was wanting for that.
    pub is_cut: bool,
}

impl<R: Runtime + AllocGlobal> Sink for Listener<'_, '_, R> {
    ghost taken = { λ _. None };

    ghost failures = { λ _. 0 };

    fn put(&mut self, bytes: &[u8]) -> Result<(), SinkFault> {
        self.standard_error.clear_notice();
        if self.printed.extend_from_slice(bytes).is_err() {
            self.is_cut = true;
        }
        Ok(())
    }

    fn report(&mut self, refused: &Refused, long_lists: &[LongList], database: &Database) {
        let report = self.reporter.report(refused, long_lists, database);
        let missing = report.missing_file();
        self.standard_error.print(report);
        if let Some(file) = missing {
            tell_beside(self.rt, self.standard_error, self.script_name, file);
        }
    }

    fn report_exception(&mut self, raise: Raise) {
        let report = self.reporter.report_exception(raise);
        self.standard_error.print(report);
    }

    fn report_load(&mut self, table: &Name, database: &Database) {
        let report = self.reporter.report_load(table, database);
        if !report.is_empty() {
            self.standard_error.print(report);
        }
    }

    fn report_plans(&self, planned: Planned<'_>, database: &Database) {
        let report = self.reporter.report_plans(planned, database);
        if !report.is_empty() {
            self.standard_error.print(report);
        }
    }

    fn report_progress(&self, progress: Progress) {
        if let Progress::Load(
            LoadProgress {
                records,
                bytes,
                of_bytes,
            },
        ) = progress
        {
            let share = bytes
                .saturating_mul(100)
                .checked_div(of_bytes)
                .unwrap_or(100);
            self.standard_error.show_progress(format_args!(
                "{records} rows so far, {share} % of the file"
            ));
        }
    }

    fn report_certificates(&mut self, checked: &CheckedFile, database: &Database) {
        let alloc = self.rt.alloc();
        self.planned = Some(PlanningScript::new(alloc, self.query, checked.blocks, database));
        if let Some(name) = self.certificates_name {
            let report = self.reporter.report_certificates(name, checked, database);
            self.standard_error.print(report);
        }
    }
}
