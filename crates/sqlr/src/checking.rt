//! A checking run: the statements before the last, and then the certificates of the last one's query.

ghost use Rattle.std.specs.Prelude.{ℕ, ◌≡◌, ◌≢◌, ◌<◌, List, Some, IfOk, IfErr, OnOk, OnErr, map};
ghost use Rattle.definitions.specs.Binding.Faults.{Binds};
ghost use Rattle.definitions.specs.Estimates.Version.{current_version};
ghost use Rattle.definitions_execution.specs.CheckingRun.{asked};
ghost use Rattle.definitions_execution.specs.Headline.{IsCheckedLeast};
ghost use Rattle.definitions_execution.specs.Step.{AreStatements};
ghost use Rattle.parse_tree.specs.Trees.{select_of, statement_of, statements_of};
ghost use Rattle.query_tree.specs.Bound.{block_of};
ghost use Rattle.sqlr.specs.declared.ended.Ended.TheVariants as ended;
ghost use Rattle.sqlr.specs.declared.ended.RunFault.TheVariants as fault;
ghost use Rattle.sqlr.specs.Devices.{Took, TookBeginning};
ghost use Rattle.sqlr.specs.Checking.{ArePrepared, BreaksChecking, BreaksLast, BreaksPrepared, BreaksPreparing, Checks, ChecksLast, IsIfRefused, IsPrepared};
ghost use Rattle.sqlr.specs.Sessions.{IsLibraryBlamed, IsSinkBlamed, IsStepBlamed};

use crate::checked::{Bound, bind_query, check_blocks, end_of, query_of};
use crate::ended::{Ended, RunFault};
use crate::library::Library;
use crate::outcome::{Printed, StepFault};
use crate::script::{ScriptFault, parse_script};
use crate::session::{Session, place_of, tell_cause};
use crate::sink::Sink;
use catalog::Database;
use diagnostics::Planned;
use query_tree::Block;
use syntax::{LongList, Select, Statement};

/// The line of a script whose last statement has no query.
const NOTHING: &[u8] = b"nothing to check\n";

impl<L: Library> Session<L> {
    /// Checks a file of certificates against the blocks of a script's last statement, a SELECT or an
    /// EXPLAIN, and puts a line for each block into a sink, in one text (own). The statements before
    /// are run, but for the queries, and print nothing; where one of them is refused, its line is all
    /// that is printed. A run that breaks off leaves the database as the statements before the one at which it
    /// broke off left it, and the library as they or that one's request did.
    pub fn check<S: Sink>(
        &mut self,
        script: &str,
        certificates: &[u8],
        sink: &mut S,
    ) -> Result<Ended, RunFault>
        ensures headline { IfOk result (λ how. how ≡ ended.Well →
            IsCheckedLeast current_version self.new.database script.now certificates.now) }
        ensures checks { IfOk result (Checks L.answers self.old script.now certificates.now self.new
            (S.taken sink.old) (S.taken sink.new)) }
        ensures breaks { IfErr result (BreaksChecking L.answers L.fails self.old script.now certificates.now self.new
            (S.taken sink.old) (S.taken sink.new)) }
        ensures library { IsLibraryBlamed (L.failures self.old.library) (L.failures self.new.library) result }
        ensures sink { IsSinkBlamed (S.failures sink.old) (S.failures sink.new) result }
    {
        match parse_script(self.alloc, script) {
            Ok(read) => {
                self.check_statements(&read.statements, &read.long_lists, certificates, sink)
            }
            Err(ScriptFault::Refused { refused, offset }) => {
                sink.report(&refused, &[], &self.database);
                self.put_fault(refused.refusal, offset, sink)
            }
            Err(ScriptFault::Memory { offset }) => Err(RunFault::Memory { offset }),
        }
    }

    fn check_statements<S: Sink>(
        &mut self,
        statements: &[Statement],
        long_lists: &[LongList],
        certificates: &[u8],
        sink: &mut S,
    ) -> Result<Ended, RunFault>
        ensures checks { (script : List ℕ) → AreStatements script (statements_of statements.now) →
            IfOk result (Checks L.answers self.old script certificates.now self.new (S.taken sink.old)
            (S.taken sink.new)) }
        ensures breaks { (script : List ℕ) → AreStatements script (statements_of statements.now) →
            IfErr result (BreaksChecking L.answers L.fails self.old script certificates.now self.new
            (S.taken sink.old) (S.taken sink.new)) }
        ensures library { IsLibraryBlamed (L.failures self.old.library) (L.failures self.new.library) result }
        ensures sink { IsSinkBlamed (S.failures sink.old) (S.failures sink.new) result }
    {
        let Some((last, before)) = statements.split_last() else {
            return put_text(NOTHING, Ended::Faulted, sink);
        };
        match self.prepare(before, sink) {
            Ok(None) => self.check_last(last, long_lists, certificates, sink),
            Ok(Some(printed)) => put_refused(&printed, long_lists, &self.database, sink),
            Err(fault) => Err(fault),
        }
    }

    /// The statements before the last: what the first of them prints that is refused, if one is.
    fn prepare<'a, S: Sink>(
        &mut self,
        statements: &'a [Statement],
        sink: &S,
    ) -> Result<Option<Printed<'a>>, RunFault>
        ensures prepared { IfOk result (ArePrepared L.answers self.old (statements_of statements.entry.now) self.new) }
        ensures breaks { IfErr result (BreaksPreparing L.answers L.fails self.old (statements_of statements.entry.now)
            self.new) }
        ensures apart { IfErr result (λ f. f ≢ fault.Sink) }
        ensures library { IsLibraryBlamed (L.failures self.old.library) (L.failures self.new.library) result }
    {
        'statements: for statement in statements {
            let offset = place_of(statement);
            match self.prepare_statement(statement, sink) {
                Ok(None) => {}
                Ok(Some(printed)) => return Ok(Some(printed)),
                Err(StepFault::Memory) => return Err(RunFault::Memory { offset }),
                Err(StepFault::Library) => return Err(RunFault::Library { offset }),
            }
        }
        Ok(None)
    }

    /// Runs a statement, unless it has a query, and gives what it prints if it is refused.
    fn prepare_statement<'a, S: Sink>(
        &mut self,
        statement: &'a Statement,
        sink: &S,
    ) -> Result<Option<Printed<'a>>, StepFault>
        ensures prepared { IfOk result (IsPrepared L.answers self.old (statement_of statement.entry.now) self.new) }
        ensures breaks { IfErr result (BreaksPrepared L.answers L.fails self.old (statement_of statement.entry.now)
            self.new) }
        ensures blamed { IsStepBlamed (L.failures self.old.library) (L.failures self.new.library) result }
    {
        if query_of(statement).is_some() {
            return Ok(None);
        }
        match self.step(statement, sink) {
            Ok(printed) => Ok(if_refused(printed)),
            Err(fault) => Err(fault),
        }
    }

    /// Checks the certificates for the last statement, where it has a query.
    fn check_last<S: Sink>(
        &self,
        last: &Statement,
        long_lists: &[LongList],
        certificates: &[u8],
        sink: &mut S,
    ) -> Result<Ended, RunFault>
        ensures checks { IfOk result (ChecksLast self.now.database (statement_of last.now) certificates.now
            (S.taken sink.old) (S.taken sink.new)) }
        ensures breaks { IfErr result (BreaksLast self.now.database (statement_of last.now) certificates.now
            (S.taken sink.old) (S.taken sink.new)) }
        ensures sink { IsSinkBlamed (S.failures sink.old) (S.failures sink.new) result }
    {
        // A look at the tables tells what holds of a database.
        let _tables = self.database.tables();
        let Some(query) = query_of(last) else {
            return put_text(NOTHING, Ended::Faulted, sink);
        };
        match bind_query(self.alloc, &self.database, query) {
            Ok(Bound::Refused(printed)) => put_refused(&printed, long_lists, &self.database, sink),
            Ok(Bound::Blocks(blocks)) => self.check_bound(last, query, &blocks, certificates, sink),
            Err(_) => Err(RunFault::Memory {
                offset: place_of(last),
            }),
        }
    }

    /// Checks the certificates for the last statement, whose query has these blocks.
    fn check_bound<S: Sink>(
        &self,
        last: &Statement,
        query: &Select,
        blocks: &[Block],
        certificates: &[u8],
        sink: &mut S,
    ) -> Result<Ended, RunFault>
        requires query { Some (select_of query.now) ≡ asked (statement_of last.now) }
        requires blocks { Binds self.now.database (select_of query.now) (map block_of blocks.now) }
        ensures checks { IfOk result (ChecksLast self.now.database (statement_of last.now) certificates.now
            (S.taken sink.old) (S.taken sink.new)) }
        ensures breaks { IfErr result (BreaksLast self.now.database (statement_of last.now) certificates.now
            (S.taken sink.old) (S.taken sink.new)) }
        ensures sink { IsSinkBlamed (S.failures sink.old) (S.failures sink.new) result }
    {
        // A look at the tables tells what holds of a database.
        let _tables = self.database.tables();
        match check_blocks(self.alloc, &self.database, query, blocks, certificates) {
            Ok(checked) => {
                let planned = Planned {
                    query,
                    blocks: checked.blocks,
                    notes: &checked.told.notes,
                };
                sink.report_plans(planned, &self.database);
                sink.report_certificates(&checked, &self.database);
                put_text(&checked.told.text, end_of(checked.told.ended), sink)
            }
            Err(_) => Err(RunFault::Memory {
                offset: place_of(last),
            }),
        }
    }
}

/// What a statement prints, if it is refused.
fn if_refused<'a>(printed: Printed<'a>) -> Option<Printed<'a>>
    ensures { IsIfRefused printed.entry result }
{
    match printed.ended {
        Ended::Well => None,
        _ => Some(printed),
    }
}

/// Tells a sink why a statement is refused, and puts its line.
fn put_refused<S: Sink>(
    printed: &Printed<'_>,
    long_lists: &[LongList],
    database: &Database,
    sink: &mut S,
) -> Result<Ended, RunFault>
    ensures ended { IfOk result (λ e. e ≡ printed.now.ended) }
    ensures taken { OnOk result (Took (S.taken sink.old) printed.now.text.items (S.taken sink.new)) }
    ensures fault { IfErr result (λ f. f ≡ fault.Sink) }
    ensures begun { OnErr result (TookBeginning (S.taken sink.old) printed.now.text.items (S.taken sink.new)) }
    ensures failed { OnErr result (S.failures sink.old < S.failures sink.new) }
    ensures unfailed { OnOk result (S.failures sink.new ≡ S.failures sink.old) }
{
    tell_cause(sink, &printed.told, long_lists, database);
    put_text(&printed.text, printed.ended, sink)
}

/// Puts a text as a whole, and gives how the run ended.
fn put_text<S: Sink>(text: &[u8], ended: Ended, sink: &mut S) -> Result<Ended, RunFault>
    ensures ended { IfOk result (λ e. e ≡ ended) }
    ensures taken { OnOk result (Took (S.taken sink.old) text.now (S.taken sink.new)) }
    ensures fault { IfErr result (λ f. f ≡ fault.Sink) }
    ensures begun { OnErr result (TookBeginning (S.taken sink.old) text.now (S.taken sink.new)) }
    ensures failed { OnErr result (S.failures sink.old < S.failures sink.new) }
    ensures unfailed { OnOk result (S.failures sink.new ≡ S.failures sink.old) }
{
    match sink.put(text) {
        Ok(()) => Ok(ended),
        Err(_) => Err(RunFault::Sink),
    }
}
