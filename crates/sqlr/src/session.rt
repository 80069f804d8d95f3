//! A session: a database, the library that LOAD asks, and how its scripts are run.

ghost use Rattle.std.specs.Prelude.{◌≡◌, ◌≢◌, ℕ, List, [], ◌∷◌, None, IfOk, IfErr, OnErr};
ghost use Rattle.definitions.specs.Grammar.{Derives};
ghost use Rattle.definitions.specs.Printing.{fault_text};
ghost use Rattle.definitions.specs.Statement as tree;
ghost use Rattle.definitions.specs.Table.{table_named};
ghost use Rattle.sqlvalue.specs.RefusalMeaning.{refusal_of};
ghost use Rattle.lexer.specs.Meaning.{kinds_of};
ghost use Rattle.parse_tree.specs.Trees.{name_of, select_of, statement_of, text_of};
ghost use Rattle.sqlr.specs.declared.outcome.StepFault.TheVariants as fault;
ghost use Rattle.sqlr.specs.Devices.{Took};
ghost use Rattle.sqlr.specs.Scripts.{DeriveSome};
ghost use Rattle.sqlr.specs.Sessions.{BreaksAt, BreaksIn, BreaksLine, BreaksOff, IsBoth, IsLibraryBlamed, IsSinkBlamed, IsStepBlamed, Prints, Runs, RunsAll, Takes, TakesBytes};

use crate::changes::{create_index, create_table, set_index_statistics, set_table_statistics};
use crate::ended::{Ended, RunFault};
use crate::explaining::explain;
use crate::library::{FetchFault, Fetched, Library};
use crate::outcome::{Printed, StepFault, Told, loaded, refusal_line, refused_record};
use crate::progress::WatchedLoad;
use crate::script::{ScriptFault, read_script};
use crate::select::select;
use crate::sink::Sink;
use catalog::{Database, LoadFault};
use diagnostics::{Cause, FileLoad};
use lexer::Token;
use sqlvalue::{LOADED_ROOM, Refusal, write_fault, write_loaded};
use std::alloc::Global;
use std::marker::Model;
use syntax::{LongList, Name, NoMemory, Select, Statement, StringLiteral, statement_at};

/// A database, the library that LOAD finds its files in, and how many rows the last SELECT that printed rows has opened.
#[derive(Drop)]
pub struct Session<L: Library> {
    pub(crate) alloc: Global,
    library: L,
    pub(crate) database: Database,
    work: u64,
}

impl<L: Library> Model for Session<L> {
    ghost use Rattle.definitions_execution.specs.Step.{State};

    ghost Value = { State L };

    ghost view = { λ s. record { library = s.library; database = s.database; work = s.work } };
}

impl<L: Library> Session<L> {
    /// A session with an empty database.
    pub fn new(alloc: Global, library: L) -> Session<L>
        ensures library { result.library ≡ library }
        ensures database { result.database ≡ [] }
        ensures work { result.work ≡ 0 }
    {
        Session {
            alloc,
            library,
            database: Database::new(alloc),
            work: 0,
        }
    }

    /// The library that LOAD finds its files in.
    pub fn library(&self) -> &L
        ensures { result.now ≡ self.now.library }
    {
        &self.library
    }

    /// The work of the last SELECT that printed rows: how many rows the least plans of its blocks have opened, at most 10^18; 0 before any
    /// (Selinger et al. 1979, section 4, has it as RSI calls).
    pub fn work(&self) -> u64
        ensures { result ≡ self.now.work }
    {
        self.work
    }

    /// Runs a script, and puts what it prints into a sink, the text of each statement as a whole
    /// (own). The script is read first; a fault there prints its one line, and nothing is run. After
    /// a refused statement the script goes on. A run that breaks off leaves the database as the
    /// statements before left it, and the library as they or the request of the LOAD at which it broke
    /// off did; where the sink failed, the statement whose text it refused has taken effect, and a
    /// beginning of that text was printed.
    pub fn run<S: Sink>(&mut self, script: &str, sink: &mut S) -> Result<Ended, RunFault>
        ensures headline { IfOk result (Runs L.answers self.old script.now self.new (S.taken sink.old)
            (S.taken sink.new)) }
        ensures breaks { IfErr result (BreaksOff L.answers L.fails self.old script.now self.new (S.taken sink.old)
            (S.taken sink.new)) }
        ensures library { IsLibraryBlamed (L.failures self.old.library) (L.failures self.new.library) result }
        ensures sink { IsSinkBlamed (S.failures sink.old) (S.failures sink.new) result }
    {
        match read_script(self.alloc, script) {
            Ok(tokens) => self.run_statements(&tokens, sink),
            Err(ScriptFault::Refused { refused, offset }) => {
                sink.report(&refused, &[], &self.database);
                self.put_fault(refused.refusal, offset, sink)
            }
            Err(ScriptFault::Memory { offset }) => Err(RunFault::Memory { offset }),
        }
    }

    /// Prints the line of a fault of the script's text, at a byte.
    pub(crate) fn put_fault<S: Sink>(
        &self,
        refusal: Refusal,
        offset: usize,
        sink: &mut S,
    ) -> Result<Ended, RunFault>
        ensures prints { IfOk result (Prints (fault_text (refusal_of refusal) offset) (S.taken sink.old)
            (S.taken sink.new)) }
        ensures breaks { IfErr result (BreaksLine (fault_text (refusal_of refusal) offset) (S.taken sink.old)
            (S.taken sink.new)) }
        ensures blamed { IsSinkBlamed (S.failures sink.old) (S.failures sink.new) result }
    {
        let mut text = Vec::new(self.alloc);
        if write_fault(&mut text, refusal, offset).is_err() {
            return Err(RunFault::Memory { offset: 0 });
        }
        match sink.put(&text) {
            Ok(()) => Ok(Ended::Faulted),
            Err(_) => Err(RunFault::Sink),
        }
    }

    /// Runs the statements that some tokens are: each is parsed when its turn comes, and its tree is dropped behind it.
    fn run_statements<S: Sink>(&mut self, tokens: &[Token], sink: &mut S) -> Result<Ended, RunFault>
        requires { DeriveSome tokens.now }
        ensures runs { (statements : List tree.Statement) → Derives (kinds_of tokens.now) statements →
            IfOk result (RunsAll L.answers self.old statements self.new (S.taken sink.old) (S.taken sink.new)) }
        ensures breaks { (statements : List tree.Statement) → Derives (kinds_of tokens.now) statements →
            IfErr result (BreaksIn L.answers L.fails self.old statements self.new (S.taken sink.old)
            (S.taken sink.new)) }
        ensures library { IsLibraryBlamed (L.failures self.old.library) (L.failures self.new.library) result }
        ensures sink { IsSinkBlamed (S.failures sink.old) (S.failures sink.new) result }
    {
        let mut ended = Ended::Well;
        let mut at = 0;
        'statements: while at < tokens.len() {
            let read = match statement_at(self.alloc, tokens, at) {
                Ok(read) => read,
                Err(NoMemory { offset }) => return Err(RunFault::Memory { offset }),
            };
            let ran = self.run_statement(&read.statement, &read.long_lists, sink);
            at = read.next;
            drop(read);
            let own = ran?;
            ended = both(ended, own);
        }
        Ok(ended)
    }

    /// Runs a statement, and puts what it prints into a sink.
    fn run_statement<S: Sink>(
        &mut self,
        statement: &Statement,
        long_lists: &[LongList],
        sink: &mut S,
    ) -> Result<Ended, RunFault>
        ensures runs { IfOk result (RunsAll L.answers self.old (statement_of statement.now ∷ []) self.new
            (S.taken sink.old) (S.taken sink.new)) }
        ensures breaks { IfErr result (BreaksIn L.answers L.fails self.old (statement_of statement.now ∷ []) self.new
            (S.taken sink.old) (S.taken sink.new)) }
        ensures library { IsLibraryBlamed (L.failures self.old.library) (L.failures self.new.library) result }
        ensures sink { IsSinkBlamed (S.failures sink.old) (S.failures sink.new) result }
    {
        let offset = place_of(statement);
        let printed = match self.step(statement, sink) {
            Ok(printed) => printed,
            Err(StepFault::Memory) => return Err(RunFault::Memory { offset }),
            Err(StepFault::Library) => return Err(RunFault::Library { offset }),
        };
        tell_cause(sink, &printed.told, long_lists, &self.database);
        match sink.put(&printed.text) {
            Ok(()) => Ok(printed.ended),
            Err(_) => Err(RunFault::Sink),
        }
    }

    /// Runs a statement, and tells a sink how far it is. One that breaks off has changed nothing in the database; a LOAD may have asked
    /// the library for its file.
    pub(crate) fn step<'a, S: Sink>(
        &mut self,
        statement: &'a Statement,
        sink: &S,
    ) -> Result<Printed<'a>, StepFault>
        ensures takes { IfOk result (Takes L.answers self.old (statement_of statement.now) self.new) }
        ensures breaks { IfErr result (BreaksAt L.answers L.fails self.old (statement_of statement.now) self.new) }
        ensures blamed { IsStepBlamed (L.failures self.old.library) (L.failures self.new.library) result }
    {
        let alloc = self.alloc;
        match statement {
            Statement::CreateTable { name, columns } => {
                create_table(alloc, &mut self.database, name, columns)
            }
            Statement::CreateIndex {
                unique,
                table,
                columns,
            } => create_index(alloc, &mut self.database, *unique, table, columns),
            Statement::Load { table, file } => self.load(table, file, sink),
            Statement::SetTableStatistics { table, rows, pages } => {
                set_table_statistics(alloc, &mut self.database, table, *rows, *pages)
            }
            Statement::SetIndexStatistics {
                table,
                columns,
                statistics,
            } => set_index_statistics(alloc, &mut self.database, table, columns, statistics),
            Statement::Query(query) => self.query(query, sink),
            Statement::Explain(query) => explain(alloc, &self.database, query, sink),
        }
    }

    fn query<'a, S: Sink>(&mut self, query: &'a Select, sink: &S) -> Result<Printed<'a>, StepFault>
        ensures takes { IfOk result (Takes L.answers self.old (tree.Query (select_of query.now)) self.new) }
        ensures breaks { IfErr result (BreaksAt L.answers L.fails self.old (tree.Query (select_of query.now))
            self.new) }
        ensures blamed { IsStepBlamed (L.failures self.old.library) (L.failures self.new.library) result }
    {
        let printed = select(self.alloc, &self.database, query, sink)?;
        self.work = printed.work.unwrap_or(self.work);
        Ok(printed)
    }

    fn load<'a, S: Sink>(
        &mut self,
        table: &'a Name,
        file: &'a StringLiteral,
        sink: &S,
    ) -> Result<Printed<'a>, StepFault>
        ensures takes { IfOk result (Takes L.answers self.old (tree.Load (name_of table.now) (text_of file.now))
            self.new) }
        ensures breaks { IfErr result (BreaksAt L.answers L.fails self.old
            (tree.Load (name_of table.now) (text_of file.now)) self.new) }
        ensures blamed { IsStepBlamed (L.failures self.old.library) (L.failures self.new.library) result }
    {
        if self.database.table(table.text.as_str()).is_none() {
            return refusal_line(self.alloc, Refusal::NotFound, Cause::NoTable(table));
        }
        match self.library.fetch(file.text.as_str()) {
            Ok(Fetched::Bytes(bytes)) => self.load_bytes(FileLoad { table, file, bytes }, sink),
            Ok(Fetched::Absent) => {
                let cause = Cause::NoFile { table, file };
                refusal_line(self.alloc, Refusal::NoFile, cause)
            }
            Err(FetchFault::Device) => Err(StepFault::Library),
            Err(FetchFault::Memory) => Err(StepFault::Memory),
        }
    }

    /// Loads the bytes of a file into a table that is there.
    fn load_bytes<'a, S: Sink>(
        &mut self,
        load: FileLoad<'a>,
        sink: &S,
    ) -> Result<Printed<'a>, StepFault>
        requires { table_named self.old.database (name_of load.table.now) ≢ None }
        ensures takes { IfOk result (TakesBytes self.old.database (name_of load.entry.table.now)
            load.entry.bytes.items self.new.database) }
        ensures kept { OnErr result (self.new.database ≡ self.old.database) }
        ensures memory { IfErr result (λ f. f ≡ fault.Memory) }
        ensures library { self.new.library ≡ self.old.library }
        ensures work { self.new.work ≡ self.old.work }
    {
        let mut text = Vec::with_capacity(self.alloc, LOADED_ROOM)?;
        let watch = WatchedLoad { sink };
        match self
            .database
            .load(load.table.text.as_str(), &load.bytes, &watch)
        {
            Ok(rows) => {
                write_loaded(&mut text, rows);
                Ok(loaded(text, load.table))
            }
            Err(LoadFault::NoTable) => unreachable!(),
            Err(LoadFault::Record(record)) => {
                let cause = Cause::Record { load, record };
                refused_record(self.alloc, record.fault.refusal(), record.number, cause)
            }
            Err(LoadFault::Repeated(record)) => {
                let cause = Cause::Repeated { load, record };
                refused_record(self.alloc, Refusal::NullOrRepeated, record.number, cause)
            }
            Err(LoadFault::ManyRows) => {
                refusal_line(self.alloc, Refusal::OverLimit, Cause::ManyRows(load.table))
            }
            Err(LoadFault::Memory) => Err(StepFault::Memory),
        }
    }
}

/// Tells a sink why a statement is refused, that it raises an exception, or that it has loaded a file, if it is, does or has.
pub(crate) fn tell_cause<S: Sink>(
    sink: &mut S,
    told: &Option<Told>,
    long_lists: &[LongList],
    database: &Database,
)
    ensures taken { S.taken sink.new ≡ S.taken sink.old }
    ensures counted { S.failures sink.new ≡ S.failures sink.old }
{
    match told {
        Some(Told::Refused(refused)) => sink.report(refused, long_lists, database),
        Some(Told::Raised(raise)) => sink.report_exception(*raise),
        Some(Told::Loaded(table)) => sink.report_load(table, database),
        None => {}
    }
}

/// Where a statement names its table, or LOAD its file: the offset in the script.
pub(crate) fn place_of(statement: &Statement) -> usize {
    match statement {
        Statement::CreateTable { name: table, .. }
        | Statement::CreateIndex { table, .. }
        | Statement::SetTableStatistics { table, .. }
        | Statement::SetIndexStatistics { table, .. } => table.start,
        Statement::Load { file, .. } => file.start,
        Statement::Query(query) | Statement::Explain(query) => match query
            .block
            .sources
            .tables
            .first()
        {
            Some(source) => source.table.start,
            None => query.block.start,
        },
    }
}

/// How two statements ended, one behind the other.
fn both(first: Ended, second: Ended) -> Ended
    ensures { IsBoth first second result }
{
    match first {
        Ended::Well => second,
        _ => first,
    }
}
