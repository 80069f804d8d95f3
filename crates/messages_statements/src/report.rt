//! Messages as they are shown.

use crate::create::write_create;
use crate::exceptions::ExceptionReport;
use crate::index::write_index;
use crate::list::write_list_hint;
use crate::places::offset_of;
use crate::refused_tables::RefusedTables;
use crate::statistics::{write_statistics, write_table_statistics};
use catalog::{
    Database, IndexFault, ListFault, MAX_ROWS, RefusedRecord, RepeatedRecord, StatisticsFault,
    TableStatisticsFault,
};
use diagnostics::{Cause, CheckedFile, ColumnList, FileLoad, Planned, Refused};
use messages_certificates::FileReport;
use messages_excerpts::{LineColumn, Lines, write_excerpt};
use messages_files::{FileRecord, write_record, write_record_hint, write_repeated, write_survey};
use messages_notes::{LoadReport, Notes, PlanReport};
use messages_queries::{ListLengths, QueryWords, write_near_table};
use messages_syntax::{
    write_lexical, write_lexical_hint, write_too_deep, write_unexpected, write_unexpected_hint,
};
use sqlvalue::Raise;
use std::alloc::Global;
use std::fmt::{self, Display, Formatter};
use syntax::{LongList, Name, Select};

/// Makes the messages on a script, one after another.
#[derive(Drop)]
pub struct Reporter<'a> {
    alloc: Global,
    script_name: &'a str,
    lines: Lines<'a>,
    refused_tables: RefusedTables,
    notes: Notes<'a>,
}

impl<'a> Reporter<'a> {
    /// A reporter on a script, and the name that messages call it by.
    pub fn new(alloc: Global, script_name: &'a str, script: &'a str) -> Reporter<'a> {
        Reporter {
            alloc,
            script_name,
            lines: Lines::new(script),
            refused_tables: RefusedTables::new(alloc),
            notes: Notes::new(alloc, script_name),
        }
    }

    /// The line and the column of a byte of the script.
    pub fn locate(&self, offset: usize) -> LineColumn {
        self.lines.locate(offset)
    }

    /// The message on a refusal over a database; of the lists that are past their limits the tree has not all elements.
    pub fn report<'r>(
        &mut self,
        refused: &'r Refused<'r>,
        long_lists: &'r [LongList],
        database: &'r Database,
    ) -> Report<'r>
    where
        'a: 'r,
    {
        let offset = offset_of(&refused.cause);
        let place = self.lines.locate(offset);
        self.notes.keep_refusal(database, &refused.cause, place);
        self.refused_tables
            .keep(self.alloc, &refused.cause, &self.lines);
        Report {
            alloc: self.alloc,
            script_name: self.script_name,
            script: self.lines.script(),
            offset,
            place,
            refused,
            lengths: ListLengths { long_lists },
            database,
            refused_table: self.refused_tables.place_of_missing(&refused.cause),
        }
    }

    /// Notes that a LOAD has gone well: nothing is said of those before any more. Gives what there is to say of the rows.
    pub fn report_load<'r>(&mut self, table: &Name, database: &'r Database) -> LoadReport<'r>
    where
        'a: 'r,
    {
        self.notes.report_load(&self.lines, table, database)
    }

    /// The message on an exception.
    pub fn report_exception<'r>(&self, raise: Raise) -> ExceptionReport<'r>
    where
        'a: 'r,
    {
        ExceptionReport {
            script_name: self.script_name,
            script: self.lines.script(),
            offset: raise.place,
            place: self.lines.locate(raise.place),
            exception: raise.exception,
        }
    }

    /// The notes on the plans of a query over a database.
    pub fn report_plans<'r>(
        &'r self,
        planned: Planned<'r>,
        database: &'r Database,
    ) -> PlanReport<'r> {
        self.notes.report_plans(&self.lines, planned, database)
    }

    /// The messages on a file of certificates of a name, over the database of their query.
    pub fn report_certificates<'r>(
        &self,
        name: &'r str,
        checked: &'r CheckedFile<'r>,
        database: &'r Database,
    ) -> FileReport<'r> {
        FileReport::new(
            self.alloc,
            name,
            checked.file,
            database,
            checked.query,
            checked.blocks,
            &checked.told,
        )
    }
}

/// A message on a refusal, as it is shown: `script.sql:3:15: error E14 42000: ..`, the line of the script
/// with a caret under the place, and a hint where one is sure. On a record of a file:
/// `parts.csv:5: error E11 22003: record 2, field 3 (PRICE NUMERIC(5,2)): ..`, and where its LOAD stands.
#[derive(Drop)]
pub struct Report<'r> {
    alloc: Global,
    script_name: &'r str,
    script: &'r str,
    offset: usize,
    place: LineColumn,
    refused: &'r Refused<'r>,
    lengths: ListLengths<'r>,
    database: &'r Database,
    /// Where the table that is missing was to be made, if it was.
    refused_table: Option<LineColumn>,
}

impl Display for Report<'_> {
    fn fmt<W: fmt::Write>(&self, f: &mut Formatter<W>) -> fmt::Result {
        match &self.refused.cause {
            Cause::Record { load, record } => self.write_record(f, load, record),
            Cause::Repeated { load, record } => self.write_repeated(f, load, record),
            cause => {
                self.write_place(f)?;
                self.write_label(f)?;
                self.write_problem(f, cause)?;
                f.write_str("\n")?;
                write_excerpt(f, self.script, self.offset)?;
                self.write_hint(f, cause)
            }
        }
    }
}

impl<'r> Report<'r> {
    /// The name of the file that isn't there, if that is what is said.
    pub fn missing_file(&self) -> Option<&'r str> {
        match &self.refused.cause {
            Cause::NoFile { file, .. } => Some(file.text.as_str()),
            _ => None,
        }
    }

    /// `script.sql:3:15: `.
    fn write_place<W: fmt::Write>(&self, f: &mut Formatter<W>) -> fmt::Result {
        let LineColumn { line, column } = self.place;
        write!(f, "{}:{line}:{column}: ", self.script_name)
    }

    /// `error E14 42000: `.
    fn write_label<W: fmt::Write>(&self, f: &mut Formatter<W>) -> fmt::Result {
        let refusal = self.refused.refusal;
        write!(f, "error {} {}: ", refusal.label(), refusal.state())
    }

    fn write_problem<W: fmt::Write>(&self, f: &mut Formatter<W>, cause: &Cause) -> fmt::Result {
        match cause {
            Cause::Lexical(fault) => write_lexical(f, self.script, *fault),
            Cause::Unexpected(unexpected) => write_unexpected(f, self.script, unexpected),
            Cause::TooDeep { .. } => write_too_deep(f),
            Cause::Create {
                name,
                columns,
                fault,
            } => write_create(f, name, columns, self.lengths, *fault),
            Cause::Index { list, fault } => write_index(
                f,
                self.database,
                *list,
                self.lengths,
                *fault,
            ),
            Cause::TableStatistics(cause) => write_table_statistics(f, *cause),
            Cause::Statistics(cause) => write_statistics(
                f,
                self.script,
                self.database,
                self.lengths,
                *cause,
            ),
            Cause::NoTable(name) => write!(f, "there is no table {}", name.text),
            Cause::NoFile { file, .. } => write!(f, "there is no file '{}'", file.text),
            Cause::ManyRows(_) => write!(f, "a table has at most {MAX_ROWS} rows"),
            Cause::Query(cause) => self.query_words(cause.query).write_fault(f, cause.fault),
            Cause::Record { .. } | Cause::Repeated { .. } => Ok(()),
        }
    }

    fn write_hint<W: fmt::Write>(&self, f: &mut Formatter<W>, cause: &Cause) -> fmt::Result {
        if let Some(LineColumn { line, column }) = self.refused_table {
            return writeln!(f, "hint: its CREATE TABLE at {line}:{column} was refused");
        }
        match cause {
            Cause::Lexical(fault) => write_lexical_hint(f, self.script, *fault),
            Cause::Unexpected(unexpected) => {
                write_unexpected_hint(f, self.alloc, self.script, unexpected)
            }
            Cause::Index { list, fault } => match fault {
                IndexFault::List(fault) => self.write_list_hint(f, *list, *fault),
                _ => Ok(()),
            },
            Cause::Statistics(cause) => match cause.fault {
                StatisticsFault::List(fault) => self.write_list_hint(f, cause.list, fault),
                _ => Ok(()),
            },
            Cause::TableStatistics(cause) => match cause.fault {
                TableStatisticsFault::NoTable => self.write_table_hint(f, cause.table),
                _ => Ok(()),
            },
            Cause::NoTable(name) => self.write_table_hint(f, name),
            Cause::Query(cause) => self.query_words(cause.query).write_hint(f, cause.fault),
            _ => Ok(()),
        }
    }

    /// The words on a query of the script.
    fn query_words<'w>(&'w self, query: &'w Select) -> QueryWords<'w> {
        QueryWords {
            alloc: self.alloc,
            database: self.database,
            query,
            lengths: self.lengths,
        }
    }

    fn write_list_hint<W: fmt::Write>(
        &self,
        f: &mut Formatter<W>,
        list: ColumnList,
        fault: ListFault,
    ) -> fmt::Result {
        write_list_hint(f, self.alloc, self.database, list, fault)
    }

    fn write_table_hint<W: fmt::Write>(&self, f: &mut Formatter<W>, name: &Name) -> fmt::Result {
        write_near_table(f, self.alloc, self.database, name.text.as_str())
    }

    fn write_record<W: fmt::Write>(
        &self,
        f: &mut Formatter<W>,
        load: &FileLoad,
        refused: &RefusedRecord,
    ) -> fmt::Result {
        let record = FileRecord::new(self.alloc, &load.bytes, refused.start, refused.line);
        self.write_read_record(f, load, refused, &record)
    }

    fn write_read_record<W: fmt::Write>(
        &self,
        f: &mut Formatter<W>,
        load: &FileLoad,
        refused: &RefusedRecord,
        record: &FileRecord,
    ) -> fmt::Result {
        self.write_line(f, load, record.line)?;
        let Some(table) = self.database.table(load.table.text.as_str()) else {
            return Ok(());
        };
        write_record(f, table, refused, record)?;
        self.write_load(f)?;
        write_record_hint(f, table, refused, record)?;
        write_survey(f, self.alloc, table, &load.bytes)
    }

    fn write_repeated<W: fmt::Write>(
        &self,
        f: &mut Formatter<W>,
        load: &FileLoad,
        repeated: &RepeatedRecord,
    ) -> fmt::Result {
        let record = FileRecord::new(self.alloc, &load.bytes, repeated.start, repeated.line);
        self.write_repeated_at(f, load, repeated, record.line)
    }

    fn write_repeated_at<W: fmt::Write>(
        &self,
        f: &mut Formatter<W>,
        load: &FileLoad,
        repeated: &RepeatedRecord,
        line: u64,
    ) -> fmt::Result {
        self.write_line(f, load, line)?;
        if let Some(table) = self.database.table(load.table.text.as_str()) {
            write_repeated(f, table, repeated)?;
        }
        self.write_load(f)
    }

    /// `parts.csv:5: error E12 23000: `.
    fn write_line<W: fmt::Write>(
        &self,
        f: &mut Formatter<W>,
        load: &FileLoad,
        line: u64,
    ) -> fmt::Result {
        write!(f, "{}:{line}: ", load.file.text)?;
        self.write_label(f)
    }

    /// The place of the LOAD.
    fn write_load<W: fmt::Write>(&self, f: &mut Formatter<W>) -> fmt::Result {
        f.write_str("\n")?;
        self.write_place(f)?;
        f.write_str("in this LOAD\n")?;
        write_excerpt(f, self.script, self.offset)
    }
}
