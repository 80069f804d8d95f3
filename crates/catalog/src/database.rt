//! A database: tables by name, and the statements that make and change them.

ghost use Rattle.std.specs.Prelude.{◌≡◌, ◌<◌, [], Some, IfSome, IfOk, IfErr, OnOk, OnErr, map, length, bytes_eq};
ghost use Rattle.std.specs.Option.{option_copied};
ghost use Rattle.std.specs.List.{position_from};
ghost use Rattle.definitions.specs.Statement.{CreateTable, CreateIndex, SetTableStatistics, SetIndexStatistics};
ghost use Rattle.definitions.specs.Table.{table_named};
ghost use Rattle.definitions.specs.Invariant as invariant;
ghost use Rattle.definitions.specs.Change.{Makes};
ghost use Rattle.definitions.specs.Faults.{Faulty, IsAccepted};
ghost use Rattle.parse_tree.specs.Trees.{name_of, definitions_of, statistics_of};
ghost use Rattle.catalog.specs.Meaning.{create_refusal, table_statistics_refusal, statistics_refusal};
ghost use Rattle.catalog.specs.Changes.{RefusesIndex};
ghost use Rattle.catalog.specs.Loads.{LoadsNamed, RefusesNamed};

use crate::creation::judge_definitions;
use crate::fault::{
    CreateFault, IndexFault, ListFault, LoadFault, StatisticsFault, TableStatisticsFault,
};
use crate::naming::Names;
use crate::table::Table;
use loading::LoadWatch;
use parse_tree::{ColumnDefinition, Name};
use std::alloc::Global;
use std::marker::Model;

/// How many tables a database may have (own).
pub const MAX_TABLES: usize = 256;

/// A database: its tables in the order in which they were made.
#[derive(Drop)]
pub struct Database {
    alloc: Global,
    tables: Vec<Table>,
    /// The tables' names, in their order.
    names: Names,
}

impl Model for Database {
    ghost use Rattle.definitions.specs.Table.{Database};
    ghost use Rattle.catalog.specs.Databases.{IsStoredDatabase};

    ghost Value = { Database };

    ghost view = { λ d. d.tables.items };

    ghost invariant = { λ d. IsStoredDatabase d.tables.items d.names };
}

impl Database {
    /// A database without tables.
    pub fn new(alloc: Global) -> Database
        ensures { result ≡ [] }
    {
        Database {
            alloc,
            tables: Vec::new(alloc),
            names: Names::new(alloc),
        }
    }

    /// CREATE TABLE (ISO/IEC 9075:1992, 11.3; the limits and the indexes of keys are own). Of several faults any one
    /// may be told, and an `Err` leaves the database as it was.
    pub fn create_table(
        &mut self,
        name: &str,
        definitions: &[ColumnDefinition],
    ) -> Result<(), CreateFault>
        ensures accepted { OnOk result (IsAccepted self.old (CreateTable name.now (definitions_of definitions.now))) }
        ensures made { OnOk result (Makes self.old (CreateTable name.now (definitions_of definitions.now)) self.new) }
        ensures refused { IfErr result (λ fault. IfSome (create_refusal fault)
            (Faulty self.old (CreateTable name.now (definitions_of definitions.now)))) }
        ensures err { OnErr result (self.new ≡ self.old) }
    {
        if self.tables.len() >= MAX_TABLES {
            return Err(CreateFault::ManyTables);
        }
        if self.table(name).is_some() {
            return Err(CreateFault::TableTaken);
        }
        if let Err(fault) = judge_definitions(definitions) {
            return Err(fault);
        }
        let table = Table::new(self.alloc, name, definitions)?;

        // Room for the table is made first: once its name stands, nothing can fail.
        self.tables.reserve(1)?;
        self.names.push(self.alloc, name)?;
        self.tables.push_reserved(table);
        Ok(())
    }

    /// CREATE INDEX (own), whose columns are told by their names. Of several faults any one may be told, and that a
    /// key comes again where there is none. An `Err` leaves the database as it was.
    pub fn create_index(
        &mut self,
        unique: bool,
        table: &str,
        columns: &[Name],
    ) -> Result<(), IndexFault>
        ensures accepted { OnOk result (IsAccepted self.old (CreateIndex unique table.now (map name_of columns.now))) }
        ensures made { OnOk result (Makes self.old (CreateIndex unique table.now (map name_of columns.now)) self.new) }
        ensures refused { IfErr result (RefusesIndex self.old unique table.now (map name_of columns.now)) }
        ensures err { OnErr result (self.new ≡ self.old) }
    {
        let alloc = self.alloc;
        match self.place(table) {
            Some(place) => self.tables[place].add_index(alloc, unique, columns),
            None => Err(IndexFault::List(ListFault::NoTable)),
        }
    }

    /// LOAD of the bytes of a file (own): a row for each record, or else what goes wrong first in the order of the
    /// records. Tells a watch how far it is, and how many rows came; an `Err` leaves the database as it was.
    pub fn load<W: LoadWatch>(
        &mut self,
        table: &str,
        bytes: &[u8],
        watch: &W,
    ) -> Result<u64, LoadFault>
        ensures ok { IfOk result (λ n. LoadsNamed table.now bytes.now self.old n self.new) }
        ensures refused { IfErr result (RefusesNamed table.now bytes.now self.old) }
        ensures err { OnErr result (self.new ≡ self.old) }
    {
        let alloc = self.alloc;
        match self.place(table) {
            Some(place) => self.tables[place].load(alloc, bytes, watch),
            None => Err(LoadFault::NoTable),
        }
    }

    /// SET STATISTICS of a table (own), which holds until the next LOAD into it. An `Err` leaves the database as it
    /// was.
    pub fn set_table_statistics(
        &mut self,
        table: &str,
        rows: u128,
        pages: u128,
    ) -> Result<(), TableStatisticsFault>
        ensures accepted { OnOk result (IsAccepted self.old (SetTableStatistics table.now rows pages)) }
        ensures made { OnOk result (Makes self.old (SetTableStatistics table.now rows pages) self.new) }
        ensures refused { IfErr result (λ fault. Faulty self.old (SetTableStatistics table.now rows pages)
            (table_statistics_refusal fault)) }
        ensures err { OnErr result (self.new ≡ self.old) }
    {
        match self.place(table) {
            Some(place) => self.tables[place].set_statistics(rows, pages),
            None => Err(TableStatisticsFault::NoTable),
        }
    }

    /// SET STATISTICS of the index on a list of columns (own), which holds until the next LOAD into its table. Of
    /// several faults any one may be told, and an `Err` leaves the database as it was.
    pub fn set_index_statistics(
        &mut self,
        table: &str,
        columns: &[Name],
        statistics: &parse_tree::IndexStatistics,
    ) -> Result<(), StatisticsFault>
        ensures accepted { OnOk result (IsAccepted self.old
            (SetIndexStatistics table.now (map name_of columns.now) (statistics_of statistics.now))) }
        ensures made { OnOk result (Makes self.old (SetIndexStatistics table.now (map name_of columns.now)
            (statistics_of statistics.now)) self.new) }
        ensures refused { IfErr result (λ fault. IfSome (statistics_refusal fault)
            (Faulty self.old (SetIndexStatistics table.now (map name_of columns.now)
            (statistics_of statistics.now)))) }
        ensures err { OnErr result (self.new ≡ self.old) }
    {
        let alloc = self.alloc;
        match self.place(table) {
            Some(place) => self.tables[place].set_index_statistics(alloc, columns, statistics),
            None => Err(StatisticsFault::List(ListFault::NoTable)),
        }
    }

    /// The tables, in the order in which they were made.
    pub fn tables(&self) -> &[Table]
        ensures tables { result.now ≡ self.now }
        ensures valid { invariant.IsDatabase self.now }
    {
        self.tables.as_slice()
    }

    /// The table of a name.
    pub fn table(&self, name: &str) -> Option<&Table>
        ensures named { option_copied result ≡ table_named self.now name.now }
        ensures valid { invariant.IsDatabase self.now }
    {
        match self.place(name) {
            Some(place) => Some(&self.tables[place]),
            None => None,
        }
    }

    /// The place of the table of a name.
    fn place(&self, name: &str) -> Option<usize>
        ensures place { result ≡ position_from (λ t. bytes_eq t.name name.now) 0 self.now }
        ensures within { IfSome result (λ place. place < length self.now) }
    {
        self.names.place(name)
    }
}
