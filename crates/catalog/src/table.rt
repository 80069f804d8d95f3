//! A table: its columns, rows, indexes and statistics, and how rows are read and loaded.

ghost use Rattle.std.specs.Prelude.{Bool, ◌≡◌, ◌<◌, ◌≤◌, ◌+◌, ◌↔◌, Some, None, Ok, Err, IsNone, IfOk, IfErr, OnOk, OnErr, IfSome, length, map, bytes_eq, option_map, slice_get, slice_index_or};
ghost use Rattle.std.specs.List.{AllByRecursion, position_from};
ghost use Rattle.definitions.specs.Limits.{most_index_columns, most_rows};
ghost use Rattle.definitions.specs.Table as spec;
ghost use Rattle.definitions.specs.Change as change;
ghost use Rattle.definitions.specs.Loading.{ColumnLoads};
ghost use Rattle.definitions.specs.Statistics.{row_width};
ghost use Rattle.definitions.specs.Invariant.{IsCount, IsPageCount, IsTable};
ghost use Rattle.definitions.specs.Value as values;
ghost use Rattle.definitions.specs.Value.{IsType};
ghost use Rattle.columns.specs.Columns.{cells_of};
ghost use Rattle.loading.specs.Meaning.{column_refusal};
ghost use Rattle.catalog.specs.Places.{IsColumnPlace};
ghost use Rattle.definitions.specs.Scanning.{true_word, unknown_word};
ghost use Rattle.sqlvalue.specs.Meaning.{op_of, type_of, value_of};

use crate::bound::{kept_statistics, page_count, row_count};
use crate::creation::{key_indexes, new_columns};
use crate::fault::{
    CreateFault, IndexFault, ListFault, LoadFault, StatisticsFault, TableStatisticsFault,
};
use crate::growth::{Grown, grow};
use crate::naming::{Named, Names, second_twin};
use columns::Column;
use indexes::{Index, TableStatistics, UniqueFault, row_width};
use loading::{ColumnFault, LoadWatch, TableColumn, cut_columns};
use parse_tree::{ColumnDefinition, Constraint, MAX_INDEX_COLUMNS, Name};
use sqlvalue::{ComparisonOperator, SqlType, Value};
use std::alloc::Global;
use std::marker::Model;

/// How many rows a table may have (own).
pub const MAX_ROWS: usize = 100_000_000;

/// How many indexes a table may have (own).
pub const MAX_INDEXES: usize = 16;

/// A table: its columns in order, its indexes, its rows in the order in which they came (ISO/IEC 9075:1992, 4.9; that
/// order is own), and its statistics.
#[derive(Drop)]
pub struct Table {
    name: String,
    columns: Vec<TableColumn>,
    /// The columns' names, in their order.
    names: Names,
    indexes: Vec<Index>,
    len: usize,
    statistics: TableStatistics,
}

impl Model for Table {
    ghost use Rattle.definitions.specs.Table.{Table};

    ghost Value = { Table };

    ghost use Rattle.catalog.specs.Tables.{stored_table, IsStoredTable};

    ghost view = { stored_table };

    ghost invariant = { IsStoredTable };
}

impl Table {
    ghost use Rattle.catalog.specs.Meaning.{cell_at, cells_in};
    ghost use Rattle.catalog.specs.Creates.{AreJudged, AreTypes, RefusesTypes};
    ghost use Rattle.catalog.specs.Loads.{LoadsTable, RefusesTable};
    ghost use Rattle.catalog.specs.Changes.{AddsIndex, MayIndex, RefusesNewIndex, SetsIndex, RefusesStatistics, RefusesTableStatistics};
    ghost use Rattle.catalog.specs.Lists.{RefusesList};
    ghost use Rattle.catalog.specs.Tables.{IsIndexRun};
    ghost use Rattle.indexes.specs.Indexes.{AreIndexColumns};
    ghost use Rattle.indexes.specs.Meaning.{table_statistics_of};
    ghost use Rattle.parse_tree.specs.Trees.{constraint_of, name_of, definitions_of, statistics_of};

    /// A table without rows.
    pub(crate) fn new(
        alloc: Global,
        name: &str,
        definitions: &[ColumnDefinition],
    ) -> Result<Table, CreateFault>
        requires { AreJudged (definitions_of definitions.now) }
        ensures ok { IfOk result (λ t. t ≡ change.new_table name.now (definitions_of definitions.now)) }
        ensures types { OnOk result (AreTypes (definitions_of definitions.now)) }
        ensures valid { IfOk result IsTable }
        ensures err { IfErr result (RefusesTypes (definitions_of definitions.now)) }
    {
        let columns = new_columns(alloc, definitions)?;
        let names = Names::of_columns(alloc, definitions)?;
        let indexes = key_indexes(alloc, definitions, columns.as_slice())?;
        let name = String::from_str(alloc, name)?;
        let statistics = TableStatistics::table_statistics(columns.as_slice(), 0);
        Ok(Table {
            name,
            columns,
            names,
            indexes,
            len: 0,
            statistics,
        })
    }

    /// The name that CREATE TABLE gave, in upper case.
    pub fn name(&self) -> &str
        ensures { result.now ≡ self.now.name }
    {
        self.name.as_str()
    }

    /// How many columns the table has.
    pub fn width(&self) -> usize
        ensures { result ≡ length self.now.columns }
    {
        self.columns.len()
    }

    /// What a row of the table takes, in bytes (own).
    pub fn row_width(&self) -> u64
        ensures exact { result ≡ row_width self.now.columns }
        ensures bound { result ≤ 20000 }
    {
        row_width(self.columns.as_slice())
    }

    /// The name of a column.
    pub fn column_name(&self, column: usize) -> &str
        requires { column < length self.now.columns }
        ensures { option_map (λ (c : spec.Column). c.name) (slice_get self.now.columns column) ≡ Some result.now }
    {
        self.columns[column].name()
    }

    /// How many rows the table has. Each has a value for each column, of its type.
    pub fn len(&self) -> usize
        ensures exact { result ≡ length self.now.rows }
        ensures bound { result ≤ most_rows }
        ensures valid { IsTable self.now }
        ensures whole { AllByRecursion (λ row. length row ≡ length self.now.columns) self.now.rows }
    {
        self.len
    }

    /// The place of the column of a name.
    pub fn column(&self, name: &str) -> Option<usize>
        ensures first { result ≡ position_from (λ c. bytes_eq c.name name.now) 0 self.now.columns }
        ensures within { IfSome result (λ place. place < length self.now.columns) }
        ensures place { IfSome result (IsColumnPlace self.now.columns name.now) }
        ensures none { IsNone result ↔ (spec.type_named self.now.columns name.now ≡ None) }
    {
        self.names.place(name)
    }

    /// The type of a column.
    pub fn sql_type(&self, column: usize) -> SqlType
        requires { column < length self.now.columns }
        ensures exact { option_map (λ (c : spec.Column). c.type) (slice_get self.now.columns column)
            ≡ Some (type_of result) }
        ensures valid { IsType (type_of result) }
    {
        self.columns[column].sql_type()
    }

    /// What is asked of a column's values.
    pub fn constraint(&self, column: usize) -> Constraint
        requires { column < length self.now.columns }
        ensures { option_map (λ (c : spec.Column). c.constraint) (slice_get self.now.columns column)
            ≡ Some (constraint_of result) }
    {
        self.columns[column].constraint()
    }

    /// Why a field does not load into a column, if it does not: what LOAD tells of its record, if the fields before it load (own).
    pub fn judge_field(&self, column: usize, field: &[u8]) -> Option<ColumnFault>
        requires { column < length self.now.columns }
        ensures refused { IfSome result (λ f. IfSome (slice_get self.now.columns column)
            (λ c. ColumnLoads c field.now (Err (column_refusal f)))) }
        ensures loads { IfSome (slice_get self.now.columns column)
            (λ c. IsNone result → (v : values.Value) × ColumnLoads c field.now (Ok v)) }
    {
        self.columns[column].judge(field)
    }

    /// The value in a row and a column.
    pub fn cell(&self, row: usize, column: usize) -> Value<'_>
        requires in_rows { row < length self.now.rows }
        requires in_columns { column < length self.now.columns }
        ensures { value_of result ≡ cell_at self.now row column }
    {
        self.columns[column].cell(row)
    }

    /// The cells of a column, of which each row has one.
    pub fn cells(&self, column: usize) -> &Column
        requires { column < length self.now.columns }
        ensures { (cells_of result.now).values ≡ map (λ row. slice_index_or row column values.Null) self.now.rows }
    {
        self.columns[column].cells()
    }

    /// Of so many rows from `first` on, those in which a comparison of a column's value with another is true, and
    /// those in which it is unknown (ISO/IEC 9075:1992, 8.2): bit i of a word is set exactly where it is so in row
    /// `first + i`.
    pub fn scan(
        &self,
        column: usize,
        op: ComparisonOperator,
        value: &Value,
        first: usize,
        rows: usize,
    ) -> (u64, u64)
        requires few { rows ≤ 64 }
        requires in_rows { first + rows ≤ length self.now.rows }
        requires in_columns { column < length self.now.columns }
        ensures met { result.0 ≡ true_word (op_of op) (value_of value.now) (cells_in self.now column first rows) }
        ensures unknown { result.1 ≡ unknown_word (op_of op) (value_of value.now)
            (cells_in self.now column first rows) }
    {
        self.columns[column].scan(op, value, first, rows)
    }

    /// How many indexes the table has: those of its UNIQUE and PRIMARY KEY columns in column order, and then those
    /// that were created (own).
    pub fn index_count(&self) -> usize
        ensures { result ≡ length self.now.indexes }
    {
        self.indexes.len()
    }

    /// The index of a number, from 0, in the order of which it has the table's rows.
    pub fn index(&self, number: usize) -> &Index
        requires { number < length self.now.indexes }
        ensures exact { slice_get self.now.indexes number ≡ Some result.now.index }
        ensures run { IsIndexRun self.now result.now }
    {
        &self.indexes[number]
    }

    /// How many rows the table is taken to have, and on how many pages.
    pub fn statistics(&self) -> TableStatistics
        ensures { table_statistics_of result ≡ self.now.statistics }
    {
        self.statistics
    }

    /// LOAD of the bytes of a file (own): adds a row for each record, and says how many. An `Err`
    /// leaves the table as it was.
    pub(crate) fn load<W: LoadWatch>(
        &mut self,
        alloc: Global,
        bytes: &[u8],
        watch: &W,
    ) -> Result<u64, LoadFault>
        ensures ok { IfOk result (λ n. LoadsTable self.old bytes.now n (λ rows. self.new
            ≡ change.with_rows self.old rows)) }
        ensures refused { IfErr result (RefusesTable self.old bytes.now) }
        ensures err { OnErr result (self.new ≡ self.old) }
    {
        match grow(
            alloc,
            &mut self.columns,
            self.len,
            &self.indexes,
            bytes,
            watch,
        ) {
            Ok(Grown { rows, indexes }) => {
                self.indexes = indexes;
                self.len += rows;
                self.statistics = TableStatistics::table_statistics(&self.columns, self.len);
                Ok(rows as u64)
            }
            Err(fault) => {
                cut_columns(&mut self.columns, self.len);
                Err(fault)
            }
        }
    }

    /// CREATE INDEX (own). An `Err` leaves the table as it was.
    pub(crate) fn add_index(
        &mut self,
        alloc: Global,
        unique: bool,
        names: &[Name],
    ) -> Result<(), IndexFault>
        ensures ok { OnOk result (AddsIndex self.old unique (map name_of names.now) self.new) }
        ensures refused { IfErr result (RefusesNewIndex self.old unique (map name_of names.now)) }
        ensures err { OnErr result (self.new ≡ self.old) }
    {
        let list = match self.new_list(alloc, names) {
            Ok(list) => list,
            Err(fault) => return Err(fault),
        };
        match Index::new(alloc, self.columns.as_slice(), self.len, list, unique) {
            Ok(index) => self.indexes.push(index).map_err(|_| IndexFault::Memory),
            Err(UniqueFault::Repeated(key)) => Err(IndexFault::Repeated(key)),
            Err(UniqueFault::Memory) => Err(IndexFault::Memory),
        }
    }

    /// The numbers of the columns that the next index is on.
    fn new_list(&self, alloc: Global, names: &[Name]) -> Result<Vec<usize>, IndexFault>
        ensures ok { IfOk result (λ list. MayIndex self.now (map name_of names.now) list.items) }
        ensures there { IfOk result (λ list. AreIndexColumns (length self.now.columns) list.items) }
        ensures refused { IfErr result (λ fault. (unique : Bool) →
            RefusesNewIndex self.now unique (map name_of names.now) fault) }
    {
        let list = match self.numbers(alloc, names) {
            Ok(list) => list,
            Err(fault) => return Err(IndexFault::List(fault)),
        };
        if let Some(column) = second_twin(names) {
            return Err(IndexFault::ColumnTwice { column });
        }
        if let Some(index) = self.index_place(list.as_slice()) {
            return Err(IndexFault::ListTaken { index });
        }
        if self.indexes.len() >= MAX_INDEXES {
            return Err(IndexFault::ManyIndexes);
        }
        Ok(list)
    }

    /// The numbers of one to four columns, by their names (own).
    fn numbers(&self, alloc: Global, names: &[Name]) -> Result<Vec<usize>, ListFault>
        ensures found { IfOk result (λ numbers. spec.column_numbers self.now.columns (map name_of names.now)
            ≡ Some numbers.items) }
        ensures there { IfOk result (λ numbers. AllByRecursion (λ n. n < length self.now.columns) numbers.items) }
        ensures many { IfOk result (λ numbers. length numbers.items ≡ length names.now) }
        ensures some { OnOk result (0 < length names.now) }
        ensures short { OnOk result (length names.now ≤ most_index_columns) }
        ensures refused { IfErr result (RefusesList self.now.columns (map name_of names.now)) }
    {
        if names.is_empty() {
            return Err(ListFault::Empty);
        }
        if names.len() > MAX_INDEX_COLUMNS {
            return Err(ListFault::ManyColumns);
        }
        let mut numbers = Vec::new(alloc);
        for (place, name) in names.iter().enumerate() {
            match self.column(name.name()) {
                Some(number) => numbers.push(number)?,
                None => return Err(ListFault::NoColumn { column: place }),
            }
        }
        Ok(numbers)
    }

    /// The number of the index on a list of columns.
    fn index_place(&self, list: &[usize]) -> Option<usize>
        ensures place { result ≡ position_from (spec.is_on list.now) 0 self.now.indexes }
        ensures within { IfSome result (λ place. place < length self.now.indexes) }
    {
        for (place, index) in self.indexes.iter().enumerate() {
            if index.is_on(list) {
                return Some(place);
            }
        }
        None
    }

    /// SET STATISTICS of the table (own). An `Err` leaves it as it was.
    pub(crate) fn set_statistics(
        &mut self,
        rows: u128,
        pages: u128,
    ) -> Result<(), TableStatisticsFault>
        ensures given { OnOk result (IsCount rows × IsPageCount pages) }
        ensures set { OnOk result (self.new ≡ change.with_table_statistics self.old
            (record { rows = rows; pages = pages })) }
        ensures refused { IfErr result (RefusesTableStatistics rows pages) }
        ensures err { OnErr result (self.new ≡ self.old) }
    {
        let Some(rows) = row_count(rows) else {
            return Err(TableStatisticsFault::Rows);
        };
        let Some(pages) = page_count(pages) else {
            return Err(TableStatisticsFault::Pages);
        };
        self.statistics = TableStatistics { rows, pages };
        Ok(())
    }

    /// SET STATISTICS of an index (own). An `Err` leaves the table as it was.
    pub(crate) fn set_index_statistics(
        &mut self,
        alloc: Global,
        names: &[Name],
        given: &parse_tree::IndexStatistics,
    ) -> Result<(), StatisticsFault>
        ensures ok { OnOk result (SetsIndex self.old (map name_of names.now) (statistics_of given.now) self.new) }
        ensures refused { IfErr result (RefusesStatistics self.old (map name_of names.now) (statistics_of given.now)) }
        ensures err { OnErr result (self.new ≡ self.old) }
    {
        let list = match self.numbers(alloc, names) {
            Ok(list) => list,
            Err(fault) => return Err(StatisticsFault::List(fault)),
        };
        let Some(place) = self.index_place(list.as_slice()) else {
            return Err(StatisticsFault::NoIndex);
        };
        match kept_statistics(given, self.columns[list[0]].sql_type()) {
            Ok(kept) => {
                self.indexes[place].set_statistics(kept);
                Ok(())
            }
            Err(fault) => Err(fault),
        }
    }
}
