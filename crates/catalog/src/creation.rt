//! The columns and indexes of a new table.

ghost use Rattle.std.specs.Prelude.{◌≡◌, ◌<◌, ◌∷◌, [], true, IfOk, IfErr, OnOk, length, map};
ghost use Rattle.definitions.specs.Table.{is_key, is_primary};
ghost use Rattle.definitions.specs.Change.{key_indexes as indexes_of_keys};
ghost use Rattle.definitions.specs.Faults.{count_of};
ghost use Rattle.loading.specs.Stored.{headers, AreFilled};
ghost use Rattle.indexes.specs.Indexes.{StoredIndex, IsIndexOn};
ghost use Rattle.parse_tree.specs.Trees.{constraint_of, definitions_of};
ghost use Rattle.catalog.specs.Creates.{AreJudged, AreTypes, RefusesDefinitions, RefusesTypes, empty_column, without_rows};
ghost use Rattle.catalog.specs.Growth.{AreOrdered};

use crate::fault::CreateFault;
use crate::naming::second_twin;
use crate::table::MAX_INDEXES;
use indexes::{Index, UniqueFault};
use loading::TableColumn;
use parse_tree::{ColumnDefinition, Constraint, MAX_COLUMNS};
use std::alloc::Global;

/// Judges definitions by their number, their names and their constraints.
pub(crate) fn judge_definitions(definitions: &[ColumnDefinition]) -> Result<(), CreateFault>
    ensures ok { OnOk result (AreJudged (definitions_of definitions.now)) }
    ensures refused { IfErr result (RefusesDefinitions (definitions_of definitions.now)) }
{
    if definitions.len() > MAX_COLUMNS {
        return Err(CreateFault::ManyColumns);
    }
    if let Some(column) = second_twin(definitions) {
        return Err(CreateFault::ColumnTwice { column });
    }
    if key_count(definitions) > MAX_INDEXES {
        return Err(CreateFault::ManyKeys);
    }
    if primary_count(definitions) > 1 {
        return Err(CreateFault::TwoPrimaryKeys {
            column: last_primary(definitions),
        });
    }
    Ok(())
}

fn key_count(definitions: &[ColumnDefinition]) -> usize
    ensures { result ≡ count_of is_key (definitions_of definitions.now) }
{
    let mut count = 0;
    for definition in definitions {
        if is_unique(definition.constraint) {
            count += 1;
        }
    }
    count
}

fn primary_count(definitions: &[ColumnDefinition]) -> usize
    ensures { result ≡ count_of is_primary (definitions_of definitions.now) }
{
    let mut count = 0;
    for definition in definitions {
        if is_primary_key(definition.constraint) {
            count += 1;
        }
    }
    count
}

/// The place of the last column that is PRIMARY KEY.
fn last_primary(definitions: &[ColumnDefinition]) -> usize {
    let mut last = 0;
    for (place, definition) in definitions.iter().enumerate() {
        if is_primary_key(definition.constraint) {
            last = place;
        }
    }
    last
}

/// Whether no value may come twice (ISO/IEC 9075:1992, 11.7).
fn is_unique(constraint: Constraint) -> bool
    ensures { result ≡ is_key (constraint_of constraint) }
{
    match constraint {
        Constraint::Unique | Constraint::PrimaryKey => true,
        Constraint::Nullable | Constraint::NotNull => false,
    }
}

fn is_primary_key(constraint: Constraint) -> bool
    ensures { result ≡ is_primary (constraint_of constraint) }
{
    match constraint {
        Constraint::PrimaryKey => true,
        Constraint::Nullable | Constraint::NotNull | Constraint::Unique => false,
    }
}

/// The columns that definitions make, without values.
pub(crate) fn new_columns(
    alloc: Global,
    definitions: &[ColumnDefinition],
) -> Result<Vec<TableColumn>, CreateFault>
    ensures ok { IfOk result (λ columns. columns.items ≡ map empty_column (definitions_of definitions.now)) }
    ensures types { OnOk result (AreTypes (definitions_of definitions.now)) }
    ensures err { IfErr result (RefusesTypes (definitions_of definitions.now)) }
{
    let mut made = Vec::new(alloc);
    for (place, definition) in definitions.iter().enumerate() {
        let sql_type = match definition.declared.sql_type() {
            Ok(sql_type) => sql_type,
            Err(fault) => {
                return Err(CreateFault::Type {
                    column: place,
                    fault,
                });
            }
        };
        let name = definition.name.text.as_str();
        made.push(TableColumn::new(alloc, name, sql_type, definition.constraint)?)?;
    }
    Ok(made)
}

/// A unique index for each UNIQUE or PRIMARY KEY column of a table without rows. An `Err` comes of memory alone.
pub(crate) fn key_indexes(
    alloc: Global,
    definitions: &[ColumnDefinition],
    columns: &[TableColumn],
) -> Result<Vec<Index>, CreateFault>
    requires same { length columns.now ≡ length definitions.now }
    requires filled { AreFilled 0 columns.now }
    ensures ok { IfOk result (λ made. map (λ (i : StoredIndex). i.index) made.items
        ≡ without_rows (headers columns.now) (indexes_of_keys 0 (definitions_of definitions.now))) }
    ensures ordered { IfOk result (λ made. AreOrdered columns.now 0 made.items) }
    ensures err { IfErr result (λ fault. fault ≡ CreateFault.Memory) }
{
    let mut made = Vec::new(alloc);
    for (number, definition) in definitions.iter().enumerate() {
        if is_unique(definition.constraint) {
            made.push(key_index(alloc, columns, number)?)?;
        }
    }
    Ok(made)
}

/// The unique index on a column of a table without rows. An `Err` comes of memory alone.
fn key_index(alloc: Global, columns: &[TableColumn], number: usize) -> Result<Index, CreateFault>
    requires there { number < length columns.now }
    requires filled { AreFilled 0 columns.now }
    ensures ok { IfOk result (IsIndexOn (headers columns.now) [] (number ∷ []) true) }
    ensures err { IfErr result (λ fault. fault ≡ CreateFault.Memory) }
{
    let mut numbers = Vec::new(alloc);
    numbers.push(number)?;
    match Index::new(alloc, columns, 0, numbers, true) {
        Ok(index) => Ok(index),
        Err(UniqueFault::Repeated(_)) => unreachable!("a table without rows repeats no key"),
        Err(UniqueFault::Memory) => Err(CreateFault::Memory),
    }
}
