//! The tables in sight of a query block.

ghost use Rattle.std.specs.Prelude.{◌≡◌, ◌≤◌, ◌∷◌, [], IfOk, IfErr, IfSome, IsTrue, OnOk, length, map};
ghost use Rattle.definitions.specs.Binding.Scopes as spec;
ghost use Rattle.definitions.specs.Binding.Scopes.{all_columns, are_there, own_scope, scope_of};
ghost use Rattle.definitions.specs.Limits.{most_from_tables};
ghost use Rattle.definitions.specs.Table.{AreDistinct};
ghost use Rattle.parse_tree.specs.Trees.{column_of, source_of};
ghost use Rattle.query_rules.specs.SourceFaults.{SourcesFaulty, source_refusal};
ghost use Rattle.query_rules.specs.ScopeRules.{found_of, resolution_of};

use crate::named_table::NamedTable;
use crate::resolution::{Found, Resolution};
use crate::scope::{has_name, only_column, tables};
use crate::scope_fault::SourceFault;
use crate::table_columns::push_columns;
use catalog::Database;
use parse_tree::{ColumnReference, MAX_FROM_TABLES, Source};
use std::alloc::{AllocError, Global};
use std::marker::Model;

/// The tables in sight of a query block: its own, then those of the block around it, and so on.
#[derive(Drop)]
pub struct Scopes<'a> {
    scopes: Vec<Vec<NamedTable<'a>>>,
}

impl<'a> Model for Scopes<'a> {
    ghost use Rattle.definitions.specs.Binding.Scopes.{Scopes};
    ghost use Rattle.query_rules.specs.ScopeRules.{AreFew, scopes_of};

    ghost Value = { Scopes };

    ghost view = { λ s. scopes_of s.scopes.items };

    ghost invariant = { λ s. AreFew (scopes_of s.scopes.items) };
}

impl<'a> Scopes<'a> {
    /// Those outside all blocks: none.
    pub fn outside(alloc: Global) -> Scopes<'a>
        ensures { result ≡ [] }
    {
        Scopes {
            scopes: Vec::new(alloc),
        }
    }

    /// Those of a block inside: the tables of its FROM, and then these; or a fault that FROM has (ISO/IEC 9075:1992, 6.3;
    /// the limit is own). Of several faults any one may be told.
    #[inline(never)]
    pub fn inside<'q: 'a>(
        &self,
        alloc: Global,
        database: &'a Database,
        sources: &'q [Source],
    ) -> Result<Scopes<'a>, SourceFault<'q>>
        ensures ok { IfOk result (λ s. s ≡ scope_of database.now (map source_of sources.now) ∷ self.now) }
        ensures there { OnOk result (IsTrue (are_there (scope_of database.now (map source_of sources.now) ∷ []))) }
        ensures all_there { IfOk result (λ s. IsTrue (are_there s)) }
        ensures distinct { OnOk result (AreDistinct (map (λ (t : spec.NamedTable).
            t.name) (scope_of database.now (map source_of sources.now)))) }
        ensures few { OnOk result (length sources.now ≤ most_from_tables) }
        ensures refused { IfErr result (λ f. IfSome (source_refusal f)
            (SourcesFaulty database.now (map source_of sources.now))) }
    {
        if sources.len() > MAX_FROM_TABLES {
            return Err(SourceFault::ManyTables {
                sources: sources.len(),
                beyond: &sources[MAX_FROM_TABLES].table,
            });
        }
        let own = match tables(alloc, database, sources) {
            Ok(own) => own,
            Err(fault) => return Err(fault),
        };
        let mut scopes = Vec::new(alloc);
        scopes.push(own)?;
        'around: for scope in &self.scopes {
            scopes.push(Vec::from_slice(alloc, scope)?)?;
        }
        Ok(Scopes { scopes })
    }

    /// What a column reference stands for (ISO/IEC 9075:1992, 6.4).
    pub fn resolve(&self, reference: &ColumnReference) -> Resolution<'a>
        ensures { resolution_of result ≡ spec.resolve self.now (column_of reference.now) }
    {
        let name = reference.name.text.as_str();
        match &reference.qualifier {
            Some(qualifier) => self.resolve_qualified(qualifier.text.as_str(), name),
            None => self.resolve_name(name),
        }
    }

    /// A name without a qualifier is sought in the block's own FROM, and then outward.
    fn resolve_name(&self, name: &str) -> Resolution<'a>
        ensures { resolution_of result ≡ spec.resolve_name 0 self.now name.now }
    {
        'scopes: for (level, scope) in self.scopes.iter().enumerate() {
            let resolution = only_column(scope, level, None, name);
            if resolution.is_there() {
                return resolution;
            }
        }
        Resolution::NotThere
    }

    /// A qualifier belongs to the nearest FROM that has its name, whether or not that table has the column.
    fn resolve_qualified(&self, qualifier: &str, name: &str) -> Resolution<'a>
        ensures { resolution_of result ≡ spec.resolve_qualified 0 self.now qualifier.now name.now }
    {
        'scopes: for (level, scope) in self.scopes.iter().enumerate() {
            if has_name(scope, qualifier) {
                return only_column(scope, level, Some(qualifier), name);
            }
        }
        Resolution::NotThere
    }

    /// The columns of the block's own tables, in the order of FROM (ISO/IEC 9075:1992, 7.9, syntax rule 4).
    #[inline(never)]
    pub fn own_columns(&self, alloc: Global) -> Result<Vec<Found<'a>>, AllocError>
        ensures { IfOk result (λ columns. map found_of columns.items ≡ all_columns (own_scope self.now)) }
    {
        let mut columns = Vec::new(alloc);
        let Some(own) = self.scopes.first() else {
            return Ok(columns);
        };
        'tables: for (place, table) in own.iter().enumerate() {
            push_columns(&mut columns, place, table.table)?;
        }
        Ok(columns)
    }

    /// The numbers of the block's own tables in the database.
    #[inline(never)]
    pub fn own_tables(&self, alloc: Global) -> Result<Vec<usize>, AllocError>
        ensures { IfOk result (λ numbers. numbers.items
            ≡ map (λ (t : spec.NamedTable). t.number) (own_scope self.now)) }
    {
        match self.scopes.first() {
            Some(own) => own.iter().map(|table| table.number).collect(alloc),
            None => Ok(Vec::new(alloc)),
        }
    }
}
