//! The tables of one FROM.

ghost use Rattle.std.specs.Prelude.{◌≡◌, IfOk, IfErr, IfSome, OnOk, map};
ghost use Rattle.std.specs.Option.{option_copied};
ghost use Rattle.std.specs.List.{list_any};
ghost use Rattle.definitions.specs.Binding.Scopes as spec;
ghost use Rattle.definitions.specs.Binding.Scopes.{NotThere, is_called, only_one, scope_of, with_name};
ghost use Rattle.definitions.specs.Table.{AreDistinct};
ghost use Rattle.parse_tree.specs.Trees.{source_of};
ghost use Rattle.query_rules.specs.SourceFaults.{SourcesFaulty, source_refusal};
ghost use Rattle.query_rules.specs.ScopeRules.{named_of, resolution_of};
ghost use Rattle.query_rules.specs.Search.{is_meant};

use crate::named_table::{NamedTable, exposed_name, named_table};
use crate::resolution::Resolution;
use crate::scope_fault::SourceFault;
use crate::table_columns::with_columns;
use catalog::Database;
use parse_tree::Source;
use std::alloc::Global;

/// The tables of a FROM, or a fault that it has.
pub(crate) fn tables<'d, 'q: 'd>(
    alloc: Global,
    database: &'d Database,
    sources: &'q [Source],
) -> Result<Vec<NamedTable<'d>>, SourceFault<'q>>
    ensures ok { IfOk result (λ scope. map named_of scope.items ≡ scope_of database.now (map source_of sources.now)) }
    ensures distinct { OnOk result (AreDistinct (map (λ (t : spec.NamedTable).
        t.name) (scope_of database.now (map source_of sources.now)))) }
    ensures refused { IfErr result (λ f. IfSome (source_refusal f)
        (SourcesFaulty database.now (map source_of sources.now))) }
{
    let mut scope: Vec<NamedTable> = Vec::new(alloc);
    'sources: for source in sources {
        let Some(table) = named_table(database, source) else {
            return Err(SourceFault::NoTable(&source.table));
        };
        if has_name(&scope, table.name) {
            return Err(SourceFault::NameTwice(exposed_name(source)));
        }
        scope.push(table)?;
    }
    Ok(scope)
}

/// Whether a table is called by a name.
pub(crate) fn has_name(scope: &[NamedTable], name: &str) -> bool
    ensures { result ≡ list_any (is_called name.now) (map named_of scope.now) }
{
    'tables: for table in scope {
        if table.name == name {
            return true;
        }
    }
    false
}

/// What a name stands for in the tables of a FROM that are called by its qualifier; in all of them, if it has none.
pub(crate) fn only_column<'a>(
    scope: &[NamedTable<'a>],
    level: usize,
    qualifier: Option<&str>,
    name: &str,
) -> Resolution<'a>
    ensures { resolution_of result ≡ only_one level (with_name name.now
        (spec.columns_where (is_meant (option_copied qualifier.entry)) 0 (map named_of scope.now))) NotThere }
{
    let mut resolution = Resolution::NotThere;
    'tables: for (place, table) in scope.iter().enumerate() {
        if table.is_meant(qualifier) {
            resolution = with_columns(resolution, level, place, table.table, name);
        }
    }
    resolution
}
