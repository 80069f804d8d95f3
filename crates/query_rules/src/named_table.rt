//! The tables of a FROM, with the names that they go by.

ghost use Rattle.std.specs.Prelude.{◌≡◌, IfSome, IsNone, None, unwrap_or};
ghost use Rattle.std.specs.Option.{option_copied};
ghost use Rattle.definitions.specs.Binding.Scopes as spec;
ghost use Rattle.definitions.specs.Table.{table_named};
ghost use Rattle.parse_tree.specs.Trees.{name_of, source_of};
ghost use Rattle.query_rules.specs.ScopeRules.{named_of};
ghost use Rattle.query_rules.specs.Search.{is_meant};

use catalog::{Database, Table};
use parse_tree::{Name, Source};

/// A table of FROM: the name by which its columns are qualified, its number in the database, and the table
/// (ISO/IEC 9075:1992, 6.3).
#[derive(Clone, Copy)]
pub struct NamedTable<'a> {
    pub name: &'a str,
    pub number: usize,
    pub table: &'a Table,
}

impl NamedTable<'_> {
    /// Whether the table is called by a qualifier, if there is one.
    pub(crate) fn is_meant(&self, qualifier: Option<&str>) -> bool
        ensures { result ≡ is_meant (option_copied qualifier.entry) (named_of self.now) }
    {
        match qualifier {
            Some(qualifier) => self.name == qualifier,
            None => true,
        }
    }
}

/// A table of FROM, where the database has it.
pub(crate) fn named_table<'a>(database: &'a Database, source: &'a Source) -> Option<NamedTable<'a>>
    ensures some { IfSome result (λ t. named_of t ≡ spec.named_table database.now (source_of source.now)) }
    ensures none { IsNone result → table_named database.now (name_of source.now.table) ≡ None }
{
    'tables: for (number, table) in database.tables().iter().enumerate() {
        if table.name() == source.table.text.as_str() {
            return Some(NamedTable {
                name: exposed_name(source).text.as_str(),
                number,
                table,
            });
        }
    }
    None
}

/// The name by which the columns of a table are qualified: a correlation name hides the table's own.
pub(crate) fn exposed_name(source: &Source) -> &Name
    ensures { name_of result.now ≡ unwrap_or (source_of source.now).correlation (source_of source.now).table }
{
    match &source.correlation {
        Some(name) => name,
        None => &source.table,
    }
}
