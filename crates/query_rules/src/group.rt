//! Grouped blocks: which columns their result columns and HAVING may look at.

ghost use Rattle.std.specs.Prelude.{◌≡◌, IfOk, IfErr, IfSome, IsNone, OnOk, map};
ghost use Rattle.std.specs.Bool.{Decides};
ghost use Rattle.definitions.specs.Table.{Database as Tables};
ghost use Rattle.definitions.specs.Refusal.{UnknownColumn};
ghost use Rattle.definitions.specs.Binding.BoundForm.{own_column};
ghost use Rattle.definitions.specs.Binding.Faults.{IsGrouped, IsNotOwn};
ghost use Rattle.definitions.specs.Binding.Scopes as spec;
ghost use Rattle.query_tree.specs.Bound.{column_of};
ghost use Rattle.query_rules.specs.ScopeRules.{resolution_of};
ghost use Rattle.parse_tree.specs.Trees.{block_of as query_of, column_of as reference_of};
ghost use Rattle.query_rules.specs.Groups.{own_columns, shown_in, SomeNotOwn};
ghost use Rattle.query_rules.specs.Meaning.{bind_refusal, place_of};

use crate::clause::ClauseKind;
use crate::fault::{BindFault, QueryFault};
use crate::function::list_holds_function;
use crate::resolution::Resolution;
use crate::scopes::Scopes;
use parse_tree::{Block, ColumnReference};
use query_tree::BlockColumn;
use std::alloc::Global;

/// Whether a block is grouped (ISO/IEC 9075:1992, 7.8, syntax rule 1; 7.9, syntax rule 7).
pub fn is_grouped(query: &Block) -> bool
    ensures { Decides result (IsGrouped (query_of query.now)) }
{
    if query.having.is_some() || !query.groups.is_empty() {
        return true;
    }
    list_holds_function(&query.list)
}

/// The columns of GROUP BY, which are the block's own (ISO/IEC 9075:1992, 7.7, syntax rule 1).
#[inline(never)]
pub fn group_columns<'q>(
    alloc: Global,
    scopes: &Scopes,
    references: &'q [ColumnReference],
) -> Result<Vec<BlockColumn>, BindFault<'q>>
    ensures ok { IfOk result (λ columns. map column_of columns.items
        ≡ own_columns scopes.now (map reference_of references.now)) }
    ensures own { OnOk result ((db : Tables) → SomeNotOwn db scopes.now (map reference_of references.now) → ⊥) }
    ensures refused { IfErr result (λ f. IfSome (bind_refusal f) (λ r. (r ≡ UnknownColumn) × ((db : Tables) →
        SomeNotOwn db scopes.now (map reference_of references.now)))) }
{
    let mut columns = Vec::new(alloc);
    'references: for reference in references {
        match own_column(scopes.resolve(reference)) {
            Some(column) => columns.push(column)?,
            None => return Err(BindFault::Refused(QueryFault::GroupNotOwn(reference))),
        }
    }
    Ok(columns)
}

/// The column that a reference stands for, if it is one of the block itself.
fn own_column(resolution: Resolution) -> Option<BlockColumn>
    ensures some { IfSome result (λ column. own_column (resolution_of resolution.entry) ≡ column_of column) }
    ensures own { IfSome result (λ _. (db : Tables) (scopes : spec.Scopes) →
        IsNotOwn db scopes (resolution_of resolution.entry) → ⊥) }
    ensures none { IsNone result → (db : Tables) (scopes : spec.Scopes) →
        IsNotOwn db scopes (resolution_of resolution.entry) }
{
    match resolution {
        Resolution::Named { level: 0, found } => Some(found.column),
        _ => None,
    }
}

/// Where the result columns and HAVING of a block stand.
pub fn shown_place(grouped: bool, columns: &[BlockColumn]) -> ClauseKind<'_>
    ensures { place_of result ≡ shown_in grouped (map column_of columns.now) }
{
    if grouped {
        ClauseKind::Grouped(columns)
    } else {
        ClauseKind::Shown
    }
}
