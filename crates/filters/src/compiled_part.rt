//! Parts of conjuncts that are neither AND nor OR, and the scans that answer them.

ghost use Rattle.std.specs.Prelude.{◌≡◌, IfOk};
ghost use Rattle.definitions.specs.Queries.BoundBlock as spec;
ghost use Rattle.query_tree.specs.Bound.{condition_of, value_of as tree_of};
ghost use Rattle.predicates.specs.Naming.{NamesFew};
ghost use Rattle.predicates.specs.Terms.{terms_of};
ghost use Rattle.predicates.specs.Views.{terms_in};
ghost use Rattle.filters.specs.Comparisons.{is_null_beside, is_scanned};
ghost use Rattle.filters.specs.Compiled.{is_scan, IsPart, IsScanOf};

use crate::comparison::{Comparisons, comparisons_of};
use crate::member_list::{MemberList, list_of};
use predicates::{ColumnTerms, column_terms};
use query_tree::{Condition, ValueExpr};
use std::alloc::{AllocError, Global};

/// Such a part, and the scan that answers it.
#[derive(Drop)]
pub struct CompiledPart<'s> {
    pub(crate) condition: &'s Condition,
    pub(crate) scan: Scan<'s>,
}

/// What scans of a column of a table answer of a part.
#[derive(Drop)]
pub enum Scan<'s> {
    /// Comparisons of the column, where their other sides have values.
    Compared(Comparisons<'s>),
    /// `column IS NULL` (ISO/IEC 9075:1992, 8.6).
    Nulls { negated: bool, column: usize },
    /// `column IN (members)` (8.4), where the members have values.
    Listed(MemberList<'s>),
    /// Nothing: the part is evaluated on rows, many together or one by one.
    Nothing,
}

/// A part of a conjunct with its scan.
pub(crate) fn part_of(
    alloc: Global,
    condition: &Condition,
    table: usize,
) -> Result<CompiledPart<'_>, AllocError>
    requires few { NamesFew (condition_of condition.now) }
    ensures condition { IfOk result (λ part. condition_of part.condition.now ≡ condition_of condition.now) }
    ensures part { IfOk result (IsPart table) }
{
    part_by_terms(alloc, condition, column_terms(condition), table)
}

/// The same, where what the part says of columns is known.
pub(crate) fn part_by_terms<'s>(
    alloc: Global,
    condition: &'s Condition,
    terms: ColumnTerms<'s>,
    table: usize,
) -> Result<CompiledPart<'s>, AllocError>
    requires few { NamesFew (condition_of condition.now) }
    requires said { terms_in terms ≡ terms_of (condition_of condition.now) }
    ensures condition { IfOk result (λ part. condition_of part.condition.now ≡ condition_of condition.now) }
    ensures part { IfOk result (IsPart table) }
{
    let scan = scan_of(alloc, condition, terms, table)?;
    Ok(CompiledPart { condition, scan })
}

/// The scan that answers a part, where one does.
fn scan_of<'s>(
    alloc: Global,
    condition: &'s Condition,
    terms: ColumnTerms<'s>,
    table: usize,
) -> Result<Scan<'s>, AllocError>
    requires few { NamesFew (condition_of condition.now) }
    requires said { terms_in terms ≡ terms_of (condition_of condition.now) }
    ensures same { IfOk result (IsScanOf table (condition_of condition.now)) }
    ensures some { IfOk result (λ scan. is_scan scan ≡ is_scanned table (condition_of condition.now)) }
{
    if let Some(comparisons) = comparisons_of(terms, table) {
        return Ok(Scan::Compared(comparisons));
    }
    if let Condition::IsNull { negated, value } = condition {
        return Ok(nulls_of(*negated, value, table));
    }
    match list_of(alloc, condition, table)? {
        Some(list) => Ok(Scan::Listed(list)),
        None => Ok(Scan::Nothing),
    }
}

/// The scan for the rows in which a value is null, or in which it isn't, where it is a column of the table.
fn nulls_of(negated: bool, value: &ValueExpr, table: usize) -> Scan<'static>
    ensures same { IsScanOf table (spec.IsNull negated (tree_of value.now)) result }
    ensures some { is_scan result ≡ is_null_beside table (spec.IsNull negated (tree_of value.now)) }
{
    match value {
        ValueExpr::Column { column, .. } if column.table == table => Scan::Nulls {
            negated,
            column: column.number,
        },
        _ => Scan::Nothing,
    }
}
