//! Binds column references and literals, with their types.

ghost use Rattle.std.specs.Prelude.{◌≡◌, true, IfOk, IfErr, IfSome, OnOk, map};
ghost use Rattle.std.specs.Bool.{Decides};
ghost use Rattle.definitions.specs.Lists.{AnyOf};
ghost use Rattle.definitions.specs.Statement.{Column, String};
ghost use Rattle.definitions.specs.Table.{Database as Tables};
ghost use Rattle.definitions.specs.ValueType.{type_of};
ghost use Rattle.definitions.specs.Binding.Scopes as spec;
ghost use Rattle.definitions.specs.Binding.BoundForm.{bound_column};
ghost use Rattle.query_tree.specs.Bound.{value_of, value_type_of};
ghost use Rattle.query_tree.specs.Bound.{column_of as block_column_of};
ghost use Rattle.sqlvalue.specs.Meaning.{type_of as sql_type_of};
ghost use Rattle.query_rules.specs.ScopeRules.{found_of};
ghost use Rattle.parse_tree.specs.Trees.{column_of, numeral_of, text_of};
ghost use Rattle.query_rules.specs.Judging as judging;
ghost use Rattle.query_rules.specs.Judging.{PartFaulty};
ghost use Rattle.query_rules.specs.Leaves.{BindsLeaf, InSight, MayStand, MayNotStand};
ghost use Rattle.query_rules.specs.Meaning.{bind_refusal, query_refusal, place_of};

use crate::clause::{Clause, ClauseKind};
use crate::fault::{BindFault, QueryFault};
use crate::resolution::{Found, Resolution};
use parse_tree::{ColumnReference, Numeral, StringLiteral};
use query_tree::{BlockColumn, NumberLiteral, ValueExpr, ValueType};
use std::alloc::{AllocError, Global};

/// The greatest scale of a number (own).
pub const MAX_SCALE: u8 = 18;

/// A value that is bound, and its type.
#[derive(Drop)]
pub struct Typed {
    pub value: ValueExpr,
    pub value_type: ValueType,
}

/// A column in sight (ISO/IEC 9075:1992, 6.4).
#[inline(never)]
pub fn column<'q>(clause: &Clause, reference: &'q ColumnReference) -> Result<Typed, BindFault<'q>>
    requires { InSight clause.now.database.now clause.now.scopes.now }
    ensures ok { IfOk result (λ t. BindsLeaf clause.now.database.now clause.now.scopes.now (place_of clause.now.place)
        (Column (column_of reference.now)) (value_of t.value) (value_type_of t.value_type)) }
    ensures refused { IfErr result (λ f. IfSome (bind_refusal f)
        (PartFaulty clause.now.database.now clause.now.scopes.now (place_of clause.now.place)
        (Column (column_of reference.now)))) }
{
    match clause.scopes.resolve(reference) {
        Resolution::NotThere => Err(BindFault::Refused(QueryFault::NoColumn(reference))),
        Resolution::Ambiguous => Err(BindFault::Refused(QueryFault::AmbiguousColumn(reference))),
        Resolution::Named { level, found } => {
            match judge_place(clause.place, level, found.column, reference) {
                Ok(()) => Ok(found_column(level, found)),
                Err(fault) => Err(BindFault::Refused(fault)),
            }
        }
    }
}

fn judge_place<'a>(
    place: ClauseKind,
    level: usize,
    column: BlockColumn,
    reference: &'a ColumnReference,
) -> Result<(), QueryFault<'a>>
    ensures ok { OnOk result (MayStand (place_of place.entry) level (block_column_of column)) }
    ensures refused { IfErr result (λ f. MayNotStand (place_of place.entry) level (block_column_of column)
        (query_refusal f)) }
{
    match place {
        ClauseKind::Argument if level > 0 => Err(QueryFault::OuterInFunction(reference)),
        ClauseKind::Grouped(columns) if level == 0 && !has_column(columns, column) => {
            Err(QueryFault::Ungrouped(reference))
        }
        _ => Ok(()),
    }
}

fn has_column(columns: &[BlockColumn], column: BlockColumn) -> bool
    ensures { Decides result (AnyOf (λ c. c ≡ block_column_of column) (map block_column_of columns.now)) }
{
    for other in columns {
        if *other == column {
            return true;
        }
    }
    false
}

/// A column of the block of a level.
fn found_column(level: usize, found: Found) -> Typed
    ensures value { value_of result.value ≡ bound_column (spec.Named level (found_of found.entry)) }
    ensures typed { value_type_of result.value_type ≡ type_of (sql_type_of found.entry.sql_type) }
{
    let value = if level == 0 {
        ValueExpr::Column {
            column: found.column,
            sql_type: found.sql_type,
        }
    } else {
        ValueExpr::Parameter {
            between: level - 1,
            column: found.column,
            sql_type: found.sql_type,
        }
    };
    Typed {
        value,
        value_type: ValueType::from(found.sql_type),
    }
}

/// A number as it is written (ISO/IEC 9075:1992, 5.3; the limit is own).
pub fn number(numeral: &Numeral) -> Result<Typed, QueryFault<'_>>
    ensures ok { IfOk result (λ t. (db : Tables) (scopes : spec.Scopes) (place : judging.ClauseKind) →
        BindsLeaf db scopes place (numeral_of numeral.now) (value_of t.value) (value_type_of t.value_type)) }
    ensures refused { IfErr result (λ f. (db : Tables) (scopes : spec.Scopes) (place : judging.ClauseKind) →
        PartFaulty db scopes place (numeral_of numeral.now) (query_refusal f)) }
{
    if numeral.scale > MAX_SCALE {
        return Err(QueryFault::GreatScale(numeral));
    }
    Ok(Typed {
        value: ValueExpr::Number(NumberLiteral {
            units: numeral.units,
            digits: numeral.digits,
            scale: numeral.scale,
        }),
        value_type: ValueType::Number {
            scale: numeral.scale,
        },
    })
}

/// A string (ISO/IEC 9075:1992, 5.3).
pub fn string(alloc: Global, literal: &StringLiteral) -> Result<Typed, AllocError>
    ensures { IfOk result (λ t. (db : Tables) (scopes : spec.Scopes) (place : judging.ClauseKind) →
        BindsLeaf db scopes place (String (text_of literal.now)) (value_of t.value) (value_type_of t.value_type)) }
{
    Ok(Typed {
        value: ValueExpr::Text(String::from_str(alloc, literal.text.as_str())?),
        value_type: ValueType::Text,
    })
}
