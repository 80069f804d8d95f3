//! Result rows as they are printed.

ghost use Rattle.std.specs.Prelude.{◌≡◌, ◌++◌, [], Contains, IfErr, IfOk, OnOk, codes, get_or, map};
ghost use Rattle.std.specs.List.{AllByRecursion};
ghost use Rattle.std.specs.Fmt.{decimal};
ghost use Rattle.definitions.specs.Printing.{fields_line, line, row_line};
ghost use Rattle.definitions.specs.Value.{Null};
ghost use Rattle.definitions.specs.Queries.BoundBlock as b;
ghost use Rattle.definitions_answers.specs.Lines.{IsInBounds};
ghost use Rattle.result_lines.specs.Faults.{IfRaised};
ghost use Rattle.result_lines.specs.RowAt.{items_of, row_raises_in, row_in, CanGive};
ghost use Rattle.result_lines.specs.Rows.{row_of};
ghost use Rattle.sqlvalue.specs.Owned.{owned_value};

use crate::fault::AnswerFault;
use crate::printed_field::write_field;
use crate::result_row::ResultRow;
use expr::{Environment, value};
use query_tree::Item;
use sqlvalue::{OwnedValue, write_decimal};
use std::alloc::{AllocError, Global};

/// The names of the result columns.
pub fn write_header(out: &mut Vec<u8>, items: &[Item]) -> Result<(), AllocError>
    ensures { OnOk result (out.new.items ≡ out.old.items ++ fields_line (map (λ (i : b.Item).
        i.name) (items_of items.now))) }
{
    'items: for (i, item) in items.iter().enumerate() {
        if i > 0 {
            out.push(b'|')?;
        }
        out.extend_from_slice(item.name.as_bytes())?;
    }
    out.push(b'\n')?;
    Ok(())
}

/// The values of the result columns; or the first exception that one of them raises.
pub fn write_row<S: Environment>(
    out: &mut Vec<u8>,
    items: &[Item],
    env: &S,
) -> Result<(), AnswerFault>
    requires { AllByRecursion (CanGive (S.environment env.now)) (items_of items.now) }
    ensures text { OnOk result (out.new.items ≡ out.old.items ++ row_line
        (row_in (S.environment env.now) (items_of items.now))) }
    ensures quiet { OnOk result (row_raises_in (S.environment env.now) (items_of items.now) ≡ []) }
    ensures bounded { OnOk result (AllByRecursion IsInBounds (row_in (S.environment env.now) (items_of items.now))) }
    ensures raised { IfErr result (λ fault. IfRaised fault
        (Contains (row_raises_in (S.environment env.now) (items_of items.now)))) }
{
    'items: for (i, item) in items.iter().enumerate() {
        if i > 0 {
            out.push(b'|')?;
        }
        write_field(out, &value(&item.value, env)?)?;
    }
    out.push(b'\n')?;
    Ok(())
}

/// The values of the result columns, kept; or the first exception that one of them raises.
pub fn keep_row<S: Environment>(
    alloc: Global,
    items: &[Item],
    env: &S,
) -> Result<ResultRow, AnswerFault>
    requires { AllByRecursion (CanGive (S.environment env.now)) (items_of items.now) }
    ensures row { IfOk result (λ row. row_of row ≡ row_in (S.environment env.now) (items_of items.now)) }
    ensures quiet { OnOk result (row_raises_in (S.environment env.now) (items_of items.now) ≡ []) }
    ensures bounded { OnOk result (AllByRecursion IsInBounds (row_in (S.environment env.now) (items_of items.now))) }
    ensures raised { IfErr result (λ fault. IfRaised fault
        (Contains (row_raises_in (S.environment env.now) (items_of items.now)))) }
{
    let mut values = Vec::new(alloc);
    'items: for item in items {
        let kept = OwnedValue::new(alloc, &value(&item.value, env)?)?;
        values.push(kept)?;
    }
    Ok(ResultRow { values })
}

/// The first value of the result columns, kept; null where there is none. All are evaluated, and the first exception that one of them
/// raises is told.
pub fn keep_first<S: Environment>(
    alloc: Global,
    items: &[Item],
    env: &S,
) -> Result<OwnedValue, AnswerFault>
    requires { AllByRecursion (CanGive (S.environment env.now)) (items_of items.now) }
    ensures value { IfOk result (λ first. owned_value first
        ≡ get_or (row_in (S.environment env.now) (items_of items.now)) 0 Null) }
    ensures quiet { OnOk result (row_raises_in (S.environment env.now) (items_of items.now) ≡ []) }
    ensures raised { IfErr result (λ fault. IfRaised fault
        (Contains (row_raises_in (S.environment env.now) (items_of items.now)))) }
{
    let mut first = OwnedValue::Null;
    'items: for (i, item) in items.iter().enumerate() {
        let value = value(&item.value, env)?;
        if i == 0 {
            first = OwnedValue::new(alloc, &value)?;
        }
    }
    Ok(first)
}

/// Evaluates the result columns, and keeps nothing; or tells the first exception that one of them raises.
pub fn evaluate_row<S: Environment>(items: &[Item], env: &S) -> Result<(), AnswerFault>
    requires { AllByRecursion (CanGive (S.environment env.now)) (items_of items.now) }
    ensures quiet { OnOk result (row_raises_in (S.environment env.now) (items_of items.now) ≡ []) }
    ensures raised { IfErr result (λ fault. IfRaised fault
        (Contains (row_raises_in (S.environment env.now) (items_of items.now)))) }
{
    'items: for (i, item) in items.iter().enumerate() {
        let _value = value(&item.value, env)?;
    }
    Ok(())
}

/// A row that was kept, as it is printed.
pub fn write_kept(out: &mut Vec<u8>, row: &ResultRow) -> Result<(), AllocError>
    ensures { OnOk result (out.new.items ≡ out.old.items ++ row_line (row_of row.now)) }
{
    'values: for (i, kept) in row.values.iter().enumerate() {
        if i > 0 {
            out.push(b'|')?;
        }
        write_field(out, &kept.value())?;
    }
    out.push(b'\n')?;
    Ok(())
}

/// How many rows there are.
pub fn write_count(out: &mut Vec<u8>, count: u64) -> Result<(), AllocError>
    ensures { OnOk result (out.new.items ≡ out.old.items ++ line (decimal count ++ codes " rows")) }
{
    write_decimal(out, u128::from(count))?;
    out.extend_from_slice(b" rows\n")
}
