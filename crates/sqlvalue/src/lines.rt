//! Lines that statements print. Each ends with LF.

ghost use Rattle.std.specs.Prelude.{◌≡◌, ◌++◌, ◌+◌, ◌≤◌, [], OnOk, vec_capacity, vec_len};
ghost use Rattle.definitions.specs.Printing as spec;
ghost use Rattle.definitions.specs.Queries.Outcomes as outcome;
ghost use Rattle.definitions.specs.Queries.Outcomes.{shown};
ghost use Rattle.sqlvalue.specs.RefusalMeaning.{refusal_of};
ghost use Rattle.sqlvalue.specs.Raises.{raise_of};

use crate::raise::Raise;
use crate::refusal::Refusal;
use crate::values::write_decimal;
use itoa::Buffer;
use std::alloc::AllocError;

/// `error Enn SSSSS`, without the line's end.
fn write_error(out: &mut Vec<u8>, label: &str, state: &str) -> Result<(), AllocError>
    ensures { OnOk result (out.new.items ≡ out.old.items ++ spec.error_words label.now state.now) }
{
    out.extend_from_slice(b"error ")?;
    out.extend_from_slice(label.as_bytes())?;
    out.extend_from_slice(b" ")?;
    out.extend_from_slice(state.as_bytes())
}

/// The line of a refused statement.
pub fn write_refusal(out: &mut Vec<u8>, refusal: Refusal) -> Result<(), AllocError>
    ensures { OnOk result (out.new.items ≡ out.old.items ++ spec.refusal_text (refusal_of refusal)) }
{
    write_error(out, refusal.label(), refusal.state())?;
    out.extend_from_slice(b"\n")
}

/// The line of a LOAD whose record of this number is refused.
pub fn write_record_refusal(
    out: &mut Vec<u8>,
    refusal: Refusal,
    number: u64,
) -> Result<(), AllocError>
    ensures { OnOk result (out.new.items ≡ out.old.items ++ spec.record_refusal_text (refusal_of refusal) number) }
{
    write_error(out, refusal.label(), refusal.state())?;
    out.extend_from_slice(b" record ")?;
    write_decimal(out, u128::from(number))?;
    out.extend_from_slice(b"\n")
}

/// The line of a fault of the script's text, at a byte.
pub fn write_fault(out: &mut Vec<u8>, refusal: Refusal, offset: usize) -> Result<(), AllocError>
    ensures { OnOk result (out.new.items ≡ out.old.items ++ spec.fault_text (refusal_of refusal) offset) }
{
    write_error(out, refusal.label(), refusal.state())?;
    out.extend_from_slice(b" at ")?;
    write_decimal(out, offset as u128)?;
    out.extend_from_slice(b"\n")
}

/// The line of an exception that a query raises.
pub fn write_exception(out: &mut Vec<u8>, raise: Raise) -> Result<(), AllocError>
    ensures { OnOk result (out.new.items ≡ out.old.items ++ shown [] (outcome.Exception (raise_of raise))) }
{
    out.extend_from_slice(b"exception ")?;
    out.extend_from_slice(raise.exception.state().as_bytes())?;
    out.extend_from_slice(b"\n")
}

/// How much room the line of a LOAD takes at most.
pub const LOADED_ROOM: usize = 64;

/// The line of a LOAD. It takes no memory, so that what is loaded is told.
pub fn write_loaded(out: &mut Vec<u8>, rows: u64)
    requires { vec_len out.old + LOADED_ROOM ≤ vec_capacity out.old }
    ensures { out.new.items ≡ out.old.items ++ spec.loaded_text rows }
{
    let mut buffer = Buffer::new();
    let digits = buffer.format(rows).as_bytes();
    out.extend_from_slice(digits).unwrap();
    out.extend_from_slice(b" rows loaded\n").unwrap();
}
