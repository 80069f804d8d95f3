//! Values as fields of printed rows, numbers of no more than 64 bits divided by as many.

ghost use Rattle.std.specs.Prelude.{◌≡◌, ◌<◌, ◌^◌, ◌++◌, OnOk};
ghost use Rattle.definitions.specs.Printing.{fraction_text, number_text, value_text};
ghost use Rattle.sqlvalue.specs.Meaning.{value_of};

use itoa::Buffer;
use sqlvalue::{Value, write_value};
use std::alloc::AllocError;

/// A value as a field of a printed row.
pub(crate) fn write_field(out: &mut Vec<u8>, value: &Value) -> Result<(), AllocError>
    ensures { OnOk result (out.new.items ≡ out.old.items ++ value_text (value_of value.now)) }
{
    if let Value::Num(number) = value {
        if let Ok(units) = i64::try_from(number.units) {
            let one = 10u64.pow(u32::from(number.scale));
            return write_number(out, units, number.scale, one);
        }
    }
    write_value(out, value)
}

/// A number of 64 bits, at a scale of which so many units are one.
pub(crate) fn write_number(
    out: &mut Vec<u8>,
    units: i64,
    scale: u8,
    one: u64,
) -> Result<(), AllocError>
    requires { one ≡ 10 ^ scale }
    ensures { OnOk result (out.new.items ≡ out.old.items ++ number_text units scale) }
{
    let mut buffer = Buffer::new();
    if scale == 0 {
        return out.extend_from_slice(buffer.format(units).as_bytes());
    }
    if units < 0 {
        out.extend_from_slice(b"-")?;
    }
    let size = units.unsigned_abs();
    out.extend_from_slice(buffer.format(size / one).as_bytes())?;
    write_fraction(out, size % one, scale)
}

/// The digits behind the point, of which there are some.
fn write_fraction(out: &mut Vec<u8>, rest: u64, scale: u8) -> Result<(), AllocError>
    requires { 0 < scale }
    ensures { OnOk result (out.new.items ≡ out.old.items ++ fraction_text scale rest) }
{
    let mut buffer = Buffer::new();
    let digits = buffer.format(rest).as_bytes();
    out.extend_from_slice(b".")?;
    'zeros: for _zero in 0..usize::from(scale).saturating_sub(digits.len()) {
        out.extend_from_slice(b"0")?;
    }
    out.extend_from_slice(digits)
}
