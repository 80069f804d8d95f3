//! Values as fields of printed rows.

ghost use Rattle.std.specs.Prelude.{◌≡◌, ◌<◌, ◌++◌, ◌==◌, IfSome, OnOk, decimal, length, replicate};
ghost use Rattle.std.specs.List.{position_from};
ghost use Rattle.definitions.specs.Characters.{quote, zero_digit};
ghost use Rattle.definitions.specs.Printing as spec;
ghost use Rattle.definitions.specs.Value as model;
ghost use Rattle.sqlvalue.specs.Meaning.{value_of};

use crate::number::Num;
use crate::value::Value;
use itoa::Buffer;
use std::alloc::AllocError;

/// A value as a field of a printed row.
pub fn write_value(out: &mut Vec<u8>, value: &Value) -> Result<(), AllocError>
    ensures { OnOk result (out.new.items ≡ out.old.items ++ spec.value_text (value_of value.now)) }
{
    match value {
        Value::Null => out.extend_from_slice(b"NULL"),
        Value::Num(number) => write_number(out, *number),
        Value::Text(text) => write_text(out, text.as_bytes()),
    }
}

/// A number: a minus if it is negative, the whole part, and as many digits behind the point as
/// its scale says.
fn write_number(out: &mut Vec<u8>, number: Num) -> Result<(), AllocError>
    ensures { OnOk result (out.new.items ≡ out.old.items ++ spec.number_text number.units number.scale) }
{
    if number.is_negative() {
        out.extend_from_slice(b"-")?;
    }
    let (whole, rest) = number.parts();
    write_decimal(out, whole)?;
    write_fraction(out, number.scale, rest)
}

/// The digits behind the point, where there are any.
fn write_fraction(out: &mut Vec<u8>, scale: u8, rest: u128) -> Result<(), AllocError>
    ensures { OnOk result (out.new.items ≡ out.old.items ++ spec.fraction_text scale rest) }
{
    if scale == 0 {
        return Ok(());
    }
    out.extend_from_slice(b".")?;
    let mut buffer = Buffer::new();
    let digits = buffer.format(rest).as_bytes();
    write_zeros(out, usize::from(scale).saturating_sub(digits.len()))?;
    out.extend_from_slice(digits)
}

fn write_zeros(out: &mut Vec<u8>, count: usize) -> Result<(), AllocError>
    ensures { OnOk result (out.new.items ≡ out.old.items ++ replicate count zero_digit) }
{
    'zeros: for _zero in 0..count {
        out.push(b'0')?;
    }
    Ok(())
}

/// A whole number without a sign. Most fit into 64 bits, which are quicker to divide.
pub fn write_decimal(out: &mut Vec<u8>, number: u128) -> Result<(), AllocError>
    ensures { OnOk result (out.new.items ≡ out.old.items ++ decimal number) }
{
    let mut buffer = Buffer::new();
    let digits = match u64::try_from(number) {
        Ok(short) => buffer.format(short),
        Err(_) => buffer.format(number),
    };
    out.extend_from_slice(digits.as_bytes())
}

/// A text between quotes, those inside doubled: what stands between two quotes is copied at once.
fn write_text(out: &mut Vec<u8>, text: &[u8]) -> Result<(), AllocError>
    ensures { OnOk result (out.new.items ≡ out.old.items ++ spec.value_text (model.Text text.now)) }
{
    out.push(b'\'')?;
    let mut rest = text;
    'runs: while let Some(at) = quote_place(rest) {
        let (run, behind) = rest.split_at(at + 1);
        out.extend_from_slice(run)?;
        out.push(b'\'')?;
        rest = behind;
    }
    out.extend_from_slice(rest)?;
    out.push(b'\'')?;
    Ok(())
}

/// Where the first quote of a text stands.
fn quote_place(text: &[u8]) -> Option<usize>
    ensures place { result ≡ position_from (λ byte. byte == quote) 0 text.now }
    ensures within { IfSome result (λ at. at < length text.now) }
    ensures small { IfSome result (λ at. at < 18446744073709551615) }
{
    text.iter().position(|byte| *byte == b'\'')
}
