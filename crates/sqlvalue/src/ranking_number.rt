//! Whole numbers that rank as nulls and numbers of one scale do.

ghost use Rattle.std.specs.Prelude.{IfSome};
ghost use Rattle.sqlvalue.specs.Meaning.{value_of};
ghost use Rattle.sqlvalue.specs.NumberKeys.{HasNumberKey};

use crate::value::Value;

/// A whole number that ranks as a null or a number of a scale does among such, if its units are not too many (own).
pub fn number_key(value: &Value, scale: u8) -> Option<i64>
    ensures { IfSome result (HasNumberKey scale (value_of value.now)) }
{
    match value {
        Value::Null => Some(i64::MIN),
        Value::Num(number) if number.scale == scale => match i64::try_from(number.units) {
            Ok(units) if units > i64::MIN => Some(units),
            _ => None,
        },
        _ => None,
    }
}
