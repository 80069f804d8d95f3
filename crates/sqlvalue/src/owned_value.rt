//! Values that outlast the rows that they came from.

ghost use Rattle.std.specs.Prelude.{◌≡◌, IfOk};
ghost use Rattle.sqlvalue.specs.Meaning.{value_of};
ghost use Rattle.sqlvalue.specs.Owned.{owned_value};

use crate::number::Num;
use crate::value::Value;
use std::alloc::{AllocError, Global};

/// A value that stays when what lent it is gone.
#[derive(Drop)]
pub enum OwnedValue {
    Null,
    Num(Num),
    Text(String),
}

impl OwnedValue {
    /// A copy of a value, which stays when what lent it is gone.
    pub fn new(alloc: Global, value: &Value) -> Result<OwnedValue, AllocError>
        ensures { IfOk result (λ own. owned_value own ≡ value_of value.now) }
    {
        match value {
            Value::Null => Ok(OwnedValue::Null),
            Value::Num(number) => Ok(OwnedValue::Num(*number)),
            Value::Text(text) => {
                let text = String::from_str(alloc, text)?;
                Ok(OwnedValue::Text(text))
            }
        }
    }

    /// The value, lent.
    pub fn value(&self) -> Value<'_>
        ensures { value_of result ≡ owned_value self.now }
    {
        match self {
            OwnedValue::Null => Value::Null,
            OwnedValue::Num(number) => Value::Num(*number),
            OwnedValue::Text(text) => Value::Text(text.as_str()),
        }
    }
}
