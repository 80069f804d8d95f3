//! Values of SQL: their comparison, its operators, the types of columns; the refusals of a script and of its statements, with their
//! labels and states; and the text that is printed of values, rows and refusals.
#![tactic(auto)]

mod arithmetic;
mod comparison;
mod field;
mod like_pattern;
mod lines;
mod number;
mod op;
mod owned_value;
mod pattern;
mod raise;
mod ranking_number;
mod refusal;
mod sql_type;
mod text_search;
mod truth;
mod value;
mod values;

pub use arithmetic::{add, div, mul, sub};
pub use comparison::{compare, rank};
pub use field::FieldFault;
pub use like_pattern::LikePattern;
pub use lines::{
    LOADED_ROOM, write_exception, write_fault, write_loaded, write_record_refusal, write_refusal,
};
pub use number::Num;
pub use op::ComparisonOperator;
pub use owned_value::OwnedValue;
pub use pattern::like;
pub use raise::{Exception, Raise};
pub use ranking_number::number_key;
pub use refusal::Refusal;
pub use sql_type::{DeclaredType, MAX_LENGTH, MAX_PRECISION, SqlType, TypeFault};
pub use truth::Tri;
pub use value::Value;
pub use values::{write_decimal, write_value};
