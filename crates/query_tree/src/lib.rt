//! Query blocks whose names are bound: tables, columns and inner blocks go by number.
#![tactic(auto)]

mod block;
mod condition;
mod leaf;
mod value;
mod walks;

pub use block::{Aggregate, Block, Item, Key};
pub use condition::Condition;
pub use leaf::{BlockColumn, NumberLiteral, Operator, ValueType};
pub use parse_tree::{Quantifier, SetFunction};
pub use value::{Operand, ValueExpr};
pub use walks::{push_blocks, push_compared, push_conjuncts, push_tested, push_values};
