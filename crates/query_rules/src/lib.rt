//! The rules of queries: what a name means within nested blocks, and what the clauses of a block may say.
#![tactic(auto)]

mod clause;
mod fault;
mod function;
mod group;
mod key;
mod leaf;
mod limit;
mod named_table;
mod operand;
mod resolution;
mod scope;
mod scope_fault;
mod scopes;
mod table_columns;

pub use clause::{Clause, ClauseKind};
pub use fault::{BindFault, QueryFault};
pub use group::{group_columns, is_grouped, shown_place};
pub use key::bound_order;
pub use leaf::{MAX_SCALE, Typed, column, number, string};
pub use limit::{MAX_CONJUNCTS, is_conjunction, judge_limits};
pub use named_table::NamedTable;
pub use operand::{are_logical, function_type, joined_scale, judge_kinds, number_scale, operator};
pub use parse_tree::{MAX_FROM_TABLES, MAX_GROUP_COLUMNS, MAX_ITEMS, MAX_KEYS, MAX_MEMBERS};
pub use resolution::{Found, Resolution};
pub use scope_fault::SourceFault;
pub use scopes::Scopes;
