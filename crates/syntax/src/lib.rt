//! The rules of the grammar: from tokens to the trees of statements.
#![tactic(auto)]

mod element;
mod expr;
mod fault;
mod parser;
mod query;
mod statement;

pub use fault::{NoMemory, SyntaxFault, Unexpected};
pub use parse_tree::{
    Block, Bound, ColumnDefinition, ColumnReference, ComparisonOperator, Constraint, Count, Expr,
    IndexStatistics, Item, Key, KeyName, LineOperator, ListKind, ListPlace, LongList, Name,
    Numeral, Operand, Quantifier, Range, Select, SelectList, SetFunction, Source, Statement,
    StringLiteral,
};
pub use parser::{MAX_LEVELS, ScriptRead, StatementRead, check_script, parse, statement_at};
pub use syntax_cursor::{TokenClass, Wanted};
