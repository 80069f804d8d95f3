//! Pages on a query's plan, which other crates fill and draw.
#![tactic(auto)]

mod graphs;
mod made_parts;
mod made_tables;
mod pages;
mod tables;

pub use graphs::{Edge, Graph, Node, NodeKind};
pub use made_parts::MadeParts;
pub use made_tables::{MadeTable, number, words};
pub use pages::{Page, Part, Section};
pub use tables::{Align, Cell, Column, Row, Table};
