//! Pages as JSON.

use crate::json_text::JsonText;
use crate::written::Written;
use plan_pages::{Cell, Column, Edge, Graph, Node, Page, Part, Row, Section, Table};
use std::alloc::{AllocError, Global};

/// A page as one JSON object in a line:
///
/// ```text
/// {"view": "tree", "title": .., "sections": [SECTION, ..], "foot": [text, ..]}
///
/// SECTION  {"key": "block", "number": 1, "title": .., "lines": {key: text, ..}, "figures": {key: number, ..},
///           "tables": {key: [ROW, ..], ..}, "graphs": {key: GRAPH, ..}}
/// ROW      {"depth": 0, "marked": false, key of a column: number, text or null, ..}
/// GRAPH    {"nodes": [{"layer": 0, "title": .., "cost": 60, "kind": "chosen", "listed" or "bounded"}, ..],
///           "edges": [{"from": 0, "to": 1, "label": .., "marked": true}, ..]}
/// ```
///
/// The number of a section of the whole is null. Lines of one key are one text, with a line end between them, and tables of one key are one
/// array. An edge names its nodes by their places in the array, from 0.
pub fn page_json(alloc: Global, page: &Page) -> Result<String, AllocError> {
    let mut out = JsonText::new(alloc);
    out.begin_object();
    out.put_text("view", page.view);
    out.put_text("title", &page.title);
    out.put_key("sections");
    out.begin_array();
    for section in &page.sections {
        put_section(alloc, &mut out, section)?;
    }
    out.end_array();
    put_foot(&mut out, &page.foot);
    out.end_object();
    out.finish()
}

fn put_foot(out: &mut JsonText, foot: &[String]) {
    out.put_key("foot");
    out.begin_array();
    for line in foot {
        out.put_string(line);
    }
    out.end_array();
}

fn put_section(alloc: Global, out: &mut JsonText, section: &Section) -> Result<(), AllocError> {
    out.begin_object();
    out.put_text("key", section.key);
    match section.number {
        Some(number) => out.put_number("number", number),
        None => {
            out.put_key("number");
            out.put_null();
        }
    }
    out.put_text("title", &section.title);
    put_lines(alloc, out, &section.parts)?;
    put_figures(out, &section.parts);
    put_tables(out, &section.parts);
    put_graphs(out, &section.parts);
    out.end_object();
    Ok(())
}

fn put_lines(alloc: Global, out: &mut JsonText, parts: &[Part]) -> Result<(), AllocError> {
    out.put_key("lines");
    out.begin_object();
    for (number, part) in parts.iter().enumerate() {
        let before = parts.get(..number).unwrap_or(&[]);
        if let Some((key, _)) = part.line()
            && !has_line(before, key)
        {
            out.put_text(key, &lines_of(alloc, parts, key)?);
        }
    }
    out.end_object();
    Ok(())
}

fn has_line(parts: &[Part], key: &str) -> bool {
    for part in parts {
        if let Some((own, _)) = part.line()
            && own == key
        {
            return true;
        }
    }
    false
}

/// The lines of a key, with a line end between them.
fn lines_of(alloc: Global, parts: &[Part], key: &str) -> Result<String, AllocError> {
    let mut lines = Written::new(alloc);
    for part in parts {
        if let Some((own, text)) = part.line()
            && own == key
        {
            lines.put(if lines.is_empty() { "" } else { "\n" });
            lines.put(text);
        }
    }
    lines.finish()
}

fn put_figures(out: &mut JsonText, parts: &[Part]) {
    out.put_key("figures");
    out.begin_object();
    for part in parts {
        if let Part::Figure { key, value, .. } = part {
            out.put_number(key, *value);
        }
    }
    out.end_object();
}

fn put_tables(out: &mut JsonText, parts: &[Part]) {
    out.put_key("tables");
    out.begin_object();
    for (number, part) in parts.iter().enumerate() {
        let before = parts.get(..number).unwrap_or(&[]);
        if let Part::Table(table) = part
            && !has_table(before, table.key)
        {
            put_tables_of(out, parts, table.key);
        }
    }
    out.end_object();
}

fn has_table(parts: &[Part], key: &str) -> bool {
    for part in parts {
        if let Part::Table(table) = part
            && table.key == key
        {
            return true;
        }
    }
    false
}

/// The rows of all tables of a key.
fn put_tables_of(out: &mut JsonText, parts: &[Part], key: &str) {
    out.put_key(key);
    out.begin_array();
    for part in parts {
        if let Part::Table(table) = part
            && table.key == key
        {
            put_rows(out, table);
        }
    }
    out.end_array();
}

fn put_rows(out: &mut JsonText, table: &Table) {
    for row in &table.rows {
        put_row(out, &table.columns, row);
    }
}

fn put_row(out: &mut JsonText, columns: &[Column], row: &Row) {
    out.begin_object();
    out.put_number("depth", row.depth as u64);
    out.put_flag("marked", row.marked);
    for (column, cell) in columns.iter().zip(row.cells.iter()) {
        out.put_key(column.key);
        match cell {
            Cell::Nothing => out.put_null(),
            Cell::Number(number) => out.put_u64(*number),
            Cell::Text(text) => out.put_string(text),
        }
    }
    out.end_object();
}

fn put_graphs(out: &mut JsonText, parts: &[Part]) {
    out.put_key("graphs");
    out.begin_object();
    for part in parts {
        if let Part::Graph(graph) = part {
            out.put_key(graph.key);
            put_graph(out, graph);
        }
    }
    out.end_object();
}

fn put_graph(out: &mut JsonText, graph: &Graph) {
    out.begin_object();
    out.put_key("nodes");
    put_nodes(out, &graph.nodes);
    out.put_key("edges");
    put_edges(out, &graph.edges);
    out.end_object();
}

fn put_nodes(out: &mut JsonText, nodes: &[Node]) {
    out.begin_array();
    for node in nodes {
        out.begin_object();
        out.put_number("layer", node.layer as u64);
        out.put_text("title", &node.title);
        out.put_number("cost", node.cost);
        out.put_text("kind", node.kind.name());
        out.end_object();
    }
    out.end_array();
}

fn put_edges(out: &mut JsonText, edges: &[Edge]) {
    out.begin_array();
    for edge in edges {
        out.begin_object();
        out.put_number("from", edge.from as u64);
        out.put_number("to", edge.to as u64);
        out.put_text("label", &edge.label);
        out.put_flag("marked", edge.marked);
        out.end_object();
    }
    out.end_array();
}
