//! Tables as HTML.

use crate::escapes::Escaped;
use crate::written::Written;
use plan_pages::{Align, Cell, Column, Row, Table};
use std::fmt::Write;

/// How many pixels a row of a tree stands behind the one that it belongs to.
const STEP: usize = 20;

/// Adds a table, which scrolls by itself where it is wider than the page.
pub(crate) fn put_table(out: &mut Written, table: &Table) {
    out.put("<div class=\"scroll\">\n<table>\n");
    if !table.title.is_empty() {
        let title = Escaped(&table.title);
        let _ = writeln!(out, "<caption>{title}</caption>");
    }
    put_titles(out, &table.columns);
    out.put("<tbody>\n");
    for row in &table.rows {
        put_row(out, &table.columns, row);
    }
    out.put("</tbody>\n</table>\n</div>\n");
}

fn put_titles(out: &mut Written, columns: &[Column]) {
    out.put("<thead>\n<tr>");
    for column in columns {
        let (class, title) = (class_of(column.align), Escaped(column.title));
        let _ = write!(out, "<th scope=\"col\"{class}>{title}</th>");
    }
    out.put("</tr>\n</thead>\n");
}

/// Adds a row, marked by a class, whose first cell stands as deep as the row does.
fn put_row(out: &mut Written, columns: &[Column], row: &Row) {
    out.put(if row.marked {
        "<tr class=\"marked\">"
    } else {
        "<tr>"
    });
    let mut depth = row.depth;
    for (column, cell) in columns.iter().zip(row.cells.iter()) {
        put_cell(out, column.align, cell, depth);
        depth = 0;
    }
    out.put("</tr>\n");
}

fn put_cell(out: &mut Written, align: Align, cell: &Cell, depth: usize) {
    out.put("<td");
    out.put(class_of(align));
    if depth > 0 {
        let pixels = STEP.saturating_mul(depth);
        let _ = write!(out, " style=\"padding-left: {pixels}px\"");
    }
    out.put(">");
    match cell {
        Cell::Nothing => {}
        Cell::Number(number) => {
            let _ = write!(out, "{number}");
        }
        Cell::Text(text) => {
            let text = Escaped(text);
            let _ = write!(out, "{text}");
        }
    }
    out.put("</td>");
}

fn class_of(align: Align) -> &'static str {
    match align {
        Align::Left => "",
        Align::Right => " class=\"number\"",
    }
}
