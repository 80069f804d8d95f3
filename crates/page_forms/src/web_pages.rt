//! Pages as HTML.

use crate::escapes::Escaped;
use crate::pictures::put_picture;
use crate::web_tables::put_table;
use crate::written::Written;
use plan_pages::{Graph, Page, Part, Section};
use std::alloc::{AllocError, Global};
use std::fmt::Write;

/// What stands before a page's title.
const HEAD: &str =
    "<!DOCTYPE html>\n<html lang=\"en\">\n<head>\n<meta charset=\"utf-8\">\n<meta name=\"viewport\" content=\"width=device-width, initial-scale=1\">\n";

/// How the parts of a page look: on a screen, on a narrow one, where tables stand in place of pictures, and on paper.
const STYLE: &str = "<style>
body { max-width: 1216px; margin: 24px auto; padding: 0 16px; font: 16px/1.45 system-ui, sans-serif; color: #1a1a1a; background: #fff; }
h1 { font-size: 26px; }
h2 { font-size: 20px; margin-top: 32px; }
p { margin: 6px 0; overflow-wrap: anywhere; }
table { border-collapse: collapse; margin: 12px 0; font-size: 15px; }
caption { text-align: left; font-weight: bold; padding: 4px 0; }
th, td { padding: 3px 12px 3px 0; border-bottom: 1px solid #ccc; text-align: left; vertical-align: top; }
.number { text-align: right; white-space: nowrap; font-variant-numeric: tabular-nums; }
tr.marked td { font-weight: bold; background: #e4f3e4; }
.scroll { overflow-x: auto; }
figure { margin: 12px 0; overflow-x: auto; }
figcaption { font-size: 15px; }
svg text { font: 13px system-ui, sans-serif; text-anchor: middle; }
svg rect { fill: #eef2fb; stroke: #7a8bb0; }
svg path { fill: none; stroke: #999; }
svg path.marked { stroke: #1f7a1f; stroke-width: 3; }
svg .label { paint-order: stroke; stroke: #fff; stroke-width: 4px; }
svg .chosen rect { fill: #dff3df; stroke: #1f7a1f; stroke-width: 2; }
svg .chosen text { font-weight: bold; }
svg .bounded rect { fill: #fff; stroke: #777; stroke-dasharray: 5 3; }
footer { margin-top: 32px; border-top: 1px solid #999; font-size: 15px; }
@media (max-width: 600px) { figure { display: none; } body { margin: 12px auto; } h1 { font-size: 20px; } table { font-size: 12px; } th, td { padding-right: 6px; } }
@media print { body { margin: 0; max-width: none; font-size: 11pt; } .scroll, figure { overflow: visible; } svg { max-width: 100%; height: auto; } tr, figure { break-inside: avoid; } }
@page { margin: 15mm; }
</style>
";

/// A page as one HTML file, without script and without parts outside it.
pub fn page_html(alloc: Global, page: &Page) -> Result<String, AllocError> {
    let mut out = Written::new(alloc);
    let title = Escaped(&page.title);
    out.put(HEAD);
    let _ = writeln!(out, "<title>{title}</title>");
    out.put(STYLE);
    let _ = writeln!(out, "</head>\n<body>\n<h1>{title}</h1>");
    for section in &page.sections {
        put_section(alloc, &mut out, section);
    }
    put_foot(&mut out, &page.foot);
    out.put("</body>\n</html>\n");
    out.finish()
}

fn put_section(alloc: Global, out: &mut Written, section: &Section) {
    out.put("<section>\n");
    if !section.title.is_empty() {
        let title = Escaped(&section.title);
        let _ = writeln!(out, "<h2>{title}</h2>");
    }
    for part in &section.parts {
        put_part(alloc, out, part);
    }
    out.put("</section>\n");
}

fn put_part(alloc: Global, out: &mut Written, part: &Part) {
    match part {
        Part::Line { text, .. } => put_sentence(out, text),
        Part::Figure { title, value, .. } => {
            let title = Escaped(title);
            let _ = writeln!(out, "<p>{title}: {value}</p>");
        }
        Part::Table(table) => put_table(out, table),
        Part::Graph(graph) => put_graph(alloc, out, graph),
    }
}

fn put_sentence(out: &mut Written, text: &str) {
    let text = Escaped(text);
    let _ = writeln!(out, "<p>{text}</p>");
}

/// Puts a graph, unless it is empty.
fn put_graph(alloc: Global, out: &mut Written, graph: &Graph) {
    if !graph.nodes.is_empty() && put_picture(alloc, out, graph).is_err() {
        out.fail();
    }
}

fn put_foot(out: &mut Written, foot: &[String]) {
    out.put("<footer>\n");
    for line in foot {
        put_sentence(out, line);
    }
    out.put("</footer>\n");
}
