//! Graphs as pictures.

use crate::column_widths::split_fitting;
use crate::escapes::Escaped;
use crate::shown::{shown_count, shown_nodes};
use crate::spots::{BOX_HEIGHT, CHARACTER, Layout, ROOM, Spot};
use crate::written::Written;
use plan_pages::{Edge, Graph, Node, NodeKind};
use std::alloc::{AllocError, Global};
use std::fmt::Write;

/// Of a graph with more edges, those on the plan's way alone have labels.
const MANY_EDGES: usize = 40;

/// How far an edge between two boxes of one row goes up.
const ARCH: usize = 80;

/// Adds a graph as SVG: layers from below upward, the plan's way marked.
pub(crate) fn put_picture(
    alloc: Global,
    out: &mut Written,
    graph: &Graph,
) -> Result<(), AllocError> {
    let shown = shown_nodes(alloc, graph)?;
    let layout = Layout::new(alloc, graph, &shown)?;
    put_head(out, graph, &layout);
    put_drawing(out, graph, &layout);
    put_caption(out, graph, shown_count(&shown));
    Ok(())
}

/// Adds edges, boxes above them, and labels above these.
fn put_drawing(out: &mut Written, graph: &Graph, layout: &Layout) {
    for edge in &graph.edges {
        put_edge(out, layout, edge);
    }
    for (number, node) in graph.nodes.iter().enumerate() {
        put_node(out, layout, number, node);
    }
    for edge in &graph.edges {
        if edge.marked || graph.edges.len() <= MANY_EDGES {
            put_label(out, layout, edge);
        }
    }
    out.put("</svg>\n");
}

fn put_head(out: &mut Written, graph: &Graph, layout: &Layout) {
    let (width, height) = (layout.width, layout.height);
    let title = Escaped(&graph.title);
    let _ = writeln!(
        out,
        "<figure>\n<svg xmlns=\"http://www.w3.org/2000/svg\" viewBox=\"0 0 {width} {height}\" width=\"{width}\" height=\"{height}\" role=\"img\">\n<title>{title}</title>"
    );
}

/// Adds an edge whose ends are drawn, which tells its label where it is pointed at.
fn put_edge(out: &mut Written, layout: &Layout, edge: &Edge) {
    let (Some(from), Some(to)) = (layout.spot(edge.from), layout.spot(edge.to)) else {
        return;
    };
    out.put(if edge.marked {
        "<path class=\"marked\" d=\""
    } else {
        "<path d=\""
    });
    put_way(out, from, to);
    let label = Escaped(&edge.label);
    let _ = writeln!(out, "\"><title>{label}</title></path>");
}

/// Adds the way from one box to another: straight between two rows, and above the boxes within one.
fn put_way(out: &mut Written, from: Spot, to: Spot) {
    let Spot { x, y } = from;
    let (end, top) = (to.x, to.y);
    if y == top {
        let (middle, above) = (middle(x, end), y.saturating_sub(ARCH));
        let _ = write!(out, "M{x} {y}Q{middle} {above} {end} {top}");
        return;
    }
    let (y, top) = facing_sides(y, top);
    let _ = write!(out, "M{x} {y}L{end} {top}");
}

/// The sides that two boxes of different rows turn to each other, by their upper ones.
fn facing_sides(from: usize, to: usize) -> (usize, usize) {
    if from > to {
        (from, to.saturating_add(BOX_HEIGHT))
    } else {
        (from.saturating_add(BOX_HEIGHT), to)
    }
}

fn middle(first: usize, second: usize) -> usize {
    first.saturating_add(second) / 2
}

/// Adds what an edge says.
fn put_label(out: &mut Written, layout: &Layout, edge: &Edge) {
    let (Some(from), Some(to)) = (layout.spot(edge.from), layout.spot(edge.to)) else {
        return;
    };
    let Spot { x, y } = label_spot(from, to);
    let label = Escaped(&edge.label);
    let _ = writeln!(
        out,
        "<text class=\"label\" x=\"{x}\" y=\"{y}\">{label}</text>"
    );
}

/// Where the label of an edge stands: on it in the free room next to the box that it begins at, and so over no box between, and apart from
/// others that lead to the same box.
fn label_spot(from: Spot, to: Spot) -> Spot {
    if from.y == to.y {
        return Spot {
            x: middle(from.x, to.x),
            y: from.y.saturating_sub(ARCH / 2 + 4),
        };
    }
    let (start, end) = facing_sides(from.y, to.y);
    let (length, near) = (start.abs_diff(end), ROOM / 2);
    let along = from
        .x
        .saturating_mul(length.saturating_sub(near))
        .saturating_add(to.x.saturating_mul(near));
    Spot {
        x: along.checked_div(length).unwrap_or(from.x),
        y: if start > end {
            start.saturating_sub(near)
        } else {
            start.saturating_add(near)
        },
    }
}

/// Adds the box of a node, if it is drawn.
fn put_node(out: &mut Written, layout: &Layout, number: usize, node: &Node) {
    let Some(Spot { x, y }) = layout.spot(number) else {
        return;
    };
    let (class, title) = (node.kind.name(), Escaped(&node.title));
    let left = x.saturating_sub(layout.box_width / 2);
    let width = layout.box_width;
    let _ = write!(out, "<g class=\"{class}\"><title>{title}</title>");
    let _ = write!(
        out,
        "<rect x=\"{left}\" y=\"{y}\" width=\"{width}\" height=\"{BOX_HEIGHT}\" rx=\"4\"></rect>"
    );
    put_node_texts(out, layout, node, Spot { x, y });
}

/// Adds the title of a node, as much as has room, and its cost.
fn put_node_texts(out: &mut Written, layout: &Layout, node: &Node, spot: Spot) {
    let Spot { x, y } = spot;
    let (above, below) = (y.saturating_add(18), y.saturating_add(36));
    let room = layout.box_width / CHARACTER;
    let (head, rest) = split_fitting(&node.title, room.saturating_sub(2));
    let (title, dots) = (Escaped(head), if rest.is_empty() { "" } else { " .." });
    let words = match node.kind {
        NodeKind::Chosen | NodeKind::Listed => "",
        NodeKind::Bounded => "at least ",
    };
    let cost = node.cost;
    let _ = write!(out, "<text x=\"{x}\" y=\"{above}\">{title}{dots}</text>");
    let _ = writeln!(
        out,
        "<text x=\"{x}\" y=\"{below}\">{words}{cost}</text></g>"
    );
}

/// Adds what stands below a picture: its title, what the signs say, and how much of the graph it shows.
fn put_caption(out: &mut Written, graph: &Graph, shown: usize) {
    let title = Escaped(&graph.title);
    let _ = writeln!(
        out,
        "<figcaption>{title}. Bold and green: the plan's way. Dashed: not listed, so that its bound is the target."
    );
    let all = graph.nodes.len();
    if shown < all {
        let _ = writeln!(
            out,
            "Of {all} states {shown} are drawn: those on the plan's way, and some of their neighbours."
        );
    }
    out.put("</figcaption>\n</figure>\n");
}
