//! Which nodes of a graph are drawn.

use plan_pages::{Edge, Graph, NodeKind};
use std::alloc::{AllocError, Global};

/// How many nodes a graph has at most that is drawn as a whole.
const MANY: usize = 60;

/// How many nodes of a layer are drawn at most of one that has more, unless the plan's way alone has more there.
const FEW: usize = 4;

/// Whether each node of a graph is drawn: all of a small one; of others the plan's way and some of its neighbours.
pub(crate) fn shown_nodes(alloc: Global, graph: &Graph) -> Result<Vec<bool>, AllocError> {
    let is_small = graph.nodes.len() <= MANY;
    let mut shown = Vec::new(alloc);
    for node in &graph.nodes {
        shown.push(is_small || node.kind == NodeKind::Chosen)?;
    }
    if !is_small {
        show_neighbours(graph, &mut shown);
    }
    Ok(shown)
}

/// Shows neighbours of the plan's way, where their layers have room.
fn show_neighbours(graph: &Graph, shown: &mut Vec<bool>) {
    for edge in &graph.edges {
        if let Some(number) = neighbour(graph, edge)
            && let Some(node) = graph.nodes.get(number)
            && count_in(graph, shown, node.layer) < FEW
            && let Some(is_shown) = shown.get_mut(number)
        {
            *is_shown = true;
        }
    }
}

/// The end of an edge that isn't on the plan's way, where the other one is.
fn neighbour(graph: &Graph, edge: &Edge) -> Option<usize> {
    match (graph.is_chosen(edge.from), graph.is_chosen(edge.to)) {
        (true, false) => Some(edge.to),
        (false, true) => Some(edge.from),
        _ => None,
    }
}

/// How many nodes of a layer are drawn.
fn count_in(graph: &Graph, shown: &[bool], layer: usize) -> usize {
    let mut count: usize = 0;
    for (node, is_shown) in graph.nodes.iter().zip(shown.iter()) {
        if *is_shown && node.layer == layer {
            count = count.saturating_add(1);
        }
    }
    count
}

/// How many nodes are drawn.
pub(crate) fn shown_count(shown: &[bool]) -> usize {
    let mut count: usize = 0;
    for is_shown in shown {
        count = count.saturating_add(usize::from(*is_shown));
    }
    count
}
