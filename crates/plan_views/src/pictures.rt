//! The search as a graph: states in layers by their number of tables, and the steps that reached them.

use crate::searches::{size_of, state_words};
use indexmap::IndexSet;
use plan_pages::{Edge, Graph, Node, NodeKind};
use planned_queries::{
    BlockView, KeptComparison, MANY_STATES, PlanStep, StateKey, Way, key_of, state_of,
};
use std::alloc::{AllocError, Global};

/// The states of a block's certificate, its plan's last one, and those that aren't listed and are told of comparisons, with the steps that
/// lead to each at its least cost, and those that come near on the plan's way.
pub(crate) fn picture(alloc: Global, block: &BlockView<'_>) -> Result<Graph, AllocError> {
    let way = Way::of(alloc, block.space(), block.plan())?;
    let mut graph = Graph {
        key: "search",
        title: format!(in alloc; "The search of block {}", block.shown_number())?,
        nodes: Vec::new(alloc),
        edges: Vec::new(alloc),
    };
    add_graph(alloc, &mut graph, block, &way)?;
    Ok(graph)
}

/// Adds the nodes and the edges between them.
fn add_graph(
    alloc: Global,
    graph: &mut Graph,
    block: &BlockView<'_>,
    way: &Way,
) -> Result<(), AllocError> {
    // boxed: what is owned is dropped at each exit behind it
    let mut keys = Box::new(alloc, IndexSet::new(alloc))?;
    add_listed(alloc, graph, block, way, &mut keys)?;
    add_last(alloc, graph, block, &mut keys)?;
    add_bounded(alloc, graph, block, &mut keys)?;
    for kept in &block.ledger.kept {
        if let Some((from, to)) = ends_of(kept, &keys)
            && (kept.above() == 0 || way.has(kept.to))
        {
            let marked = kept.above() == 0 && way.has(kept.to) && is_from(kept, way);
            add_edge(alloc, graph, kept, (from, to), marked)?;
        }
    }
    Ok(())
}

/// Adds the edge of a step between two nodes.
fn add_edge(
    alloc: Global,
    graph: &mut Graph,
    kept: &KeptComparison,
    ends: (usize, usize),
    marked: bool,
) -> Result<(), AllocError> {
    let label = label_of(alloc, kept)?;
    let (from, to) = ends;
    graph.edges.push(Edge {
        from,
        to,
        label,
        marked,
    })?;
    Ok(())
}

/// A state by the numbers of its tables and its order.
type StateNumbers = (usize, usize);

fn numbers_of(key: StateKey) -> StateNumbers {
    (key.tables.place(), key.order)
}

/// Adds the listed states with their keys: of many those that a comparison is told of, and the plan's way.
fn add_listed(
    alloc: Global,
    graph: &mut Graph,
    block: &BlockView<'_>,
    way: &Way,
    keys: &mut IndexSet<StateNumbers>,
) -> Result<(), AllocError> {
    let told = Box::new(alloc, told_states(alloc, block)?)?;
    let states = &block.certificate().states;
    for state in states {
        let key = key_of(state);
        if states.len() <= MANY_STATES || way.has(key) || told.contains(&numbers_of(key)) {
            let _ = keys.insert(numbers_of(key))?;
            add_node(alloc, graph, block, key, state.cost, kind_of(way, key))?;
        }
    }
    Ok(())
}

/// Adds the last state of the plan.
fn add_last(
    alloc: Global,
    graph: &mut Graph,
    block: &BlockView<'_>,
    keys: &mut IndexSet<StateNumbers>,
) -> Result<(), AllocError> {
    let Some(found) = block.space().summary(block.plan()) else {
        return Ok(());
    };
    let last = state_of(block.space(), found);
    let _ = keys.insert(numbers_of(last))?;
    let target = block.certificate().target;
    add_node(alloc, graph, block, last, target, NodeKind::Chosen)
}

/// Adds the states that aren't listed, and are told of comparisons.
fn add_bounded(
    alloc: Global,
    graph: &mut Graph,
    block: &BlockView<'_>,
    keys: &mut IndexSet<StateNumbers>,
) -> Result<(), AllocError> {
    let target = block.certificate().target;
    for kept in &block.ledger.kept {
        if keys.insert(numbers_of(kept.to))? {
            add_node(alloc, graph, block, kept.to, target, NodeKind::Bounded)?;
        }
    }
    Ok(())
}

/// The states from which comparisons are told.
fn told_states(alloc: Global, block: &BlockView<'_>) -> Result<IndexSet<StateNumbers>, AllocError> {
    let mut told = IndexSet::new(alloc);
    for kept in &block.ledger.kept {
        if let Some(from) = &kept.from {
            let _ = told.insert(numbers_of(key_of(from)))?;
        }
    }
    Ok(told)
}

fn kind_of(way: &Way, key: StateKey) -> NodeKind {
    if way.has(key) {
        NodeKind::Chosen
    } else {
        NodeKind::Listed
    }
}

fn add_node(
    alloc: Global,
    graph: &mut Graph,
    block: &BlockView<'_>,
    key: StateKey,
    cost: u64,
    kind: NodeKind,
) -> Result<(), AllocError> {
    let title = state_words(alloc, block, key)?;
    graph.nodes.push(Node {
        layer: size_of(key.tables.place()).saturating_sub(1),
        title,
        cost,
        kind,
    })?;
    Ok(())
}

fn is_from(kept: &KeptComparison, way: &Way) -> bool {
    match &kept.from {
        Some(from) => way.has(key_of(from)),
        None => false,
    }
}

/// The places of the two states of a step, if it is no access.
fn ends_of(kept: &KeptComparison, keys: &IndexSet<StateNumbers>) -> Option<(usize, usize)> {
    let from = keys.get_index_of(&numbers_of(key_of(kept.from.as_ref()?)))?;
    Some((from, keys.get_index_of(&numbers_of(kept.to))?))
}

/// `loop +1000`, or `sort +947: 287 too much`.
fn label_of(alloc: Global, kept: &KeptComparison) -> Result<String, AllocError> {
    let word = match kept.step() {
        PlanStep::Access(_) => "access",
        PlanStep::Loop(_) => "loop",
        PlanStep::Merge { .. } => "merge",
        PlanStep::Sort { .. } => "sort",
    };
    let before = match &kept.from {
        Some(from) => from.cost,
        None => 0,
    };
    let (own, above) = (kept.cost.number.saturating_sub(before), kept.above());
    if above == 0 {
        format!(in alloc; "{word} +{own}")
    } else {
        format!(in alloc; "{word} +{own}: {above} too much")
    }
}
