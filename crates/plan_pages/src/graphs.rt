//! Join relations as a graph.

/// Join relations in layers by their number of tables, and the steps between them.
#[derive(Drop)]
pub struct Graph {
    pub key: &'static str,
    pub title: String,
    pub nodes: Vec<Node>,
    pub edges: Vec<Edge>,
}

impl Graph {
    /// Whether the node of a number is on the plan's way.
    pub fn is_chosen(&self, number: usize) -> bool {
        match self.nodes.get(number) {
            Some(node) => node.kind == NodeKind::Chosen,
            None => false,
        }
    }
}

/// A join relation in one order.
#[derive(Drop)]
pub struct Node {
    /// From 0, the lowest.
    pub layer: usize,
    pub title: String,
    pub cost: u64,
    pub kind: NodeKind,
}

/// How a node stands to the plan.
#[derive(Clone, Copy, PartialEq)]
pub enum NodeKind {
    /// On the plan's way.
    Chosen,
    /// A listed state.
    Listed,
    /// Its bound is the target.
    Bounded,
}

impl NodeKind {
    /// Its name in JSON and in HTML.
    pub fn name(self) -> &'static str {
        match self {
            NodeKind::Chosen => "chosen",
            NodeKind::Listed => "listed",
            NodeKind::Bounded => "bounded",
        }
    }
}

/// A step from one node to another, each by its place among the nodes.
#[derive(Drop)]
pub struct Edge {
    pub from: usize,
    pub to: usize,
    pub label: String,
    pub marked: bool,
}
