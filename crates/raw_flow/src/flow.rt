//! A flow: straight-line definitions of words, on a grid.
ghost use Rattle.std.specs.Prelude.{◌≡◌, ◌↔◌, ◌<◌, ◌^◌, None, All, IsTrue, IfSome};
ghost use Rattle.raw_grid.specs.Topology.{IsSize};
ghost use Rattle.raw_flow.specs.Flows.{Dataflow, IsNode, AreNodes, IsFlow, inputs_in, with_input};

use crate::limits::MAX_NODES;
use crate::node::Node;
use raw_grid::MAX_SIZE;
use std::marker::Model;

/// Definitions of words, and those whose values are wanted, for a grid on which they are made.
///
/// Its type keeps the rules of `IsFlow`.
#[derive(Drop)]
pub struct Flow {
    /// How many columns the grid has, 1 to 8.
    pub cols: u8,
    /// How many rows the grid has, 1 to 8.
    pub rows: u8,
    /// The nodes in order, at most 8,192. Each operation is on earlier ones.
    pub nodes: Vec<Node>,
    /// The numbers of the nodes whose values are wanted, in the order in which they are wanted. At least one.
    pub outs: Vec<u32>,
}

impl Model for Flow {
    ghost use Rattle.raw_flow.specs.Flows.{Dataflow, IsFlow};

    ghost Value = { Dataflow };

    ghost view = { λ f. record { cols = f.cols; rows = f.rows; nodes = f.nodes.items; outs = f.outs.items } };

    ghost invariant = { λ f. IsFlow (record { cols = f.cols; rows = f.rows; nodes = f.nodes.items; outs = f.outs.items }) };
}

// Whether a size is one of a grid.
fn is_size(cols: u8, rows: u8) -> bool
    ensures { IsTrue result ↔ IsSize cols rows }
{
    (1..=MAX_SIZE).contains(&cols) && (1..=MAX_SIZE).contains(&rows)
}

// Whether a node at this place names earlier ones.
fn is_node(node: Node, place: usize) -> bool
    ensures { IsTrue result ↔ IsNode place node }
{
    match node {
        Node::Input => true,
        Node::Const { .. } => true,
        Node::Apply { a, b, .. } => (a as usize) < place && (b as usize) < place,
    }
}

// Whether each node names earlier ones.
fn are_nodes(nodes: &[Node]) -> bool
    ensures { IsTrue result ↔ AreNodes nodes.now }
{
    for place in 0..nodes.len() {
        if !is_node(nodes[place], place) {
            return false;
        }
    }
    true
}

// Whether the outs are among so many nodes.
fn are_outs(outs: &[u32], count: usize) -> bool
    ensures { IsTrue result ↔ All (λ v. v < count) outs.now }
{
    outs.iter().all(|out| (*out as usize) < count)
}

// How many inputs there are with a node more.
pub(crate) fn with_input(node: Node, count: usize) -> usize
    requires { with_input node count < 2 ^ 64 }
    ensures { result ≡ with_input node count }
{
    match node {
        Node::Input => count + 1,
        Node::Const { .. } => count,
        Node::Apply { .. } => count,
    }
}

impl Flow {
    /// The flow of these parts, and `None` exactly where they break a rule: a size outside 1 to 8, more than 8,192
    /// nodes, a node that does not stand behind those that it names, no out, or an out that is no node.
    pub fn new(cols: u8, rows: u8, nodes: Vec<Node>, outs: Vec<u32>) -> Option<Flow>
        ensures value { IfSome result (λ flow. flow ≡ record { cols = cols; rows = rows; nodes = nodes.items; outs = outs.items }) }
        ensures none { result ≡ None → ¬ (IsFlow (record { cols = cols; rows = rows; nodes = nodes.items; outs = outs.items })) }
    {
        let few = nodes.len() <= MAX_NODES && !outs.is_empty();
        if !few || !is_size(cols, rows) || !are_nodes(&nodes) || !are_outs(&outs, nodes.len()) {
            return None;
        }
        Some(Flow {
            cols,
            rows,
            nodes,
            outs,
        })
    }

    /// How many inputs the flow has.
    pub fn input_count(&self) -> usize
        ensures { result ≡ inputs_in self.now.nodes }
    {
        let mut count = 0;
        for node in &self.nodes {
            count = with_input(*node, count);
        }
        count
    }
}
