//! Nodes that are placed in a table.
ghost use Rattle.std.specs.Prelude.{◌≡◌, map, replicate, true, IfOk, IfSome};
ghost use Rattle.std.specs.List.{filter_map};
ghost use Rattle.raw_flow.specs.Flows.{IsNode, AreNodes};
ghost use Rattle.raw_flow.specs.declared.node.Node.TheVariants as node;
ghost use Rattle.raw_stream.specs.Streams.{first_of, next_of, valued};
ghost use Rattle.raw_row_terms.specs.RowTerms.{placed};

use crate::numbers::number_at;
use raw_flow::Node;
use raw_row_terms::place;
use raw_stream::RowNode;
use raw_term::{TermRefusal, TermTable};
use std::alloc::{AllocError, Global};

// Whether a node at this place names earlier ones.
fn is_node(node: Node, place: usize) -> bool
    ensures { result ≡ true → IsNode place node }
{
    match node {
        Node::Input => true,
        Node::Const { .. } => true,
        Node::Apply { a, b, .. } => (a as usize) < place && (b as usize) < place,
    }
}

/// Whether each node names earlier ones.
pub fn are_nodes(nodes: &[Node]) -> bool
    ensures { result ≡ true → AreNodes nodes.now }
{
    for place in 0..nodes.len() {
        if !is_node(nodes[place], place) {
            return false;
        }
    }
    true
}

/// The numbers of the terms of nodes, made in a table in which their inputs have these. None where a node names no earlier
/// one, or the table has no room.
pub fn place_all(
    alloc: Global,
    table: &mut TermTable,
    ins: &[u32],
    nodes: &[Node],
) -> Result<Option<Vec<u32>>, AllocError>
    ensures placed { IfOk result (λ found. IfSome found (λ numbers.
        placed table.old ins.now nodes.now ≡ record { nodes = table.new; numbers = numbers.items })) }
    ensures nodes { IfOk result (λ found. IfSome found (λ numbers. AreNodes nodes.now)) }
{
    if !are_nodes(nodes) {
        return Ok(None);
    }
    match place(alloc, table, ins, nodes) {
        Ok(numbers) => Ok(Some(numbers)),
        Err(TermRefusal::TooMany) => Ok(None),
        Err(TermRefusal::Memory) => Err(AllocError),
    }
}

/// What is carried into the first row, as nodes of a flow.
pub fn known(alloc: Global, row: &[RowNode]) -> Result<Vec<Node>, AllocError>
    ensures { IfOk result (λ nodes. nodes.items ≡ map (λ word. node.Const word) (filter_map first_of row.now)) }
{
    let mut nodes = Vec::new(alloc);
    for node in row {
        if let RowNode::Pre { word, .. } = *node {
            nodes.push(Node::Const { word })?;
        }
    }
    Ok(nodes)
}

/// So many inputs.
pub fn open_inputs(alloc: Global, many: u32) -> Result<Vec<Node>, AllocError>
    ensures { IfOk result (λ nodes. nodes.items ≡ replicate many node.Input) }
{
    let mut nodes = Vec::new(alloc);
    for _k in 0..many {
        nodes.push(Node::Input)?;
    }
    Ok(nodes)
}

/// The terms that are carried out of a row whose nodes have these.
pub fn carried_out(alloc: Global, row: &[RowNode], numbers: &[u32]) -> Result<Vec<u32>, AllocError>
    ensures { IfOk result (λ carried. carried.items ≡ valued numbers.now (filter_map next_of row.now)) }
{
    let mut carried = Vec::new(alloc);
    for node in row {
        if let RowNode::Pre { a, .. } = *node {
            carried.push(number_at(numbers, a))?;
        }
    }
    Ok(carried)
}
