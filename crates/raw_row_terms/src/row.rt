//! The terms of the nodes of a row.
ghost use Rattle.std.specs.Prelude.{◌≡◌, map, IfOk, Err};
ghost use Rattle.raw_flow.specs.Flows.{AreNodes};
ghost use Rattle.raw_stream.specs.Streams.{plain, taken};
ghost use Rattle.raw_term.specs.Terms.{Overflows};
ghost use Rattle.raw_row_terms.specs.RowTerms.{placed_row};

use crate::terms::{number_at, place};
use raw_flow::Node;
use raw_stream::RowNode;
use raw_term::{TermRefusal, TermTable};
use std::alloc::{AllocError, Global};

// A node of a row as one of a flow.
fn plain(node: RowNode) -> Node
    ensures { result ≡ plain node }
{
    match node {
        RowNode::Input { .. } => Node::Input,
        RowNode::Const { word } => Node::Const { word },
        RowNode::Apply { op, a, b } => Node::Apply { op, a, b },
        RowNode::Pre { .. } => Node::Input,
    }
}

/// The nodes of a row as those of a flow.
pub fn plain_nodes(alloc: Global, row: &[RowNode]) -> Result<Vec<Node>, AllocError>
    ensures { IfOk result (λ nodes. nodes.items ≡ map plain row.now) }
{
    let mut nodes = Vec::new(alloc);
    for node in row {
        nodes.push(plain(*node))?;
    }
    Ok(nodes)
}

// The numbers of the inputs of a row, of those of what is carried into it and of its words.
fn taken(
    alloc: Global,
    row: &[RowNode],
    carried: &[u32],
    words: &[u32],
) -> Result<Vec<u32>, AllocError>
    ensures { IfOk result (λ ins. ins.items ≡ taken row.now carried.now words.now) }
{
    let mut ins = Vec::new(alloc);
    let mut next_carried = 0;
    let mut next_word = 0;
    for node in row {
        match *node {
            RowNode::Input { .. } => {
                ins.push(number_at(words, next_word))?;
                next_word += 1;
            }
            RowNode::Pre { .. } => {
                ins.push(number_at(carried, next_carried))?;
                next_carried += 1;
            }
            RowNode::Const { .. } => {}
            RowNode::Apply { .. } => {}
        }
    }
    Ok(ins)
}

/// The numbers of the terms of the nodes of a row, made in a table in which what is carried into it and its words have
/// these. `nodes` are those of the row as those of a flow (`plain_nodes`).
pub fn place_row(
    alloc: Global,
    table: &mut TermTable,
    row: &[RowNode],
    nodes: &[Node],
    carried: &[u32],
    words: &[u32],
) -> Result<Vec<u32>, TermRefusal>
    requires plain { nodes.now ≡ map plain row.now }
    requires nodes { AreNodes nodes.now }
    ensures numbers { IfOk result (λ numbers.
        placed_row row.now table.old carried.now words.now ≡ record { nodes = table.new; numbers = numbers.items }) }
    ensures too_many { result ≡ Err TermRefusal.TooMany →
        Overflows (placed_row row.now table.old carried.now words.now).nodes }
{
    let ins = taken(alloc, row, carried, words)?;
    place(alloc, table, &ins, nodes)
}
