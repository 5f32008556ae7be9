//! The terms of nodes, where those of their inputs are known.
ghost use Rattle.std.specs.Prelude.{◌≡◌, length, slice_index, IfOk, Err};
ghost use Rattle.raw_flow.specs.Flows.{IsNode, AreNodes};
ghost use Rattle.raw_term.specs.Terms.{Overflows};
ghost use Rattle.raw_row_terms.specs.RowTerms.{placed_node, placed};

use raw_flow::Node;
use raw_term::{TermRefusal, TermTable};
use std::alloc::Global;

/// The number at a place of a list, and 0 behind its end.
pub(crate) fn number_at(numbers: &[u32], place: usize) -> u32
    ensures { result ≡ slice_index numbers.now place }
{
    match numbers.get(place) {
        Some(number) => *number,
        None => 0,
    }
}

// The number of the term of a node, where so many inputs stand before it, and the nodes before it have these terms.
fn place_node(
    table: &mut TermTable,
    ins: &[u32],
    taken: usize,
    before: &[u32],
    node: Node,
) -> Result<u32, TermRefusal>
    requires { IsNode (length before.now) node }
    ensures number { IfOk result (λ number.
        placed_node table.old ins.now taken before.now node ≡ record { nodes = table.new; number = number }) }
    ensures too_many { result ≡ Err TermRefusal.TooMany →
        Overflows (placed_node table.old ins.now taken before.now node).nodes }
{
    match node {
        Node::Input => Ok(number_at(ins, taken)),
        Node::Const { .. } => table.number_of(node),
        Node::Apply { op, a, b } => table.make(op, before[a as usize], before[b as usize]),
    }
}

/// The numbers of the terms of nodes, made in a table in which their inputs have these. An input behind the last of
/// these is 0.
pub fn place(
    alloc: Global,
    table: &mut TermTable,
    ins: &[u32],
    nodes: &[Node],
) -> Result<Vec<u32>, TermRefusal>
    requires { AreNodes nodes.now }
    ensures numbers { IfOk result (λ numbers.
        placed table.old ins.now nodes.now ≡ record { nodes = table.new; numbers = numbers.items }) }
    ensures too_many { result ≡ Err TermRefusal.TooMany → Overflows (placed table.old ins.now nodes.now).nodes }
{
    let mut numbers = Vec::new(alloc);
    let mut taken = 0;
    for node in nodes {
        let number = place_node(table, ins, taken, &numbers, *node)?;
        numbers.push(number)?;
        if let Node::Input = *node {
            taken += 1;
        }
    }
    Ok(numbers)
}
