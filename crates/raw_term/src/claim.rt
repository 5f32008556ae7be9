//! The terms of a claim.
ghost use Rattle.std.specs.Prelude.{◌≡◌, ◌+◌, ◌<◌, ◌≤◌, ◌^◌, [], length, IfOk, Err};
ghost use Rattle.raw_flow.specs.Flows.{IsNode, AreNodes, with_input, inputs_in};
ghost use Rattle.raw_term.specs.Terms.{Overflows};
ghost use Rattle.raw_term.specs.Claims.{claim_node, claim_from};

use crate::refusal::TermRefusal;
use crate::table::TermTable;
use raw_flow::Node;
use std::alloc::Global;

// The number of the term of a node, where so many inputs stand before it, and the nodes before it have these terms.
fn claim_node(
    table: &mut TermTable,
    taken: u32,
    before: &[u32],
    node: Node,
) -> Result<u32, TermRefusal>
    requires node { IsNode (length before.now) node }
    requires few { taken + 1 < 2 ^ 32 }
    ensures number { IfOk result (λ number.
        claim_node table.old taken before.now node ≡ record { nodes = table.new; number = number }) }
    ensures too_many { result ≡ Err TermRefusal.TooMany →
        Overflows (claim_node table.old taken before.now node).nodes }
{
    match node {
        Node::Input => Ok(taken + 1),
        Node::Const { .. } => table.number_of(node),
        Node::Apply { op, a, b } => table.make(op, before[a as usize], before[b as usize]),
    }
}

/// The numbers of the terms of the nodes of a claim, made in a table in which the k-th input, counted from 0, has the
/// number 1 + k.
pub fn claim_terms(
    alloc: Global,
    table: &mut TermTable,
    nodes: &[Node],
) -> Result<Vec<u32>, TermRefusal>
    requires nodes { AreNodes nodes.now }
    requires few { inputs_in nodes.now + 1 < 2 ^ 32 }
    ensures numbers { IfOk result (λ numbers.
        claim_from table.old 0 [] nodes.now ≡ record { nodes = table.new; numbers = numbers.items }) }
    ensures too_many { result ≡ Err TermRefusal.TooMany → Overflows (claim_from table.old 0 [] nodes.now).nodes }
{
    let mut numbers = Vec::new(alloc);
    let mut taken = 0;
    for node in nodes {
        let number = claim_node(table, taken, &numbers, *node)?;
        numbers.push(number)?;
        if let Node::Input = *node {
            taken += 1;
        }
    }
    Ok(numbers)
}
