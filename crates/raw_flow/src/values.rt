//! The values of a flow.
ghost use Rattle.std.specs.Prelude.{◌≡◌, ◌<◌, ◌≤◌, [], length, map, slice_index, All, IfOk};
ghost use Rattle.raw_flow.specs.Flows.{IsNode, AreNodes, with_input, inputs_in, applied, value_of, values_from, outs_of};

use crate::flow::{Flow, with_input};
use crate::node::{FlowOp, Node};
use raw_tile_isa as word;
use std::alloc::{AllocError, Global};

impl FlowOp {
    /// What the operation makes of two words.
    pub fn apply(self, a: u32, b: u32) -> u32
        ensures { result ≡ applied self a b }
    {
        match self {
            FlowOp::Add => word::add(a, b),
            FlowOp::Sub => word::sub(a, b),
            FlowOp::Mul => word::mul_low(a, b),
            FlowOp::MulHigh => word::mul_high(a, b),
            FlowOp::MulHighUnsigned => word::mul_high_unsigned(a, b),
            FlowOp::And => a & b,
            FlowOp::Or => a | b,
            FlowOp::Xor => a ^ b,
            FlowOp::Nor => !(a | b),
            FlowOp::Less => word::less(a, b),
            FlowOp::LessUnsigned => word::less_unsigned(a, b),
            FlowOp::ShiftLeft => word::shift_left(a, b),
            FlowOp::ShiftRight => word::shift_right(a, b),
            FlowOp::ShiftRightSigned => word::shift_right_signed(a, b),
        }
    }
}

// The value of a node, from those of the nodes before it, where so many inputs stand before it.
fn value_of(node: Node, before: &[u32], inputs: &[u32], taken: usize) -> u32
    requires node { IsNode (length before.now) node }
    requires input { with_input node taken ≤ length inputs.now }
    ensures { result ≡ value_of inputs.now taken before.now node }
{
    match node {
        Node::Input => inputs[taken],
        Node::Const { word } => word,
        Node::Apply { op, a, b } => op.apply(before[a as usize], before[b as usize]),
    }
}

// The values of nodes.
fn values_of(alloc: Global, nodes: &[Node], inputs: &[u32]) -> Result<Vec<u32>, AllocError>
    requires nodes { AreNodes nodes.now }
    requires inputs { inputs_in nodes.now ≡ length inputs.now }
    ensures values { IfOk result (λ values. values.items ≡ values_from inputs.now 0 [] nodes.now) }
    ensures each { IfOk result (λ values. length values.items ≡ length nodes.now) }
{
    let mut values = Vec::new(alloc);
    let mut taken = 0;
    for node in nodes {
        values.push(value_of(*node, &values, inputs, taken))?;
        taken = with_input(*node, taken);
    }
    Ok(values)
}

// The values of these nodes.
fn values_at(alloc: Global, outs: &[u32], values: &[u32]) -> Result<Vec<u32>, AllocError>
    requires { All (λ v. v < length values.now) outs.now }
    ensures { IfOk result (λ words. words.items ≡ map (λ v. slice_index values.now v) outs.now) }
{
    let mut words = Vec::new(alloc);
    for out in outs {
        words.push(values[*out as usize])?;
    }
    Ok(words)
}

/// The values of the outs, in their order, where these words are put in: as many as the flow has inputs.
#[tactic(auto, unfolding(crate::specs::Flows::values_of))]
pub fn direct(alloc: Global, flow: &Flow, inputs: &[u32]) -> Result<Vec<u32>, AllocError>
    requires { length inputs.now ≡ inputs_in flow.now.nodes }
    ensures { IfOk result (λ values. values.items ≡ outs_of flow.now inputs.now) }
{
    let values = values_of(alloc, &flow.nodes, inputs)?;
    values_at(alloc, &flow.outs, &values)
}
