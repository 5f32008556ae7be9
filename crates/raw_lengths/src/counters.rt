//! What counters are behind rows.
ghost use Rattle.std.specs.Prelude.{◌≡◌, ℕ, ◌+◌, ◌*◌, ◌<◌, [], true, length, map, slice_index, IfOk, IfSome};
ghost use Rattle.std.specs.List.{filter_map};
ghost use Rattle.raw_flow.specs.Flows.{IsNode, AreNodes, values_from};
ghost use Rattle.raw_flow.specs.Flows.{value_of, with_input};
ghost use Rattle.raw_stream.specs.Streams.{Stream, plain, taken, carried_after, first_of, next_of, valued};
ghost use Rattle.raw_rows.specs.Lengths.{counting, counted};

use raw_cut::carried_out;
use raw_flow::Node;
use raw_stream::RowNode;
use std::alloc::{AllocError, Global};

// The word at a place of a list, and 0 behind its end.
fn word_at(words: &[u32], place: usize) -> u32
    ensures { result ≡ slice_index words.now place }
{
    match words.get(place) {
        Some(word) => *word,
        None => 0,
    }
}

// The words of the inputs of a row that takes none: what is carried into it.
fn taken(alloc: Global, row: &[RowNode], carried: &[u32]) -> Result<Vec<u32>, AllocError>
    ensures { IfOk result (λ ins. ins.items ≡ taken row.now carried.now []) }
{
    let mut ins = Vec::with_capacity(alloc, carried.len())?;
    let mut next = 0;
    for node in row {
        match *node {
            RowNode::Input { .. } => ins.push(0)?,
            RowNode::Pre { .. } => {
                ins.push(word_at(carried, next))?;
                next += 1;
            }
            RowNode::Const { .. } => {}
            RowNode::Apply { .. } => {}
        }
    }
    Ok(ins)
}

// The value of a node, where so many inputs stand before it, and the nodes before it have these values.
fn value_of(inputs: &[u32], taken: usize, before: &[u32], node: Node) -> u32
    ensures { result ≡ value_of inputs.now taken before.now node }
{
    match node {
        Node::Input => word_at(inputs, taken),
        Node::Const { word } => word,
        Node::Apply { op, a, b } => op.apply(
            word_at(before, a as usize),
            word_at(before, b as usize),
        ),
    }
}

/// The values of nodes, of these words of their inputs.
pub(crate) fn values_of(
    alloc: Global,
    inputs: &[u32],
    nodes: &[Node],
) -> Result<Vec<u32>, AllocError>
    ensures { IfOk result (λ values. values.items ≡ values_from inputs.now 0 [] nodes.now) }
{
    let mut values = Vec::with_capacity(alloc, nodes.len())?;
    let mut taken = 0;
    for node in nodes {
        values.push(value_of(inputs, taken, &values, *node))?;
        if let Node::Input = *node {
            taken += 1;
        }
    }
    Ok(values)
}

// What counters are a row later.
fn next_row(
    alloc: Global,
    counters: &[RowNode],
    nodes: &[Node],
    carried: &[u32],
) -> Result<Vec<u32>, AllocError>
    requires { nodes.now ≡ map plain counters.now }
    ensures { IfOk result (λ next. (s : Stream) → next.items ≡ carried_after (counting s counters.now) carried.now []) }
{
    let ins = taken(alloc, counters, carried)?;
    let values = values_of(alloc, &ins, nodes)?;
    carried_out(alloc, counters, &values)
}

/// What counters are before the first row.
pub(crate) fn first_words(alloc: Global, counters: &[RowNode]) -> Result<Vec<u32>, AllocError>
    ensures { IfOk result (λ words. (s : Stream) → words.items ≡ counted s counters.now 0) }
{
    let mut words = Vec::new(alloc);
    for node in counters {
        if let RowNode::Pre { word, .. } = *node {
            words.push(word)?;
        }
    }
    Ok(words)
}

/// What counters are so many rows later, where they are these behind so many rows.
pub(crate) fn counted_on(
    alloc: Global,
    counters: &[RowNode],
    nodes: &[Node],
    words: Vec<u32>,
    rows: u32,
) -> Result<Vec<u32>, AllocError>
    requires { nodes.now ≡ map plain counters.now }
    ensures { IfOk result (λ later. (s : Stream) (before : ℕ) → words.items ≡ counted s counters.now before →
        later.items ≡ counted s counters.now (before + rows)) }
{
    let mut now = words;
    for _r in 0..rows {
        now = next_row(alloc, counters, nodes, &now)?;
    }
    Ok(now)
}
