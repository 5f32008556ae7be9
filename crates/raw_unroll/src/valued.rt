//! The values of the nodes of rows, each from the row before.
ghost use Rattle.std.specs.Prelude.{◌≡◌, ◌+◌, ◌<◌, ◌^◌, ◌==◌, length, slice_index, set, if◌then◌else◌, IfOk, OnOk};
ghost use Rattle.raw_stream.specs.Streams.{AreNamed};
ghost use Rattle.raw_stream.specs.Unrolled.{word_count};
ghost use Rattle.raw_unroll.specs.Values.{row_at, AreNext, IsBefore, HasValue, node_value, next_after};

use raw_flow::law_values;
use raw_stream::{RowNode, StreamFlow};
use std::alloc::{AllocError, Global};

// The next word of a source, of which each has the place of its next word among these.
fn take_word(next: &mut Vec<u32>, words: &[u32], port: usize) -> u32
    requires within { port < length next.old.items }
    requires there { slice_index next.old.items port < length words.now }
    requires few { length words.now < 2 ^ 32 }
    ensures value { result ≡ slice_index words.now (slice_index next.old.items port) }
    ensures next { next.new.items ≡ set next.old.items port (slice_index next.old.items port + 1) }
{
    let place = next[port];
    next[port] = place + 1;
    words[place as usize]
}

// The value of a `pre` in a row, by the values of the row before.
fn pre_value(before: &[u32], row: usize, a: usize, word: u32) -> u32
    requires { 0 < row → a < length before.now }
    ensures { result ≡ (if row == 0 then word else slice_index before.now a) }
{
    if row == 0 { word } else { before[a] }
}

// The value of a node of a row, by those of the nodes before it and of the row before.
fn node_value(
    next: &mut Vec<u32>,
    words: &[u32],
    before: &[u32],
    values: &[u32],
    row: usize,
    node: RowNode,
) -> u32
    requires value { HasValue next.old.items words.now before.now values.now row node }
    requires few { length words.now < 2 ^ 32 }
    ensures value { result ≡ node_value next.old.items words.now before.now values.now row node }
    ensures next { next.new.items ≡ next_after next.old.items node }
{
    match node {
        RowNode::Input { port } => take_word(next, words, port as usize),
        RowNode::Const { word } => word,
        RowNode::Apply { op, a, b } => op.apply(values[a as usize], values[b as usize]),
        RowNode::Pre { a, word } => pre_value(before, row, a as usize, word),
    }
}

/// The values of the nodes of a row, by those of the row before.
pub(crate) fn row_values(
    alloc: Global,
    stream: &StreamFlow,
    words: &[u32],
    next: &mut Vec<u32>,
    before: &[u32],
    row: usize,
) -> Result<Vec<u32>, AllocError>
    requires named { AreNamed stream.now }
    requires words { length words.now ≡ word_count stream.now }
    requires few { length words.now < 2 ^ 32 }
    requires row { row < stream.now.count }
    requires next { AreNext stream.now row 0 next.old.items }
    requires before { IsBefore stream.now words.now row before.now }
    ensures values { IfOk result (λ values. values.items ≡ row_at stream.now words.now row) }
    ensures next { OnOk result (AreNext stream.now (row + 1) 0 next.new.items) }
{
    law_values();
    let mut values = Vec::new(alloc);
    for v in 0..stream.nodes.len() {
        let value = node_value(next, words, before, &values, row, stream.nodes[v]);
        values.push(value)?;
    }
    Ok(values)
}
