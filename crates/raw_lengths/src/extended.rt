//! Streams that carry counters beside their own words.
ghost use Rattle.std.specs.Prelude.{◌≡◌, ◌+◌, ◌≤◌, ◌^◌, ◌<◌, ◌++◌, true, length, map, IfOk, IfSome};
ghost use Rattle.raw_rows.specs.Lengths.{moved, with_counters};

use raw_stream::{RowNode, StreamFlow};
use std::alloc::{AllocError, Global};

// A node behind so many others. None where its number would be none.
fn moved(behind: u32, node: RowNode) -> Option<RowNode>
    ensures { IfSome result (λ later. later ≡ moved behind node) }
{
    match node {
        RowNode::Input { .. } => Some(node),
        RowNode::Const { .. } => Some(node),
        RowNode::Apply { op, a, b } => Some(RowNode::Apply {
            op,
            a: behind.checked_add(a)?,
            b: behind.checked_add(b)?,
        }),
        RowNode::Pre { a, word } => Some(RowNode::Pre {
            a: behind.checked_add(a)?,
            word,
        }),
    }
}

// Nodes behind others.
fn push_moved(nodes: &mut Vec<RowNode>, counters: &[RowNode]) -> Result<bool, AllocError>
    ensures { IfOk result (λ yes. yes ≡ true →
        nodes.new.items ≡ nodes.old.items ++ map (moved (length nodes.old.items)) counters.now) }
{
    let Ok(behind) = u32::try_from(nodes.len()) else {
        return Ok(false);
    };
    for counter in counters {
        match moved(behind, *counter) {
            Some(node) => nodes.push(node)?,
            None => return Ok(false),
        }
    }
    Ok(true)
}

/// A stream that carries counters beside its own words. None where it has too many nodes.
pub(crate) fn with_counters(
    alloc: Global,
    stream: &StreamFlow,
    counters: &[RowNode],
) -> Result<Option<StreamFlow>, AllocError>
    ensures { IfOk result (λ found. IfSome found (λ extended. extended ≡ with_counters stream.now counters.now)) }
{
    let mut nodes = stream.nodes.to_vec(alloc)?;
    if !push_moved(&mut nodes, counters)? {
        return Ok(None);
    }
    Ok(Some(StreamFlow {
        cols: stream.cols,
        rows: stream.rows,
        count: stream.count,
        sources: stream.sources.to_vec(alloc)?,
        sinks: stream.sinks.to_vec(alloc)?,
        nodes,
        outs: stream.outs.to_vec(alloc)?,
    }))
}
