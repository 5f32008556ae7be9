//! A stream as the ordinary flow that it is.
ghost use Rattle.std.specs.Prelude.{◌≡◌, ◌+◌, ◌*◌, ◌↔◌, ◌<◌, ◌≤◌, ◌^◌, None, length, IfOk, IfSome};
ghost use Rattle.raw_model.specs.declared.limits.TheConstants.{MAX_ALL_WORDS};
ghost use Rattle.raw_flow.specs.declared.limits.TheConstants.{MAX_NODES};
ghost use Rattle.raw_stream.specs.Kept.{IsStream};
ghost use Rattle.raw_stream.specs.Unrolled.{word_count, unrolled};

use crate::counts::word_count;
use crate::outs::due_places;
use crate::unrolling::Unrolling;
use raw_flow::{Flow, MAX_NODES};
use raw_stream::StreamFlow;
use std::alloc::{AllocError, Global};

// How many nodes the flow has.
fn node_count(stream: &StreamFlow) -> u64
    requires nodes { length stream.now.nodes < 2 ^ 32 }
    requires words { word_count stream.now ≤ MAX_ALL_WORDS }
    ensures { result ≡ word_count stream.now + stream.now.count * length stream.now.nodes }
{
    word_count(stream) + u64::from(stream.count) * (stream.nodes.len() as u64)
}

/// The flow that a stream is when it is unrolled, and `None` exactly where it has more than 8,192 nodes.
///
/// It goes over the rows once, in time that grows with the nodes and outs of all rows.
pub fn unroll(alloc: Global, stream: &StreamFlow) -> Result<Option<Flow>, AllocError>
    requires { IsStream stream.now }
    ensures value { IfOk result (λ answer. IfSome answer (λ flow. flow ≡ unrolled stream.now)) }
    ensures none { IfOk result (λ answer. (answer ≡ None) ↔ (MAX_NODES < length (unrolled stream.now).nodes)) }
{
    if node_count(stream) > MAX_NODES as u64 {
        return Ok(None);
    }
    let unrolling = Unrolling::of_all(alloc, stream)?;
    let outs = due_places(alloc, stream, &unrolling.places)?;
    Ok(Some(Flow {
        cols: stream.cols,
        rows: stream.rows,
        nodes: unrolling.nodes,
        outs,
    }))
}
