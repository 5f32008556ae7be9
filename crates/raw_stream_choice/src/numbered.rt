//! A stream whose ports have the numbers of those of a set for it.
ghost use Rattle.std.specs.Prelude.{◌≡◌, ◌++◌, length, map, IfOk, IfSome};
ghost use Rattle.std.specs.List.{range_with_len};
ghost use Rattle.raw_stream_choice.specs.PortNumbers.{out_behind, numbered};

use raw_grid::PortPlace;
use raw_stream::{RowNode, StreamFlow, StreamOut};
use std::alloc::{AllocError, Global};

/// The sources, and behind them the sinks.
pub(crate) fn places_of(alloc: Global, stream: &StreamFlow) -> Result<Vec<PortPlace>, AllocError>
    ensures { IfOk result (λ places. places.items ≡ stream.now.sources ++ stream.now.sinks) }
{
    let mut places = stream.sources.to_vec(alloc)?;
    places.extend_from_slice(&stream.sinks)?;
    Ok(places)
}

// The nodes.
fn nodes_of(alloc: Global, stream: &StreamFlow) -> Result<Vec<RowNode>, AllocError>
    ensures { IfOk result (λ nodes. nodes.items ≡ stream.now.nodes) }
{
    stream.nodes.to_vec(alloc)
}

// The outs, to sinks that stand behind so many ports; none where their numbers are too great.
fn outs_behind(
    alloc: Global,
    outs: &[StreamOut],
    ports: u32,
) -> Result<Option<Vec<StreamOut>>, AllocError>
    ensures { IfOk result (λ found. IfSome found (λ all. all.items ≡ map (out_behind ports) outs.now)) }
{
    let mut behind = Vec::new(alloc);
    for out in outs {
        let StreamOut { port, node } = *out;
        let Some(port) = ports.checked_add(port) else {
            return Ok(None);
        };
        behind.push(StreamOut { port, node })?;
    }
    Ok(Some(behind))
}

/// The numbers of the sinks of a set for a stream, where so many ports stand before them.
pub(crate) fn sinks_of(alloc: Global, ports: u16, sinks: u16) -> Result<Vec<u32>, AllocError>
    ensures { IfOk result (λ numbers. numbers.items ≡ range_with_len ports sinks) }
{
    let mut numbers = Vec::new(alloc);
    for sink in 0..sinks as u32 {
        numbers.push(ports as u32 + sink)?;
    }
    Ok(numbers)
}

// The stream with these outs.
fn with_outs(
    alloc: Global,
    stream: &StreamFlow,
    outs: Vec<StreamOut>,
) -> Result<StreamFlow, AllocError>
    requires { outs.items ≡ map (out_behind (length stream.now.sources)) stream.now.outs }
    ensures { IfOk result (λ other. other ≡ numbered stream.now) }
{
    Ok(StreamFlow {
        cols: stream.cols,
        rows: stream.rows,
        count: stream.count,
        sources: places_of(alloc, stream)?,
        sinks: places_of(alloc, stream)?,
        nodes: nodes_of(alloc, stream)?,
        outs,
    })
}

/// A stream with the numbers of the ports of a set for it, where so many of them are sources.
pub(crate) fn numbered(
    alloc: Global,
    stream: &StreamFlow,
    sources: u16,
) -> Result<Option<StreamFlow>, AllocError>
    requires { sources ≡ length stream.now.sources }
    ensures { IfOk result (λ found. IfSome found (λ other. other ≡ numbered stream.now)) }
{
    match outs_behind(alloc, &stream.outs, sources as u32)? {
        Some(outs) => Ok(Some(with_outs(alloc, stream, outs)?)),
        None => Ok(None),
    }
}
