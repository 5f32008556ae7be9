//! The grid and the ports of a stream, as those of a set.
ghost use Rattle.std.specs.Prelude.{◌≡◌, ◌<◌, ◌^◌, ◌++◌, true, length, map, IfOk, IfSome};
ghost use Rattle.std.specs.List.{range_with_len};
ghost use Rattle.raw_grid.specs.Topology.{Topology};
ghost use Rattle.raw_stream.specs.Kept.{IsStream};
ghost use Rattle.raw_stream_choice.specs.StreamSets.{stream_topo, source_program, sink_program, stream_port_programs};

use raw_grid::{PortPlace, Topo, TopoRefusal};
use raw_model::PortProg;
use raw_stream::StreamFlow;
use std::alloc::{AllocError, Global};

// Appends ports to a grid, and says whether all could stand there.
fn add_ports(topo: &mut Topo, places: &[PortPlace]) -> bool
    ensures { result ≡ true → topo.new ≡
        record { cols = topo.old.cols; rows = topo.old.rows; places = topo.old.places ++ places.now } }
{
    for place in places {
        if topo.add_port(*place).is_err() {
            return false;
        }
    }
    true
}

/// The grid of a stream with its ports.
pub(crate) fn topo_of(alloc: Global, stream: &StreamFlow) -> Result<Option<Topo>, AllocError>
    ensures { IfOk result (λ found. IfSome found (λ topo. topo ≡ stream_topo stream.now)) }
{
    let mut topo = match Topo::new(alloc, stream.cols, stream.rows) {
        Ok(topo) => topo,
        Err(TopoRefusal::BadSize) => return Ok(None),
        Err(TopoRefusal::Memory) => return Err(AllocError),
    };
    if add_ports(&mut topo, &stream.sources) && add_ports(&mut topo, &stream.sinks) {
        Ok(Some(topo))
    } else {
        Ok(None)
    }
}

// A source with these words.
fn source_port(alloc: Global, words: &[u32]) -> Result<PortProg, AllocError>
    ensures { IfOk result (λ port. port ≡ record { words = words.now; capacity = 0 }) }
{
    Ok(PortProg {
        words: words.to_vec(alloc)?,
        capacity: 0,
    })
}

// The sources with their words, where there are enough.
fn source_ports(
    alloc: Global,
    stream: &StreamFlow,
    words: &[u32],
) -> Result<Option<Vec<PortProg>>, AllocError>
    requires { length stream.now.nodes < 2 ^ 32 }
    ensures { IfOk result (λ found. IfSome found (λ ports. ports.items ≡
        map (source_program stream.now words.now) (range_with_len 0 (length stream.now.sources)))) }
{
    let mut ports = Vec::new(alloc);
    let mut left = words;
    for port in 0..stream.sources.len() {
        let many = stream.taken_of(port) as usize;
        if many > left.len() {
            return Ok(None);
        }
        let (own, rest) = left.split_at(many);
        ports.push(source_port(alloc, own)?)?;
        left = rest;
    }
    Ok(Some(ports))
}

// A sink has room for what it is due.
fn sink_port(alloc: Global, stream: &StreamFlow, port: usize) -> PortProg
    requires stream { IsStream stream.now }
    requires outs { length stream.now.outs < 2 ^ 32 }
    requires port { port < length stream.now.sinks }
    ensures { result ≡ sink_program stream.now port }
{
    PortProg {
        words: Vec::new(alloc),
        capacity: stream.due_of(port) as u32,
    }
}

/// Whether the outs are not too many to be counted.
pub(crate) fn has_few_outs(stream: &StreamFlow) -> bool
    ensures { result ≡ true → length stream.now.outs < 2 ^ 32 }
{
    stream.outs.len() <= u32::MAX as usize
}

/// The ports of a stream: the sources with their words, and then the sinks.
pub(crate) fn ports_of(
    alloc: Global,
    stream: &StreamFlow,
    words: &[u32],
) -> Result<Option<Vec<PortProg>>, AllocError>
    requires { IsStream stream.now }
    ensures { IfOk result (λ found. IfSome found (λ ports. ports.items ≡ stream_port_programs stream.now words.now)) }
{
    if !has_few_outs(stream) {
        return Ok(None);
    }
    let Some(mut ports) = source_ports(alloc, stream, words)? else {
        return Ok(None);
    };
    for port in 0..stream.sinks.len() {
        ports.push(sink_port(alloc, stream, port))?;
    }
    Ok(Some(ports))
}
