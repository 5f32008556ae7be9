//! The ports of a stream as those of the flow that it is.
ghost use Rattle.std.specs.Prelude.{◌≡◌, ◌<◌, ◌^◌, ◌++◌, length, replicate, IfOk, OnOk};
ghost use Rattle.raw_stream.specs.Kept.{IsStream};
ghost use Rattle.raw_unroll.specs.Compiled.{stream_ports};

use raw_flow::Ports;
use raw_grid::law_wires;
use raw_stream::StreamFlow;
use std::alloc::{AllocError, Global};

// Adds a number so many times.
fn push_times(numbers: &mut Vec<u32>, number: u32, times: u64) -> Result<(), AllocError>
    ensures { OnOk result (numbers.new.items ≡ numbers.old.items ++ replicate times number) }
{
    for _ in 0..times {
        numbers.push(number)?;
    }
    Ok(())
}

// The source of each input of the flow.
fn comes(alloc: Global, stream: &StreamFlow) -> Result<Vec<u32>, AllocError>
    requires stream { IsStream stream.now }
    requires few { length stream.now.sources < 2 ^ 32 }
    ensures { IfOk result (λ comes. comes.items ≡ (stream_ports stream.now).comes) }
{
    let mut comes = Vec::new(alloc);
    for port in 0..stream.sources.len() {
        push_times(&mut comes, port as u32, stream.taken_of(port))?;
    }
    Ok(comes)
}

// The sink of each out of the flow.
fn goes(alloc: Global, stream: &StreamFlow) -> Result<Vec<u32>, AllocError>
    requires stream { IsStream stream.now }
    requires few { length stream.now.sinks < 2 ^ 32 }
    requires outs { length stream.now.outs < 2 ^ 32 }
    ensures { IfOk result (λ goes. goes.items ≡ (stream_ports stream.now).goes) }
{
    let mut goes = Vec::new(alloc);
    for port in 0..stream.sinks.len() {
        push_times(&mut goes, port as u32, stream.due_of(port))?;
    }
    Ok(goes)
}

/// The ports of a stream as those of the flow that it is: where they stand, and for each input and each out its port.
pub fn stream_ports(alloc: Global, stream: &StreamFlow) -> Result<Ports, AllocError>
    requires { IsStream stream.now }
    ensures { IfOk result (λ ports. ports ≡ stream_ports stream.now) }
{
    law_wires();
    let sources = stream.sources.to_vec(alloc)?;
    let sinks = stream.sinks.to_vec(alloc)?;
    let comes = comes(alloc, stream)?;
    let goes = goes(alloc, stream)?;
    Ok(Ports {
        sources,
        sinks,
        comes,
        goes,
    })
}
