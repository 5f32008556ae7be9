//! The outs of the flow that a stream is.
ghost use Rattle.std.specs.Prelude.{◌≡◌, ◌<◌, ◌++◌, ℕ, length, map, IfOk, OnOk};
ghost use Rattle.std.specs.Option.{option_to_list};
ghost use Rattle.raw_stream.specs.Streams.{due_of, due_at};
ghost use Rattle.raw_stream.specs.Unrolled.{place, due_places, unrolled};
ghost use Rattle.raw_unroll.specs.Known.{ArePlaces};

use raw_stream::{StreamFlow, StreamOut};
use std::alloc::{AllocError, Global};

// Adds the place of what goes to a sink in a row, where it goes to this one.
fn add_out(
    outs: &mut Vec<u32>,
    stream: &StreamFlow,
    places: &[u32],
    row: usize,
    port: usize,
    out: StreamOut,
) -> Result<(), AllocError>
    requires places { ArePlaces stream.now places.now }
    requires row { row < stream.now.count }
    requires node { out.node < length stream.now.nodes }
    ensures { OnOk result (outs.new.items ≡ outs.old.items ++ map (place stream.now row) (option_to_list (due_of port out))) }
{
    if out.port as usize != port {
        return Ok(());
    }
    outs.push(places[row * stream.nodes.len() + out.node as usize])?;
    Ok(())
}

// Adds the places of what a sink is due of a row.
fn add_row(
    outs: &mut Vec<u32>,
    stream: &StreamFlow,
    places: &[u32],
    row: usize,
    port: usize,
) -> Result<(), AllocError>
    requires places { ArePlaces stream.now places.now }
    requires row { row < stream.now.count }
    ensures { OnOk result (outs.new.items ≡ outs.old.items ++ map (place stream.now row) (due_at stream.now port)) }
{
    for number in 0..stream.outs.len() {
        add_out(outs, stream, places, row, port, stream.outs[number])?;
    }
    Ok(())
}

// Adds the places of what a sink is due of all rows.
fn add_sink(
    outs: &mut Vec<u32>,
    stream: &StreamFlow,
    places: &[u32],
    port: usize,
) -> Result<(), AllocError>
    requires { ArePlaces stream.now places.now }
    ensures { OnOk result (outs.new.items ≡ outs.old.items ++ due_places stream.now port) }
{
    for row in 0..stream.count as usize {
        add_row(outs, stream, places, row, port)?;
    }
    Ok(())
}

/// The places of what all sinks are due, one sink behind the other.
pub(crate) fn due_places(
    alloc: Global,
    stream: &StreamFlow,
    places: &[u32],
) -> Result<Vec<u32>, AllocError>
    requires { ArePlaces stream.now places.now }
    ensures { IfOk result (λ outs. outs.items ≡ (unrolled stream.now).outs) }
{
    let mut outs = Vec::new(alloc);
    for port in 0..stream.sinks.len() {
        add_sink(&mut outs, stream, places, port)?;
    }
    Ok(outs)
}
