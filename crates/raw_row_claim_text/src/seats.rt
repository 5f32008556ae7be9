//! The ports of a set at places, and a stream with the numbers of these ports.
ghost use Rattle.std.specs.Prelude.{◌≡◌, ℕ, ◌<◌, Some, length, map, slice_get, slice_index, All, IfOk};
ghost use Rattle.raw_stream.specs.Kept.{IsStream};
ghost use Rattle.raw_stream_text.specs.Meaning.{IsPortOf};
ghost use Rattle.raw_row_terms.specs.RowClaims.{IsClaimOf};
ghost use Rattle.raw_row_terms.specs.Seated.{reseated, reseated_out};
ghost use Rattle.raw_row_claim_text.specs.Seats.{AreSeatsUpTo, IsSeatedAs};

use raw_grid::{PortPlace, Topo};
use raw_model::Set;
use raw_row_terms::law_seated;
use raw_stream::{RowNode, StreamFlow, StreamOut};
use std::alloc::{AllocError, Global};

/// A stream whose sources and sinks have the numbers of the ports of a set.
#[derive(Drop)]
pub struct SeatedStream {
    /// The stream. Its sources, and its sinks, are all ports of the set.
    pub stream: StreamFlow,
    /// The ports of its sinks, in the order in which its text names them.
    pub order: Vec<u32>,
}

// The port of a set at a place.
fn seat_of(topo: &Topo, place: PortPlace) -> u32
    requires { IsPortOf topo.now place }
    ensures { slice_get topo.now.places result ≡ Some place }
{
    for port in 0..topo.ports() {
        if topo.place_of(port) == place {
            return port;
        }
    }
    unreachable!()
}

// The place of this number among these.
fn place_at(places: &[PortPlace], number: usize) -> PortPlace
    requires { number < length places.now }
    ensures { slice_get places.now number ≡ Some result }
{
    places[number]
}

// The ports of a set at places, one by one, where the set has a port at each.
fn seats_of(alloc: Global, topo: &Topo, places: &[PortPlace]) -> Result<Vec<u32>, AllocError>
    requires { All (IsPortOf topo.now) places.now }
    ensures { IfOk result (λ seats. AreSeatsUpTo topo.now places.now (length places.now) seats.items) }
{
    let mut seats = Vec::new(alloc);
    for number in 0..places.len() {
        let place = place_at(places, number);
        seats.push(seat_of(topo, place))?;
    }
    Ok(seats)
}

// The port of this number among these; 0 where there is none.
fn seat_at(seats: &[u32], number: u32) -> u32
    ensures { result ≡ slice_index seats.now number }
{
    match seats.get(number as usize) {
        Some(seat) => *seat,
        None => 0,
    }
}

// A node with the number of a port in the place of that of its source.
fn reseated(node: RowNode, seats: &[u32]) -> RowNode
    ensures { result ≡ reseated seats.now node }
{
    match node {
        RowNode::Input { port } => RowNode::Input {
            port: seat_at(seats, port),
        },
        RowNode::Const { word } => RowNode::Const { word },
        RowNode::Apply { op, a, b } => RowNode::Apply { op, a, b },
        RowNode::Pre { a, word } => RowNode::Pre { a, word },
    }
}

fn reseated_nodes(
    alloc: Global,
    nodes: &[RowNode],
    seats: &[u32],
) -> Result<Vec<RowNode>, AllocError>
    ensures { IfOk result (λ new. new.items ≡ map (reseated seats.now) nodes.now) }
{
    let mut new = Vec::new(alloc);
    for node in nodes {
        new.push(reseated(*node, seats))?;
    }
    Ok(new)
}

fn reseated_outs(
    alloc: Global,
    outs: &[StreamOut],
    seats: &[u32],
) -> Result<Vec<StreamOut>, AllocError>
    ensures { IfOk result (λ new. new.items ≡ map (reseated_out seats.now) outs.now) }
{
    let mut new = Vec::new(alloc);
    for out in outs {
        new.push(StreamOut {
            port: seat_at(seats, out.port),
            node: out.node,
        })?;
    }
    Ok(new)
}

// The places of all ports of a set.
fn places_of(alloc: Global, topo: &Topo) -> Result<Vec<PortPlace>, AllocError>
    ensures { IfOk result (λ places. places.items ≡ topo.now.places) }
{
    let mut places = Vec::new(alloc);
    for port in 0..topo.ports() {
        places.push(topo.place_of(port))?;
    }
    Ok(places)
}

/// A stream with the ports of a set, which has a source at the place of each of its sources, and a sink at that of each of
/// its sinks. It computes the same: the law is `law_seated` of `raw_row_terms`.
pub fn seat(alloc: Global, set: &Set, stream: &StreamFlow) -> Result<SeatedStream, AllocError>
    requires stream { IsStream stream.now }
    requires sources { All (IsPortOf set.now.topo) stream.now.sources }
    requires sinks { All (IsPortOf set.now.topo) stream.now.sinks }
    ensures seated { IfOk result (λ new. IsSeatedAs set.now.topo stream.now new.stream new.order.items) }
    ensures claim { IfOk result (λ new. IsClaimOf set.now new.stream new.order.items) }
{
    law_seated();
    let topo = &set.topo;
    let seats = seats_of(alloc, topo, &stream.sources)?;
    let order = seats_of(alloc, topo, &stream.sinks)?;
    let stream = StreamFlow {
        cols: stream.cols,
        rows: stream.rows,
        count: stream.count,
        sources: places_of(alloc, topo)?,
        sinks: places_of(alloc, topo)?,
        nodes: reseated_nodes(alloc, &stream.nodes, &seats)?,
        outs: reseated_outs(alloc, &stream.outs, &order)?,
    };
    Ok(SeatedStream { stream, order })
}
