//! Ports whose words are numbers of terms.
ghost use Rattle.std.specs.Prelude.{◌≡◌, ◌+◌, ◌*◌, ◌<◌, ◌≤◌, ◌++◌, [], length, map, take, drop, if◌then◌else◌, IfOk, IfSome};
ghost use Rattle.std.specs.List.{filter_map};
ghost use Rattle.raw_model.specs.declared.limits.TheConstants.{MAX_CAPACITY};
ghost use Rattle.raw_stream.specs.Streams.{due_of, due_at};
ghost use Rattle.raw_rows.specs.Given.{part, given_by};
ghost use Rattle.raw_rows.specs.Kernels.{room_for};
ghost use Rattle.raw_cut.specs.Parts.{spare_at, port_with, ports_with};

use raw_grid::{PortKind, Topo};
use raw_model::PortProg;
use raw_model::limits::MAX_CAPACITY;
use raw_stream::{RowNode, StreamFlow, StreamOut};
use std::alloc::{AllocError, Global};

// A word of a row, where it is of this port, behind others.
fn push_word(words: &[u32], next: usize, is_own: bool, all: &mut Vec<u32>) -> Result<(), AllocError>
    ensures { IfOk result (λ done. all.new.items ≡ all.old.items ++ (if is_own then take 1 (drop next words.now) else [])) }
{
    if !is_own {
        return Ok(());
    }
    if let Some(word) = words.get(next) {
        all.push(*word)?;
    }
    Ok(())
}

// Those words of a row that a port gives, behind others.
fn push_part(
    nodes: &[RowNode],
    port: u32,
    words: &[u32],
    all: &mut Vec<u32>,
) -> Result<(), AllocError>
    ensures { IfOk result (λ done. all.new.items ≡ all.old.items ++ part port nodes.now words.now) }
{
    let mut next = 0;
    for node in nodes {
        match *node {
            RowNode::Input { port: other } => {
                push_word(words, next, other == port, all)?;
                next += 1;
            }
            RowNode::Const { .. } => {}
            RowNode::Apply { .. } => {}
            RowNode::Pre { .. } => {}
        }
    }
    Ok(())
}

/// The words that a port gives of these rows.
pub(crate) fn given_by(
    alloc: Global,
    stream: &StreamFlow,
    port: u32,
    rows: &[Vec<u32>],
) -> Result<Vec<u32>, AllocError>
    ensures { IfOk result (λ given. given.items ≡ given_by stream.now port (map (λ row. row.items) rows.now)) }
{
    let mut given = Vec::new(alloc);
    for row in rows {
        push_part(&stream.nodes, port, row, &mut given)?;
    }
    Ok(given)
}

// The nodes whose values a port gets of a row.
fn due_in(alloc: Global, outs: &[StreamOut], port: u32) -> Result<Vec<u32>, AllocError>
    ensures { IfOk result (λ due. due.items ≡ filter_map (due_of port) outs.now) }
{
    let mut due = Vec::new(alloc);
    for out in outs {
        if out.port == port {
            due.push(out.node)?;
        }
    }
    Ok(due)
}

/// The nodes whose values a port gets of a row.
pub(crate) fn due_at(alloc: Global, stream: &StreamFlow, port: u32) -> Result<Vec<u32>, AllocError>
    ensures { IfOk result (λ due. due.items ≡ due_at stream.now port) }
{
    due_in(alloc, &stream.outs, port)
}

// So many words of so many rows, where a port may have room for them.
fn room_of(rows: usize, each: usize) -> Option<u32>
    ensures value { IfSome result (λ room. room ≡ rows * each) }
    ensures few { IfSome result (λ room. room ≤ MAX_CAPACITY) }
{
    let most = MAX_CAPACITY as usize;
    if rows > most || each > most || rows * each > most {
        return None;
    }
    Some((rows * each) as u32)
}

// How many places more than it needs a port has.
fn spare_at(topo: &Topo, spare: u32, port: u32) -> u32
    requires { port < length topo.now.places }
    ensures { result ≡ spare_at topo.now spare port }
{
    match topo.place_of(port).kind {
        PortKind::Source => 0,
        PortKind::Sink => spare,
    }
}

// A port with the words that it gives of these rows, room for what it gets of them, and some places more. None where it
// may not have so much room.
fn port_with(
    alloc: Global,
    topo: &Topo,
    stream: &StreamFlow,
    rows: &[Vec<u32>],
    spare: u32,
    port: u32,
) -> Result<Option<PortProg>, AllocError>
    requires few { spare < 2 }
    requires port { port < length topo.now.places }
    ensures { IfOk result (λ found. IfSome found (λ made.
        made ≡ port_with topo.now stream.now (map (λ row. row.items) rows.now) spare port)) }
{
    let due = due_at(alloc, stream, port)?;
    let Some(room) = room_of(rows.len(), due.len()) else {
        return Ok(None);
    };
    let words = given_by(alloc, stream, port, rows)?;
    Ok(Some(PortProg {
        words,
        capacity: room + spare_at(topo, spare, port),
    }))
}

/// All ports, likewise.
#[tactic(auto, using(raw_stream::proofs::Sums::range_push))]
pub(crate) fn ports_with(
    alloc: Global,
    topo: &Topo,
    stream: &StreamFlow,
    rows: &[Vec<u32>],
    spare: u32,
) -> Result<Option<Vec<PortProg>>, AllocError>
    requires few { spare < 2 }
    ensures { IfOk result (λ found. IfSome found (λ ports.
        ports.items ≡ ports_with topo.now stream.now (length topo.now.places) (map (λ row. row.items) rows.now) spare)) }
{
    let mut ports = Vec::with_capacity(alloc, topo.ports() as usize)?;
    for port in 0..topo.ports() {
        match port_with(alloc, topo, stream, rows, spare, port)? {
            Some(made) => ports.push(made)?,
            None => return Ok(None),
        }
    }
    Ok(Some(ports))
}
