//! The ports of an image.
ghost use Rattle.std.specs.Prelude.{◌≡◌, ◌≤◌, IfOk, OnErr, length};
ghost use Rattle.raw_grid.specs.Topology.{IsSize, with_port};
ghost use Rattle.raw_grid.specs.Names.{kind_with, net_with, side_with};
ghost use Rattle.raw_image.specs.Fields.{Gives, byte_at};
ghost use Rattle.raw_image.specs.Reading.{place_at, words_at, given_at, port_at, ports_at, no_ports};

use crate::fields::{bad_field, byte_at, number_between, word_at, zeros_at};
use crate::refused::Refusal;
use raw_grid::{Net, PortKind, PortPlace, PortRefusal, Side, Topo};
use raw_model::PortProg;
use raw_model::limits::{MAX_ALL_CAPACITIES, MAX_ALL_WORDS, MAX_CAPACITY};
use std::alloc::Global;
use std::marker::Model;

/// A grid with the ports that were read, and what each of these is given.
#[derive(Drop)]
pub(crate) struct PortList {
    pub(crate) topo: Topo,
    pub(crate) programs: Vec<PortProg>,
    /// How many more words sources may have.
    words: u32,
    /// How many more words sinks may hold.
    capacity: u32,
}

impl Model for PortList {
    ghost use Rattle.raw_image.specs.Reading.{Ports, IsPortRoom};

    ghost Value = { Ports };

    ghost view = { λ p. record { topo = p.topo; programs = p.programs.items } };

    ghost invariant = { λ p. IsPortRoom p.programs.items p.words p.capacity };
}

// The kind of a port.
fn kind_at(bytes: &[u8]) -> Result<(PortKind, &[u8]), Refusal>
    ensures { Gives (λ x. (x.0, x.1.now)) result (byte_at kind_with bytes.now) }
{
    let (number, rest) = byte_at(bytes)?;
    match PortKind::with_number(number) {
        Some(kind) => Ok((kind, rest)),
        None => Err(bad_field(bytes)),
    }
}

// The network of a port.
fn net_at(bytes: &[u8]) -> Result<(Net, &[u8]), Refusal>
    ensures { Gives (λ x. (x.0, x.1.now)) result (byte_at net_with bytes.now) }
{
    let (number, rest) = byte_at(bytes)?;
    match Net::with_number(number) {
        Some(net) => Ok((net, rest)),
        None => Err(bad_field(bytes)),
    }
}

// The side of a port.
fn side_at(bytes: &[u8]) -> Result<(Side, &[u8]), Refusal>
    ensures { Gives (λ x. (x.0, x.1.now)) result (byte_at side_with bytes.now) }
{
    let (number, rest) = byte_at(bytes)?;
    match Side::with_number(number) {
        Some(side) => Ok((side, rest)),
        None => Err(bad_field(bytes)),
    }
}

// Reads the place of a port, and adds it to the grid. A place off the edge is told at its column, and one
// that a port has at its side.
#[tactic(auto, unfolding(crate::specs::Reading::place_at))]
fn place_at<'a>(topo: &mut Topo, bytes: &'a [u8]) -> Result<(PortPlace, &'a [u8]), Refusal>
    ensures read { Gives (λ x. (x.0, x.1.now)) result (place_at topo.old bytes.now) }
    ensures added { IfOk result (λ x. topo.new ≡ with_port topo.old x.0) }
{
    let (kind, rest) = kind_at(bytes)?;
    let (net, column) = net_at(rest)?;
    let (x, rest) = byte_at(column)?;
    let (y, edge) = byte_at(rest)?;
    let (side, rest) = side_at(edge)?;
    let place = PortPlace {
        kind,
        net,
        x,
        y,
        side,
    };
    match topo.add_port(place) {
        Ok(_) => Ok((place, rest)),
        Err(PortRefusal::OffEdge) => Err(bad_field(column)),
        Err(PortRefusal::Double) => Err(bad_field(edge)),
    }
}

// The words of a source.
#[tactic(auto, unfolding(crate::specs::Reading::words_at))]
fn words_at(alloc: Global, count: u32, bytes: &[u8]) -> Result<(Vec<u32>, &[u8]), Refusal>
    ensures read { Gives (λ x. (x.0.items, x.1.now)) result (words_at count bytes.now) }
    ensures size { IfOk result (λ x. length x.0.items ≡ count) }
{
    let mut words = Vec::new(alloc);
    let mut rest = bytes;
    for _ in 0..count {
        let (word, after) = word_at(rest)?;
        words.push(word)?;
        rest = after;
    }
    Ok((words, rest))
}

// What a port of this kind is given: a source at most so many words, a sink at most so much capacity.
fn given_at(
    alloc: Global,
    kind: PortKind,
    words: u32,
    capacity: u32,
    bytes: &[u8],
) -> Result<(PortProg, &[u8]), Refusal>
    ensures read { Gives (λ x. (x.0, x.1.now)) result (given_at kind words capacity bytes.now) }
    ensures words { IfOk result (λ x. length x.0.words ≤ words) }
    ensures capacity { IfOk result (λ x. x.0.capacity ≤ capacity) }
{
    match kind {
        PortKind::Source => {
            let (count, rest) = number_between(bytes, 0, words)?;
            let (words, rest) = words_at(alloc, count, rest)?;
            let given = PortProg { words, capacity: 0 };
            Ok((given, rest))
        }
        PortKind::Sink => {
            let (capacity, rest) = number_between(bytes, 0, MAX_CAPACITY.min(capacity))?;
            let words = Vec::new(alloc);
            let given = PortProg { words, capacity };
            Ok((given, rest))
        }
    }
}

// A port behind others.
#[tactic(auto, unfolding(crate::specs::Reading::port_at))]
fn port_at(alloc: Global, ports: PortList, bytes: &[u8]) -> Result<(PortList, &[u8]), Refusal>
    ensures { Gives (λ x. (x.0, x.1.now)) result (port_at ports bytes.now) }
{
    let PortList {
        mut topo,
        mut programs,
        words,
        capacity,
    } = ports;
    let (place, rest) = place_at(&mut topo, bytes)?;
    let rest = zeros_at(rest, 3)?;
    let (given, rest) = given_at(alloc, place.kind, words, capacity, rest)?;
    let words = words - given.words.len() as u32;
    let capacity = capacity - given.capacity;
    programs.push(given)?;
    let ports = PortList {
        topo,
        programs,
        words,
        capacity,
    };
    Ok((ports, rest))
}

// A grid without ports.
fn no_ports(alloc: Global, columns: u8, rows: u8) -> Result<PortList, Refusal>
    requires { IsSize columns rows }
    ensures ok { IfOk result (λ ports. ports ≡ no_ports columns rows) }
    ensures memory { OnErr result (result ≡ Err Refusal.Memory) }
{
    let Ok(topo) = Topo::new(alloc, columns, rows) else {
        return Err(Refusal::Memory);
    };
    Ok(PortList {
        topo,
        programs: Vec::new(alloc),
        words: MAX_ALL_WORDS,
        capacity: MAX_ALL_CAPACITIES,
    })
}

/// The ports of a grid.
#[tactic(auto, unfolding(crate::specs::Reading::ports_at))]
pub(crate) fn ports_at(
    alloc: Global,
    columns: u8,
    rows: u8,
    bytes: &[u8],
) -> Result<(PortList, &[u8]), Refusal>
    requires { IsSize columns rows }
    ensures { Gives (λ x. (x.0, x.1.now)) result (ports_at columns rows bytes.now) }
{
    let most = 8 * (u32::from(columns) + u32::from(rows));
    let (count, rest) = number_between(bytes, 0, most)?;
    let mut ports = no_ports(alloc, columns, rows)?;
    let mut rest = rest;
    for _ in 0..count {
        let (next, after) = port_at(alloc, ports, rest)?;
        ports = next;
        rest = after;
    }
    Ok((ports, rest))
}
