//! Where the sources and sinks of a flow stand.
ghost use Rattle.std.specs.Prelude.{◌≡◌, ℕ, ◌<◌, ◌≤◌, ◌^◌, ◌==◌, [], ◌∷◌, ◌++◌, length, map, slice_index, slice_index_or, if◌then◌else◌, Contains, IfOk, OnOk};
ghost use Rattle.std.specs.List.{range_with_len};
ghost use Rattle.raw_grid.specs.declared.limits.TheConstants.{MAX_TILES};
ghost use Rattle.raw_grid.specs.Topology.{IsAtEdge, without_ports, with_port};
ghost use Rattle.raw_flow.specs.Flows.{IsFlow};
ghost use Rattle.raw_flow.specs.Ports.{usual_ports, source_place, source_of, sink_of, picked, placed_topo, tile_at, ArePorts};
ghost use Rattle.raw_flow.specs.Compiled.{tiles_in, source_program, sink_program, port_programs};

use crate::flow::Flow;
use raw_grid::{Net, PortKind, PortPlace, Side, Topo, TopoRefusal, law_wires};
use raw_model::PortProg;
use std::alloc::{AllocError, Global};
use std::marker::Model;

/// The places of the sources and sinks of a flow, and which of them has an input or an out.
#[derive(Drop)]
pub struct Ports {
    /// Where the sources stand, by their numbers.
    pub sources: Vec<PortPlace>,
    /// Where the sinks stand, by their numbers.
    pub sinks: Vec<PortPlace>,
    /// For each input, by its number from 0, the number of its source; further inputs are of source 0.
    pub comes: Vec<u32>,
    /// For each out, by its place from 0, the number of its sink; further outs go to sink 0.
    pub goes: Vec<u32>,
}

impl Model for Ports {
    ghost use Rattle.raw_flow.specs.Ports.{FlowPorts};

    ghost Value = { FlowPorts };

    ghost view = { λ p. record { sources = p.sources.items; sinks = p.sinks.items; comes = p.comes.items; goes = p.goes.items } };
}

// The number at a place of a list, and past its end 0.
fn port_at(ports: &[u32], place: usize) -> u32
    ensures { result ≡ slice_index ports.now place }
{
    if place < ports.len() { ports[place] } else { 0 }
}

// A port of this kind at the west of tile 0, on network 1.
fn first_place(kind: PortKind) -> PortPlace
    ensures { result ≡ record { kind = kind; net = Net.One; x = 0; y = 0; side = Side.W } }
{
    PortPlace {
        kind,
        net: Net::One,
        x: 0,
        y: 0,
        side: Side::W,
    }
}

impl Ports {
    /// A source and a sink at the west of tile 0, of all inputs and of all outs.
    pub fn usual(alloc: Global) -> Result<Ports, AllocError>
        ensures { IfOk result (λ ports. ports ≡ usual_ports) }
    {
        Ok(Ports {
            sources: vec![in alloc; first_place(PortKind::Source)]?,
            sinks: vec![in alloc; first_place(PortKind::Sink)]?,
            comes: Vec::new(alloc),
            goes: Vec::new(alloc),
        })
    }

    /// Where an input comes from, by its number.
    pub(crate) fn source_of(&self, k: usize) -> PortPlace
        requires { slice_index self.now.comes k < length self.now.sources }
        ensures { result ≡ source_of self.now k }
    {
        self.sources[port_at(&self.comes, k) as usize]
    }

    /// Where an out goes, by its place.
    pub(crate) fn sink_of(&self, i: usize) -> PortPlace
        requires { slice_index self.now.goes i < length self.now.sinks }
        ensures { result ≡ sink_of self.now i }
    {
        self.sinks[port_at(&self.goes, i) as usize]
    }

    // How many ports there are.
    fn port_count(&self) -> usize
        requires { length (self.now.sources ++ self.now.sinks) < 2 ^ 32 }
        ensures { result ≡ length (self.now.sources ++ self.now.sinks) }
    {
        self.sources.len() + self.sinks.len()
    }

    // The place of a port, by its number: of the sources and then of the sinks.
    fn place_at(&self, number: usize) -> PortPlace
        requires { number < length (self.now.sources ++ self.now.sinks) }
        ensures { result ≡ slice_index_or (self.now.sources ++ self.now.sinks) number source_place }
    {
        if number < self.sources.len() {
            self.sources[number]
        } else {
            self.sinks[number - self.sources.len()]
        }
    }
}

/// The number of tiles.
pub(crate) fn tiles_in(flow: &Flow) -> u32
    ensures value { result ≡ tiles_in flow.now }
    ensures some { 0 < result }
    ensures few { result ≤ MAX_TILES }
    ensures valid { IsFlow flow.now }
{
    u32::from(flow.cols) * u32::from(flow.rows)
}

/// The rules that the type of a flow keeps.
pub(crate) fn keeps_rules(flow: &Flow)
    ensures valid { IsFlow flow.now }
    ensures few { tiles_in flow.now ≤ MAX_TILES }
{
    tiles_in(flow);
}

/// The tile at a place of the grid.
pub(crate) fn tile_at(flow: &Flow, place: PortPlace) -> u32
    requires column { place.x < flow.now.cols }
    requires row { place.y < flow.now.rows }
    ensures value { result ≡ tile_at flow.now place }
    ensures inside { result < tiles_in flow.now }
{
    u32::from(place.y) * u32::from(flow.cols) + u32::from(place.x)
}

// Adds a port at a place where one can stand.
fn add_port(topo: &mut Topo, place: PortPlace)
    requires edge { IsAtEdge topo.old place }
    requires free { ¬ (Contains topo.old.places place) }
    ensures { topo.new ≡ with_port topo.old place }
{
    if topo.add_port(place).is_err() {
        unreachable!()
    }
}

// The grid without ports.
fn bare_grid(alloc: Global, flow: &Flow) -> Result<Topo, AllocError>
    ensures { IfOk result (λ topo. topo ≡ without_ports flow.now.cols flow.now.rows) }
{
    match Topo::new(alloc, flow.cols, flow.rows) {
        Ok(topo) => Ok(topo),
        Err(TopoRefusal::Memory) => Err(AllocError),
        Err(TopoRefusal::BadSize) => unreachable!(),
    }
}

/// The grid of a flow with its ports.
pub(crate) fn placed_topo(alloc: Global, flow: &Flow, ports: &Ports) -> Result<Topo, AllocError>
    requires { ArePorts flow.now ports.now }
    ensures { IfOk result (λ topo. topo ≡ placed_topo flow.now ports.now) }
{
    law_wires();
    let mut topo = bare_grid(alloc, flow)?;
    for number in 0..ports.port_count() {
        add_port(&mut topo, ports.place_at(number));
    }
    Ok(topo)
}

// Adds a word where this port is its own.
fn push_own(own: &mut Vec<u32>, port: usize, word_port: u32, word: u32) -> Result<(), AllocError>
    ensures { OnOk result (own.new.items ≡ own.old.items ++ (if word_port == port then word ∷ [] else [])) }
{
    if word_port as usize == port {
        own.push(word)?;
    }
    Ok(())
}

// Those of a list that have this port, where these are the ports of all.
fn picked(alloc: Global, port: usize, ports: &[u32], words: &[u32]) -> Result<Vec<u32>, AllocError>
    ensures { IfOk result (λ own. own.items ≡ picked port ports.now words.now) }
{
    let mut own = Vec::new(alloc);
    for place in 0..words.len() {
        push_own(&mut own, port, port_at(ports, place), words[place])?;
    }
    Ok(own)
}

// The words of a source.
fn source_program(
    alloc: Global,
    ports: &Ports,
    inputs: &[u32],
    port: usize,
) -> Result<PortProg, AllocError>
    ensures { IfOk result (λ program. program ≡ source_program ports.now inputs.now port) }
{
    Ok(PortProg {
        words: picked(alloc, port, &ports.comes, inputs)?,
        capacity: 0,
    })
}

// How many words a sink takes.
fn sink_program(
    alloc: Global,
    flow: &Flow,
    ports: &Ports,
    port: usize,
) -> Result<PortProg, AllocError>
    requires { length (picked port ports.now.goes flow.now.outs) < 2 ^ 32 }
    ensures { IfOk result (λ program. program ≡ sink_program flow.now ports.now port) }
{
    let outs = picked(alloc, port, &ports.goes, &flow.outs)?;
    Ok(PortProg {
        words: Vec::new(alloc),
        capacity: outs.len() as u32,
    })
}

// The words of all sources.
fn source_programs(
    alloc: Global,
    ports: &Ports,
    inputs: &[u32],
) -> Result<Vec<PortProg>, AllocError>
    ensures { IfOk result (λ programs. programs.items ≡ map (source_program ports.now inputs.now) (range_with_len 0 (length ports.now.sources))) }
{
    let mut programs = Vec::new(alloc);
    for port in 0..ports.sources.len() {
        let program = source_program(alloc, ports, inputs, port)?;
        programs.push(program)?;
    }
    Ok(programs)
}

// How many words all sinks take, behind what other ports are given.
fn add_sinks(
    alloc: Global,
    programs: &mut Vec<PortProg>,
    flow: &Flow,
    ports: &Ports,
) -> Result<(), AllocError>
    requires { (q : ℕ) → q < length ports.now.sinks → length (picked q ports.now.goes flow.now.outs) < 2 ^ 32 }
    ensures { OnOk result (programs.new.items ≡ programs.old.items ++ map (sink_program flow.now ports.now) (range_with_len 0 (length ports.now.sinks))) }
{
    for port in 0..ports.sinks.len() {
        let program = sink_program(alloc, flow, ports, port)?;
        programs.push(program)?;
    }
    Ok(())
}

/// What all ports are given: the words of each source, and how many each sink takes.
pub(crate) fn port_programs(
    alloc: Global,
    flow: &Flow,
    ports: &Ports,
    inputs: &[u32],
) -> Result<Vec<PortProg>, AllocError>
    requires { (q : ℕ) → q < length ports.now.sinks → length (picked q ports.now.goes flow.now.outs) < 2 ^ 32 }
    ensures { IfOk result (λ programs. programs.items ≡ port_programs flow.now ports.now inputs.now) }
{
    let mut programs = source_programs(alloc, ports, inputs)?;
    add_sinks(alloc, &mut programs, flow, ports)?;
    Ok(programs)
}
