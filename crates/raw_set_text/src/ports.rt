//! The grid of a set that is being built, its ports, and what they are given.
ghost use Rattle.std.specs.Prelude.{◌≡◌, ◌<◌, ◌≤◌, List, [], ◌∷◌, ◌++◌, length, not, slice_get, Some, IfOk, OnOk, OnErr, if◌then◌else◌};
ghost use Rattle.std.specs.List.{list_any};
ghost use Rattle.std.specs.Option.{is_some};
ghost use Rattle.raw_grid.specs.Topology.{IsTopology, tile_count, without_ports, with_port, neighbour};
ghost use Rattle.raw_model.specs.declared.limits.TheConstants.{MAX_ALL_CAPACITIES, MAX_ALL_WORDS};
ghost use Rattle.raw_set_text.specs.Entry.{Entry, place_of, same_place};
ghost use Rattle.raw_set_text.specs.Entry.Entry.{Grid, Port, Feed};
ghost use Rattle.raw_set_text.specs.Faults.{entry_fault, fault_if, is_bad_size, is_outside};
ghost use Rattle.raw_set_text.specs.Answers.{Answers, with_entry};

use crate::declaration::Edge;
use crate::kind::SetKind;
use crate::refused::LineRefusal;
use raw_grid::{PortKind, PortPlace, PortRefusal, Topo, TopoRefusal};
use raw_model::PortProg;
use raw_model::limits::{MAX_ALL_CAPACITIES, MAX_ALL_WORDS, MAX_CAPACITY};
use std::alloc::{AllocError, Global};

/// A grid, and what each of its ports is given, in the order of the ports.
#[derive(Drop)]
pub(crate) struct Ports {
    pub(crate) topo: Topo,
    /// Behind those of the ports may stand the program of one that was refused.
    pub(crate) programs: Vec<PortProg>,
    /// The capacities of all sinks.
    pub(crate) capacity: u32,
    /// How many words all sources have.
    pub(crate) words: u32,
    ghost each_port: { length topo.places ≤ length programs.items },
    ghost few_places: { capacity ≤ MAX_ALL_CAPACITIES },
    ghost few_words: { words ≤ MAX_ALL_WORDS },
}

impl Ports {
    ghost use Rattle.raw_set_text.specs.Building.{PortsStand};

    /// A grid without ports. A fault is `BadSize`.
    #[tactic(auto, unfolding(crate::specs::Faults::entry_fault))]
    pub(crate) fn new(alloc: Global, columns: u32, rows: u32) -> Result<Ports, LineRefusal>
        ensures fault { Answers result (entry_fault [] (Grid columns rows)) }
        ensures stands { IfOk result (λ ports. PortsStand ports (Grid columns rows ∷ [])) }
    {
        Ok(Ports {
            topo: new_grid(alloc, columns, rows)?,
            programs: Vec::new(alloc),
            capacity: 0,
            words: 0,
        })
    }

    /// Adds a port. Its capacity is 0 for a source.
    pub(crate) fn add(
        &mut self,
        kind: PortKind,
        edge: Edge,
        capacity: u32,
    ) -> Result<(), LineRefusal>
        ensures fault { (entries : List Entry) → PortsStand self.old entries →
            Answers result (entry_fault entries (Port (place_of kind edge) capacity)) }
        ensures stands { (entries : List Entry) → PortsStand self.old entries →
            OnOk result (PortsStand self.new (with_entry entries (Port (place_of kind edge) capacity))) }
        ensures size { tile_count self.new.topo ≡ tile_count self.old.topo }
    {
        let place = place_on(&self.topo, kind, edge)?;
        // The program comes first, so that no port is without one.
        let words = Vec::new(*self.programs.allocator());
        self.programs.push(PortProg { words, capacity })?;
        add_place(&mut self.topo, place)?;
        if capacity > MAX_CAPACITY || capacity > MAX_ALL_CAPACITIES - self.capacity {
            return Err(LineRefusal::Fault(SetKind::OverLimit));
        }
        self.capacity += capacity;
        Ok(())
    }

    /// Appends words to those of a source.
    pub(crate) fn feed(&mut self, edge: Edge, words: &[u32]) -> Result<(), LineRefusal>
        ensures fault { (entries : List Entry) → PortsStand self.old entries →
            Answers result (entry_fault entries (Feed (place_of PortKind.Source edge) words.now)) }
        ensures stands { (entries : List Entry) → PortsStand self.old entries →
            OnOk result (PortsStand self.new (with_entry entries (Feed (place_of PortKind.Source edge) words.now))) }
        ensures grid { self.new.topo ≡ self.old.topo }
    {
        let place = place_on(&self.topo, PortKind::Source, edge)?;
        let port = port_at(&self.topo, place)?;
        if words.len() > (MAX_ALL_WORDS - self.words) as usize {
            return Err(LineRefusal::Fault(SetKind::OverLimit));
        }
        append(&mut self.programs[port as usize], words)?;
        self.words += words.len() as u32;
        Ok(())
    }
}

/// A grid without ports. A fault is `BadSize`.
fn new_grid(alloc: Global, columns: u32, rows: u32) -> Result<Topo, LineRefusal>
    ensures fault { Answers result (fault_if (is_bad_size (Grid columns rows)) SetKind.BadSize None) }
    ensures value { IfOk result (λ topo. topo ≡ without_ports columns rows) }
{
    let (Ok(columns), Ok(rows)) = (u8::try_from(columns), u8::try_from(rows)) else {
        return Err(LineRefusal::Fault(SetKind::BadSize));
    };
    match Topo::new(alloc, columns, rows) {
        Ok(topo) => Ok(topo),
        Err(TopoRefusal::BadSize) => Err(LineRefusal::Fault(SetKind::BadSize)),
        Err(TopoRefusal::Memory) => Err(LineRefusal::Memory),
    }
}

/// The place of a port at an edge. A fault is `OffGrid`.
fn place_on(topo: &Topo, kind: PortKind, edge: Edge) -> Result<PortPlace, LineRefusal>
    ensures value { result ≡
        (if is_outside topo.now.cols topo.now.rows (Some edge.tile) then Err (LineRefusal.Fault SetKind.OffGrid) else Ok (place_of kind edge)) }
    ensures valid { IsTopology topo.now }
{
    if edge.tile.x >= u32::from(topo.cols()) || edge.tile.y >= u32::from(topo.rows()) {
        return Err(LineRefusal::Fault(SetKind::OffGrid));
    }
    Ok(PortPlace {
        kind,
        net: edge.net,
        x: edge.tile.x as u8,
        y: edge.tile.y as u8,
        side: edge.side,
    })
}

/// Adds the place of a port of a tile of the grid. A fault is `PortOffEdge` or `DoublePort`.
fn add_place(topo: &mut Topo, place: PortPlace) -> Result<(), LineRefusal>
    requires column { place.x < topo.old.cols }
    requires row { place.y < topo.old.rows }
    ensures fault { Answers result
        (fault_if (is_some (neighbour topo.old place.x place.y place.side)) SetKind.PortOffEdge
        (fault_if (list_any (same_place place) topo.old.places) SetKind.DoublePort None)) }
    ensures added { OnOk result (topo.new ≡ with_port topo.old place) }
    ensures err { OnErr result (topo.new ≡ topo.old) }
{
    match topo.add_port(place) {
        Ok(_) => Ok(()),
        Err(PortRefusal::OffEdge) => Err(LineRefusal::Fault(SetKind::PortOffEdge)),
        Err(PortRefusal::Double) => Err(LineRefusal::Fault(SetKind::DoublePort)),
    }
}

/// The number of the port at a place. A fault is `UndeclaredEdge`.
fn port_at(topo: &Topo, place: PortPlace) -> Result<u32, LineRefusal>
    ensures fault { Answers result (fault_if (not (list_any (same_place place) topo.now.places)) SetKind.UndeclaredEdge None) }
    ensures there { IfOk result (λ port. slice_get topo.now.places port ≡ Some place) }
{
    for port in 0..topo.ports() {
        if topo.place_of(port) == place {
            return Ok(port);
        }
    }
    Err(LineRefusal::Fault(SetKind::UndeclaredEdge))
}

/// Appends words to those of a port.
fn append(program: &mut PortProg, words: &[u32]) -> Result<(), AllocError>
    ensures { OnOk result (program.new ≡ record program.old { words = program.old.words ++ words.now }) }
{
    program.words.extend_from_slice(words)
}
