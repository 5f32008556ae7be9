//! The topology of a grid: its size, its list of ports, and its wires.
ghost use Rattle.std.specs.Prelude.{◌≡◌, ℕ, ◌+◌, ◌/◌, ◌%◌, ◌<◌, ◌≤◌, ◌↔◌, ◌++◌, ◌∷◌, [], length, slice_index_or, Some, None, IsTrue, IsSome, IfSome, IfOk, OnOk, OnErr, IsBitSet, Contains, option_map, slice_get, vec_len, vec_capacity};
ghost use Rattle.raw_grid.specs.Topology.{Topology, without_ports, with_port, west_place, with_west_ports, IsSize, IsAtEdge, IsTopology, tile_count, proc_count, tile_number, switch_at, kind_at};
ghost use Rattle.raw_grid.specs.Wires.{wires_of, input_wire, output_wire, wire_at, wire_at_end, producer_of, consumer_of, producer_end, consumer_end, far_end, other_end};
ghost use Rattle.raw_grid.specs.Stored.{IsStored};

use crate::limits::{MAX_PORTS, MAX_PROCS, MAX_TILES};
use crate::parts::{
    Dir, Ends, Net, OtherEnd, PortKind, PortPlace, ProcId, ProcKind, Side, Way, WireId,
};
use crate::size::Size;
use crate::wire::{
    Wire, find_input, find_output, input_ends, inputs_of, output_ends, outputs_of, wire_id,
};
use std::alloc::{AllocError, Global};
use std::marker::Model;

/// Why there is no grid of the size that was asked for.
#[derive(Clone, Copy, Debug, Drop, PartialEq, Eq)]
pub enum TopoRefusal {
    /// A number of columns or rows is not 1 to 8.
    BadSize,
    /// No memory was left.
    Memory,
}

impl From<AllocError> for TopoRefusal {
    ghost use Rattle.std.specs.Prelude.{◌≡◌};
    ghost use Rattle.raw_grid.specs.declared.grid.TopoRefusal.TheVariants.{Memory};

    ghost from_gives = { λ _ refusal. refusal ≡ Memory };

    fn from(_: AllocError) -> Self {
        TopoRefusal::Memory
    }
}

/// Why a port can't stand at a place. The topology is unchanged.
#[derive(Clone, Copy, PartialEq, Eq)]
pub enum PortRefusal {
    /// The place names no tile of the grid, or a side on which that tile has a neighbour.
    OffEdge,
    /// An equal place is in the list.
    Double,
}

/// A grid of 1 to 8 by 1 to 8 tiles with a switch beside each, and the ports at its edges in the
/// order of their declarations. It takes memory only when it is made.
#[derive(Drop)]
pub struct Topo {
    size: Size,
    places: Vec<PortPlace>,
    /// All wires in the order of their numbers.
    wires: Vec<Wire>,
}

impl Model for Topo {
    ghost Value = { Topology };

    ghost view = { λ t.
        record { cols = t.size.cols; rows = t.size.rows; places = t.places.items } };

    ghost invariant = { λ t.
        IsStored (record { cols = t.size.cols; rows = t.size.rows; places = t.places.items })
        (vec_capacity t.places) t.wires.items (vec_capacity t.wires) };
}

/// Whether a place is in the list.
fn is_taken(places: &[PortPlace], place: PortPlace) -> bool
    ensures { IsTrue result ↔ Contains places.now place }
{
    places.contains(&place)
}

// The place of a port at the west of the first tile of a row, on network 1.
fn west_place(kind: PortKind, row: u8) -> PortPlace
    ensures { result ≡ west_place kind row }
{
    PortPlace {
        kind,
        net: Net::One,
        x: 0,
        y: row,
        side: Side::W,
    }
}

impl Topo {
    /// A grid without ports, with room for all ports that it can have.
    pub fn new(alloc: Global, cols: u8, rows: u8) -> Result<Self, TopoRefusal>
        ensures value { IfOk result (λ t. t ≡ without_ports cols rows) }
        ensures valid { IfOk result IsTopology }
        ensures bad_size { (result ≡ Err TopoRefusal.BadSize) ↔ ¬ (IsSize cols rows) }
    {
        let Some(size) = Size::new(cols, rows) else {
            return Err(TopoRefusal::BadSize);
        };
        let places = Vec::with_capacity(alloc, MAX_PORTS)?;
        let mut wires = Vec::new(alloc);
        size.push_tile_wires(&mut wires)?;
        size.push_links(Net::One, &mut wires)?;
        size.push_links(Net::Two, &mut wires)?;
        wires.reserve(MAX_PORTS)?;
        Ok(Topo {
            size,
            places,
            wires,
        })
    }

    /// A grid with two ports, both at its west and on network 1: a source at the first row, and a sink at this one.
    pub fn with_west_ports(alloc: Global, cols: u8, rows: u8, row: u8) -> Result<Self, AllocError>
        requires size { IsSize cols rows }
        requires row { row < rows }
        ensures value { IfOk result (λ t. t ≡ with_west_ports cols rows row) }
        ensures valid { IfOk result IsTopology }
    {
        let mut grid = match Topo::new(alloc, cols, rows) {
            Ok(grid) => grid,
            Err(TopoRefusal::Memory) => return Err(AllocError),
            Err(TopoRefusal::BadSize) => unreachable!(),
        };
        let source = grid.add_port(west_place(PortKind::Source, 0));
        let sink = grid.add_port(west_place(PortKind::Sink, row));
        if source.is_err() || sink.is_err() {
            unreachable!()
        }
        Ok(grid)
    }

    /// Appends a port, and gives its number. At one edge there may be a source and a sink on each
    /// network.
    pub fn add_port(&mut self, place: PortPlace) -> Result<ProcId, PortRefusal>
        ensures number { IfOk result (λ port. port.0 ≡ proc_count self.old) }
        ensures added { OnOk result (self.new ≡ with_port self.old place) }
        ensures valid { IsTopology self.new }

        ensures off_edge { (result ≡ Err PortRefusal.OffEdge) ↔ ¬ (IsAtEdge self.old place) }
        ensures double { (result ≡ Err PortRefusal.Double) ↔
            (IsAtEdge self.old place × Contains self.old.places place) }
        ensures err { OnErr result (self.new ≡ self.old) }
    {
        if !self.size.is_at_edge(place) {
            return Err(PortRefusal::OffEdge);
        }
        if is_taken(&self.places, place) {
            return Err(PortRefusal::Double);
        }
        let port = self.procs();
        self.places.push_reserved(place);
        self.wires.push_reserved(self.size.port_wire(port, place));
        Ok(ProcId(port))
    }

    /// The number of columns, 1 to 8.
    pub fn cols(&self) -> u8
        ensures value { result ≡ self.now.cols }
        ensures valid { IsTopology self.now }
    {
        self.size.cols
    }

    /// The number of rows, 1 to 8.
    pub fn rows(&self) -> u8
        ensures value { result ≡ self.now.rows }
        ensures valid { IsTopology self.now }
    {
        self.size.rows
    }

    /// The number of tiles, 1 to 64.
    pub fn tiles(&self) -> u32
        ensures value { result ≡ tile_count self.now }
        ensures few { result ≤ MAX_TILES }
        ensures valid { IsTopology self.now }
    {
        self.size.tiles()
    }

    /// The number of the tile in column `x` and row `y`.
    pub fn tile_at(&self, x: u8, y: u8) -> u32
        requires column { x < self.now.cols }
        requires row { y < self.now.rows }
        ensures value { result ≡ tile_number self.now x y }
        ensures tile { result < tile_count self.now }
    {
        self.size.tile(x, y)
    }

    /// The column and the row of a tile.
    pub fn position_of(&self, tile: u32) -> (u8, u8)
        requires { tile < tile_count self.now }
        ensures column { result.0 ≡ tile % self.now.cols }
        ensures row { result.1 ≡ tile / self.now.cols }
        ensures within_column { result.0 < self.now.cols }
        ensures within_row { result.1 < self.now.rows }
        ensures there { tile_number self.now result.0 result.1 ≡ tile }
    {
        self.size.position(tile)
    }

    /// The number of processors: tiles, switches and ports, at most 256.
    #[tactic(auto, using(crate::proofs::Growth::procs_few))]
    pub fn procs(&self) -> u32
        ensures value { result ≡ proc_count self.now }
        ensures few { result ≤ MAX_PROCS }
        ensures valid { IsTopology self.now }
    {
        2 * self.size.tiles() + self.ports()
    }

    /// The number of ports, at most 128.
    pub fn ports(&self) -> u32
        ensures { result ≡ length self.now.places }
    {
        self.places.len() as u32
    }

    /// The number of wires.
    #[tactic(auto, using(crate::proofs::Growth::wires_few))]
    pub fn wires(&self) -> u32
        ensures value { result ≡ length (wires_of self.now) }
        ensures valid { IsTopology self.now }
    {
        self.wires.len() as u32
    }

    /// What a processor is.
    pub fn kind_of(&self, p: ProcId) -> ProcKind
        requires { p.0 < proc_count self.now }
        ensures { kind_at self.now p.0 ≡ Some result }
    {
        let tiles = self.size.tiles();
        if p.0 < tiles {
            return ProcKind::Tile;
        }
        if p.0 < 2 * tiles {
            return ProcKind::Switch;
        }
        match self.place_of(p.0 - 2 * tiles).kind {
            PortKind::Source => ProcKind::Source,
            PortKind::Sink => ProcKind::Sink,
        }
    }

    /// The place of port number `i` of the list, from 0.
    pub fn place_of(&self, i: u32) -> PortPlace
        requires { i < length self.now.places }
        ensures { slice_get self.now.places i ≡ Some result }
    {
        self.places[i as usize]
    }

    /// The wire that leads into or out of a processor in a direction on a network. A tile and a
    /// port have the direction P alone, and a port its own way and network alone.
    #[tactic(auto, using(crate::proofs::Found::wire_at_index))]
    pub fn wire_of(&self, p: ProcId, way: Way, net: Net, dir: Dir) -> Option<WireId>
        requires { p.0 < proc_count self.now }
        ensures value { option_map (λ w. w.0) result ≡ wire_at self.now p.0 way net dir }
        ensures exists { IfSome result (λ w. w.0 < length (wires_of self.now)) }
    {
        self.wire_at_end(p, way, usize::from(net.end(dir)))
    }

    /// The wire that leads into or out of the end of a processor with this index, 0 to 9.
    #[tactic(auto, using(crate::proofs::Growth::wires_few))]
    pub fn wire_at_end(&self, p: ProcId, way: Way, end: usize) -> Option<WireId>
        requires proc { p.0 < proc_count self.now }
        requires end { end < 10 }
        ensures value { option_map (λ w. w.0) result ≡ wire_at_end self.now p.0 way end }
        ensures exists { IfSome result (λ w. w.0 < length (wires_of self.now)) }
    {
        match way {
            Way::In => wire_id(find_input(&self.wires, p.0, end as u8)),
            Way::Out => wire_id(find_output(&self.wires, p.0, end as u8)),
        }
    }

    /// The numbers of the wires into or out of a processor, by the indices of its ends. Each wire of the grid is looked at
    /// once.
    #[tactic(auto, using(crate::proofs::Growth::wires_few))]
    pub fn wires_at(&self, p: ProcId, way: Way) -> [Option<u32>; 10]
        requires { p.0 < proc_count self.now }
        ensures { (end : ℕ) → end < 10 → slice_index_or result end None ≡ wire_at_end self.now p.0 way end }
    {
        match way {
            Way::In => inputs_of(&self.wires, p.0),
            Way::Out => outputs_of(&self.wires, p.0),
        }
    }

    // The end of a wire that is not that of the processor which takes from it, or sends on it.
    fn far_end(&self, way: Way, w: WireId) -> OtherEnd
        requires { w.0 < length (wires_of self.now) }
        ensures { (result.proc.0, result.end) ≡ far_end self.now way w.0 }
    {
        match way {
            Way::In => OtherEnd {
                proc: self.producer(w),
                end: self.producer_end(w),
            },
            Way::Out => OtherEnd {
                proc: self.consumer(w),
                end: self.consumer_end(w),
            },
        }
    }

    /// The other end of the wire that leads into or out of the end of a processor with this index,
    /// 0 to 9: an output end for an input, and an input end for an output.
    pub fn other_end(&self, p: ProcId, way: Way, end: usize) -> Option<OtherEnd>
        requires proc { p.0 < proc_count self.now }
        requires end { end < 10 }
        ensures { option_map (λ other. (other.proc.0, other.end)) result ≡ other_end self.now p.0 way end }
    {
        let wire = self.wire_at_end(p, way, end)?;
        Some(self.far_end(way, wire))
    }

    /// The processor that sends on a wire.
    #[tactic(auto, using(crate::proofs::Found::producer_found))]
    pub fn producer(&self, w: WireId) -> ProcId
        requires { w.0 < length (wires_of self.now) }
        ensures { result.0 ≡ producer_of self.now w.0 }
    {
        ProcId(self.wires[w.0 as usize].from)
    }

    /// The processor that takes from a wire.
    #[tactic(auto, using(crate::proofs::Found::consumer_found))]
    pub fn consumer(&self, w: WireId) -> ProcId
        requires { w.0 < length (wires_of self.now) }
        ensures { result.0 ≡ consumer_of self.now w.0 }
    {
        ProcId(self.wires[w.0 as usize].to)
    }

    /// The index of the end of its producer from which a wire comes, 0 to 9.
    #[tactic(auto, using(crate::proofs::Found::producer_end_found))]
    pub fn producer_end(&self, w: WireId) -> u8
        requires { w.0 < length (wires_of self.now) }
        ensures { result ≡ producer_end self.now w.0 }
    {
        self.wires[w.0 as usize].output
    }

    /// The index of the end of its consumer to which a wire leads, 0 to 9.
    #[tactic(auto, using(crate::proofs::Found::consumer_end_found))]
    pub fn consumer_end(&self, w: WireId) -> u8
        requires { w.0 < length (wires_of self.now) }
        ensures { result ≡ consumer_end self.now w.0 }
    {
        self.wires[w.0 as usize].input
    }

    /// The ends that have a wire, of the switch in column `x` and row `y`.
    #[tactic(auto, using(crate::proofs::Growth::wires_few))]
    pub fn ends_of(&self, x: u8, y: u8) -> Ends
        requires column { x < self.now.cols }
        requires row { y < self.now.rows }
        ensures inputs { (i : ℕ) →
            IsBitSet result.inputs i ↔ IsSome (input_wire self.now (switch_at self.now x y) i) }
        ensures outputs { (i : ℕ) →
            IsBitSet result.outputs i ↔ IsSome (output_wire self.now (switch_at self.now x y) i) }
    {
        let switch = self.size.switch(self.size.tile(x, y));
        Ends {
            inputs: input_ends(&self.wires, switch),
            outputs: output_ends(&self.wires, switch),
        }
    }
}
