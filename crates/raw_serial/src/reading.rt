//! What a machine holds.
ghost use Rattle.std.specs.Prelude.{◌≡◌, ℕ, ◌+◌, ◌*◌, ◌<◌, ◌≤◌, Some, IsSomeAnd, length, take, slice_get, slice_index};
ghost use Rattle.raw_network.specs.Network.{values_on};
ghost use Rattle.raw_grid.specs.declared.parts.PortPlace.{PortPlace};
ghost use Rattle.raw_grid.specs.Topology.{tile_count, proc_count};
ghost use Rattle.raw_grid.specs.Wires.{wires_of};
ghost use Rattle.raw_model.specs.Program.{IsSet};
ghost use Rattle.raw_model.specs.Local.{Tile, Switch, steps_of};
ghost use Rattle.raw_model.specs.Start.{Fits, IsFit};
ghost use Rattle.raw_model.specs.Cache.{turns, stream_of};
ghost use Rattle.raw_processor.specs.declared.processor.Processor.TheVariants as a;
ghost use Rattle.raw_processor.specs.Ends.{AreEndsOf};
ghost use Rattle.raw_processor.specs.Processor.{local_of, misses_of, owed_of, IsKept, HasFewMisses};
ghost use Rattle.raw_serial.specs.Kinds.{IsTileUnit, IsSwitchUnit, IsPortUnit, IsThePort};
ghost use Rattle.raw_serial.specs.Parts.{port_local};
ghost use Rattle.raw_serial.specs.Running.{IsReached};

use crate::machine::Machine;
use raw_grid::{MAX_PROCS, ProcId, WireId, law_sizes};
use raw_model::Set;
use raw_model::limits::MAX_STEPS;
use raw_processor::{EndWires, PortState, Processor, SwitchUnit, TileUnit, stream_of};
use raw_switch::SwitchState;
use raw_tile::TileState;

impl<'s> Machine<'s> {
    /// The set that it runs.
    pub fn set(&self) -> &'s Set
        ensures value { result.now ≡ self.now.set }
        ensures valid { IsSet self.now.set }
        ensures reached { IsReached self.now }
        ensures fits { Fits self.now.set self.now.state }
    {
        self.set
    }

    /// How many processors there are: tiles, switches and ports.
    pub fn procs(&self) -> u32
        ensures value { result ≡ proc_count self.now.set.topo }
        ensures few { result ≤ MAX_PROCS }
        ensures locals { length self.now.state.locals ≡ result }
    {
        let set: &Set = self.set;
        set.topo.procs()
    }

    /// A processor: its local state and what stands beside that.
    pub fn processor(&self, p: ProcId) -> &Processor
        requires { p.0 < proc_count self.now.set.topo }
        ensures local { slice_get self.now.state.locals p.0 ≡ Some (local_of result.now) }
        ensures valid { IsSet self.now.set }
        ensures kept { IsKept self.now.set p.0 result.now }
        ensures fits { IsFit self.now.set p.0 (local_of result.now) }
        ensures few { HasFewMisses result.now }
        ensures misses { slice_index self.now.missed p.0 ≡ misses_of result.now }
        ensures owed { slice_index self.now.owed p.0 ≡ owed_of result.now }
    {
        &self.processors[p.0 as usize]
    }

    /// The wires at the ends of a processor.
    pub fn ends(&self, p: ProcId) -> &EndWires
        requires { p.0 < proc_count self.now.set.topo }
        ensures { AreEndsOf self.now.set.topo p.0 result.now }
    {
        &self.ends[p.0 as usize]
    }

    // A tile.
    fn tile_unit(&self, t: u32) -> &TileUnit
        requires { t < tile_count self.now.set.topo }
        ensures local { slice_get self.now.state.locals t ≡ Some (Tile result.now.state) }
        ensures misses { slice_index self.now.missed t ≡ result.now.misses }
        ensures few { result.now.misses ≤ MAX_STEPS }
    {
        tile_in(self.processor(ProcId(t)))
    }

    /// The local state of a tile.
    pub fn tile(&self, t: u32) -> &TileState
        requires { t < tile_count self.now.set.topo }
        ensures { slice_get self.now.state.locals t ≡ Some (Tile result.now) }
    {
        let tile = self.tile_unit(t);
        &tile.state
    }

    /// The local state of the switch beside a tile.
    pub fn switch(&self, t: u32) -> &SwitchState
        requires { t < tile_count self.now.set.topo }
        ensures { slice_get self.now.state.locals (tile_count self.now.set.topo + t) ≡ Some (Switch result.now) }
    {
        let switch = switch_in(self.processor(ProcId(self.tiles() + t)));
        &switch.state
    }

    /// The local state of a port, by its number in the list of ports.
    pub fn port(&self, i: u32) -> &PortState
        requires { i < length self.now.set.topo.places }
        ensures { (place : PortPlace) → slice_get self.now.set.topo.places i ≡ Some place →
            slice_get self.now.state.locals (2 * tile_count self.now.set.topo + i)
            ≡ Some (port_local place.kind result.now.local) }
    {
        port_in(self.processor(ProcId(2 * self.tiles() + i)))
    }

    // How many tiles there are.
    pub(crate) fn tiles(&self) -> u32
        ensures value { result ≡ tile_count self.now.set.topo }
        ensures few { 2 * result + length self.now.set.topo.places ≤ MAX_PROCS }
    {
        law_sizes();
        let set: &Set = self.set;
        set.topo.tiles()
    }

    /// The values on a wire, front first.
    pub fn wire(&self, w: WireId) -> &[u32]
        requires { w.0 < length (wires_of self.now.set.topo) }
        ensures { result.now ≡ values_on self.now.state.wires w.0 }
    {
        self.wires.values(w.0)
    }

    /// How often a tile missed its cache.
    pub fn misses(&self, t: u32) -> u64
        requires { t < tile_count self.now.set.topo }
        ensures { result ≡ slice_index self.now.missed t }
    {
        let tile = self.tile_unit(t);
        tile.misses
    }

    /// How many stall turns a tile's misses cost so far: those that it took, and those that it owes.
    pub fn stalls(&self, t: u32) -> u64
        requires { t < tile_count self.now.set.topo }
        ensures { result ≡ turns (stream_of self.now.set t) (slice_index self.now.missed t) }
    {
        let tile = self.tile_unit(t);
        turns(stream_of(self.set, t as usize), tile.misses)
    }

    /// How many steps a processor has taken: the instructions that a tile or a switch has executed, the
    /// words that a port has put in or taken out.
    pub fn count(&self, p: ProcId) -> u64
        requires { p.0 < proc_count self.now.set.topo }
        ensures value { IsSomeAnd (slice_get self.now.state.locals p.0) (λ l. result ≡ steps_of l) }
        ensures few { result ≤ MAX_STEPS }
    {
        let processor = self.processor(p);
        processor.count()
    }
}

// The tile that a processor is.
fn tile_in(processor: &Processor) -> &TileUnit
    requires { IsTileUnit processor.now }
    ensures { processor.now ≡ a.Tile result.now }
{
    match processor {
        Processor::Tile(tile) => tile,
        _ => unreachable!(),
    }
}

// The switch that a processor is.
fn switch_in(processor: &Processor) -> &SwitchUnit
    requires { IsSwitchUnit processor.now }
    ensures { processor.now ≡ a.Switch result.now }
{
    match processor {
        Processor::Switch(switch) => switch,
        _ => unreachable!(),
    }
}

// The port that a processor is.
fn port_in(processor: &Processor) -> &PortState
    requires { IsPortUnit processor.now }
    ensures { IsThePort processor.now result.now }
{
    match processor {
        Processor::Source(port) | Processor::Sink(port) => port,
        _ => unreachable!(),
    }
}

// The stall turns of so many misses: the sum of the first numbers of the stream.
fn turns(stream: &[u8], misses: u64) -> u64
    requires { misses ≤ MAX_STEPS }
    ensures { result ≡ turns stream.now misses }
{
    let mut sum = 0;
    for number in first_of(stream, misses) {
        sum += u64::from(*number);
    }
    sum
}

// So many first numbers of a stream, or all.
fn first_of(stream: &[u8], count: u64) -> &[u8]
    ensures value { result.now ≡ take count stream.now }
    ensures few { length result.now ≤ count }
{
    let n = stream.len();
    if count < n as u64 {
        &stream[..count as usize]
    } else {
        stream
    }
}
