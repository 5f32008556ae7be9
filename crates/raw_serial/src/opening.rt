//! The parts of a machine before it has done anything.
ghost use Rattle.std.specs.Prelude.{◌≡◌, ◌+◌, ◌-◌, ◌*◌, ◌<◌, ◌≤◌, length, replicate, slice_get, Some, IfOk};
ghost use Rattle.std.specs.List.{All};
ghost use Rattle.raw_grid.specs.declared.parts.ProcKind.TheVariants as proc;
ghost use Rattle.raw_grid.specs.Topology.{tile_count, proc_count, kind_at};
ghost use Rattle.raw_model.specs.Program.{IsDataWord, IsTileProgram, IsSet};
ghost use Rattle.raw_model.specs.Start.{first_mark, first_memory, first_tile, first_switch, with_words};
ghost use Rattle.raw_processor.specs.Ends.{AreEndsOf};
ghost use Rattle.raw_serial.specs.Fresh.{IsFirst, IsFirstTile, IsFirstSwitch, IsFirstPort, AreFirst, AreAllEnds};

use raw_grid::{ProcId, ProcKind, Topo};
use raw_model::{DataWord, Mark, PortProg, Set, TileProg};
use raw_processor::{
    Cache, EndWires, PortState, ProcSet, Processor, SwitchUnit, TileUnit, ends_of, peers_at,
    port_of, switch_steps, tile_steps,
};
use raw_switch::SwitchState;
use raw_switch_isa::{SwitchIns, has_end, inputs, outputs};
use raw_tile::{TileMemory, TileState};
use std::alloc::{AllocError, Global};

// Stores each of these words at its address.
#[tactic(auto, unfolding(raw_model::specs::Program::memory_size))]
pub(crate) fn store_all(memory: &mut TileMemory, cells: &[DataWord])
    requires { All IsDataWord cells.now }
    ensures { memory.new ≡ with_words memory.old cells.now }
{
    for cell in cells {
        memory.store_word(cell.address, cell.word);
    }
}

// The memory of a tile at its start.
#[tactic(auto, unfolding(raw_model::specs::Start::first_memory))]
fn first_memory(alloc: Global, cells: &[DataWord]) -> Result<TileMemory, AllocError>
    requires { All IsDataWord cells.now }
    ensures { IfOk result (λ memory. memory ≡ first_memory cells.now) }
{
    let mut memory = TileMemory::zeroed(alloc)?;
    store_all(&mut memory, cells);
    Ok(memory)
}

// The mark of a processor that has done nothing yet.
pub(crate) fn first_mark<T>(code: &[T]) -> Mark
    ensures { result ≡ first_mark code.now }
{
    if code.is_empty() {
        Mark::Halted
    } else {
        Mark::Going
    }
}

// A tile before it has done anything.
fn first_tile(alloc: Global, program: &TileProg) -> Result<TileState, AllocError>
    requires { IsTileProgram program.now }
    ensures { IfOk result (λ tile. tile ≡ first_tile program.now) }
{
    let memory = first_memory(alloc, &program.cells)?;
    Ok(TileState {
        regs: [0; 32],
        pc: 0,
        count: 0,
        mark: first_mark(&program.code),
        memory,
    })
}

// A switch with this program before it has done anything.
pub(crate) fn first_switch<T>(code: &[T]) -> SwitchState
    ensures { result ≡ record { regs = replicate 4 0; pc = 0; count = 0; mark = first_mark code.now } }
{
    SwitchState {
        regs: [0; 4],
        pc: 0,
        count: 0,
        mark: first_mark(code),
    }
}

// Of these wires, those at the ends of a word.
fn wires_in(wires: &[Option<u32>; 10], word: u16) -> [Option<u32>; 10] {
    let mut some = *wires;
    for end in 0..10 {
        if !has_end(word, end) {
            some[end] = None;
        }
    }
    some
}

// The processors that a switch with this program takes values from or sends them to.
fn peers_of(topo: &Topo, ends: &EndWires, code: &[SwitchIns]) -> ProcSet {
    let mut taken = 0;
    let mut sent = 0;
    for ins in code {
        taken |= inputs(ins);
        sent |= outputs(ins);
    }
    peers_at(
        topo,
        &wires_in(&ends.inputs, taken),
        &wires_in(&ends.outputs, sent),
    )
}

// The wires at the ends of a processor. A switch has as peers no more than those that its program names.
fn ends_in(set: &Set, p: ProcId) -> EndWires
    requires { p.0 < proc_count set.now.topo }
    ensures { AreEndsOf set.now.topo p.0 result }
{
    let mut ends = ends_of(&set.topo, p);
    let tile = p.0.wrapping_sub(set.topo.tiles());
    if let Some(program) = set.tiles.get(tile as usize) {
        ends.peers = peers_of(&set.topo, &ends, &program.switch);
    }
    ends
}

/// The wires at the ends of each processor.
pub(crate) fn open_ends(alloc: Global, set: &Set) -> Result<Vec<EndWires>, AllocError>
    ensures { IfOk result (λ ends. AreAllEnds set.now.topo ends.items) }
{
    let procs = set.topo.procs();
    let mut ends = Vec::with_capacity(alloc, procs as usize)?;
    for p in 0..procs {
        ends.push_reserved(ends_in(set, ProcId(p)));
    }
    Ok(ends)
}

// What a tile is given.
pub(crate) fn program_of(set: &Set, tile: usize) -> &TileProg
    requires { tile < tile_count set.now.topo }
    ensures program { slice_get set.now.tiles tile ≡ Some result.now }
    ensures valid { IsTileProgram result.now }
{
    &set.tiles[tile]
}

// The number of the tile beside a switch.
fn tile_beside(set: &Set, p: ProcId) -> usize
    requires { tile_count set.now.topo ≤ p.0 }
    ensures { result ≡ p.0 - tile_count set.now.topo }
{
    p.0 as usize - set.tiles.len()
}

// What the port that is a processor is given.
fn port_program(set: &Set, p: ProcId) -> &PortProg
    requires behind { 2 * tile_count set.now.topo ≤ p.0 }
    requires there { p.0 < proc_count set.now.topo }
    ensures { slice_get set.now.ports (p.0 - 2 * tile_count set.now.topo) ≡ Some result.now }
{
    &set.ports[port_of(set, p)]
}

// A tile with its cache before it has done anything.
fn tile_unit(alloc: Global, program: &TileProg) -> Result<TileUnit, AllocError>
    requires { IsTileProgram program.now }
    ensures { IfOk result (λ tile. IsFirstTile program.now tile) }
{
    Ok(TileUnit {
        code: tile_steps(alloc, &program.code)?,
        state: first_tile(alloc, program)?,
        cache: Cache::new(),
        misses: 0,
        owed: 0,
    })
}

// A switch before it has done anything.
fn switch_unit(alloc: Global, program: &TileProg) -> Result<SwitchUnit, AllocError>
    ensures { IfOk result (λ switch. IsFirstSwitch program.now switch) }
{
    Ok(SwitchUnit {
        code: switch_steps(alloc, &program.switch)?,
        state: first_switch(&program.switch),
    })
}

// A port before it has done anything, with room for all that it may hold.
fn port_unit(alloc: Global, program: &PortProg) -> Result<PortState, AllocError>
    ensures { IfOk result (λ port. IsFirstPort program.now port) }
{
    Ok(PortState {
        done: 0,
        got: Vec::with_capacity(alloc, program.capacity as usize)?,
    })
}

// A processor before it has done anything.
fn open_processor(alloc: Global, set: &Set, p: ProcId) -> Result<Processor, AllocError>
    requires { p.0 < proc_count set.now.topo }
    ensures { IfOk result (IsFirst set.now p.0) }
{
    match set.topo.kind_of(p) {
        ProcKind::Tile => {
            let tile = tile_unit(alloc, program_of(set, p.0 as usize))?;
            Ok(Processor::Tile(tile))
        }
        ProcKind::Switch => {
            let switch = switch_unit(alloc, program_of(set, tile_beside(set, p)))?;
            Ok(Processor::Switch(switch))
        }
        ProcKind::Source => {
            let port = port_unit(alloc, port_program(set, p))?;
            Ok(Processor::Source(port))
        }
        ProcKind::Sink => {
            let port = port_unit(alloc, port_program(set, p))?;
            Ok(Processor::Sink(port))
        }
    }
}

/// The processors of a set before they have done anything.
pub(crate) fn open_processors(alloc: Global, set: &Set) -> Result<Vec<Processor>, AllocError>
    ensures { IfOk result (λ processors. AreFirst set.now processors.items) }
{
    let procs = set.topo.procs();
    let mut processors = Vec::with_capacity(alloc, procs as usize)?;
    for p in 0..procs {
        let processor = open_processor(alloc, set, ProcId(p))?;
        processors.push(processor)?;
    }
    Ok(processors)
}
