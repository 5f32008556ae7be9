//! The parts of a machine, made again as they were before it had done anything. Nothing here takes memory.
ghost use Rattle.std.specs.Prelude.{◌≡◌, ℕ, length, slice_get, Some};
ghost use Rattle.std.specs.List.{All};
ghost use Rattle.raw_grid.specs.declared.parts.ProcKind.TheVariants as proc;
ghost use Rattle.raw_grid.specs.Topology.{proc_count, kind_at};
ghost use Rattle.raw_model.specs.Program.{IsDataWord, IsTileProgram, IsSet};
ghost use Rattle.raw_model.specs.Start.{first_memory, first_tile, first_switch, IsFit};
ghost use Rattle.raw_processor.specs.declared.processor.Processor.{Processor};
ghost use Rattle.raw_processor.specs.Processor.{local_of, IsKept};
ghost use Rattle.raw_serial.specs.Fresh.{IsFirst, IsFirstTile, AreFirst, emptied};

use crate::opening::{first_mark, first_switch, program_of, store_all};
use raw_grid::ProcId;
use raw_model::{DataWord, Set, TileProg};
use raw_processor::{PortState, Processor, SwitchUnit, TileUnit};
use raw_tile::{TileMemory, TileState};

/// Makes the processors of a set as they were before they had done anything.
pub(crate) fn reset_processors(processors: &mut [Processor], set: &Set)
    requires many { length processors.old ≡ proc_count set.now.topo }
    requires kept { (p : ℕ) (x : Processor) → slice_get processors.old p ≡ Some x → IsKept set.now p x }
    requires fits { (p : ℕ) (x : Processor) → slice_get processors.old p ≡ Some x → IsFit set.now p (local_of x) }
    ensures { AreFirst set.now processors.new }
{
    for p in 0..set.topo.procs() {
        reset_processor(&mut processors[p as usize], set, ProcId(p));
    }
}

// Makes a processor as it was before it had done anything.
fn reset_processor(processor: &mut Processor, set: &Set, p: ProcId)
    requires valid { IsSet set.now }
    requires kept { IsKept set.now p.0 processor.old }
    requires fits { IsFit set.now p.0 (local_of processor.old) }
    ensures { IsFirst set.now p.0 processor.new }
{
    match processor {
        Processor::Tile(tile) => reset_tile(tile, program_of(set, p.0 as usize)),
        Processor::Switch(switch) => reset_switch(switch),
        Processor::Source(port) => reset_port(port),
        Processor::Sink(port) => reset_port(port),
    }
}

// Makes a tile as it was before it had done anything, with an empty cache.
fn reset_tile(tile: &mut TileUnit, program: &TileProg)
    requires program { IsTileProgram program.now }
    requires code { tile.old.code.items ≡ program.now.code }
    ensures { IsFirstTile program.now tile.new }
{
    reset_state(&mut tile.state, program);
    tile.cache.clear();
    tile.misses = 0;
    tile.owed = 0;
}

// Makes the local state of a tile as it was before the tile had done anything.
fn reset_state(tile: &mut TileState, program: &TileProg)
    requires { IsTileProgram program.now }
    ensures { tile.new ≡ first_tile program.now }
{
    reset_memory(&mut tile.memory, &program.cells);
    tile.regs = [0; 32];
    tile.pc = 0;
    tile.count = 0;
    tile.mark = first_mark(&program.code);
}

// Makes a memory as it was at the start: 0 everywhere but at these words.
#[tactic(auto, unfolding(raw_model::specs::Start::first_memory))]
fn reset_memory(memory: &mut TileMemory, cells: &[DataWord])
    requires { All IsDataWord cells.now }
    ensures { memory.new ≡ first_memory cells.now }
{
    memory.clear();
    store_all(memory, cells);
}

// Makes a switch as it was before it had done anything.
fn reset_switch(switch: &mut SwitchUnit)
    ensures state { switch.new.state ≡ first_switch switch.old.code.items }
    ensures code { switch.new.code ≡ switch.old.code }
{
    switch.state = first_switch(&switch.code);
}

// Makes a port as it was before it had done anything. Its list of words keeps its memory.
fn reset_port(port: &mut PortState)
    ensures { port.new ≡ emptied port.old }
{
    port.done = 0;
    port.got.clear();
}
