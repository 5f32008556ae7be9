//! Steps of one tile in a row that touch no wire.
ghost use Rattle.std.specs.Prelude.{◌≡◌, ◌<◌, ◌≤◌, Some, length, slice_get, true, false};
ghost use Rattle.std.specs.Option.{unwrap_or};
ghost use Rattle.raw_grid.specs.Topology.{tile_count, proc_count};
ghost use Rattle.raw_grid.specs.Wires.{wires_of};
ghost use Rattle.raw_model.specs.Program.{IsSet};
ghost use Rattle.raw_model.specs.Local.{Tile};
ghost use Rattle.raw_model.specs.Machine.{tile_code};
ghost use Rattle.raw_model.specs.Start.{FitsTile};
ghost use Rattle.raw_processor.specs.declared.processor.Processor.TheVariants as a;
ghost use Rattle.raw_processor.specs.Ends.{AreEndsOf};
ghost use Rattle.raw_processor.specs.Processor.{local_of};
ghost use Rattle.raw_serial.specs.Costs.{IsTileTurn};
ghost use Rattle.raw_serial.specs.Standing.{TileStands};
ghost use Rattle.raw_serial.specs.Leading.{IsOfSome};
ghost use Rattle.raw_serial.specs.Within.{register_in, NamesNone, HasRunWithin, RunsWithin};

use crate::machine::Machine;
use crate::telling::Silent;
use crate::turn::Turn;
use crate::turns::fire_tile;
use crate::wires::Wires;
use raw_grid::ProcId;
use raw_model::Set;
use raw_processor::{EndWires, Processor, TileUnit, tile_step, tile_stopped};
use raw_tile::TileStep;

impl Machine<'_> {
    /// Takes steps of a tile one after another, so many at most, as long as each takes nothing from a wire and sends
    /// nothing, and the register holds what it does now. Says how many it took: it ends behind a step that changes the
    /// register, and before one that names a network, that is not enabled, or before which a stall turn is owed. Of a
    /// processor that is no tile it takes none.
    #[inline(always)]
    pub fn run_within(&mut self, p: ProcId, register: u32, most: u64) -> u64
        requires { p.0 < proc_count self.old.set.topo }
        ensures few { result ≤ most }
        ensures run { HasRunWithin self.old self.new p.0 register result }
    {
        let i = p.0 as usize;
        let ends = &self.ends[i];
        let processor = &mut self.processors[i];
        run_processor(
            self.set,
            p,
            ends,
            processor,
            &mut self.wires,
            register,
            most,
        )
    }
}

// The same of a processor of some machine.
#[inline(always)]
fn run_processor(
    set: &Set,
    p: ProcId,
    ends: &EndWires,
    processor: &mut Processor,
    wires: &mut Wires,
    register: u32,
    most: u64,
) -> u64
    requires ends { AreEndsOf set.now.topo p.0 ends.now }
    requires of { IsOfSome set.now p.0 processor.old wires.old }
    ensures few { result ≤ most }
    ensures run { RunsWithin set.now p.0 processor.old processor.new wires.old wires.new register result }
{
    match processor {
        Processor::Tile(tile) => run_tile(set, p, ends, tile, wires, register, most),
        _ => 0,
    }
}

// The same of a tile.
#[inline(always)]
fn run_tile(
    set: &Set,
    p: ProcId,
    ends: &EndWires,
    tile: &mut TileUnit,
    wires: &mut Wires,
    register: u32,
    most: u64,
) -> u64
    requires there { p.0 < tile_count set.now.topo }
    requires ends { AreEndsOf set.now.topo p.0 ends.now }
    requires of { IsOfSome set.now p.0 (a.Tile tile.old) wires.old }
    ensures few { result ≤ most }
    ensures run { RunsWithin set.now p.0 (a.Tile tile.old) (a.Tile tile.new) wires.old wires.new register result }
{
    let held = held_by(tile, register);
    let mut steps = 0;
    'steps: while steps < most {
        if !step_within(set, p, ends, tile, wires) {
            return steps;
        }
        steps += 1;
        if held_by(tile, register) != held {
            return steps;
        }
    }
    steps
}

// Takes the next step of a tile, if it owes no stall turn and that step is enabled and names no network, and says whether
// it was so.
#[inline(always)]
fn step_within(
    set: &Set,
    p: ProcId,
    ends: &EndWires,
    tile: &mut TileUnit,
    wires: &mut Wires,
) -> bool
    requires { TileStands set.now p.0 ends.now tile.old wires.old }
    ensures fired { result ≡ true → IsTileTurn set.now p.0 Turn.Fired tile.old tile.new wires.old wires.new }
    ensures within { result ≡ true → NamesNone set.now p.0 (Tile tile.old.state) }
    ensures stays { result ≡ false → tile.new ≡ tile.old }
    ensures rests { result ≡ false → wires.new ≡ wires.old }
{
    if tile_stopped(&tile.state, set.limit) || tile.owed > 0 {
        return false;
    }
    let code: &[TileStep] = &tile.code;
    let step = tile_step(code, &tile.state);
    if !step.is_within() {
        return false;
    }
    match fire_tile(set, p, ends, tile, wires, &mut Silent) {
        Turn::Fired => true,
        _ => false,
    }
}

/// What a register of a tile or a switch holds, and 0 where there is none with this number.
pub fn register_in(processor: &Processor, register: u32) -> u32
    ensures { result ≡ register_in register (Some (local_of processor.now)) }
{
    match processor {
        Processor::Tile(tile) => held_by(tile, register),
        Processor::Switch(switch) => value_in(&switch.state.regs, register),
        Processor::Source(_) | Processor::Sink(_) => 0,
    }
}

// The same of a tile.
#[inline(always)]
fn held_by(tile: &TileUnit, register: u32) -> u32
    ensures { result ≡ register_in register (Some (Tile tile.now.state)) }
{
    value_in(&tile.state.regs, register)
}

// What one of these registers holds, and 0 where there is none with this number.
#[inline(always)]
fn value_in(registers: &[u32], register: u32) -> u32
    ensures { result ≡ unwrap_or (slice_get registers.now register) 0 }
{
    match registers.get(register as usize) {
        Some(value) => *value,
        None => 0,
    }
}
