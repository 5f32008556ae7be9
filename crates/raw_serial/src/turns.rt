//! The turns of processors, by their kinds.
ghost use Rattle.std.specs.Prelude.{◌≡◌, ◌≢◌, ℕ, ◌+◌, ◌-◌, ◌*◌, ◌<◌, ◌≤◌, ◌^◌, List, ◌++◌, Some, None, length, slice_get, slice_index, IfSome, false, ◌==◌, if◌then◌else◌};
ghost use Rattle.std.specs.Option.{option_to_list};
ghost use Rattle.raw_grid.specs.declared.parts.ProcKind.TheVariants as proc;
ghost use Rattle.raw_grid.specs.Topology.{tile_count, proc_count, kind_at};
ghost use Rattle.raw_grid.specs.Wires.{wires_of};
ghost use Rattle.raw_model.specs.Program.{IsSet};
ghost use Rattle.raw_model.specs.Local.{Tile, Switch, Source, Sink};
ghost use Rattle.raw_model.specs.Machine.{is_stopped, tile_code, switch_code, port_program, words_of, capacity_of};
ghost use Rattle.raw_model.specs.Start.{FitsTile, FitsSwitch, FitsSource, FitsSink, IsFit};
ghost use Rattle.raw_model.specs.Cache.{StandsFor, misses, stream_of};
ghost use Rattle.raw_tile.specs.Given.{values_of};
ghost use Rattle.raw_processor.specs.declared.processor.Processor.TheVariants as a;
ghost use Rattle.raw_processor.specs.Ends.{AreEndsOf};
ghost use Rattle.raw_processor.specs.Processor.{local_of, IsKept, HasFewMisses};
ghost use Rattle.raw_serial.specs.Costs.{IsTileTurn, IsSwitchTurn, IsSourceTurn, IsSinkTurn, IsProcessorTurn};
ghost use Rattle.raw_serial.specs.Standing.{EndsStand, TileStands, TileMayStep, SwitchStands};
ghost use Rattle.raw_serial.specs.Told.{WasTold};
ghost use Rattle.raw_serial.specs.Leading.{IsOfSome, RunsOn};

use crate::asking::{ask_sink, ask_source};
use crate::needs::{take_operands, unmet_at};
use crate::telling::{Silent, Tells};
use crate::turn::Turn;
use crate::wires::Wires;
use raw_grid::{ProcId, ProcKind};
use raw_model::Set;
use raw_processor::{
    EndWires, PortState, Processor, SwitchUnit, TileUnit, TileWires, fire_sink, fire_source,
    step_wires, switch_needs, switch_stopped, tile_step, tile_stopped, touch, words_of,
};
use raw_switch::{SwitchStep, switch_fire};
use raw_tile::{TileOut, TileStep, tile_fire};

/// Gives a processor its turn. The kind is that of its number: where a caller names it, the compiler leaves
/// one of the arms.
#[inline(always)]
pub(crate) fn turn_processor<T: Tells>(
    set: &Set,
    p: ProcId,
    kind: ProcKind,
    ends: &EndWires,
    processor: &mut Processor,
    wires: &mut Wires,
    teller: &mut T,
) -> Turn
    requires ends { EndsStand set.now p.0 ends.now wires.old }
    requires kind { kind_at set.now.topo p.0 ≡ Some kind }
    requires kept { IsKept set.now p.0 processor.old }
    requires few { HasFewMisses processor.old }
    requires fits { IsFit set.now p.0 (local_of processor.old) }
    ensures turn { IsProcessorTurn set.now p.0 result processor.old processor.new wires.old wires.new }
    ensures told { WasTold T.has set.now p.0 result processor.old processor.new wires.old teller.new }
{
    match (kind, processor) {
        (ProcKind::Tile, Processor::Tile(tile)) => turn_tile(set, p, ends, tile, wires, teller),
        (ProcKind::Switch, Processor::Switch(switch)) => turn_switch(
            set, p, ends, switch, wires, teller,
        ),
        (ProcKind::Source, Processor::Source(port)) => turn_source(
            set, p, ends, port, wires, teller,
        ),
        (ProcKind::Sink, Processor::Sink(port)) => turn_sink(set, p, ends, port, wires, teller),
        _ => unreachable!(),
    }
}

/// How several turns of a processor ended.
#[derive(Clone, Copy, PartialEq, Eq)]
pub(crate) struct Turns {
    /// How many of the steps that it might take are left.
    pub left: u64,
    /// Whether the last of the turns was a stall turn.
    pub stalled: bool,
}

/// Gives a processor turns until one of them is no step or so many steps were taken.
#[inline(always)]
pub(crate) fn take_turns(
    set: &Set,
    p: ProcId,
    kind: ProcKind,
    ends: &EndWires,
    processor: &mut Processor,
    wires: &mut Wires,
    most: u64,
) -> Turns
    requires proc { p.0 < proc_count set.now.topo }
    requires kind { kind_at set.now.topo p.0 ≡ Some kind }
    requires ends { AreEndsOf set.now.topo p.0 ends.now }
    requires of { IsOfSome set.now p.0 processor.old wires.old }
    ensures { RunsOn set.now p.0 processor.old processor.new wires.old wires.new most result.left }
{
    let mut left = most;
    'turns: while left > 0 {
        match turn_processor(set, p, kind, ends, processor, wires, &mut Silent) {
            Turn::Fired => left -= 1,
            Turn::Stalled => {
                return Turns {
                    left,
                    stalled: true,
                };
            }
            _ => {
                return Turns {
                    left,
                    stalled: false,
                };
            }
        }
    }
    Turns {
        left,
        stalled: false,
    }
}

/// Gives a tile its turn.
#[inline(always)]
pub(crate) fn turn_tile<T: Tells>(
    set: &Set,
    p: ProcId,
    ends: &EndWires,
    tile: &mut TileUnit,
    wires: &mut Wires,
    teller: &mut T,
) -> Turn
    requires { TileStands set.now p.0 ends.now tile.old wires.old }
    ensures turn { IsTileTurn set.now p.0 result tile.old tile.new wires.old wires.new }
    ensures told { WasTold T.has set.now p.0 result (a.Tile tile.old) (a.Tile tile.new) wires.old teller.new }
{
    if tile_stopped(&tile.state, set.limit) {
        return Turn::Stopped;
    }
    if tile.owed > 0 {
        tile.owed -= 1;
        return Turn::Stalled;
    }
    step_tile(set, p, ends, tile, wires, teller)
}

// Steps a tile that is not stopped and owes no stall turns, if it can. An instruction that names no network needs nothing:
// it is fired in the code of the caller, from which the compiler takes all that has to do with wires.
#[inline(always)]
fn step_tile<T: Tells>(
    set: &Set,
    p: ProcId,
    ends: &EndWires,
    tile: &mut TileUnit,
    wires: &mut Wires,
    teller: &mut T,
) -> Turn
    requires { TileMayStep set.now p.0 ends.now tile.old wires.old }
    ensures turn { IsTileTurn set.now p.0 result tile.old tile.new wires.old wires.new }
    ensures told { WasTold T.has set.now p.0 result (a.Tile tile.old) (a.Tile tile.new) wires.old teller.new }
{
    let code: &[TileStep] = &tile.code;
    let step = tile_step(code, &tile.state);
    if step.is_within() {
        fire_tile(set, p, ends, tile, wires, teller)
    } else {
        fire_tile_apart(set, p, ends, tile, wires, teller)
    }
}

// The same, in code of its own.
fn fire_tile_apart<T: Tells>(
    set: &Set,
    p: ProcId,
    ends: &EndWires,
    tile: &mut TileUnit,
    wires: &mut Wires,
    teller: &mut T,
) -> Turn
    requires { TileMayStep set.now p.0 ends.now tile.old wires.old }
    ensures turn { IsTileTurn set.now p.0 result tile.old tile.new wires.old wires.new }
    ensures told { WasTold T.has set.now p.0 result (a.Tile tile.old) (a.Tile tile.new) wires.old teller.new }
{
    fire_tile(set, p, ends, tile, wires, teller)
}

// The same, in the code of the caller.
#[inline(always)]
pub(crate) fn fire_tile<T: Tells>(
    set: &Set,
    p: ProcId,
    ends: &EndWires,
    tile: &mut TileUnit,
    wires: &mut Wires,
    teller: &mut T,
) -> Turn
    requires { TileMayStep set.now p.0 ends.now tile.old wires.old }
    ensures turn { IsTileTurn set.now p.0 result tile.old tile.new wires.old wires.new }
    ensures told { WasTold T.has set.now p.0 result (a.Tile tile.old) (a.Tile tile.new) wires.old teller.new }
{
    let code: &[TileStep] = &tile.code;
    let step = tile_step(code, &tile.state);
    let needs = step_wires(step, ends);
    match take_operands(set, ends, needs, wires) {
        Err(wire) => Turn::Waits { wire },
        Ok(given) => {
            let before = tile.misses;
            let out = tile_fire(&mut tile.state, code, given);
            wires.put_out(ends, &out);
            touch(tile, out.touched, set, p.0 as usize);
            teller.tell(ends, needs, &out, missed_since(before, tile));
            Turn::Fired
        }
    }
}

// What a tile owes for the miss of its last step, where it had missed so often before and now owes nothing else.
#[inline(always)]
fn missed_since(before: u64, tile: &TileUnit) -> Option<u8>
    ensures { result ≡ (if before == tile.now.misses then None else Some tile.now.owed) }
{
    if before == tile.misses {
        None
    } else {
        Some(tile.owed)
    }
}

/// Gives a switch its turn.
pub(crate) fn turn_switch<T: Tells>(
    set: &Set,
    p: ProcId,
    ends: &EndWires,
    switch: &mut SwitchUnit,
    wires: &mut Wires,
    teller: &mut T,
) -> Turn
    requires { SwitchStands set.now p.0 ends.now switch.old wires.old }
    ensures turn { IsSwitchTurn set.now p.0 result switch.old switch.new wires.old wires.new }
    ensures told { WasTold T.has set.now p.0 result (a.Switch switch.old) (a.Switch switch.new) wires.old teller.new }
{
    if switch_stopped(&switch.state, set.limit) {
        return Turn::Stopped;
    }
    step_switch(set, p, ends, switch, wires, teller)
}

// Steps a switch that is not stopped, if it can.
fn step_switch<T: Tells>(
    set: &Set,
    p: ProcId,
    ends: &EndWires,
    switch: &mut SwitchUnit,
    wires: &mut Wires,
    teller: &mut T,
) -> Turn
    requires stands { SwitchStands set.now p.0 ends.now switch.old wires.old }
    requires going { is_stopped set.now p.0 (Switch switch.old.state) ≡ false }
    ensures turn { IsSwitchTurn set.now p.0 result switch.old switch.new wires.old wires.new }
    ensures told { WasTold T.has set.now p.0 result (a.Switch switch.old) (a.Switch switch.new) wires.old teller.new }
{
    let code: &[SwitchStep] = &switch.code;
    let state = &mut switch.state;
    let step = state.instruction(code);
    let needs = switch_needs(code, state);
    if let Some(wire) = unmet_at(set, ends, needs, wires) {
        return Turn::Waits { wire };
    }
    let given = wires.take_inputs(needs.inputs, &ends.inputs);
    wires.put_routes(step, state, &ends.outputs, &given);
    teller.tell_switch(ends, needs.inputs, step, state, &given);
    switch_fire(state, code.len(), step, &given);
    Turn::Fired
}

/// Gives a source its turn.
pub fn turn_source<T: Tells>(
    set: &Set,
    p: ProcId,
    ends: &EndWires,
    state: &mut PortState,
    wires: &mut Wires,
    teller: &mut T,
) -> Turn
    requires ends { EndsStand set.now p.0 ends.now wires.old }
    requires source { kind_at set.now.topo p.0 ≡ Some proc.Source }
    ensures turn { IsSourceTurn set.now p.0 result state.old state.new wires.old wires.new }
    ensures told { WasTold T.has set.now p.0 result (a.Source state.old) (a.Source state.new) wires.old teller.new }
{
    match ask_source(set, p, ends, state, wires) {
        Turn::Fired => {
            let word = fire_source(state, words_of(set, p));
            let out = TileOut {
                sent1: Some(word),
                sent2: Some(word),
                touched: None,
            };
            let needs = TileWires {
                first: None,
                second: None,
                sent: None,
            };
            wires.put_out(ends, &out);
            teller.tell(ends, needs, &out, None);
            Turn::Fired
        }
        turn => turn,
    }
}

/// Gives a sink its turn.
pub fn turn_sink<T: Tells>(
    set: &Set,
    p: ProcId,
    ends: &EndWires,
    state: &mut PortState,
    wires: &mut Wires,
    teller: &mut T,
) -> Turn
    requires ends { EndsStand set.now p.0 ends.now wires.old }
    requires sink { kind_at set.now.topo p.0 ≡ Some proc.Sink }
    requires fits { length state.old.local.got ≡ state.old.local.done }
    requires room { capacity_of (port_program set.now p.0) ≤ state.old.room }
    ensures turn { IsSinkTurn set.now p.0 result state.old state.new wires.old wires.new }
    ensures told { WasTold T.has set.now p.0 result (a.Sink state.old) (a.Sink state.new) wires.old teller.new }
{
    match ask_sink(set, p, ends, state, wires) {
        Turn::Fired => {
            let needs = TileWires {
                first: ends.inputs[4],
                second: ends.inputs[9],
                sent: None,
            };
            let given = wires.take_pair(needs.first, needs.second);
            fire_sink(state, given.front());
            teller.tell(ends, needs, &TileOut::NOTHING, None);
            Turn::Fired
        }
        turn => turn,
    }
}
