//! The turns of processors, by their kinds.
ghost use Rattle.std.specs.Prelude.{◌≡◌, ℕ, ◌+◌, ◌*◌, ◌^◌, ◌<◌, ◌≤◌, ◌||◌, nat_le, length, slice_index, None, Some, List, IfOk, IfSome, IsSomeAnd, OnErr, Err, false, unwrap_or};
ghost use Rattle.raw_grid.specs.Topology.{tile_count};
ghost use Rattle.raw_tile_isa.specs.Instruction.{uses, is_rs, reads_rt};
ghost use Rattle.raw_switch_isa.specs.Ends.{move_source};
ghost use Rattle.raw_model.specs.TileTable.{next_instruction};
ghost use Rattle.raw_model.specs.SwitchTable.{next_instruction as next_switch_instruction, source_value};
ghost use Rattle.raw_model.specs.Local.{Tile, Switch, Source, Sink};
ghost use Rattle.raw_model.specs.Machine.{is_ended, is_stopped, tile_code, switch_code, first_operand, second_operand};
ghost use Rattle.raw_tile.specs.Given.{IsGivenFor, values_of};
ghost use Rattle.raw_serial.specs.Standing.{EndsStand};
ghost use Rattle.raw_flow.specs.declared.node.Node.{Node};
ghost use Rattle.raw_term.specs.Terms.{Overflows};
ghost use Rattle.raw_term.specs.TermRows.{term_effect, term_switch};
ghost use Rattle.raw_term.specs.TermMachine.{numbered};
ghost use Rattle.raw_term.specs.Switches.{IsControl};
ghost use Rattle.raw_term.specs.Tiles.{IsFired, MayStep};
ghost use Rattle.raw_prove.specs.Units.{local_of, IsTile, IsSwitch, IsSource, IsSink, IsUnit};
ghost use Rattle.raw_prove.specs.Turns.{IsTurn, AreRouted, ready, operand_by};

use crate::turn::Turn;
use crate::unit::{SourceUnit, TileUnit, Unit};
use raw_grid::ProcId;
use raw_model::limits::{MAX_STEPS, MEMORY_WORDS};
use raw_model::{Mark, Set};
use raw_processor::{
    EndWires, PortState, SwitchUnit, source_needs, source_stopped, step_wires, switch_needs,
    switch_stopped, tile_step, tile_stopped, words_of,
};
use raw_serial::{
    Silent, Turn as SerialTurn, Wires, take_operands, turn_sink as serial_sink, unmet_at,
};
use raw_switch::{SwitchState, SwitchStep};
use raw_switch_isa::{SwitchIns, SwitchSource};
use raw_term::{TermRefusal, TermTable, TermTile, control};
use raw_tile::{TileGiven, TileOut, TileState, TileStep};
use raw_tile_isa::TileIns;
use std::alloc::AllocError;

/// Gives a tile its turn.
pub fn turn_tile(
    set: &Set,
    p: ProcId,
    ends: &EndWires,
    unit: &mut TileUnit,
    wires: &mut Wires,
    table: &mut TermTable,
) -> Result<Turn, AllocError>
    requires stands { EndsStand set.now p.0 ends.now wires.old }
    requires unit { IsTile set.now p.0 unit.old }
    ensures turn { IfOk result (λ turn.
        IsTurn (numbered set.now) p.0 table.old (Tile unit.old.tile) wires.old turn table.new (Tile unit.new.tile) wires.new) }
    ensures kept { IsTile set.now p.0 unit.new }
{
    if has_stopped(&unit.tile, set.limit) {
        return Ok(Turn::Idle);
    }
    step_tile(set, p, ends, unit, wires, table)
}

// Steps a tile that is not stopped, if it can.
fn step_tile(
    set: &Set,
    p: ProcId,
    ends: &EndWires,
    unit: &mut TileUnit,
    wires: &mut Wires,
    table: &mut TermTable,
) -> Result<Turn, AllocError>
    requires stands { EndsStand set.now p.0 ends.now wires.old }
    requires unit { IsTile set.now p.0 unit.old }
    requires going { is_stopped set.now p.0 (Tile unit.old.tile) ≡ false }
    ensures turn { IfOk result (λ turn.
        IsTurn (numbered set.now) p.0 table.old (Tile unit.old.tile) wires.old turn table.new (Tile unit.new.tile) wires.new) }
    ensures kept { IsTile set.now p.0 unit.new }
{
    let code: &[TileStep] = &unit.code;
    let step = step_of(code, &unit.tile);
    let needs = step_wires(step, ends);
    let Ok(given) = take_operands(set, ends, needs, wires) else {
        return Ok(Turn::Idle);
    };
    match fire_tile(tile_program(set, p), &mut unit.tile, table, given) {
        Ok(Some(out)) => {
            wires.put_out(ends, &out);
            Ok(Turn::Fired)
        }
        Ok(None) => Ok(Turn::Hangs),
        Err(TermRefusal::TooMany) => Ok(Turn::TooMany),
        Err(TermRefusal::Memory) => Err(AllocError),
    }
}

/// Whether a tile takes no more steps.
pub fn has_stopped(tile: &TermTile, limit: u32) -> bool
    ensures { result ≡ (is_ended tile.now.mark || nat_le limit tile.now.count) }
{
    tile_stopped(&tile.state, limit)
}

// The instruction at the pc of a tile, made for stepping.
fn step_of<'c>(code: &'c [TileStep], tile: &TermTile) -> &'c TileStep
    requires { tile.now.pc < length code.now }
    ensures { next_instruction code.now tile.now ≡ Some result.now }
{
    tile_step(code, &tile.state)
}

// The instruction at the pc of a tile.
fn instruction_of<'c>(program: &'c [TileIns], tile: &TermTile) -> &'c TileIns
    requires { tile.now.pc < length program.now }
    ensures { next_instruction program.now tile.now ≡ Some result.now }
{
    &program[tile.state.pc as usize]
}

/// The program of a tile.
pub fn tile_program(set: &Set, p: ProcId) -> &[TileIns]
    requires { p.0 < tile_count set.now.topo }
    ensures { result.now ≡ tile_code set.now p.0 }
{
    let program = &set.tiles[p.0 as usize];
    &program.code
}

/// The program of a switch.
pub fn switch_program(set: &Set, p: ProcId) -> &[SwitchIns]
    requires behind { tile_count set.now.topo ≤ p.0 }
    requires there { p.0 < 2 * tile_count set.now.topo }
    ensures { result.now ≡ switch_code set.now p.0 }
{
    let program = &set.tiles[p.0 as usize - set.tiles.len()];
    &program.switch
}

// The term of an operand: 0 where the instruction reads none, what is given from a network, or else what its
// register holds.
fn operand(reads: bool, given: Option<u32>, register: u32) -> u32
    ensures { result ≡ operand_by reads given register }
{
    if reads { given.unwrap_or(register) } else { 0 }
}

// What a register holds.
fn register_of(state: &TileState, register: u8) -> u32
    requires { register < 32 }
    ensures { result ≡ slice_index state.now.regs register }
{
    state.regs[register as usize]
}

// The term that a register of a tile holds.
fn held(tile: &TermTile, register: u8) -> u32
    requires { register < 32 }
    ensures { result ≡ slice_index tile.now.regs register }
{
    register_of(&tile.state, register)
}

// The term of the operand at rs.
fn operand_at_rs(tile: &TermTile, ins: &TileIns, given: Option<u32>) -> u32
    ensures { result ≡ operand_by (uses is_rs ins.now.op) given (slice_index tile.now.regs ins.now.rs) }
{
    let reads = ins.op.uses_rs();
    operand(reads, given, held(tile, ins.rs))
}

// The term of the operand at rt.
fn operand_at_rt(tile: &TermTile, ins: &TileIns, given: Option<u32>) -> u32
    ensures { result ≡ operand_by (reads_rt ins.now.op) given (slice_index tile.now.regs ins.now.rt) }
{
    let reads = ins.op.reads_rt();
    operand(reads, given, held(tile, ins.rt))
}

// Fires the instruction at the pc of a tile.
fn fire_tile(
    program: &[TileIns],
    tile: &mut TermTile,
    table: &mut TermTable,
    given: TileGiven,
) -> Result<Option<TileOut>, TermRefusal>
    requires may { MayStep tile.old }
    requires inside { tile.old.pc < length program.now }
    requires given { IsGivenFor (next_instruction program.now tile.old) given }
    ensures fired { IfOk result (λ out. IsFired table.old tile.old
        (term_effect table.old (next_instruction program.now tile.old) (length program.now) tile.old
        (first_operand (next_instruction program.now tile.old) tile.old.regs (values_of given))
        (second_operand (next_instruction program.now tile.old) tile.old.regs (values_of given))) table.new tile.new out) }
    ensures too_many { result ≡ Err TermRefusal.TooMany →
        IsSomeAnd (term_effect table.old (next_instruction program.now tile.old) (length program.now) tile.old
        (first_operand (next_instruction program.now tile.old) tile.old.regs (values_of given))
        (second_operand (next_instruction program.now tile.old) tile.old.regs (values_of given))) (λ t. Overflows t.nodes) }
    ensures memory { length tile.new.memory ≡ MEMORY_WORDS }
    ensures refused { OnErr result (tile.new ≡ tile.old) }
{
    let ins = instruction_of(program, tile);
    let a = operand_at_rs(tile, ins, given.a);
    let b = operand_at_rt(tile, ins, given.b);
    tile.fire(table, program.len(), ins, a, b)
}

/// Gives a switch its turn.
pub fn turn_switch(
    set: &Set,
    p: ProcId,
    ends: &EndWires,
    unit: &mut SwitchUnit,
    wires: &mut Wires,
    table: &mut TermTable,
) -> Result<Turn, AllocError>
    requires stands { EndsStand set.now p.0 ends.now wires.old }
    requires unit { IsSwitch set.now p.0 unit.old }
    ensures turn { IfOk result (λ turn.
        IsTurn (numbered set.now) p.0 table.old (Switch unit.old.state) wires.old turn table.new (Switch unit.new.state) wires.new) }
    ensures kept { IsSwitch set.now p.0 unit.new }
{
    if switch_stopped(&unit.state, set.limit) {
        return Ok(Turn::Idle);
    }
    step_switch(set, p, ends, unit, wires, table)
}

/// What the next instruction of a switch is given: it is taken from wires, and what its routes say is sent on. None where
/// the switch cannot step; then nothing is changed.
pub fn route_switch(
    set: &Set,
    p: ProcId,
    ends: &EndWires,
    unit: &SwitchUnit,
    wires: &mut Wires,
) -> Option<[Option<u32>; 10]>
    requires stands { EndsStand set.now p.0 ends.now wires.old }
    requires unit { IsSwitch set.now p.0 unit.now }
    requires going { is_stopped set.now p.0 (Switch unit.now.state) ≡ false }
    ensures waits { result ≡ None → ready set.now p.0 (Switch unit.now.state) wires.old ≡ false }
    ensures stays { result ≡ None → wires.new ≡ wires.old }
    ensures routes { IfSome result (λ given. AreRouted set.now p.0 unit.now.state wires.old given wires.new) }
{
    let code: &[SwitchStep] = &unit.code;
    let step = unit.state.instruction(code);
    let needs = switch_needs(code, &unit.state);
    if let Some(_wire) = unmet_at(set, ends, needs, wires) {
        return None;
    }
    let given = wires.take_inputs(needs.inputs, &ends.inputs);
    wires.put_routes(step, &unit.state, &ends.outputs, &given);
    Some(given)
}

// Steps a switch that is not stopped, if it can.
fn step_switch(
    set: &Set,
    p: ProcId,
    ends: &EndWires,
    unit: &mut SwitchUnit,
    wires: &mut Wires,
    table: &mut TermTable,
) -> Result<Turn, AllocError>
    requires stands { EndsStand set.now p.0 ends.now wires.old }
    requires unit { IsSwitch set.now p.0 unit.old }
    requires going { is_stopped set.now p.0 (Switch unit.old.state) ≡ false }
    ensures turn { IfOk result (λ turn.
        IsTurn (numbered set.now) p.0 table.old (Switch unit.old.state) wires.old turn table.new (Switch unit.new.state) wires.new) }
    ensures kept { IsSwitch set.now p.0 unit.new }
{
    let Some(given) = route_switch(set, p, ends, unit, wires) else {
        return Ok(Turn::Idle);
    };
    match fire_switch(switch_program(set, p), &mut unit.state, table, &given) {
        Ok(true) => Ok(Turn::Fired),
        Ok(false) => Ok(Turn::Hangs),
        Err(TermRefusal::TooMany) => Ok(Turn::TooMany),
        Err(TermRefusal::Memory) => Err(AllocError),
    }
}

// The term that a move takes, and 0 for all other operations.
fn moved(state: &SwitchState, ins: &SwitchIns, given: &[Option<u32>; 10]) -> u32
    ensures { result ≡ unwrap_or (source_value state.now.regs given.now (move_source ins.now)) 0 }
{
    match ins.move_source() {
        None => 0,
        Some(SwitchSource::Register(register)) => state.regs[register as usize],
        Some(SwitchSource::Input(input)) => given[input as usize].unwrap_or(0),
    }
}

// Fires the instruction at the pc of a switch, beside its routes.
fn fire_switch(
    program: &[SwitchIns],
    state: &mut SwitchState,
    table: &mut TermTable,
    given: &[Option<u32>; 10],
) -> Result<bool, TermRefusal>
    requires going { state.old.mark ≡ Mark.Going }
    requires inside { state.old.pc < length program.now }
    requires count { state.old.count < MAX_STEPS }
    ensures fired { IfOk result (λ goes. IsControl table.old state.old
        (term_switch table.old (next_switch_instruction program.now state.old) (length program.now) state.old given.now)
        goes table.new state.new) }
    ensures too_many { result ≡ Err TermRefusal.TooMany →
        IsSomeAnd (term_switch table.old (next_switch_instruction program.now state.old) (length program.now) state.old given.now)
        (λ t. Overflows t.nodes) }
    ensures refused { OnErr result (state.new ≡ state.old) }
{
    let ins = &program[state.pc as usize];
    let value = moved(state, ins, given);
    control(table, state, program.len(), ins, value)
}

// Whether a source has sent all of so many words.
fn is_spent(unit: &SourceUnit, words: usize) -> bool
    ensures { result ≡ nat_le words unit.now.port.local.done }
{
    source_stopped(&unit.port, words)
}

// The number of the term of the next word of a source, which is sent.
fn next_number(unit: &mut SourceUnit) -> u32
    requires { unit.old.first + unit.old.port.local.done < 2 ^ 32 }
    ensures number { result ≡ unit.old.first + unit.old.port.local.done }
    ensures next { unit.new.port.local ≡ record unit.old.port.local { done = unit.old.port.local.done + 1 } }
    ensures first { unit.new.first ≡ unit.old.first }
{
    let number = unit.first + unit.port.done as u32;
    unit.port.done += 1;
    number
}

/// Gives a source its turn.
pub(crate) fn turn_source(
    set: &Set,
    p: ProcId,
    ends: &EndWires,
    unit: &mut SourceUnit,
    wires: &mut Wires,
) -> Turn
    requires stands { EndsStand set.now p.0 ends.now wires.old }
    requires unit { IsSource set.now p.0 unit.old }
    ensures turn { (nodes : List Node) →
        IsTurn (numbered set.now) p.0 nodes (Source unit.old.port.local) wires.old result nodes (Source unit.new.port.local) wires.new }
    ensures kept { IsSource set.now p.0 unit.new }
{
    let words = words_of(set, p);
    if is_spent(unit, words.len()) {
        return Turn::Idle;
    }
    if let Some(_wire) = unmet_at(set, ends, source_needs(), wires) {
        return Turn::Idle;
    }
    let number = next_number(unit);
    let out = TileOut {
        sent1: Some(number),
        sent2: Some(number),
        touched: None,
    };
    wires.put_out(ends, &out);
    Turn::Fired
}

/// Gives a sink its turn.
pub(crate) fn turn_sink(
    set: &Set,
    p: ProcId,
    ends: &EndWires,
    port: &mut PortState,
    wires: &mut Wires,
) -> Turn
    requires stands { EndsStand set.now p.0 ends.now wires.old }
    requires unit { IsSink set.now p.0 port.old }
    ensures turn { (nodes : List Node) →
        IsTurn (numbered set.now) p.0 nodes (Sink port.old.local) wires.old result nodes (Sink port.new.local) wires.new }
    ensures kept { IsSink set.now p.0 port.new }
{
    match serial_sink(set, p, ends, port, wires, &mut Silent) {
        SerialTurn::Fired => Turn::Fired,
        _ => Turn::Idle,
    }
}

/// Gives a processor its turn.
pub(crate) fn turn_unit(
    set: &Set,
    p: ProcId,
    ends: &EndWires,
    unit: &mut Unit,
    wires: &mut Wires,
    table: &mut TermTable,
) -> Result<Turn, AllocError>
    requires stands { EndsStand set.now p.0 ends.now wires.old }
    requires unit { IsUnit set.now p.0 unit.old }
    ensures turn { IfOk result (λ turn.
        IsTurn (numbered set.now) p.0 table.old (local_of unit.old) wires.old turn table.new (local_of unit.new) wires.new) }
    ensures kept { IsUnit set.now p.0 unit.new }
{
    match unit {
        Unit::Tile(tile) => turn_tile(set, p, ends, tile, wires, table),
        Unit::Switch(switch) => turn_switch(set, p, ends, switch, wires, table),
        Unit::Source(source) => Ok(turn_source(set, p, ends, source, wires)),
        Unit::Sink(port) => Ok(turn_sink(set, p, ends, port, wires)),
    }
}
