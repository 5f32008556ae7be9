//! Steps of a machine with terms that branch on a term as where it is not 0.
ghost use Rattle.std.specs.Prelude.{◌≡◌, ℕ, ◌+◌, ◌*◌, ◌<◌, ◌≤◌, ◌||◌, nat_le, None, true, false, Some, [], List, length, slice_index, IfOk, IfSome, IsSome, OnErr};
ghost use Rattle.raw_grid.specs.Topology.{proc_count};
ghost use Rattle.raw_tile_isa.specs.Instruction.{is_network};
ghost use Rattle.raw_model.specs.Program.{IsSet};
ghost use Rattle.raw_model.specs.Local.{Tile, Switch};
ghost use Rattle.raw_model.specs.TileTable.{next_instruction, following, moved};
ghost use Rattle.raw_model.specs.SwitchTable.{next_instruction as next_switch_instruction};
ghost use Rattle.raw_term.specs.Terms.{word_in};
ghost use Rattle.raw_prove.specs.Units.{local_of, state_of, IsTile, IsSwitch};
ghost use Rattle.raw_serial.specs.Standing.{EndsStand};
ghost use Rattle.raw_model.specs.Rest.{enabled};
ghost use Rattle.raw_rows.specs.Noted.{noted_pc, noted_at, noting_step, along_noting};
ghost use Rattle.raw_cut.specs.Kept.{IsUnitWith, IsKeptWith, IsKept};
ghost use Rattle.raw_lengths.specs.Noting.{IsTileLookAt, first_held, is_branch, IsLookAt, IsBranch, IsLook, IsLookOf};

use raw_cut::turn;
use raw_flow::{FlowOp, Node};
use raw_grid::ProcId;
use raw_model::limits::MAX_STEPS;
use raw_model::{Mark, Set};
use raw_processor::{EndWires, SwitchUnit, switch_stopped};
use raw_prove::{
    Machine, TileUnit, Turn, Unit, has_stopped, route_switch, switch_program, tile_program,
};
use raw_serial::Wires;
use raw_switch::SwitchState;
use raw_switch_isa::{SwitchIns, SwitchOp};
use raw_term::{TermRefusal, TermTable, TermTile};
use raw_tile::TileState;
use raw_tile_isa as word;
use raw_tile_isa::{NETWORK_1, NETWORK_2, TileIns, TileOp};
use std::alloc::{AllocError, Global};

/// What a look at a processor's next step came to.
#[derive(Clone, Copy, PartialEq, Eq)]
pub(crate) enum Look {
    /// It is no branch on a term, or may not be taken: nothing is changed.
    Other,
    /// It was one on this term, and is taken.
    Noted(u32),
    /// It needs more terms than a table holds. The machine is not used again.
    TooMany,
}

// Where a branch that compares a word that is not 0 with 0 goes.
fn noted_pc(ins: &TileIns, next: u32) -> Option<u32>
    ensures { result ≡ noted_pc ins.now.op next ins.now }
{
    match ins.op {
        TileOp::Bne => Some(word::add(next, word::sign_extended(ins.imm))),
        TileOp::Beq => Some(next),
        _ => None,
    }
}

// Whether a register stands for a network.
fn is_network(register: u8) -> bool
    ensures { result ≡ is_network register }
{
    register == NETWORK_1 || register == NETWORK_2
}

// The term that a register of a tile holds.
fn held(state: &TileState, register: u8) -> u32
    requires { register < 32 }
    ensures { result ≡ slice_index state.now.regs register }
{
    state.regs[register as usize]
}

// Where a tile's next instruction goes, if it is a branch that compares a term, which is no word and stands in a register,
// with 0.
fn tile_look(program: &[TileIns], tile: &TermTile, table: &TermTable) -> Option<u32>
    requires { tile.now.pc < length program.now }
    ensures { IfSome result (λ pc. IsTileLookAt table.now tile.now pc (next_instruction program.now tile.now)) }
{
    let ins = &program[tile.state.pc as usize];
    if is_network(ins.rs) || is_network(ins.rt) {
        return None;
    }
    let pc = noted_pc(ins, tile.state.following())?;
    if table.word(held(&tile.state, ins.rs)).is_some() {
        return None;
    }
    match table.word(held(&tile.state, ins.rt)) {
        Some(0) => Some(pc),
        _ => None,
    }
}

// The term on which a tile branches next.
fn term_at(program: &[TileIns], tile: &TermTile) -> u32
    requires { tile.now.pc < length program.now }
    ensures { result ≡ first_held tile.now.regs (next_instruction program.now tile.now) }
{
    let ins = &program[tile.state.pc as usize];
    held(&tile.state, ins.rs)
}

// Moves a tile to a pc, in a program of so many instructions.
fn move_to(tile: &mut TermTile, size: usize, pc: u32)
    requires going { tile.old.mark ≡ Mark.Going }
    requires count { tile.old.count < MAX_STEPS }
    ensures { tile.new ≡ moved size tile.old pc }
{
    tile.state.move_to(size, pc);
}

// Takes a tile's branch on a term, if it is at one.
fn note_tile(set: &Set, p: ProcId, unit: &mut TileUnit, table: &TermTable) -> Look
    requires valid { IsSet set.now }
    requires unit { IsTile set.now p.0 unit.old }
    ensures look { (wires : List (List ℕ)) →
        IsLook set.now p.0 table.now (Tile unit.old.tile) wires result table.now (Tile unit.new.tile) wires }
    ensures kept { IsTile set.now p.0 unit.new }
{
    if has_stopped(&unit.tile, set.limit) {
        return Look::Other;
    }
    let program = tile_program(set, p);
    let Some(pc) = tile_look(program, &unit.tile, table) else {
        return Look::Other;
    };
    let term = term_at(program, &unit.tile);
    move_to(&mut unit.tile, program.len(), pc);
    Look::Noted(term)
}

// Whether an instruction of a switch branches on a register.
fn is_branch(op: SwitchOp) -> bool
    ensures { result ≡ is_branch op }
{
    match op {
        SwitchOp::Beqz | SwitchOp::Bnez | SwitchOp::Bnezd => true,
        SwitchOp::Nop | SwitchOp::Jump | SwitchOp::Move | SwitchOp::Halt => false,
    }
}

// Whether a switch's next instruction branches on a register whose term is no word.
fn is_look(program: &[SwitchIns], state: &SwitchState, table: &TermTable) -> bool
    requires { state.now.pc < length program.now }
    ensures { result ≡ true → IsLookAt table.now state.now (next_switch_instruction program.now state.now) }
{
    let ins = &program[state.pc as usize];
    is_branch(ins.op) && table.word(state.regs[ins.rd as usize]).is_none()
}

// Branches as on a word that is not 0, and says on which term.
fn take_branch(
    program: &[SwitchIns],
    state: &mut SwitchState,
    table: &mut TermTable,
) -> Result<u32, TermRefusal>
    requires going { state.old.mark ≡ Mark.Going }
    requires inside { state.old.pc < length program.now }
    requires count { state.old.count < MAX_STEPS }
    requires look { IsLookAt table.old state.old (next_switch_instruction program.now state.old) }
    ensures does { IfOk result (λ term. IsBranch table.old (length program.now) state.old
        (next_switch_instruction program.now state.old) term table.new state.new) }
    ensures refused { OnErr result (state.new ≡ state.old) }
{
    let ins = &program[state.pc as usize];
    let rd = ins.rd as usize;
    let term = state.regs[rd];
    match ins.op {
        SwitchOp::Beqz => {
            let next = state.pc.wrapping_add(1);
            state.go(program.len(), next);
        }
        SwitchOp::Bnez => state.go(program.len(), u32::from(ins.target)),
        SwitchOp::Bnezd => {
            let one = table.number_of(Node::Const { word: 1 })?;
            let less = table.make(FlowOp::Sub, term, one)?;
            state.regs[rd] = less;
            state.go(program.len(), u32::from(ins.target));
        }
        SwitchOp::Nop | SwitchOp::Jump | SwitchOp::Move | SwitchOp::Halt => {}
    }
    Ok(term)
}

// Takes a switch's branch on a term, if it is at one and may.
fn note_switch(
    set: &Set,
    p: ProcId,
    ends: &EndWires,
    unit: &mut SwitchUnit,
    wires: &mut Wires,
    table: &mut TermTable,
) -> Result<Look, AllocError>
    requires stands { EndsStand set.now p.0 ends.now wires.old }
    requires unit { IsSwitch set.now p.0 unit.old }
    ensures look { IfOk result (λ look.
        IsLook set.now p.0 table.old (Switch unit.old.state) wires.old look table.new (Switch unit.new.state) wires.new) }
    ensures kept { IsSwitch set.now p.0 unit.new }
{
    if switch_stopped(&unit.state, set.limit) {
        return Ok(Look::Other);
    }
    let program = switch_program(set, p);
    if !is_look(program, &unit.state, table) {
        return Ok(Look::Other);
    }
    let Some(_given) = route_switch(set, p, ends, unit, wires) else {
        return Ok(Look::Other);
    };
    match take_branch(program, &mut unit.state, table) {
        Ok(term) => Ok(Look::Noted(term)),
        Err(TermRefusal::TooMany) => Ok(Look::TooMany),
        Err(TermRefusal::Memory) => Err(AllocError),
    }
}

// Takes a processor's branch on a term, if it is at one and may.
fn note_unit(
    set: &Set,
    p: ProcId,
    ends: &EndWires,
    unit: &mut Unit,
    wires: &mut Wires,
    table: &mut TermTable,
) -> Result<Look, AllocError>
    requires stands { EndsStand set.now p.0 ends.now wires.old }
    requires unit { IsUnitWith set.now 0 p.0 unit.old }
    ensures look { IfOk result (λ look.
        IsLook set.now p.0 table.old (local_of unit.old) wires.old look table.new (local_of unit.new) wires.new) }
    ensures kept { (spare : ℕ) → IsUnitWith set.now spare p.0 unit.old → IsUnitWith set.now spare p.0 unit.new }
{
    match unit {
        Unit::Tile(tile) => Ok(note_tile(set, p, tile, table)),
        Unit::Switch(switch) => note_switch(set, p, ends, switch, wires, table),
        Unit::Source(_) | Unit::Sink(_) => Ok(Look::Other),
    }
}

// Takes the branch of a processor of a machine on a term, if it is at one and may.
fn note(set: &Set, machine: &mut Machine, p: ProcId) -> Result<Look, AllocError>
    requires kept { IsKept set.now machine.old }
    requires proc { p.0 < proc_count set.now.topo }
    ensures { IfOk result (λ look. IsLookOf set.now p.0 machine.old look machine.new) }
{
    let i = p.0 as usize;
    let ends = &machine.ends[i];
    let unit = &mut machine.units[i];
    note_unit(set, p, ends, unit, &mut machine.wires, &mut machine.table)
}

// Takes a step of a processor, and notes the term on which it branches, if it does. Where it takes none the machine is not
// used again.
fn step(
    set: &Set,
    machine: &mut Machine,
    p: ProcId,
    terms: &mut Vec<u32>,
) -> Result<bool, AllocError>
    requires kept { IsKept set.now machine.old }
    requires proc { p.0 < proc_count set.now.topo }
    ensures may { IfOk result (λ goes. goes ≡ true → enabled set.now (state_of machine.old).state p.0 ≡ true) }
    ensures does { IfOk result (λ goes. goes ≡ true →
        noting_step set.now (noted_at (state_of machine.old) terms.old.items) p.0 ≡ Some (noted_at (state_of machine.new) terms.new.items)) }
    ensures kept { IfOk result (λ goes. goes ≡ true →
        (spare : ℕ) → IsKeptWith set.now spare machine.old → IsKeptWith set.now spare machine.new) }
{
    match note(set, machine, p)? {
        Look::Noted(term) => {
            terms.push(term)?;
            Ok(true)
        }
        Look::TooMany => Ok(false),
        Look::Other => match turn(set, machine, p)? {
            Turn::Fired => Ok(true),
            _ => Ok(false),
        },
    }
}

/// Goes along a list of steps, each a processor's, and notes the terms on which it branches. None where one of the steps is
/// not enabled, hangs on anything else, or needs too many terms; then the machine is not used again.
pub(crate) fn go_noting(
    alloc: Global,
    set: &Set,
    machine: &mut Machine,
    steps: &[u32],
) -> Result<Option<Vec<u32>>, AllocError>
    requires { IsKept set.now machine.old }
    ensures goes { IfOk result (λ found. IfSome found (λ terms.
        along_noting set.now (noted_at (state_of machine.old) []) steps.now ≡ Some (noted_at (state_of machine.new) terms.items))) }
    ensures kept { IfOk result (λ found. IfSome found (λ terms.
        (spare : ℕ) → IsKeptWith set.now spare machine.old → IsKeptWith set.now spare machine.new)) }
{
    let mut terms = Vec::new(alloc);
    for p in steps {
        if *p >= set.topo.procs() {
            return Ok(None);
        }
        if !step(set, machine, ProcId(*p), &mut terms)? {
            return Ok(None);
        }
    }
    Ok(Some(terms))
}
