//! Machines that begin at a cut.
ghost use Rattle.std.specs.Prelude.{◌≡◌, ◌*◌, ◌^◌, ◌<◌, ◌≤◌, true, length, map, Some, IfOk, IfSome};
ghost use Rattle.raw_grid.specs.declared.parts.ProcKind.TheVariants as proc;
ghost use Rattle.raw_grid.specs.Topology.{proc_count, kind_at};
ghost use Rattle.raw_model.specs.Program.{IsSet};
ghost use Rattle.raw_model.specs.Local.{Tile, Switch, Source, Sink};
ghost use Rattle.raw_stream.specs.Streams.{valued};
ghost use Rattle.raw_rows.specs.Kernels.{renumbered, cut_with};
ghost use Rattle.raw_prove.specs.Units.{local_of, state_of, IsTile, IsSwitch};
ghost use Rattle.raw_cut.specs.Cuts.{local_at, cut_of};
ghost use Rattle.raw_cut.specs.Kept.{IsSinkWith, IsUnitWith, AreUnitsWith, IsKeptWith};

use crate::cut::{Cut, CutLocal, CutPort, CutTile};
use crate::numbers::{all_valued, valued};
use raw_grid::{ProcId, ProcKind};
use raw_model::limits::MEMORY_WORDS;
use raw_model::{Mark, Set};
use raw_processor::{PortState, SwitchUnit, capacity_of, switch_steps, tile_steps};
use raw_prove::{Machine, SourceUnit, TileUnit, Unit, open_ends, switch_program, tile_program};
use raw_serial::Wires;
use raw_switch::SwitchState;
use raw_term::{TermTable, TermTile};
use raw_tile::{TileMemory, TileState};
use std::alloc::{AllocError, Global};

// Whether a processor that goes on does so inside its program.
fn is_inside(mark: Mark, pc: u32, size: usize) -> bool
    ensures { result ≡ true → mark ≡ Mark.Going → pc < size }
{
    match mark {
        Mark::Going => (pc as usize) < size,
        _ => true,
    }
}

// A tile of a set at a cut. None where there is no such one.
fn tile_at(
    alloc: Global,
    set: &Set,
    p: ProcId,
    numbers: &[u32],
    cut: &CutTile,
) -> Result<Option<TileUnit>, AllocError>
    ensures local { IfOk result (λ found. IfSome found (λ unit. Tile unit.tile ≡ renumbered numbers.now (Tile cut.now))) }
    ensures kept { IfOk result (λ found. IfSome found (IsTile set.now p.0)) }
{
    if p.0 >= set.topo.tiles() {
        return Ok(None);
    }
    let program = tile_program(set, p);
    if !is_inside(cut.mark, cut.pc, program.len()) {
        return Ok(None);
    }
    if cut.memory.len() != MEMORY_WORDS as usize {
        return Ok(None);
    }
    let memory = valued(alloc, numbers, &cut.memory)?;
    let code = tile_steps(alloc, program)?;
    let state = TileState {
        regs: all_valued(numbers, &cut.regs),
        pc: cut.pc,
        count: 0,
        mark: cut.mark,
        memory: TileMemory::zeroed(alloc)?,
    };
    Ok(Some(TileUnit {
        code,
        tile: TermTile { state, memory },
    }))
}

// A switch of a set at a cut. None where there is no such one.
fn switch_at(
    alloc: Global,
    set: &Set,
    p: ProcId,
    numbers: &[u32],
    cut: &SwitchState,
) -> Result<Option<SwitchUnit>, AllocError>
    requires { kind_at set.now.topo p.0 ≡ Some proc.Switch }
    ensures local { IfOk result (λ found. IfSome found (λ unit. Switch unit.state ≡ renumbered numbers.now (Switch cut.now))) }
    ensures kept { IfOk result (λ found. IfSome found (IsSwitch set.now p.0)) }
{
    if p.0 < set.topo.tiles() || p.0 >= 2 * set.topo.tiles() {
        return Ok(None);
    }
    let program = switch_program(set, p);
    if !is_inside(cut.mark, cut.pc, program.len()) {
        return Ok(None);
    }
    let code = switch_steps(alloc, program)?;
    let state = SwitchState {
        regs: all_valued(numbers, &cut.regs),
        pc: cut.pc,
        count: 0,
        mark: cut.mark,
    };
    Ok(Some(SwitchUnit { code, state }))
}

// A source at a cut.
fn source_at(alloc: Global, cut: &CutPort) -> Result<SourceUnit, AllocError>
    ensures { IfOk result (λ unit. unit.port.local ≡ cut.now) }
{
    Ok(SourceUnit {
        first: 0,
        port: PortState {
            done: cut.done,
            got: cut.got.to_vec(alloc)?,
        },
    })
}

// A sink of a set at a cut, with room for a word more than its capacity. None where there is no such one.
fn sink_at(
    alloc: Global,
    set: &Set,
    p: ProcId,
    numbers: &[u32],
    cut: &CutPort,
) -> Result<Option<PortState>, AllocError>
    requires { kind_at set.now.topo p.0 ≡ Some proc.Sink }
    ensures local { IfOk result (λ found. IfSome found (λ port. Sink port.local ≡ renumbered numbers.now (Sink cut.now))) }
    ensures kept { IfOk result (λ found. IfSome found (IsSinkWith set.now 1 p.0)) }
{
    if cut.done != cut.got.len() as u64 {
        return Ok(None);
    }
    let mut got = valued(alloc, numbers, &cut.got)?;
    got.reserve(capacity_of(set, p) as usize + 1)?;
    Ok(Some(PortState {
        done: cut.done,
        got,
    }))
}

// A processor of a set at a cut. None where there is no such one.
fn unit_at(
    alloc: Global,
    set: &Set,
    p: ProcId,
    numbers: &[u32],
    cut: &CutLocal,
) -> Result<Option<Unit>, AllocError>
    requires { p.0 < proc_count set.now.topo }
    ensures local { IfOk result (λ found. IfSome found (λ unit. local_of unit ≡ renumbered numbers.now (local_at cut.now))) }
    ensures kept { IfOk result (λ found. IfSome found (IsUnitWith set.now 1 p.0)) }
{
    match (set.topo.kind_of(p), cut) {
        (ProcKind::Tile, CutLocal::Tile(cut)) => match tile_at(alloc, set, p, numbers, cut)? {
            Some(unit) => Ok(Some(Unit::Tile(unit))),
            None => Ok(None),
        },
        (ProcKind::Switch, CutLocal::Switch(cut)) => {
            match switch_at(alloc, set, p, numbers, cut)? {
                Some(unit) => Ok(Some(Unit::Switch(unit))),
                None => Ok(None),
            }
        }
        (ProcKind::Source, CutLocal::Source(cut)) => {
            let unit = source_at(alloc, cut)?;
            Ok(Some(Unit::Source(unit)))
        }
        (ProcKind::Sink, CutLocal::Sink(cut)) => match sink_at(alloc, set, p, numbers, cut)? {
            Some(port) => Ok(Some(Unit::Sink(port))),
            None => Ok(None),
        },
        _ => Ok(None),
    }
}

// All processors of a set at a cut. None where there are no such ones.
fn units_at(
    alloc: Global,
    set: &Set,
    numbers: &[u32],
    cuts: &[CutLocal],
) -> Result<Option<Vec<Unit>>, AllocError>
    requires there { length cuts.now ≤ proc_count set.now.topo }
    requires few { length cuts.now ≤ 2 ^ 16 }
    ensures locals { IfOk result (λ found. IfSome found (λ units.
        map local_of units.items ≡ map (renumbered numbers.now) (map local_at cuts.now))) }
    ensures kept { IfOk result (λ found. IfSome found (λ units. AreUnitsWith set.now 1 units.items)) }
{
    let mut units = Vec::with_capacity(alloc, cuts.len())?;
    for p in 0..cuts.len() {
        match unit_at(alloc, set, ProcId(p as u32), numbers, &cuts[p])? {
            Some(unit) => units.push(unit)?,
            None => return Ok(None),
        }
    }
    Ok(Some(units))
}

// The values on wires at a cut.
fn values_at(alloc: Global, numbers: &[u32], cuts: &[Vec<u32>]) -> Result<Vec<Vec<u32>>, AllocError>
    ensures { IfOk result (λ values.
        map (λ wire. wire.items) values.items ≡ map (valued numbers.now) (map (λ wire. wire.items) cuts.now)) }
{
    let mut values = Vec::with_capacity(alloc, cuts.len())?;
    for cut in cuts {
        values.push(valued(alloc, numbers, cut)?)?;
    }
    Ok(values)
}

/// A machine of a set that begins at a cut, where the terms of its nodes have these numbers in a table. None where no such
/// machine stands at it.
pub(crate) fn begin(
    alloc: Global,
    set: &Set,
    table: TermTable,
    numbers: &[u32],
    cut: &Cut,
) -> Result<Option<Machine>, AllocError>
    ensures state { IfOk result (λ found. IfSome found (λ machine.
        state_of machine ≡ cut_with (cut_of cut.now).at.state (record { nodes = table; numbers = numbers.now }))) }
    ensures kept { IfOk result (λ found. IfSome found (IsKeptWith set.now 1)) }
{
    let locals: &[CutLocal] = &cut.locals;
    let cuts: &[Vec<u32>] = &cut.wires;
    let procs = set.topo.procs() as usize;
    let count = set.topo.wires() as usize;
    if locals.len() != procs || cuts.len() != count {
        return Ok(None);
    }
    let Some(units) = units_at(alloc, set, numbers, locals)? else {
        return Ok(None);
    };
    let values = values_at(alloc, numbers, cuts)?;
    let Some(wires) = Wires::with(alloc, &values)? else {
        return Ok(None);
    };
    let ends = open_ends(alloc, &set.topo)?;
    Ok(Some(Machine {
        ends,
        units,
        wires,
        table,
    }))
}
