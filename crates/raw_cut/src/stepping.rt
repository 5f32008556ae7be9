//! Steps of a machine with terms.
ghost use Rattle.std.specs.Prelude.{◌≡◌, ℕ, ◌<◌, true, Some, List, length, IfOk};
ghost use Rattle.raw_grid.specs.declared.parts.ProcKind.TheVariants as proc;
ghost use Rattle.raw_grid.specs.Topology.{proc_count, kind_at};
ghost use Rattle.raw_model.specs.Local.{Source, Sink};
ghost use Rattle.raw_serial.specs.Standing.{EndsStand};
ghost use Rattle.raw_flow.specs.declared.node.Node.{Node};
ghost use Rattle.raw_prove.specs.Units.{local_of, state_of};
ghost use Rattle.raw_prove.specs.Turns.{IsTurn};
ghost use Rattle.raw_rows.specs.Kernels.{along};
ghost use Rattle.raw_cut.specs.Kept.{IsSinkWith, IsUnitWith, IsKeptWith, IsKept, IsTurnAt};

use raw_grid::ProcId;
use raw_model::Set;
use raw_processor::{EndWires, PortState};
use raw_prove::{Machine, SourceUnit, Turn, Unit, turn_switch, turn_tile};
use raw_serial::{Silent, Turn as SerialTurn, Wires, turn_sink, turn_source};
use raw_term::TermTable;
use std::alloc::AllocError;

// Gives a source its turn.
fn turn_source_unit(
    set: &Set,
    p: ProcId,
    ends: &EndWires,
    unit: &mut SourceUnit,
    wires: &mut Wires,
) -> Turn
    requires stands { EndsStand set.now p.0 ends.now wires.old }
    requires source { kind_at set.now.topo p.0 ≡ Some proc.Source }
    ensures { (nodes : List Node) →
        IsTurn set.now p.0 nodes (Source unit.old.port.local) wires.old result nodes (Source unit.new.port.local) wires.new }
{
    match turn_source(set, p, ends, &mut unit.port, wires, &mut Silent) {
        SerialTurn::Fired => Turn::Fired,
        _ => Turn::Idle,
    }
}

// Gives a sink its turn.
fn turn_sink_unit(
    set: &Set,
    p: ProcId,
    ends: &EndWires,
    port: &mut PortState,
    wires: &mut Wires,
) -> Turn
    requires stands { EndsStand set.now p.0 ends.now wires.old }
    requires unit { IsSinkWith set.now 0 p.0 port.old }
    ensures turn { (nodes : List Node) →
        IsTurn set.now p.0 nodes (Sink port.old.local) wires.old result nodes (Sink port.new.local) wires.new }
    ensures kept { (spare : ℕ) → IsSinkWith set.now spare p.0 port.old → IsSinkWith set.now spare p.0 port.new }
{
    match turn_sink(set, p, ends, port, wires, &mut Silent) {
        SerialTurn::Fired => Turn::Fired,
        _ => Turn::Idle,
    }
}

// Gives a processor its turn.
fn turn_unit(
    set: &Set,
    p: ProcId,
    ends: &EndWires,
    unit: &mut Unit,
    wires: &mut Wires,
    table: &mut TermTable,
) -> Result<Turn, AllocError>
    requires stands { EndsStand set.now p.0 ends.now wires.old }
    requires unit { IsUnitWith set.now 0 p.0 unit.old }
    ensures turn { IfOk result (λ turn.
        IsTurn set.now p.0 table.old (local_of unit.old) wires.old turn table.new (local_of unit.new) wires.new) }
    ensures kept { (spare : ℕ) → IsUnitWith set.now spare p.0 unit.old → IsUnitWith set.now spare p.0 unit.new }
{
    match unit {
        Unit::Tile(tile) => turn_tile(set, p, ends, tile, wires, table),
        Unit::Switch(switch) => turn_switch(set, p, ends, switch, wires, table),
        Unit::Source(source) => Ok(turn_source_unit(set, p, ends, source, wires)),
        Unit::Sink(port) => Ok(turn_sink_unit(set, p, ends, port, wires)),
    }
}

/// Gives a processor its turn. After one that hangs, or needs too many terms, the machine is not used again.
pub fn turn(set: &Set, machine: &mut Machine, p: ProcId) -> Result<Turn, AllocError>
    requires kept { IsKept set.now machine.old }
    requires proc { p.0 < proc_count set.now.topo }
    ensures { IfOk result (λ turn. IsTurnAt set.now p.0 machine.old turn machine.new) }
{
    let i = p.0 as usize;
    let ends = &machine.ends[i];
    let unit = &mut machine.units[i];
    turn_unit(set, p, ends, unit, &mut machine.wires, &mut machine.table)
}

/// Goes along a list of steps, each a processor's. It does not where one of them is not enabled, hangs, or needs too many
/// terms; then the machine is not used again.
pub fn go_along(set: &Set, machine: &mut Machine, steps: &[u32]) -> Result<bool, AllocError>
    requires { IsKept set.now machine.old }
    ensures goes { IfOk result (λ goes. goes ≡ true →
        along set.now (state_of machine.old) steps.now ≡ Some (state_of machine.new)) }
    ensures kept { IfOk result (λ goes. goes ≡ true →
        (spare : ℕ) → IsKeptWith set.now spare machine.old → IsKeptWith set.now spare machine.new) }
{
    for p in steps {
        if *p >= set.topo.procs() {
            return Ok(false);
        }
        match turn(set, machine, ProcId(*p))? {
            Turn::Fired => {}
            _ => return Ok(false),
        }
    }
    Ok(true)
}
