//! Cuts at which machines stand.
ghost use Rattle.std.specs.Prelude.{◌≡◌, ◌^◌, ◌<◌, ◌≤◌, length, map, IfOk};
ghost use Rattle.raw_grid.specs.Wires.{wires_of};
ghost use Rattle.raw_prove.specs.Units.{local_of, state_of};
ghost use Rattle.raw_cut.specs.Cuts.{local_at, cut_of};
ghost use Rattle.raw_cut.specs.Parts.{uncounted, standing};

use crate::cut::{Cut, CutLocal, CutPort, CutTile};
use raw_flow::Node;
use raw_model::Set;
use raw_processor::PortState;
use raw_prove::{Machine, Unit};
use raw_serial::Wires;
use raw_switch::SwitchState;
use raw_term::TermTable;
use std::alloc::{AllocError, Global};

// A port of a machine as one at a cut.
fn port_at(alloc: Global, port: &PortState) -> Result<CutPort, AllocError>
    ensures { IfOk result (λ cut. cut ≡ port.now.local) }
{
    Ok(CutPort {
        done: port.done,
        got: port.got.to_vec(alloc)?,
    })
}

// A processor of a machine as one at a cut.
fn unit_at(alloc: Global, unit: &Unit) -> Result<CutLocal, AllocError>
    ensures { IfOk result (λ cut. local_at cut ≡ uncounted (local_of unit.now)) }
{
    match unit {
        Unit::Tile(unit) => Ok(CutLocal::Tile(CutTile {
            regs: unit.tile.state.regs,
            pc: unit.tile.state.pc,
            mark: unit.tile.state.mark,
            memory: unit.tile.memory.to_vec(alloc)?,
        })),
        Unit::Switch(unit) => Ok(CutLocal::Switch(SwitchState {
            regs: unit.state.regs,
            pc: unit.state.pc,
            count: 0,
            mark: unit.state.mark,
        })),
        Unit::Source(unit) => {
            let port = port_at(alloc, &unit.port)?;
            Ok(CutLocal::Source(port))
        }
        Unit::Sink(port) => {
            let port = port_at(alloc, port)?;
            Ok(CutLocal::Sink(port))
        }
    }
}

/// All processors of a machine, likewise.
pub(crate) fn units_at(alloc: Global, units: &[Unit]) -> Result<Vec<CutLocal>, AllocError>
    ensures { IfOk result (λ cuts. map local_at cuts.items ≡ map uncounted (map local_of units.now)) }
{
    let mut cuts = Vec::with_capacity(alloc, units.len())?;
    for unit in units {
        cuts.push(unit_at(alloc, unit)?)?;
    }
    Ok(cuts)
}

/// The values on so many wires.
pub(crate) fn wires_at(
    alloc: Global,
    wires: &Wires,
    count: u32,
) -> Result<Vec<Vec<u32>>, AllocError>
    requires { length wires.now ≡ count }
    ensures { IfOk result (λ values. map (λ wire. wire.items) values.items ≡ wires.now) }
{
    let mut values = Vec::with_capacity(alloc, count as usize)?;
    for w in 0..count {
        values.push(wires.values(w).to_vec(alloc)?)?;
    }
    Ok(values)
}

// All terms of a table, by their numbers.
pub(crate) fn terms_in(alloc: Global, table: &TermTable) -> Result<Vec<Node>, AllocError>
    ensures { IfOk result (λ nodes. nodes.items ≡ table.now) }
{
    let mut nodes = Vec::with_capacity(alloc, table.len() as usize)?;
    for number in 0..table.len() {
        // There is one for each number below their count.
        let Some(node) = table.node(number) else {
            return Err(AllocError);
        };
        nodes.push(node)?;
    }
    Ok(nodes)
}

/// The cut at which a machine stands, where the inputs of its table are those of a cut that sees so many rows.
pub(crate) fn cut_at(
    alloc: Global,
    set: &Set,
    machine: &Machine,
    window: u32,
) -> Result<Cut, AllocError>
    requires { length machine.now.wires ≡ length (wires_of set.now.topo) }
    ensures { IfOk result (λ cut. cut_of cut ≡ standing window (state_of machine.now)) }
{
    let nodes = terms_in(alloc, &machine.table)?;
    let locals = units_at(alloc, &machine.units)?;
    let wires = wires_at(alloc, &machine.wires, set.topo.wires())?;
    Ok(Cut {
        window,
        nodes,
        locals,
        wires,
    })
}
