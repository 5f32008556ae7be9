//! Machines at rest.
ghost use Rattle.std.specs.Prelude.{◌≡◌, ℕ, ◌-◌, ◌*◌, ◌≤◌, ◌^◌, ◌++◌, true, List, length, map, Some, slice_get, slice_index, IfOk};
ghost use Rattle.raw_grid.specs.Topology.{tile_count};
ghost use Rattle.raw_model.specs.Local.{Sink, PortLocal};
ghost use Rattle.raw_model.specs.Program.{IsSet};
ghost use Rattle.raw_model.specs.Rest.{IsQuiet};
ghost use Rattle.raw_stream.specs.Streams.{due_to};
ghost use Rattle.raw_prove.specs.Units.{local_of, state_of};
ghost use Rattle.raw_cut.specs.Kept.{IsKept};

use crate::arriving::{are_same, due_to, port_of};
use crate::numbers::number_at;
use crate::stepping::turn;
use raw_grid::ProcId;
use raw_model::Set;
use raw_prove::{Machine, Turn, Unit};
use raw_stream::StreamFlow;
use std::alloc::{AllocError, Global};

/// Whether no processor of a machine is enabled. Where one is, the machine is not used again.
pub(crate) fn is_quiet(set: &Set, machine: &mut Machine) -> Result<bool, AllocError>
    requires { IsKept set.now machine.old }
    ensures quiet { IfOk result (λ yes. yes ≡ true → IsQuiet set.now (state_of machine.old).state) }
    ensures stays { IfOk result (λ yes. yes ≡ true → state_of machine.new ≡ state_of machine.old) }
    ensures kept { IfOk result (λ yes. yes ≡ true → IsKept set.now machine.new) }
{
    for p in 0..set.topo.procs() {
        match turn(set, machine, ProcId(p))? {
            Turn::Idle => {}
            _ => return Ok(false),
        }
    }
    Ok(true)
}

// Whether words are those that are due but for the last ones.
fn lacks_few(got: &[u32], due: &[u32], lack: u32) -> bool
    ensures { result ≡ true → (last : List ℕ) × (due.now ≡ got.now ++ last) × (length last ≤ lack) }
{
    if got.len() > due.len() || due.len() - got.len() > lack as usize {
        return false;
    }
    are_same(&due[..got.len()], got)
}

// Whether a processor, where it is a sink, has the words that the port of this number is due, but for the last ones.
fn has_due(
    alloc: Global,
    stream: &StreamFlow,
    port: u32,
    values: &[Vec<u32>],
    unit: &Unit,
    lack: u32,
) -> Result<bool, AllocError>
    ensures { IfOk result (λ yes. yes ≡ true → (l : PortLocal) → local_of unit.now ≡ Sink l → (last : List ℕ)
        × (due_to stream.now port (map (λ row. row.items) values.now) ≡ l.got ++ last) × (length last ≤ lack)) }
{
    match unit {
        Unit::Sink(sink) => {
            let due = due_to(alloc, stream, port, values)?;
            Ok(lacks_few(&sink.got, &due, lack))
        }
        Unit::Tile(_) | Unit::Switch(_) | Unit::Source(_) => Ok(true),
    }
}

/// Whether each sink has the words that it is due of rows with these values, but for the last ones, so many as
/// stand at the number of its port.
pub(crate) fn have_due(
    alloc: Global,
    stream: &StreamFlow,
    tiles: u32,
    values: &[Vec<u32>],
    units: &[Unit],
    lacks: &[u32],
) -> Result<bool, AllocError>
    requires few { length units.now ≤ 2 ^ 16 }
    requires tiles { tiles ≤ 2 ^ 16 }
    ensures { IfOk result (λ yes. yes ≡ true → (p : ℕ) (l : PortLocal) → slice_get (map local_of units.now) p ≡ Some (Sink l)
        → (last : List ℕ) × (due_to stream.now (p - 2 * tiles) (map (λ row. row.items) values.now) ≡ l.got ++ last)
        × (length last ≤ slice_index lacks.now (p - 2 * tiles))) }
{
    for p in 0..units.len() {
        let port = port_of(tiles, p as u32);
        let lack = number_at(lacks, port);
        if !has_due(alloc, stream, port, values, &units[p], lack)? {
            return Ok(false);
        }
    }
    Ok(true)
}
