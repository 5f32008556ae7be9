//! Machines that stand at a cut.
ghost use Rattle.std.specs.Prelude.{◌≡◌, ℕ, ◌+◌, ◌-◌, ◌*◌, ◌^◌, ◌<◌, ◌≤◌, ◌++◌, true, length, map, IfOk};
ghost use Rattle.raw_grid.specs.Topology.{tile_count};
ghost use Rattle.raw_model.specs.Local.{Tile, Switch, Source, Sink};
ghost use Rattle.raw_stream.specs.Streams.{valued, due_to};
ghost use Rattle.raw_rows.specs.Given.{given_by};
ghost use Rattle.raw_rows.specs.Kernels.{renumbered, IsLater, AtEach};
ghost use Rattle.raw_prove.specs.Units.{local_of};
ghost use Rattle.raw_cut.specs.Cuts.{local_at};

use crate::cut::{CutLocal, CutPort, CutTile};
use crate::numbers::{all_valued, valued};
use crate::ports::{due_at, given_by};
use raw_model::Mark;
use raw_processor::PortState;
use raw_prove::Unit;
use raw_serial::Wires;
use raw_stream::StreamFlow;
use raw_switch::SwitchState;
use raw_term::TermTile;
use raw_tile::TileState;
use std::alloc::{AllocError, Global};

/// What the ports of a set are due of rows whose nodes have these values.
pub(crate) fn due_to(
    alloc: Global,
    stream: &StreamFlow,
    port: u32,
    values: &[Vec<u32>],
) -> Result<Vec<u32>, AllocError>
    ensures { IfOk result (λ due. due.items ≡ due_to stream.now port (map (λ row. row.items) values.now)) }
{
    let nodes = due_at(alloc, stream, port)?;
    let mut due = Vec::new(alloc);
    for row in values {
        let own = valued(alloc, row, &nodes)?;
        due.extend_from_slice(&own)?;
    }
    Ok(due)
}

/// Whether these are the same numbers.
pub(crate) fn are_same(numbers: &[u32], others: &[u32]) -> bool
    ensures { result ≡ true → numbers.now ≡ others.now }
{
    numbers == others
}

// Whether these are the same marks.
fn is_same_mark(mark: Mark, other: Mark) -> bool
    ensures { result ≡ true → mark ≡ other }
{
    mark == other
}

// Whether the state of a tile, but for its memory, is that of a cut.
fn is_state_at(state: &TileState, numbers: &[u32], cut: &CutTile) -> bool
    ensures { result ≡ true → state.now ≡ record {
      regs = valued numbers.now cut.now.regs;
      pc = cut.now.pc;
      count = state.now.count;
      mark = cut.now.mark;
      memory = state.now.memory;
    } }
{
    let regs = all_valued(numbers, &cut.regs);
    if state.pc != cut.pc || !is_same_mark(state.mark, cut.mark) {
        return false;
    }
    are_same(&state.regs, &regs)
}

// Whether a tile is at a cut.
fn is_tile_at(
    alloc: Global,
    tile: &TermTile,
    numbers: &[u32],
    cut: &CutTile,
) -> Result<bool, AllocError>
    ensures { IfOk result (λ yes. yes ≡ true → tile.now ≡ record {
      regs = valued numbers.now cut.now.regs;
      pc = cut.now.pc;
      count = tile.now.count;
      mark = cut.now.mark;
      memory = valued numbers.now cut.now.memory;
    }) }
{
    if !is_state_at(&tile.state, numbers, cut) {
        return Ok(false);
    }
    let memory = valued(alloc, numbers, &cut.memory)?;
    Ok(are_same(&tile.memory, &memory))
}

// Whether a switch is at a cut.
fn is_switch_at(switch: &SwitchState, numbers: &[u32], cut: &SwitchState) -> bool
    ensures { result ≡ true → switch.now ≡ record {
      regs = valued numbers.now cut.now.regs;
      pc = cut.now.pc;
      count = switch.now.count;
      mark = cut.now.mark;
    } }
{
    let regs = all_valued(numbers, &cut.regs);
    if switch.pc != cut.pc || !is_same_mark(switch.mark, cut.mark) {
        return false;
    }
    are_same(&switch.regs, &regs)
}

// Whether a source is at a cut, behind rows of which it has given so many words.
fn is_source_at(source: &PortState, given: usize, cut: &CutPort) -> bool
    ensures { result ≡ true → source.now.local ≡ record { done = given + cut.now.done; got = cut.now.got } }
{
    if source.done < cut.done || source.done - cut.done != given as u64 {
        return false;
    }
    are_same(&source.got, &cut.got)
}

// Whether a sink is at a cut, behind rows of which it was due these words.
fn is_sink_at(
    alloc: Global,
    sink: &PortState,
    due: Vec<u32>,
    numbers: &[u32],
    cut: &CutPort,
) -> Result<bool, AllocError>
    ensures { IfOk result (λ yes. yes ≡ true → sink.now.local ≡ record {
      done = length due.items + cut.now.done;
      got = due.items ++ valued numbers.now cut.now.got;
    }) }
{
    let count = due.len() as u64;
    let own = valued(alloc, numbers, &cut.got)?;
    let mut all = due;
    all.extend_from_slice(&own)?;
    if sink.done < cut.done || sink.done - cut.done != count {
        return Ok(false);
    }
    Ok(are_same(&sink.got, &all))
}

/// The number of the port that a processor is, where it is one.
pub(crate) fn port_of(tiles: u32, p: u32) -> u32
    requires { tiles ≤ 2 ^ 16 }
    ensures { result ≡ p - 2 * tiles }
{
    p.saturating_sub(2 * tiles)
}

// Whether a processor is at a cut, behind rows with these words and values.
fn is_unit_at(
    alloc: Global,
    stream: &StreamFlow,
    tiles: u32,
    p: u32,
    rows: &[Vec<u32>],
    values: &[Vec<u32>],
    unit: &Unit,
    numbers: &[u32],
    cut: &CutLocal,
) -> Result<bool, AllocError>
    requires { tiles ≤ 2 ^ 16 }
    ensures { IfOk result (λ yes. yes ≡ true →
        IsLater stream.now tiles (map (λ row. row.items) rows.now) (map (λ row. row.items) values.now) p
        (local_of unit.now) (renumbered numbers.now (local_at cut.now))) }
{
    match (unit, cut) {
        (Unit::Tile(unit), CutLocal::Tile(cut)) => is_tile_at(alloc, &unit.tile, numbers, cut),
        (Unit::Switch(unit), CutLocal::Switch(cut)) => {
            Ok(is_switch_at(&unit.state, numbers, cut))
        }
        (Unit::Source(unit), CutLocal::Source(cut)) => {
            let given = given_by(alloc, stream, port_of(tiles, p), rows)?;
            Ok(is_source_at(&unit.port, given.len(), cut))
        }
        (Unit::Sink(unit), CutLocal::Sink(cut)) => {
            let due = due_to(alloc, stream, port_of(tiles, p), values)?;
            is_sink_at(alloc, unit, due, numbers, cut)
        }
        _ => Ok(false),
    }
}

/// Whether all processors are at a cut, behind rows with these words and values.
pub(crate) fn are_units_at(
    alloc: Global,
    stream: &StreamFlow,
    tiles: u32,
    rows: &[Vec<u32>],
    values: &[Vec<u32>],
    units: &[Unit],
    numbers: &[u32],
    cuts: &[CutLocal],
) -> Result<bool, AllocError>
    requires few { length units.now ≤ 2 ^ 16 }
    requires tiles { tiles ≤ 2 ^ 16 }
    ensures { IfOk result (λ yes. yes ≡ true →
        AtEach (IsLater stream.now tiles (map (λ row. row.items) rows.now) (map (λ row. row.items) values.now))
        (map local_of units.now) (map (renumbered numbers.now) (map local_at cuts.now))) }
{
    if units.len() != cuts.len() {
        return Ok(false);
    }
    for p in 0..units.len() {
        if !is_unit_at(
            alloc, stream, tiles, p as u32, rows, values, &units[p], numbers, &cuts[p],
        )? {
            return Ok(false);
        }
    }
    Ok(true)
}

/// Whether wires hold what they hold at a cut.
pub(crate) fn are_wires_at(
    alloc: Global,
    wires: &Wires,
    numbers: &[u32],
    cuts: &[Vec<u32>],
) -> Result<bool, AllocError>
    requires many { length wires.now ≡ length cuts.now }
    requires few { length cuts.now < 2 ^ 32 }
    ensures { IfOk result (λ yes. yes ≡ true → wires.now ≡ map (valued numbers.now) (map (λ wire. wire.items) cuts.now)) }
{
    for w in 0..cuts.len() {
        let own = valued(alloc, numbers, &cuts[w])?;
        if !are_same(wires.values(w as u32), &own) {
            return Ok(false);
        }
    }
    Ok(true)
}
