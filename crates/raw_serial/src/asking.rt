//! What a turn of a processor would come to if it owed no stall turns.
ghost use Rattle.std.specs.Prelude.{◌≡◌, ℕ, ◌-◌, ◌*◌, ◌<◌, false, Some, length, option_map};
ghost use Rattle.raw_grid.specs.declared.parts.ProcKind.TheVariants as proc;
ghost use Rattle.raw_grid.specs.Topology.{kind_at};
ghost use Rattle.raw_grid.specs.Wires.{wires_of};
ghost use Rattle.raw_model.specs.Program.{IsSet};
ghost use Rattle.raw_model.specs.Local.{Tile, Switch, Source, Sink};
ghost use Rattle.raw_model.specs.Machine.{tile_code, switch_code};
ghost use Rattle.raw_model.specs.Start.{IsFit};
ghost use Rattle.raw_processor.specs.Ends.{AreEndsOf};
ghost use Rattle.raw_processor.specs.Processor.{local_of, IsKept};
ghost use Rattle.raw_serial.specs.Turns.{turn_by, turn_at};
ghost use Rattle.raw_serial.specs.Standing.{EndsStand};

use crate::needs::{unmet_at, unmet_by_tile};
use crate::turn::Turn;
use crate::wires::Wires;
use raw_grid::{ProcId, WireId};
use raw_model::Set;
use raw_processor::{
    EndWires, PortState, Processor, SwitchUnit, TileUnit, capacity_of, sink_needs, sink_stopped,
    source_needs, source_stopped, switch_needs, switch_stopped, tile_stopped, tile_wires, words_of,
};

/// What a turn of a processor would come to.
pub(crate) fn ask_processor(
    set: &Set,
    p: ProcId,
    ends: &EndWires,
    processor: &Processor,
    wires: &Wires,
) -> Turn
    requires ends { EndsStand set.now p.0 ends.now wires.now }
    requires kept { IsKept set.now p.0 processor.now }
    requires fits { IsFit set.now p.0 (local_of processor.now) }
    ensures { result ≡ turn_at set.now p.0 false (local_of processor.now) wires.now }
{
    match processor {
        Processor::Tile(tile) => ask_tile(set, p, ends, tile, wires),
        Processor::Switch(switch) => ask_switch(set, p, ends, switch, wires),
        Processor::Source(port) => ask_source(set, p, ends, port, wires),
        Processor::Sink(port) => ask_sink(set, p, ends, port, wires),
    }
}

/// What a turn of a tile would come to.
fn ask_tile(set: &Set, p: ProcId, ends: &EndWires, tile: &TileUnit, wires: &Wires) -> Turn
    requires ends { EndsStand set.now p.0 ends.now wires.now }
    requires code { tile.now.code.items ≡ tile_code set.now p.0 }
    ensures { result ≡ turn_at set.now p.0 false (Tile tile.now.state) wires.now }
{
    if tile_stopped(&tile.state, set.limit) {
        return Turn::Stopped;
    }
    let needs = tile_wires(&tile.code, &tile.state, ends);
    turn_unless(unmet_by_tile(set, ends, needs, wires))
}

/// What a turn of a switch would come to.
fn ask_switch(set: &Set, p: ProcId, ends: &EndWires, switch: &SwitchUnit, wires: &Wires) -> Turn
    requires ends { EndsStand set.now p.0 ends.now wires.now }
    requires code { switch.now.code.items ≡ switch_code set.now p.0 }
    ensures { result ≡ turn_at set.now p.0 false (Switch switch.now.state) wires.now }
{
    if switch_stopped(&switch.state, set.limit) {
        return Turn::Stopped;
    }
    let needs = switch_needs(&switch.code, &switch.state);
    turn_unless(unmet_at(set, ends, needs, wires))
}

/// What a turn of a source comes to.
#[inline(always)]
pub(crate) fn ask_source(
    set: &Set,
    p: ProcId,
    ends: &EndWires,
    state: &PortState,
    wires: &Wires,
) -> Turn
    requires ends { EndsStand set.now p.0 ends.now wires.now }
    requires source { kind_at set.now.topo p.0 ≡ Some proc.Source }
    ensures { result ≡ turn_at set.now p.0 false (Source state.now.local) wires.now }
{
    let words = words_of(set, p);
    if source_stopped(state, words.len()) {
        return Turn::Stopped;
    }
    turn_unless(unmet_at(set, ends, source_needs(), wires))
}

/// What a turn of a sink comes to.
#[inline(always)]
pub(crate) fn ask_sink(
    set: &Set,
    p: ProcId,
    ends: &EndWires,
    state: &PortState,
    wires: &Wires,
) -> Turn
    requires ends { EndsStand set.now p.0 ends.now wires.now }
    requires sink { kind_at set.now.topo p.0 ≡ Some proc.Sink }
    ensures { result ≡ turn_at set.now p.0 false (Sink state.now.local) wires.now }
{
    if sink_stopped(state, capacity_of(set, p)) {
        return Turn::Stopped;
    }
    turn_unless(unmet_at(set, ends, sink_needs(), wires))
}

// What a turn comes to of a processor that is not stopped and owes no stall turns: it waits for the wire of
// which a need is unmet, and where there is none it fires.
#[inline(always)]
fn turn_unless(unmet: Option<WireId>) -> Turn
    ensures { result ≡ turn_by false false (option_map (λ wire. wire.0) unmet) }
{
    match unmet {
        Some(wire) => Turn::Waits { wire },
        None => Turn::Fired,
    }
}
