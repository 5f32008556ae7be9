//! The tiles, the memories that are shown, the switches, the wires and the stalls of a machine, each part
//! put line by line.
ghost use Rattle.std.specs.Prelude.{◌≡◌, ◌+◌, ◌<◌, ◌≤◌, length, slice_get, slice_index};
ghost use Rattle.raw_io.specs.Writing.{Writes};
ghost use Rattle.raw_grid.specs.Topology.{tile_count};
ghost use Rattle.raw_grid.specs.Wires.{wires_of};
ghost use Rattle.raw_model.specs.Program.{IsShow};
ghost use Rattle.raw_model.specs.StateTexts.{wire_line};
ghost use Rattle.raw_model.specs.Parts.{memory_of};
ghost use Rattle.raw_report.specs.Report.{tile_lines, tile_lines_of, show_lines, show_lines_of, switch_lines, switch_line_of, wire_lines, stall_lines, stall_line};

use crate::lines::{memory_line, stall_line, switch_line, tile_head};
use raw_grid::{MAX_TILES, ProcId, WireId};
use raw_io::{Failed, Sink, put_each};
use raw_model::Show;
use raw_serial::Machine;
use raw_state_text::{put_line, registers_line, wire_line};
use raw_tile::TileMemory;

// How many tiles a machine has.
pub(crate) fn tile_count(m: &Machine<'_>) -> u32
    ensures value { result ≡ tile_count m.now.set.topo }
    ensures few { result ≤ MAX_TILES }
{
    let topo = &m.set().topo;
    topo.tiles()
}

// Puts the lines of a tile.
fn put_tile<K: Sink>(m: &Machine<'_>, t: u32, out: &mut K) -> Result<(), Failed>
    requires { t < tile_count m.now.set.topo }
    ensures { Writes (K.sight out.old) (K.sight out.new)
        (tile_lines_of m.now.set m.now.state t (slice_get m.now.state.locals t)) result }
{
    let state = m.tile(t);
    let head = tile_head(m, t, state);
    let first = registers_line(state, 0);
    let second = registers_line(state, 8);
    let third = registers_line(state, 16);
    let last = registers_line(state, 24);
    let lines = [
        head.as_bytes(),
        first.as_bytes(),
        second.as_bytes(),
        third.as_bytes(),
        last.as_bytes(),
    ];
    put_each(out, &lines)
}

// Puts the lines of all tiles, by rising number.
pub(crate) fn put_tiles<K: Sink>(m: &Machine<'_>, out: &mut K) -> Result<(), Failed>
    ensures { Writes (K.sight out.old) (K.sight out.new) (tile_lines m.now.set m.now.state) result }
{
    for t in 0..tile_count(m) {
        put_tile(m, t, out)?;
    }
    Ok(())
}

// The memory of a tile.
fn memory_of<'m>(m: &'m Machine<'_>, t: u32) -> &'m TileMemory
    requires { t < tile_count m.now.set.topo }
    ensures { result.now ≡ memory_of (slice_get m.now.state.locals t) }
{
    let _set = m.set();
    let tile = m.tile(t);
    &tile.memory
}

// Puts the lines of the words that a show names.
#[tactic(auto, unfolding(raw_model::specs::Program::memory_size))]
fn put_show<K: Sink>(m: &Machine<'_>, show: Show, out: &mut K) -> Result<(), Failed>
    requires { IsShow m.now.set.topo show }
    ensures { Writes (K.sight out.old) (K.sight out.new)
        (show_lines_of m.now.set m.now.state show) result }
{
    let set = m.set();
    let memory = memory_of(m, show.tile);
    for k in 0..show.words {
        let address = show.address + 4 * k;
        let line = memory_line(&set.topo, show.tile, address, memory.word_at(address));
        put_line(&line, out)?;
    }
    Ok(())
}

// Puts the lines of all shows, in order.
pub(crate) fn put_shows<K: Sink>(m: &Machine<'_>, out: &mut K) -> Result<(), Failed>
    ensures { Writes (K.sight out.old) (K.sight out.new) (show_lines m.now.set m.now.state) result }
{
    let set = m.set();
    for show in &set.shows {
        put_show(m, *show, out)?;
    }
    Ok(())
}

// Puts the line of the switch beside a tile.
fn put_switch<K: Sink>(m: &Machine<'_>, t: u32, out: &mut K) -> Result<(), Failed>
    requires { t < tile_count m.now.set.topo }
    ensures { Writes (K.sight out.old) (K.sight out.new)
        (switch_line_of m.now.set m.now.state t (slice_get m.now.state.locals (tile_count m.now.set.topo + t))) result }
{
    let p = ProcId(tile_count(m) + t);
    let line = switch_line(m, t, p, m.switch(t));
    put_line(&line, out)
}

// Puts the lines of all switches, by rising number.
pub(crate) fn put_switches<K: Sink>(m: &Machine<'_>, out: &mut K) -> Result<(), Failed>
    ensures { Writes (K.sight out.old) (K.sight out.new)
        (switch_lines m.now.set m.now.state) result }
{
    for t in 0..tile_count(m) {
        put_switch(m, t, out)?;
    }
    Ok(())
}

// Puts the line of a wire, where it is not empty.
fn put_wire<K: Sink>(m: &Machine<'_>, w: u32, out: &mut K) -> Result<(), Failed>
    requires { w < length (wires_of m.now.set.topo) }
    ensures { Writes (K.sight out.old) (K.sight out.new) (wire_line m.now.state w) result }
{
    put_line(&wire_line(m, WireId(w)), out)
}

// Puts the lines of all wires that are not empty, by rising number.
pub(crate) fn put_wires<K: Sink>(m: &Machine<'_>, out: &mut K) -> Result<(), Failed>
    ensures { Writes (K.sight out.old) (K.sight out.new) (wire_lines m.now.set m.now.state) result }
{
    for w in 0..m.set().topo.wires() {
        put_wire(m, w, out)?;
    }
    Ok(())
}

// Puts the line of a tile's misses.
fn put_stall<K: Sink>(m: &Machine<'_>, t: u32, out: &mut K) -> Result<(), Failed>
    requires { t < tile_count m.now.set.topo }
    ensures { Writes (K.sight out.old) (K.sight out.new)
        (stall_line m.now.set t (slice_index m.now.missed t)) result }
{
    let line = stall_line(&m.set().topo, t, m.misses(t), m.stalls(t));
    put_line(&line, out)
}

// Puts the lines of all tiles' misses, by rising number.
pub(crate) fn put_stalls<K: Sink>(m: &Machine<'_>, out: &mut K) -> Result<(), Failed>
    ensures { Writes (K.sight out.old) (K.sight out.new)
        (stall_lines m.now.set m.now.missed) result }
{
    for t in 0..tile_count(m) {
        put_stall(m, t, out)?;
    }
    Ok(())
}
