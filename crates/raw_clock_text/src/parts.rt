//! The number of cycles, how tiles, switches and ports spent them, and what passed on the wires, each part put line by
//! line.
ghost use Rattle.std.specs.Prelude.{◌≡◌, ◌+◌, ◌*◌, ◌<◌, length};
ghost use Rattle.raw_io.specs.Writing.{Writes};
ghost use Rattle.raw_grid.specs.Topology.{tile_count, proc_count};
ghost use Rattle.raw_grid.specs.Wires.{wires_of};
ghost use Rattle.raw_clock.specs.Clock.{program_steps};
ghost use Rattle.raw_clock_text.specs.Lines.{cycles_line};
ghost use Rattle.raw_clock_text.specs.Text.{spent_by, tile_text, switch_text, port_text, passed_text, tile_lines, switch_lines, port_lines, passed_lines};

use crate::counted::CountedRun;
use crate::lines::{cycles_line, passed_line, port_line, switch_line, tile_line};
use raw_clock::Spent;
use raw_grid::{PortPlace, ProcId, WireId};
use raw_io::{Failed, Sink};
use raw_report::port_number;
use raw_serial::Machine;
use raw_state_text::put_line;

// How a processor spent the cycles.
fn spent_by(run: &CountedRun<'_, '_>, p: ProcId) -> Spent
    requires { p.0 < proc_count run.now.machine.now.set.topo }
    ensures { result ≡ spent_by run.now.machine.now.set run.now.counts.now.cycles p.0 }
{
    run.counts.tally.spent[p.0 as usize]
}

// Puts the line of a tile.
fn put_tile<K: Sink>(run: &CountedRun<'_, '_>, t: u32, out: &mut K) -> Result<(), Failed>
    requires { t < tile_count run.now.machine.now.set.topo }
    ensures { Writes (K.sight out.old) (K.sight out.new)
        (tile_text run.now.machine.now.set run.now.counts.now.cycles t) result }
{
    let set = run.machine.set();
    let spent = spent_by(run, ProcId(t));
    put_line(&tile_line(&set.topo, t, spent), out)
}

/// Puts the lines of all tiles, by rising number.
pub(crate) fn put_tiles<K: Sink>(run: &CountedRun<'_, '_>, out: &mut K) -> Result<(), Failed>
    ensures { Writes (K.sight out.old) (K.sight out.new)
        (tile_lines run.now.machine.now.set run.now.counts.now.cycles) result }
{
    let set = run.machine.set();
    for t in 0..set.topo.tiles() {
        put_tile(run, t, out)?;
    }
    Ok(())
}

// The switch beside a tile: switches are the processors behind the tiles.
fn switch_number(m: &Machine<'_>, t: u32) -> ProcId
    requires { t < tile_count m.now.set.topo }
    ensures value { result.0 ≡ tile_count m.now.set.topo + t }
    ensures there { result.0 < proc_count m.now.set.topo }
{
    let topo = &m.set().topo;
    ProcId(topo.tiles() + t)
}

// How the switch beside a tile spent the cycles.
fn spent_by_switch(run: &CountedRun<'_, '_>, t: u32) -> Spent
    requires { t < tile_count run.now.machine.now.set.topo }
    ensures { result ≡ spent_by run.now.machine.now.set run.now.counts.now.cycles (tile_count run.now.machine.now.set.topo + t) }
{
    spent_by(run, switch_number(run.machine, t))
}

// Puts the line of the switch beside a tile.
fn put_switch<K: Sink>(run: &CountedRun<'_, '_>, t: u32, out: &mut K) -> Result<(), Failed>
    requires { t < tile_count run.now.machine.now.set.topo }
    ensures { Writes (K.sight out.old) (K.sight out.new)
        (switch_text run.now.machine.now.set run.now.counts.now.cycles t) result }
{
    let set = run.machine.set();
    let spent = spent_by_switch(run, t);
    put_line(&switch_line(&set.topo, t, spent), out)
}

/// Puts the lines of all switches, by rising number.
pub(crate) fn put_switches<K: Sink>(run: &CountedRun<'_, '_>, out: &mut K) -> Result<(), Failed>
    ensures { Writes (K.sight out.old) (K.sight out.new)
        (switch_lines run.now.machine.now.set run.now.counts.now.cycles) result }
{
    let set = run.machine.set();
    for t in 0..set.topo.tiles() {
        put_switch(run, t, out)?;
    }
    Ok(())
}

// How a port spent the cycles, by its number in the list of ports.
fn spent_by_port(run: &CountedRun<'_, '_>, i: u32) -> Spent
    requires { i < length run.now.machine.now.set.topo.places }
    ensures { result ≡ spent_by run.now.machine.now.set run.now.counts.now.cycles (2 * tile_count run.now.machine.now.set.topo + i) }
{
    spent_by(run, port_number(run.machine, i))
}

// Puts the line of the port at this place, by its number in the list of ports.
fn put_port<K: Sink>(
    run: &CountedRun<'_, '_>,
    i: u32,
    place: PortPlace,
    out: &mut K,
) -> Result<(), Failed>
    requires { i < length run.now.machine.now.set.topo.places }
    ensures { Writes (K.sight out.old) (K.sight out.new)
        (port_text run.now.machine.now.set run.now.counts.now.cycles (2 * tile_count run.now.machine.now.set.topo + i, place)) result }
{
    let spent = spent_by_port(run, i);
    put_line(&port_line(place, spent), out)
}

/// Puts the lines of all ports, in order.
pub(crate) fn put_ports<K: Sink>(run: &CountedRun<'_, '_>, out: &mut K) -> Result<(), Failed>
    ensures { Writes (K.sight out.old) (K.sight out.new)
        (port_lines run.now.machine.now.set run.now.counts.now.cycles) result }
{
    let set = run.machine.set();
    for i in 0..set.topo.ports() {
        put_port(run, i, set.topo.place_of(i), out)?;
    }
    Ok(())
}

// Puts the line of how many values were sent on a wire, where one was.
fn put_wire<K: Sink>(run: &CountedRun<'_, '_>, w: u32, out: &mut K) -> Result<(), Failed>
    requires { w < length (wires_of run.now.machine.now.set.topo) }
    ensures { Writes (K.sight out.old) (K.sight out.new)
        (passed_text run.now.machine.now.set run.now.counts.now.cycles w) result }
{
    put_line(&passed_line(WireId(w), run.counts.passed[w as usize]), out)
}

/// Puts the lines of what was sent on the wires, by rising number.
pub(crate) fn put_wires<K: Sink>(run: &CountedRun<'_, '_>, out: &mut K) -> Result<(), Failed>
    ensures { Writes (K.sight out.old) (K.sight out.new)
        (passed_lines run.now.machine.now.set run.now.counts.now.cycles) result }
{
    let set = run.machine.set();
    for w in 0..set.topo.wires() {
        put_wire(run, w, out)?;
    }
    Ok(())
}

/// Puts the line of the number of cycles, and of the steps of tiles and switches.
pub(crate) fn put_cycles<K: Sink>(run: &CountedRun<'_, '_>, out: &mut K) -> Result<(), Failed>
    ensures { Writes (K.sight out.old) (K.sight out.new)
        (cycles_line run.now.counts.now.cycles (program_steps run.now.machine.now.set run.now.counts.now.cycles)) result }
{
    put_line(&cycles_line(run.counts.cycles, run.counts.steps), out)
}
