//! The ports of a machine, put line by line.
ghost use Rattle.std.specs.Prelude.{◌≡◌, ◌+◌, ◌*◌, ◌<◌, Some, length, slice_get};
ghost use Rattle.raw_io.specs.Writing.{Writes};
ghost use Rattle.raw_grid.specs.Topology.{tile_count, proc_count};
ghost use Rattle.raw_report.specs.Report.{port_lines, port_lines_of, word_lines};

use crate::lines::{sink_head, source_line, word_line};
use raw_grid::{PortKind, PortPlace, ProcId};
use raw_io::{Failed, Sink};
use raw_serial::Machine;
use raw_state_text::put_line;

/// The processor that is a port, by its number in the list of ports: ports are the last processors.
pub fn port_number(m: &Machine<'_>, i: u32) -> ProcId
    requires { i < length m.now.set.topo.places }
    ensures value { result.0 ≡ 2 * tile_count m.now.set.topo + i }
    ensures there { result.0 < proc_count m.now.set.topo }
{
    let topo = &m.set().topo;
    ProcId(topo.procs() - topo.ports() + i)
}

// Puts the line of each word that a sink has taken out.
fn put_words<K: Sink>(words: &[u32], out: &mut K) -> Result<(), Failed>
    ensures { Writes (K.sight out.old) (K.sight out.new) (word_lines words.now) result }
{
    for word in words {
        put_line(&word_line(*word), out)?;
    }
    Ok(())
}

// Puts the lines of the port at this place, by its number in the list of ports.
#[tactic(auto, using(std::proofs::lemmas::Option::slice_get_within))]
fn put_port<K: Sink>(m: &Machine<'_>, i: u32, place: PortPlace, out: &mut K) -> Result<(), Failed>
    requires { slice_get m.now.set.topo.places i ≡ Some place }
    ensures { Writes (K.sight out.old) (K.sight out.new)
        (port_lines_of m.now.set m.now.state (2 * tile_count m.now.set.topo + i) place
        (slice_get m.now.state.locals (2 * tile_count m.now.set.topo + i))) result }
{
    let port = m.port(i);
    let p = port_number(m, i);
    match place.kind {
        PortKind::Source => put_line(&source_line(m, p, place, port.done), out),
        PortKind::Sink => {
            put_line(&sink_head(m, p, place, port.done), out)?;
            put_words(&port.got, out)
        }
    }
}

// Puts the lines of all ports, in order.
pub(crate) fn put_ports<K: Sink>(m: &Machine<'_>, out: &mut K) -> Result<(), Failed>
    ensures { Writes (K.sight out.old) (K.sight out.new) (port_lines m.now.set m.now.state) result }
{
    let set = m.set();
    for i in 0..set.topo.ports() {
        put_port(m, i, set.topo.place_of(i), out)?;
    }
    Ok(())
}
