//! The lines of the text, each made in place.
ghost use Rattle.std.specs.Prelude.{◌≡◌, ◌+◌, ◌<◌, ◌≤◌, ◌++◌, Some, length, slice_get};
ghost use Rattle.raw_grid.specs.Topology.{proc_count};
ghost use Rattle.raw_grid.specs.Wires.{wires_of, producer_of, producer_end, consumer_of, consumer_end};
ghost use Rattle.raw_names.specs.Names.{given_to, given_text, processor_line, wire_line};

use crate::names::{push_end_name, push_network, push_processor_name};
use raw_grid::{OtherEnd, PortKind, ProcId, Topo, WireId, law_other_ends, law_wires};
use raw_model::{PortProg, Set};
use raw_state_text::{LINE_SIZE, Line};

// Appends how many words a source sends, or for how many a sink has room.
fn push_given_to(line: &mut Line, kind: PortKind, given: &PortProg)
    requires { length line.old + 27 ≤ LINE_SIZE }
    ensures text { line.new ≡ line.old ++ given_to kind given.now }
    ensures len { length line.new ≤ length line.old + 27 }
{
    match kind {
        PortKind::Source => {
            line.push_text(b" words ");
            line.push_number(given.words.len() as u64);
        }
        PortKind::Sink => {
            line.push_text(b" room ");
            line.push_number(u64::from(given.capacity));
        }
    }
}

// What the port with this number among the ports is given.
fn port_program(set: &Set, i: u32) -> &PortProg
    requires { i < length set.now.topo.places }
    ensures { slice_get set.now.ports i ≡ Some result.now }
{
    &set.ports[i as usize]
}

// Appends what a processor is given where it is a port; tiles and switches have nothing here.
#[tactic(auto, using(crate::proofs::Given::given_is), unfolding(crate::specs::Names::given_text))]
fn push_given(line: &mut Line, set: &Set, p: ProcId)
    requires room { length line.old + 27 ≤ LINE_SIZE }
    requires there { p.0 < proc_count set.now.topo }
    ensures text { line.new ≡ line.old ++ given_text set.now p.0 }
    ensures len { length line.new ≤ length line.old + 27 }
{
    let programs = 2 * set.topo.tiles();
    if p.0 < programs {
        return;
    }
    let port = p.0 - programs;
    let place = set.topo.place_of(port);
    push_given_to(line, place.kind, port_program(set, port));
}

/// The line of a processor: its number, its name, and what it is given where it is a port.
#[tactic(auto, unfolding(crate::specs::Names::processor_line))]
pub(crate) fn processor_line(set: &Set, p: ProcId) -> Line
    requires { p.0 < proc_count set.now.topo }
    ensures { result ≡ processor_line set.now p.0 }
{
    let mut line = Line::new();
    line.push_text(b"processor ");
    line.push_number(u64::from(p.0));
    line.push_text(b" ");
    push_processor_name(&mut line, &set.topo, p);
    push_given(&mut line, set, p);
    line.push_text(b"\n");
    line
}

// The end of the processor that sends on a wire.
fn producer_end(topo: &Topo, wire: WireId) -> OtherEnd
    requires { wire.0 < length (wires_of topo.now) }
    ensures proc { result.proc.0 ≡ producer_of topo.now wire.0 }
    ensures end { result.end ≡ producer_end topo.now wire.0 }
    ensures there { result.proc.0 < proc_count topo.now }
    ensures ten { result.end < 10 }
{
    law_wires();
    law_other_ends();
    // The number of wires is asked for so that the grid is known to keep its rules.
    let _wires = topo.wires();
    OtherEnd {
        proc: topo.producer(wire),
        end: topo.producer_end(wire),
    }
}

// The end of the processor that takes from a wire.
fn consumer_end(topo: &Topo, wire: WireId) -> OtherEnd
    requires { wire.0 < length (wires_of topo.now) }
    ensures proc { result.proc.0 ≡ consumer_of topo.now wire.0 }
    ensures end { result.end ≡ consumer_end topo.now wire.0 }
    ensures there { result.proc.0 < proc_count topo.now }
    ensures ten { result.end < 10 }
{
    law_wires();
    law_other_ends();
    let _wires = topo.wires();
    OtherEnd {
        proc: topo.consumer(wire),
        end: topo.consumer_end(wire),
    }
}

/// The line of a wire: its number, its network, and its two ends.
#[tactic(auto, unfolding(crate::specs::Names::wire_line))]
pub(crate) fn wire_line(topo: &Topo, wire: WireId) -> Line
    requires { wire.0 < length (wires_of topo.now) }
    ensures { result ≡ wire_line topo.now wire.0 }
{
    let from = producer_end(topo, wire);
    let to = consumer_end(topo, wire);
    let mut line = Line::new();
    line.push_text(b"wire ");
    line.push_number(u64::from(wire.0));
    line.push_text(b" network ");
    push_network(&mut line, from.end);
    line.push_text(b" from ");
    push_end_name(&mut line, topo, from);
    line.push_text(b" to ");
    push_end_name(&mut line, topo, to);
    line.push_text(b"\n");
    line
}
