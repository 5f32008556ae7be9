//! The lines of the text, each made in place from the numbers that it shows.
ghost use Rattle.std.specs.Prelude.{◌≡◌, ◌+◌, ◌≤◌, ◌++◌, length, decimal};
ghost use Rattle.raw_state_text.specs.Parts.{place_text};
ghost use Rattle.raw_clock_text.specs.Lines.{cycles_line, tile_line, switch_line, source_line, sink_line, port_line, wait_line, passed_line};

use raw_clock::Spent;
use raw_grid::{PortKind, PortPlace, ProcId, Topo, WireId};
use raw_state_text::{LINE_SIZE, Line};

// Appends a name, which has blanks around it, and a number.
fn push_named(line: &mut Line, name: &[u8], number: u64)
    requires { length line.old + length name.now + 20 ≤ LINE_SIZE }
    ensures text { line.new ≡ line.old ++ name.now ++ decimal number }
    ensures len { length line.new ≤ length line.old + length name.now + 20 }
{
    line.push_text(name);
    line.push_number(number);
}

/// The line of the number of cycles, and of the steps of tiles and switches.
#[tactic(auto, unfolding(crate::specs::Lines::cycles_line))]
pub fn cycles_line(cycles: u64, steps: u64) -> Line
    ensures { result ≡ cycles_line cycles steps }
{
    let mut line = Line::new();
    line.push_text(b"cycles ");
    line.push_number(cycles);
    line.push_text(b" steps ");
    line.push_number(steps);
    line.push_text(b"\n");
    line
}

/// The line of a tile that spent the cycles so.
#[tactic(auto, unfolding(crate::specs::Lines::tile_line))]
pub(crate) fn tile_line(topo: &Topo, tile: u32, spent: Spent) -> Line
    ensures { result ≡ tile_line topo.now tile spent }
{
    let mut line = Line::new();
    line.push_text(b"tile ");
    line.push_place(topo, tile);
    push_named(&mut line, b" fired ", spent.fired);
    push_named(&mut line, b" stalled ", spent.stalled);
    push_named(&mut line, b" starved ", spent.starved);
    push_named(&mut line, b" blocked ", spent.blocked);
    push_named(&mut line, b" stopped ", spent.stopped);
    line.push_text(b"\n");
    line
}

/// The line of the switch beside a tile, which spent the cycles so.
#[tactic(auto, unfolding(crate::specs::Lines::switch_line))]
pub(crate) fn switch_line(topo: &Topo, tile: u32, spent: Spent) -> Line
    ensures { result ≡ switch_line topo.now tile spent }
{
    let mut line = Line::new();
    line.push_text(b"switch ");
    line.push_place(topo, tile);
    push_named(&mut line, b" fired ", spent.fired);
    push_named(&mut line, b" starved ", spent.starved);
    push_named(&mut line, b" blocked ", spent.blocked);
    push_named(&mut line, b" stopped ", spent.stopped);
    line.push_text(b"\n");
    line
}

// The line of the source at this place, which spent the cycles so.
#[tactic(auto, unfolding(crate::specs::Lines::source_line))]
fn source_line(place: PortPlace, spent: Spent) -> Line
    ensures { result ≡ source_line place spent }
{
    let mut line = Line::new();
    line.push_text(b"source ");
    line.push_port_place(place);
    push_named(&mut line, b" fired ", spent.fired);
    push_named(&mut line, b" blocked ", spent.blocked);
    push_named(&mut line, b" stopped ", spent.stopped);
    line.push_text(b"\n");
    line
}

// The line of the sink at this place, which spent the cycles so.
#[tactic(auto, unfolding(crate::specs::Lines::sink_line))]
fn sink_line(place: PortPlace, spent: Spent) -> Line
    ensures { result ≡ sink_line place spent }
{
    let mut line = Line::new();
    line.push_text(b"sink ");
    line.push_port_place(place);
    push_named(&mut line, b" fired ", spent.fired);
    push_named(&mut line, b" starved ", spent.starved);
    push_named(&mut line, b" stopped ", spent.stopped);
    line.push_text(b"\n");
    line
}

/// The line of the port at this place, which spent the cycles so.
pub(crate) fn port_line(place: PortPlace, spent: Spent) -> Line
    ensures { result ≡ port_line place spent }
{
    match place.kind {
        PortKind::Source => source_line(place, spent),
        PortKind::Sink => sink_line(place, spent),
    }
}

/// The line of the cycles in which processor `p` waited for a wire, to whose other end `other` is; it has no bytes where
/// there is none.
#[tactic(auto, unfolding(crate::specs::Lines::wait_line))]
pub(crate) fn wait_line(p: ProcId, wire: WireId, other: ProcId, cycles: u64) -> Line
    ensures { result ≡ wait_line p.0 wire.0 other.0 cycles }
{
    let mut line = Line::new();
    if cycles != 0 {
        line.push_text(b"wait ");
        line.push_number(u64::from(p.0));
        line.push_text(b" wire ");
        line.push_number(u64::from(wire.0));
        line.push_text(b" for ");
        line.push_number(u64::from(other.0));
        line.push_text(b" cycles ");
        line.push_number(cycles);
        line.push_text(b"\n");
    }
    line
}

/// The line of how many values were sent on a wire; it has no bytes where none was.
#[tactic(auto, unfolding(crate::specs::Lines::passed_line))]
pub(crate) fn passed_line(wire: WireId, values: u64) -> Line
    ensures { result ≡ passed_line wire.0 values }
{
    let mut line = Line::new();
    if values != 0 {
        line.push_text(b"passed ");
        line.push_number(u64::from(wire.0));
        line.push_text(b" ");
        line.push_number(values);
        line.push_text(b"\n");
    }
    line
}
