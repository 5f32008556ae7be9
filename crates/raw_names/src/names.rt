//! The names of processors and of the ends of wires, appended to a line.
ghost use Rattle.std.specs.Prelude.{◌≡◌, ◌+◌, ◌<◌, ◌≤◌, ◌++◌, length};
ghost use Rattle.raw_grid.specs.Topology.{proc_count};
ghost use Rattle.raw_grid.specs.Names.{net_text, dir_text};
ghost use Rattle.raw_names.specs.Names.{port_name, processor_name, end_at, is_switch, side_at, end_name};

use raw_grid::{End, OtherEnd, PortPlace, ProcId, Topo};
use raw_state_text::{LINE_SIZE, Line};

// Appends what a port is and where it stands.
fn push_port_name(line: &mut Line, place: PortPlace)
    requires { length line.old + 52 ≤ LINE_SIZE }
    ensures text { line.new ≡ line.old ++ port_name place }
    ensures len { length line.new ≤ length line.old + 52 }
{
    line.push_text(place.kind.text().as_bytes());
    line.push_text(b" ");
    line.push_port_place(place);
}

/// Appends what a processor is and where it stands: at most 52 bytes.
#[tactic(auto, unfolding(crate::specs::Names::processor_name))]
pub fn push_processor_name(line: &mut Line, topo: &Topo, p: ProcId)
    requires room { length line.old + 52 ≤ LINE_SIZE }
    requires there { p.0 < proc_count topo.now }
    ensures text { line.new ≡ line.old ++ processor_name topo.now p.0 }
    ensures len { length line.new ≤ length line.old + 52 }
{
    let tiles = topo.tiles();
    if p.0 < tiles {
        line.push_text(b"tile ");
        line.push_place(topo, p.0);
    } else if p.0 < 2 * tiles {
        line.push_text(b"switch ");
        line.push_place(topo, p.0 - tiles);
    } else {
        push_port_name(line, topo.place_of(p.0 - 2 * tiles));
    }
}

// Whether a processor is a switch: switches stand behind the tiles.
fn is_switch(topo: &Topo, p: ProcId) -> bool
    ensures { result ≡ is_switch topo.now p.0 }
{
    let tiles = topo.tiles();
    tiles <= p.0 && p.0 < 2 * tiles
}

// The end with this index.
#[tactic(auto, using(crate::proofs::Indices::end_is))]
fn end_at(index: u8) -> End
    requires { index < 10 }
    ensures { result ≡ end_at index }
{
    End::with_index(usize::from(index))
}

/// Appends the network of the end with this index.
pub(crate) fn push_network(line: &mut Line, end: u8)
    requires room { length line.old + 1 ≤ LINE_SIZE }
    requires ten { end < 10 }
    ensures text { line.new ≡ line.old ++ net_text (end_at end).net }
    ensures len { length line.new ≡ length line.old + 1 }
{
    line.push_text(end_at(end).net.text().as_bytes());
}

// Appends the side of a switch at which the end with this index is; the other processors have none.
#[tactic(auto, unfolding(crate::specs::Names::side_at))]
fn push_side(line: &mut Line, topo: &Topo, p: ProcId, end: u8)
    requires room { length line.old + 2 ≤ LINE_SIZE }
    requires ten { end < 10 }
    ensures text { line.new ≡ line.old ++ side_at topo.now p.0 end }
    ensures len { length line.new ≤ length line.old + 2 }
{
    if is_switch(topo, p) {
        line.push_text(b" ");
        line.push_text(end_at(end).dir.text().as_bytes());
    }
}

/// Appends the name of the processor at an end of a wire, and for a switch the side at which the end is.
#[tactic(auto, unfolding(crate::specs::Names::end_name))]
pub(crate) fn push_end_name(line: &mut Line, topo: &Topo, at: OtherEnd)
    requires room { length line.old + 54 ≤ LINE_SIZE }
    requires there { at.proc.0 < proc_count topo.now }
    requires ten { at.end < 10 }
    ensures text { line.new ≡ line.old ++ end_name topo.now at.proc.0 at.end }
    ensures len { length line.new ≤ length line.old + 54 }
{
    push_processor_name(line, topo, at.proc);
    push_side(line, topo, at.proc, at.end);
}
