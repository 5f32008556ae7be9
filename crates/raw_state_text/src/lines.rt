//! The lines of a machine's registers, wires and waits.
ghost use Rattle.std.specs.Prelude.{◌≡◌, ◌<◌, ◌≤◌, Some, length};
ghost use Rattle.raw_grid.specs.Topology.{proc_count};
ghost use Rattle.raw_grid.specs.Wires.{wires_of};
ghost use Rattle.raw_model.specs.Program.{ProgramSet};
ghost use Rattle.raw_model.specs.Waits.{other_end};
ghost use Rattle.raw_model.specs.StateTexts.{wait_line, wait_line_of, registers_line, wire_line, values_line};

use crate::line::Line;
use raw_grid::{ProcId, WireId};
use raw_serial::{Machine, Wait};
use raw_tile::TileState;

/// The line of eight registers of a tile, from this one on.
#[tactic(auto, unfolding(raw_model::specs::StateTexts::registers_line))]
pub fn registers_line(state: &TileState, first: usize) -> Line
    requires { first ≤ 24 }
    ensures { result ≡ registers_line state.now.regs first }
{
    let mut line = Line::new();
    line.push_text(b"regs ");
    line.push_number(first as u64);
    line.push_words(&state.regs[first..first + 8]);
    line.push_text(b"\n");
    line
}

/// The line of what a processor waits for first; it has no bytes where the processor is stopped or
/// can take a step.
pub fn wait_line(m: &Machine<'_>, p: ProcId) -> Line
    requires { p.0 < proc_count m.now.set.topo }
    ensures { result ≡ wait_line m.now.set m.now.state p.0 }
{
    match m.first_wait(p) {
        None => Line::new(),
        Some(wait) => line_of_wait(p, wait),
    }
}

// The line of a wait of processor `p`.
pub(crate) fn line_of_wait(p: ProcId, wait: Wait) -> Line
    ensures { (set : ProgramSet) → wait.on.0 ≡ other_end set.topo p.0 wait.wire.0 →
        result ≡ wait_line_of set p.0 (Some wait.wire.0) }
{
    let mut line = Line::new();
    line.push_text(b"wait ");
    line.push_number(u64::from(p.0));
    line.push_text(b" wire ");
    line.push_number(u64::from(wait.wire.0));
    line.push_text(b" for ");
    line.push_number(u64::from(wait.on.0));
    line.push_text(b"\n");
    line
}

/// The line of the values on a wire, from the front; it has no bytes where the wire is empty.
pub fn wire_line(m: &Machine<'_>, wire: WireId) -> Line
    requires { wire.0 < length (wires_of m.now.set.topo) }
    ensures { result ≡ wire_line m.now.state wire.0 }
{
    // The set is asked for so that its depth bounds how many values the wire holds.
    let _set = m.set();
    values_line(wire, m.wire(wire))
}

// The line of these values on a wire.
pub(crate) fn values_line(wire: WireId, values: &[u32]) -> Line
    requires { length values.now ≤ 7 }
    ensures { result ≡ values_line wire.0 values.now }
{
    let mut line = Line::new();
    if !values.is_empty() {
        line.push_text(b"wire ");
        line.push_number(u64::from(wire.0));
        line.push_words(values);
        line.push_text(b"\n");
    }
    line
}
