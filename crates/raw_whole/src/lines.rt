//! The words and the beginnings of the lines of a whole run, each made in place.
ghost use Rattle.std.specs.Prelude.{◌≡◌, ℕ, ◌+◌, ◌<◌, ◌≤◌, ◌++◌, length, codes, decimal};
ghost use Rattle.raw_grid.specs.Topology.{proc_count};
ghost use Rattle.raw_model.specs.StateTexts.{mark_of};
ghost use Rattle.raw_trace.specs.Whole.{times_text, turns_text, distances_text};

use raw_grid::{ProcId, WireId};
use raw_serial::{Machine, Turn};
use raw_state_text::{LINE_SIZE, Line};

// Appends how often something stands one behind another, where that is not once.
fn push_times(line: &mut Line, times: u32)
    requires { length line.old + 21 ≤ LINE_SIZE }
    ensures { line.new ≡ line.old ++ times_text times }
{
    if 2 <= times {
        line.push_text(b"*");
        line.push_number(u64::from(times));
    }
}

/// So many turns of processor `p`, which stand one behind another. A stop has the mark that the processor has.
pub(crate) fn turns_word(machine: &Machine<'_>, p: ProcId, turn: Turn, times: u32) -> Line
    requires { p.0 < proc_count machine.now.set.topo }
    ensures { result ≡ turns_text (mark_of machine.now.set machine.now.state p.0) turn times }
{
    let mut line = Line::new();
    match turn {
        Turn::Fired => {
            line.push_text(b" f");
            push_times(&mut line, times);
        }
        Turn::Stalled => {
            line.push_text(b" s");
            push_times(&mut line, times);
        }
        Turn::Stopped => {
            line.push_text(b" x ");
            line.push_mark(machine, p);
        }
        Turn::Waits { wire } => {
            line.push_text(b" w");
            line.push_number(u64::from(wire.0));
            push_times(&mut line, times);
        }
    }
    line
}

/// So many equal distances.
pub(crate) fn distances_word(distance: u32, times: u32) -> Line
    ensures { result ≡ distances_text (distance, times) }
{
    let mut line = Line::new();
    line.push_text(b" ");
    line.push_number(u64::from(distance));
    push_times(&mut line, times);
    line
}

/// How the line of processor `p` begins.
pub(crate) fn turns_head(p: ProcId) -> Line
    ensures { result ≡ decimal p.0 }
{
    let mut line = Line::new();
    line.push_number(u64::from(p.0));
    line
}

/// How the line of a wire begins.
pub(crate) fn sent_head(wire: WireId) -> Line
    ensures { result ≡ codes "sent " ++ decimal wire.0 }
{
    let mut line = Line::new();
    line.push_text(b"sent ");
    line.push_number(u64::from(wire.0));
    line
}

/// The first line, of a run of so many cycles.
pub(crate) fn whole_head(cycles: u64) -> Line
    ensures { result ≡ codes "whole " ++ decimal cycles ++ codes "\n" }
{
    let mut line = Line::new();
    line.push_text(b"whole ");
    line.push_number(cycles);
    line.push_text(b"\n");
    line
}
