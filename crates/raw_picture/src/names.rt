//! What a picture says of processors in words: their names, their marks, how far they are, whom they wait for.
ghost use Rattle.std.specs.Prelude.{◌≡◌, ◌+◌, ◌<◌, ◌≤◌, ◌++◌, Some, length, slice_get};
ghost use Rattle.raw_grid.specs.Topology.{tile_count, proc_count};
ghost use Rattle.raw_grid.specs.Wires.{wires_of};
ghost use Rattle.raw_model.specs.Waits.{other_end};
ghost use Rattle.std.specs.List.{position};
ghost use Rattle.raw_processor.specs.Processor.{local_of};
ghost use Rattle.raw_model.specs.Parts.{count_in};
ghost use Rattle.raw_picture.specs.Names.{wait_text, is_blank, first_word, after_first_word, shown_mark, no_code, no_switch_code, pc_of, pc_at};

use crate::course::ends_of;
use crate::forms::push_labelled;
use raw_grid::{ProcId, Topo, WireId};
use raw_model::Set;
use raw_names::push_processor_name;
use raw_serial::{Machine, Processor};
use raw_state_text::Line;

/// How far a processor is: the steps that it has done, and its pc; a port has pc 0.
#[derive(Clone, Copy)]
pub(crate) struct Progress {
    pub(crate) count: u64,
    pub(crate) pc: u32,
}

// The processor at the other end of a wire that leads to or comes from processor `p`.
fn other_end(topo: &Topo, p: ProcId, wire: WireId) -> ProcId
    requires { wire.0 < length (wires_of topo.now) }
    ensures value { result.0 ≡ other_end topo.now p.0 wire.0 }
    ensures there { result.0 < proc_count topo.now }
{
    let ends = ends_of(topo, wire);
    if ends.to == p.0 {
        ProcId(ends.from)
    } else {
        ProcId(ends.to)
    }
}

/// That processor `p` waits on a wire for the processor at its other end.
#[tactic(auto, unfolding(crate::specs::Names::wait_text))]
pub(crate) fn wait_text(topo: &Topo, p: ProcId, wire: WireId) -> Line
    requires wire { wire.0 < length (wires_of topo.now) }
    requires there { p.0 < proc_count topo.now }
    ensures text { result ≡ wait_text topo.now p.0 wire.0 }
    ensures len { length result ≤ 144 }
{
    let mut line = Line::new();
    push_processor_name(&mut line, topo, p);
    push_labelled(&mut line, b" waits on wire ", wire.0);
    line.push_text(b" for ");
    push_processor_name(&mut line, topo, other_end(topo, p, wire));
    line
}

// The place of the first blank of a text.
fn blank_in(text: &[u8]) -> Option<usize>
    ensures { result ≡ position is_blank text.now }
{
    text.iter().position(|byte| *byte == 32)
}

/// A text up to its first blank.
#[tactic(auto, unfolding(crate::specs::Names::first_word))]
pub(crate) fn first_word(text: &[u8]) -> &[u8]
    ensures word { result.now ≡ first_word text.now }
    ensures len { length result.now ≤ length text.now }
{
    match blank_in(text) {
        None => text,
        Some(i) => &text[..i],
    }
}

/// What stands behind the first blank of a text.
#[tactic(auto, unfolding(crate::specs::Names::after_first_word))]
pub(crate) fn after_first_word(text: &[u8]) -> &[u8]
    ensures word { result.now ≡ after_first_word text.now }
    ensures len { length result.now ≤ length text.now }
{
    match blank_in(text) {
        None => b"",
        Some(i) => &text[i + 1..],
    }
}

/// The mark that is shown of a tile or a switch.
pub(crate) fn shown_mark(m: &Machine<'_>, p: ProcId, empty: bool) -> Line
    requires { p.0 < proc_count m.now.set.topo }
    ensures text { result ≡ shown_mark m.now.set m.now.state p.0 empty }
    ensures len { length result ≤ 26 }
{
    let mut line = Line::new();
    if empty {
        line.push_text(b"empty program");
        return line;
    }
    line.push_mark(m, p);
    line
}

/// Whether the program of a tile is empty.
pub(crate) fn no_code(set: &Set, t: u32) -> bool
    requires { t < tile_count set.now.topo }
    ensures { result ≡ no_code (slice_get set.now.tiles t) }
{
    set.tiles[t as usize].code.is_empty()
}

/// Whether the program of the switch beside a tile is empty.
pub(crate) fn no_switch_code(set: &Set, t: u32) -> bool
    requires { t < tile_count set.now.topo }
    ensures { result ≡ no_switch_code (slice_get set.now.tiles t) }
{
    set.tiles[t as usize].switch.is_empty()
}

// The pc of a processor; that of a port is 0.
fn pc_of(processor: &Processor) -> u32
    ensures { result ≡ pc_of (local_of processor.now) }
{
    match processor {
        Processor::Tile(tile) => tile.state.pc,
        Processor::Switch(switch) => switch.state.pc,
        Processor::Source(_) | Processor::Sink(_) => 0,
    }
}

/// How far a processor is.
pub(crate) fn progress_of(m: &Machine<'_>, p: ProcId) -> Progress
    requires { p.0 < proc_count m.now.set.topo }
    ensures count { result.count ≡ count_in (slice_get m.now.state.locals p.0) }
    ensures pc { result.pc ≡ pc_at (slice_get m.now.state.locals p.0) }
{
    let processor = m.processor(p);
    Progress {
        count: m.count(p),
        pc: pc_of(processor),
    }
}
