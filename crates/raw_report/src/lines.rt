//! The lines of a report, each made in place from the values that it shows.
ghost use Rattle.std.specs.Prelude.{◌≡◌, ◌<◌, codes};
ghost use Rattle.raw_grid.specs.Topology.{tile_count, proc_count};
ghost use Rattle.raw_model.specs.Texts.{cause_text};
ghost use Rattle.raw_model.specs.StateTexts.{mark_of};
ghost use Rattle.raw_report.specs.Lines.{deadlock_head, trapped_line, limit_line, ends_line, source_line, sink_head, word_line, tile_head, memory_word_line, switch_line, stall_text};

use raw_grid::{PortPlace, ProcId, Topo};
use raw_model::Cause;
use raw_serial::Machine;
use raw_state_text::Line;
use raw_switch::SwitchState;
use raw_tile::TileState;

/// The line of an outcome in which each tile and each switch is halted.
pub(crate) fn done_line() -> Line
    ensures { result ≡ codes "outcome done\n" }
{
    let mut line = Line::new();
    line.push_text(b"outcome done\n");
    line
}

/// The first line of a cycle of so many processors that wait for one another.
#[tactic(auto, unfolding(crate::specs::Lines::deadlock_head))]
pub(crate) fn deadlock_head(count: u32) -> Line
    ensures { result ≡ deadlock_head count }
{
    let mut line = Line::new();
    line.push_text(b"outcome deadlock ");
    line.push_number(u64::from(count));
    line.push_text(b"\n");
    line
}

/// The line of an outcome in which processor `p` is trapped.
#[tactic(auto, unfolding(crate::specs::Lines::trapped_line))]
pub(crate) fn trapped_line(p: ProcId, cause: Cause) -> Line
    ensures { result ≡ trapped_line p.0 (cause_text cause) }
{
    let mut line = Line::new();
    line.push_text(b"outcome trapped ");
    line.push_number(u64::from(p.0));
    line.push_text(b" ");
    line.push_cause(cause);
    line.push_text(b"\n");
    line
}

/// The line of an outcome in which processor `p` is at the limit.
#[tactic(auto, unfolding(crate::specs::Lines::limit_line))]
pub(crate) fn limit_line(p: ProcId, count: u64) -> Line
    ensures { result ≡ limit_line p.0 count }
{
    let mut line = Line::new();
    line.push_text(b"outcome limit ");
    line.push_number(u64::from(p.0));
    line.push_text(b" count ");
    line.push_number(count);
    line.push_text(b"\n");
    line
}

/// The first line of an outcome in which a chain of waits ends in a processor that is stopped.
pub(crate) fn stuck_head() -> Line
    ensures { result ≡ codes "outcome stuck\n" }
{
    let mut line = Line::new();
    line.push_text(b"outcome stuck\n");
    line
}

/// The line of the processor at which a chain of waits ends.
#[tactic(auto, unfolding(crate::specs::Lines::ends_line))]
pub(crate) fn ends_line(m: &Machine<'_>, p: ProcId) -> Line
    requires { p.0 < proc_count m.now.set.topo }
    ensures { result ≡ ends_line p.0 (mark_of m.now.set m.now.state p.0) }
{
    let mut line = Line::new();
    line.push_text(b"ends ");
    line.push_number(u64::from(p.0));
    line.push_text(b" ");
    line.push_mark(m, p);
    line.push_text(b"\n");
    line
}

/// The line of the source that is processor `p`, stands at this place and has put in `done` words.
#[tactic(auto, unfolding(crate::specs::Lines::source_line))]
pub(crate) fn source_line(m: &Machine<'_>, p: ProcId, place: PortPlace, done: u64) -> Line
    requires { p.0 < proc_count m.now.set.topo }
    ensures { result ≡ source_line place (mark_of m.now.set m.now.state p.0) done }
{
    let mut line = Line::new();
    line.push_text(b"source ");
    line.push_port_place(place);
    line.push_text(b" ");
    line.push_mark(m, p);
    line.push_text(b" sent ");
    line.push_number(done);
    line.push_text(b"\n");
    line
}

/// The first line of the sink that is processor `p`, stands at this place and has taken out `done` words.
#[tactic(auto, unfolding(crate::specs::Lines::sink_head))]
pub(crate) fn sink_head(m: &Machine<'_>, p: ProcId, place: PortPlace, done: u64) -> Line
    requires { p.0 < proc_count m.now.set.topo }
    ensures { result ≡ sink_head place (mark_of m.now.set m.now.state p.0) done }
{
    let mut line = Line::new();
    line.push_text(b"sink ");
    line.push_port_place(place);
    line.push_text(b" ");
    line.push_mark(m, p);
    line.push_text(b" got ");
    line.push_number(done);
    line.push_text(b"\n");
    line
}

/// The line of a word that a sink has taken out.
#[tactic(auto, unfolding(crate::specs::Lines::word_line))]
pub(crate) fn word_line(word: u32) -> Line
    ensures { result ≡ word_line word }
{
    let mut line = Line::new();
    line.push_text(b"word ");
    line.push_word(word);
    line.push_text(b"\n");
    line
}

/// The first line of a tile with this local state.
#[tactic(auto, unfolding(crate::specs::Lines::tile_head))]
pub(crate) fn tile_head(m: &Machine<'_>, t: u32, state: &TileState) -> Line
    requires { t < tile_count m.now.set.topo }
    ensures { result ≡ tile_head m.now.set.topo t (mark_of m.now.set m.now.state t) state.now }
{
    let mut line = Line::new();
    line.push_text(b"tile ");
    line.push_place(topo_of(m), t);
    line.push_text(b" ");
    line.push_mark(m, ProcId(t));
    line.push_progress(state.count, state.pc);
    line.push_text(b"\n");
    line
}

/// The line of a word of a tile's memory.
#[tactic(auto, unfolding(crate::specs::Lines::memory_word_line))]
pub(crate) fn memory_line(topo: &Topo, tile: u32, address: u32, word: u32) -> Line
    ensures { result ≡ memory_word_line topo.now tile address word }
{
    let mut line = Line::new();
    line.push_text(b"mem ");
    line.push_place(topo, tile);
    line.push_text(b" 0x");
    line.push_word(address);
    line.push_text(b" ");
    line.push_word(word);
    line.push_text(b"\n");
    line
}

/// The line of the switch beside a tile, which is processor `p` and has this local state.
#[tactic(auto, unfolding(crate::specs::Lines::switch_line))]
pub(crate) fn switch_line(m: &Machine<'_>, t: u32, p: ProcId, state: &SwitchState) -> Line
    requires { p.0 < proc_count m.now.set.topo }
    ensures { result ≡ switch_line m.now.set.topo t (mark_of m.now.set m.now.state p.0) state.now }
{
    let mut line = Line::new();
    line.push_text(b"switch ");
    line.push_place(topo_of(m), t);
    line.push_text(b" ");
    line.push_mark(m, p);
    line.push_progress(state.count, state.pc);
    line.push_text(b" regs");
    line.push_words(&state.regs);
    line.push_text(b"\n");
    line
}

/// The line of a tile that missed so often, which costs so many stall turns.
#[tactic(auto, unfolding(crate::specs::Lines::stall_text))]
pub(crate) fn stall_line(topo: &Topo, tile: u32, misses: u64, turns: u64) -> Line
    ensures { result ≡ stall_text topo.now tile misses turns }
{
    let mut line = Line::new();
    line.push_text(b"stall ");
    line.push_place(topo, tile);
    line.push_text(b" misses ");
    line.push_number(misses);
    line.push_text(b" turns ");
    line.push_number(turns);
    line.push_text(b"\n");
    line
}

// The topology of a machine.
fn topo_of<'m>(m: &'m Machine<'_>) -> &'m Topo
    ensures { result.now ≡ m.now.set.topo }
{
    let set = m.set();
    &set.topo
}
