//! The lines that commands write, each made in place from the values that it shows.
ghost use Rattle.std.specs.Prelude.{◌≡◌, ℕ, ◌+◌, ◌<◌, ◌≤◌, ◌++◌, Some, List, length, codes, decimal};
ghost use Rattle.raw_grid.specs.Topology.{proc_count};
ghost use Rattle.raw_processor.specs.Processor.{local_of};
ghost use Rattle.raw_debug.specs.Answers.{pc_text, place_text, place_line, switch_registers_line, sent_line, got_line, word_line, tile_text, switch_text, next_tile_text, next_switch_text, star, code_line, passed_line};
ghost use Rattle.raw_debug.specs.Sending.{IsSent};

use crate::sent::Sent;
use raw_code_text::{push_switch_line, push_tile_line};
use raw_grid::{ProcId, WireId};
use raw_serial::{Machine, Processor};
use raw_state_text::{LINE_SIZE, Line};
use raw_switch_isa::SwitchIns;
use raw_tile_isa::{MAX_TILE_CODE, TileIns};

// Appends a pc behind its name.
fn push_pc(line: &mut Line, pc: u32)
    requires { length line.old + 24 ≤ LINE_SIZE }
    ensures text { line.new ≡ line.old ++ codes " pc " ++ decimal pc }
    ensures len { length line.new ≤ length line.old + 24 }
{
    line.push_text(b" pc ");
    line.push_number(u64::from(pc));
}

// Appends the pc of a tile or a switch; a port has none.
fn push_pc_of(line: &mut Line, processor: &Processor)
    requires { length line.old + 24 ≤ LINE_SIZE }
    ensures text { line.new ≡ line.old ++ pc_text (Some (local_of processor.now)) }
    ensures len { length line.new ≤ length line.old + 24 }
{
    match processor {
        Processor::Tile(tile) => push_pc(line, tile.state.pc),
        Processor::Switch(switch) => push_pc(line, switch.state.pc),
        Processor::Source(_) | Processor::Sink(_) => {}
    }
}

/// Where a script stands with this processor.
#[tactic(auto, unfolding(crate::specs::Answers::place_text))]
pub(crate) fn place_text(m: &Machine<'_>, p: ProcId) -> Line
    requires { p.0 < proc_count m.now.set.topo }
    ensures text { result ≡ place_text m.now.set m.now.state p.0 }
    ensures len { length result ≤ 95 }
{
    let mut line = Line::new();
    let processor = m.processor(p);
    line.push_text(b"at ");
    line.push_number(u64::from(p.0));
    line.push_text(b" ");
    line.push_number(processor.count());
    line.push_text(b" ");
    line.push_mark(m, p);
    push_pc_of(&mut line, processor);
    line
}

/// The line of where a script stands with this processor.
pub(crate) fn place_line(m: &Machine<'_>, p: ProcId) -> Line
    requires { p.0 < proc_count m.now.set.topo }
    ensures { result ≡ place_line m.now.set m.now.state p.0 }
{
    let mut line = place_text(m, p);
    line.push_text(b"\n");
    line
}

/// A line with no more in it.
pub(crate) fn end_line() -> Line
    ensures { result ≡ codes "\n" }
{
    let mut line = Line::new();
    line.push_text(b"\n");
    line
}

/// The end of a line that shows the instruction of a tile that stands at a place of its program.
pub(crate) fn next_tile_line(place: u32, ins: TileIns) -> Line
    requires { place ≤ MAX_TILE_CODE }
    ensures { result ≡ next_tile_text place (Some ins) ++ codes "\n" }
{
    let mut line = Line::new();
    line.push_text(b"  ");
    push_tile_line(&mut line, ins, place);
    line.push_text(b"\n");
    line
}

/// The end of a line that shows this instruction of a switch.
pub(crate) fn next_switch_line(ins: SwitchIns) -> Line
    ensures { result ≡ next_switch_text (Some ins) ++ codes "\n" }
{
    let mut line = Line::new();
    line.push_text(b"  ");
    push_switch_line(&mut line, ins);
    line.push_text(b"\n");
    line
}

/// The line of a switch's registers.
pub(crate) fn switch_registers_line(regs: &[u32; 4]) -> Line
    ensures { result ≡ switch_registers_line regs.now }
{
    let mut line = Line::new();
    line.push_text(b"regs");
    line.push_words(regs);
    line.push_text(b"\n");
    line
}

/// The line of how many words a source has sent.
pub(crate) fn sent_line(count: u64) -> Line
    ensures { result ≡ sent_line count }
{
    let mut line = Line::new();
    line.push_text(b"sent ");
    line.push_number(count);
    line.push_text(b"\n");
    line
}

/// The line of how many words a sink has got.
pub(crate) fn got_line(count: u64) -> Line
    ensures { result ≡ got_line count }
{
    let mut line = Line::new();
    line.push_text(b"got ");
    line.push_number(count);
    line.push_text(b"\n");
    line
}

/// The line of a word of a memory.
#[tactic(auto, unfolding(crate::specs::Answers::word_line))]
pub(crate) fn word_line(address: u32, word: u32) -> Line
    ensures { result ≡ word_line address word }
{
    let mut line = Line::new();
    line.push_text(b"mem 0x");
    line.push_word(address);
    line.push_text(b" ");
    line.push_word(word);
    line.push_text(b"\n");
    line
}

/// The line of an instruction of a tile that stands at a place of its program, counted in instructions; the one at the pc
/// has a star.
#[tactic(auto, unfolding(crate::specs::Answers::code_line))]
pub(crate) fn tile_code_line(pc: u32, place: u32, ins: TileIns) -> Line
    requires { place ≤ MAX_TILE_CODE }
    ensures { result ≡ code_line pc place (tile_text place (Some ins)) }
{
    let mut line = Line::new();
    push_place(&mut line, place);
    push_tile_line(&mut line, ins, place);
    push_star(&mut line, place == pc);
    line
}

/// The line of an instruction of a switch, in the same way.
#[tactic(auto, unfolding(crate::specs::Answers::code_line))]
pub(crate) fn switch_code_line(pc: u32, place: u32, ins: SwitchIns) -> Line
    ensures { result ≡ code_line pc place (switch_text (Some ins)) }
{
    let mut line = Line::new();
    push_place(&mut line, place);
    push_switch_line(&mut line, ins);
    push_star(&mut line, place == pc);
    line
}

// Appends the number of an instruction.
fn push_place(line: &mut Line, place: u32)
    requires { length line.old + 26 ≤ LINE_SIZE }
    ensures text { line.new ≡ line.old ++ codes "code " ++ decimal place ++ codes " " }
    ensures len { length line.new ≤ length line.old + 26 }
{
    line.push_text(b"code ");
    line.push_number(u64::from(place));
    line.push_text(b" ");
}

// Appends a star, if there is to be one, and ends the line.
fn push_star(line: &mut Line, is_next: bool)
    requires { length line.old + 3 ≤ LINE_SIZE }
    ensures { line.new ≡ line.old ++ star is_next ++ codes "\n" }
{
    if is_next {
        line.push_text(b" *");
    }
    line.push_text(b"\n");
}

/// The line of what was sent on a wire.
#[tactic(auto, unfolding(crate::specs::Answers::passed_line))]
pub(crate) fn passed_line(wire: WireId, sent: &Sent) -> Line
    ensures { (values : List ℕ) → IsSent sent.now values → result ≡ passed_line wire.0 values }
{
    let mut line = Line::new();
    line.push_text(b"passed ");
    line.push_number(u64::from(wire.0));
    line.push_text(b" ");
    line.push_number(sent.count);
    line.push_words(sent.last.as_slice());
    line.push_text(b"\n");
    line
}
