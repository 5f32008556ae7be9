//! The lines of a trace, each made in place from what it tells. A line is made from its end to its front.
ghost use Rattle.std.specs.Prelude.{◌≡◌, ◌+◌, ◌<◌, ◌≤◌, ◌++◌, length, codes, decimal};
ghost use Rattle.raw_grid.specs.Topology.{proc_count};
ghost use Rattle.raw_model.specs.StateTexts.{mark_of};
ghost use Rattle.raw_trace.specs.Lines.{Begins, Cycle, Stalls, Waiting, Stopping};
ghost use Rattle.raw_trace.specs.Text.{hex, entry_text, line_text};

use crate::line::{LINE_SIZE, Line};
use raw_grid::{ProcId, WireId};
use raw_serial::Machine;
use raw_state_text::Line as TextLine;
use raw_trace::Entry;

// Puts a number in front, behind what it stands for.
#[inline(always)]
fn prepend_number(line: &mut Line, mark: &[u8], number: u64)
    requires { length line.old + length mark.now + 20 ≤ LINE_SIZE }
    ensures text { line.new ≡ (mark.now ++ decimal number) ++ line.old }
    ensures len { length line.new ≤ length line.old + length mark.now + 20 }
{
    line.prepend_number(number);
    line.prepend(mark);
}

// Puts an address in front, with a blank and its mark.
fn prepend_address(line: &mut Line, address: u32)
    requires { length line.old + 10 ≤ LINE_SIZE }
    ensures text { line.new ≡ (codes " @" ++ hex address) ++ line.old }
    ensures len { length line.new ≤ length line.old + 10 }
{
    line.prepend_hex(address);
    line.prepend(b" @");
}

// Puts the word in front that a wire, a register or an address has.
fn prepend_value(line: &mut Line, word: u32)
    requires { length line.old + 9 ≤ LINE_SIZE }
    ensures text { line.new ≡ (codes "=" ++ hex word) ++ line.old }
    ensures len { length line.new ≤ length line.old + 9 }
{
    line.prepend_hex(word);
    line.prepend(b"=");
}

/// The most bytes of an entry, with a blank before it: a mark, a number of 20 digits, and a word behind its mark.
pub(crate) const ENTRY_SIZE: usize = 31;

/// Puts an entry in front, with a blank before it.
#[tactic(auto, unfolding(raw_trace::specs::Text::entry_text))]
pub(crate) fn prepend_entry(line: &mut Line, entry: Entry)
    requires { length line.old + ENTRY_SIZE ≤ LINE_SIZE }
    ensures text { line.new ≡ entry_text entry ++ line.old }
    ensures len { length line.new ≤ length line.old + ENTRY_SIZE }
{
    match entry {
        Entry::Count(count) => prepend_number(line, b" #", count),
        Entry::Taken(wire) => prepend_number(line, b" -", u64::from(wire)),
        Entry::Sent(wire, value) => {
            prepend_value(line, value);
            prepend_number(line, b" +", u64::from(wire));
        }
        Entry::Register(register, value) => {
            prepend_value(line, value);
            prepend_number(line, b" $", u64::from(register));
        }
        Entry::Loaded(address) => prepend_address(line, address),
        Entry::Stored(address, value) => {
            prepend_value(line, value);
            prepend_address(line, address);
        }
        Entry::Misses(missed) => prepend_number(line, b" !", missed),
        Entry::Missed(turns) => prepend_number(line, b" !", u64::from(turns)),
    }
}

/// The most bytes of how the line of a processor begins: two numbers of 20 digits and a blank.
pub(crate) const HEAD_SIZE: usize = 41;

/// Puts in front how the line of a processor with its pc begins.
pub(crate) fn prepend_head(line: &mut Line, p: ProcId, pc: u32)
    requires { length line.old + HEAD_SIZE ≤ LINE_SIZE }
    ensures text { line.new ≡ (decimal p.0 ++ codes " " ++ decimal pc) ++ line.old }
    ensures len { length line.new ≤ length line.old + HEAD_SIZE }
{
    line.prepend_number(u64::from(pc));
    line.prepend(b" ");
    line.prepend_number(u64::from(p.0));
}

/// Makes a line the one with which a trace begins.
pub(crate) fn begin_line(line: &mut Line, first: u64)
    ensures { line.new ≡ line_text (Begins first) }
{
    line.clear();
    line.prepend(b"\n");
    prepend_number(line, b"trace ", first);
}

/// Makes a line that of a cycle.
pub(crate) fn cycle_line(line: &mut Line, k: u64)
    ensures { line.new ≡ line_text (Cycle k) }
{
    line.clear();
    line.prepend(b"\n");
    prepend_number(line, b"cycle ", k);
}

/// Makes a line that of a stall turn.
pub(crate) fn stall_line(line: &mut Line, p: ProcId)
    ensures { line.new ≡ line_text (Stalls p.0) }
{
    line.clear();
    line.prepend(b" s\n");
    line.prepend_number(u64::from(p.0));
}

/// Makes a line that of a wait for a wire.
pub(crate) fn wait_line(line: &mut Line, p: ProcId, wire: WireId)
    ensures { line.new ≡ line_text (Waiting p.0 wire.0) }
{
    line.clear();
    line.prepend(b"\n");
    prepend_number(line, b" w", u64::from(wire.0));
    line.prepend_number(u64::from(p.0));
}

/// Makes a line that of a processor that is stopped.
pub(crate) fn stop_line(line: &mut Line, machine: &Machine<'_>, p: ProcId)
    requires { p.0 < proc_count machine.now.set.topo }
    ensures { line.new ≡ line_text (Stopping p.0 (mark_of machine.now.set machine.now.state p.0)) }
{
    let mut mark = TextLine::new();
    mark.push_mark(machine, p);
    line.clear();
    line.prepend(b"\n");
    line.prepend(mark.as_bytes());
    line.prepend(b" x ");
    line.prepend_number(u64::from(p.0));
}
