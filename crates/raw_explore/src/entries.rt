//! Lists of entries, and the lines of which they are parts.
ghost use Rattle.std.specs.Prelude.{◌≡◌, ◌+◌, ◌*◌, ◌≤◌, ◌++◌, codes, decimal, length};
ghost use Rattle.std.specs.List.{flat_map};
ghost use Rattle.raw_io.specs.Writing.{Writes};
ghost use Rattle.raw_trace.specs.Text.{entry_text, entries_text};

use crate::line::{LINE_SIZE, Line, put_line};
use crate::lines::{ENTRY_SIZE, prepend_entry, prepend_head};
use arrayvec::ArrayVec;
use raw_grid::ProcId;
use raw_io::{Failed, Sink};
use raw_trace::Entry;

/// How many entries a firing has at most: 10 values taken, 10 sent, a register, an access and a miss.
pub(crate) const MOST_ENTRIES: usize = 23;

/// The entries of a firing.
pub(crate) type Entries = ArrayVec<Entry, MOST_ENTRIES>;

/// Puts an entry, with a blank before it.
pub(crate) fn put_entry<K: Sink>(entry: Entry, out: &mut K) -> Result<(), Failed>
    ensures { Writes (K.sight out.old) (K.sight out.new) (entry_text entry) result }
{
    let mut line = Line::new();
    prepend_entry(&mut line, entry);
    put_line(&line, out)
}

/// Puts how the line of a processor with its pc begins.
pub(crate) fn put_head<K: Sink>(p: ProcId, pc: u32, out: &mut K) -> Result<(), Failed>
    ensures { Writes (K.sight out.old) (K.sight out.new)
        (decimal p.0 ++ codes " " ++ decimal pc) result }
{
    let mut line = Line::new();
    prepend_head(&mut line, p, pc);
    put_line(&line, out)
}

// Puts entries in front, each with a blank before it.
fn prepend_entries(line: &mut Line, entries: &[Entry])
    requires { length line.old + ENTRY_SIZE * length entries.now ≤ LINE_SIZE }
    ensures text { line.new ≡ flat_map entry_text entries.now ++ line.old }
    ensures len { length line.new ≤ length line.old + ENTRY_SIZE * length entries.now }
{
    let mut left = entries.len();
    'entries: while left > 0 {
        left -= 1;
        prepend_entry(line, entries[left]);
    }
}

/// Makes a line that of a processor with its pc and entries.
pub(crate) fn entries_line(line: &mut Line, p: ProcId, pc: u32, entries: &[Entry])
    requires { length entries.now ≤ MOST_ENTRIES }
    ensures { line.new ≡ entries_text p.0 pc entries.now }
{
    line.clear();
    line.prepend(b"\n");
    prepend_entries(line, entries);
    prepend_head(line, p, pc);
}
