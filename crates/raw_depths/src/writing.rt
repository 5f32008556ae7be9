//! The text of a set at each depth.
ghost use Rattle.std.specs.Prelude.{◌≡◌, ◌++◌};
ghost use Rattle.raw_io.specs.Writing.{Writes};
ghost use Rattle.raw_model.specs.Program.{ProgramSet};
ghost use Rattle.raw_depth.specs.Verdicts.{verdict};
ghost use Rattle.raw_depths.specs.Text.{same_line, fastest_line, verdict_lines, depths_text};
ghost use Rattle.raw_depths.specs.Found.{lines_of, AreDepths};

use crate::found::{AtDepth, Depths};
use crate::lines::{depth_line, done_line, fastest_line, never_line, not_done_line, same_line};
use raw_io::{Failed, Sink, put_all};
use raw_state_text::put_line;

// Puts the lines of the depths.
fn put_rests<K: Sink>(found: &Depths, out: &mut K) -> Result<(), Failed>
    ensures { Writes (K.sight out.old) (K.sight out.new) (lines_of 1 found.now.rests.items) result }
{
    let mut depth: u64 = 1;
    for rest in found.rests.as_slice() {
        put_line(&depth_line(depth, *rest), out)?;
        depth += 1;
    }
    Ok(())
}

// Puts the verdict.
fn put_verdict<K: Sink>(found: &Depths, out: &mut K) -> Result<(), Failed>
    ensures { (set : ProgramSet) → AreDepths set found.now → Writes
        (K.sight out.old) (K.sight out.new)
        (verdict_lines set (verdict set)) result }
{
    if let Some(depth) = found.done_from {
        return put_line(&done_line(depth), out);
    }
    match &found.deadlock {
        Some(deadlock) => {
            put_line(&never_line(deadlock.depth), out)?;
            put_all(out, &deadlock.waits)
        }
        None => put_line(&not_done_line(), out),
    }
}

// Puts the lines of the depths, and the depths from which on reports are the same and cycles are fewest.
#[tactic(auto, using(raw_io::proofs::Chains::chained))]
fn put_found<K: Sink>(found: &Depths, out: &mut K) -> Result<(), Failed>
    ensures { Writes (K.sight out.old) (K.sight out.new)
        (lines_of 1 found.now.rests.items ++ (same_line found.now.same_from ++ fastest_line found.now.fastest_from)) result }
{
    put_rests(found, out)?;
    put_line(&same_line(found.same_from), out)?;
    put_line(&fastest_line(found.fastest_from), out)
}

/// Writes what was found of a set at each depth: a line for each depth, the least depth from which all greater ones have
/// the same report, the least one at which the set has the fewest cycles, and the verdict. It takes no memory.
///
/// After `Failed` a front of the text is appended.
pub fn write_depths<K: Sink>(found: &Depths, out: &mut K) -> Result<(), Failed>
    ensures { (set : ProgramSet) → AreDepths set found.now → Writes
        (K.sight out.old) (K.sight out.new)
        (depths_text set) result }
{
    put_found(found, out)?;
    put_verdict(found, out)
}
