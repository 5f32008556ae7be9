//! The whole text.
ghost use Rattle.std.specs.Prelude.{◌≡◌, ◌<◌, ◌≤◌, ◌^◌, length};
ghost use Rattle.std.specs.List.{flat_map};
ghost use Rattle.raw_io.specs.Writing.{Writes};
ghost use Rattle.raw_grid.specs.Topology.{proc_count};
ghost use Rattle.raw_model.specs.Waits.{waits_for};
ghost use Rattle.raw_model.specs.Outcomes.{outcome};
ghost use Rattle.raw_outcome.specs.Told.{told};
ghost use Rattle.raw_path.specs.Known.{IsTold, IsPath};
ghost use Rattle.raw_path.specs.Text.{on_lines, from_lines, path_lines, path_text};
ghost use Rattle.raw_path.specs.Path.{path_of, stalls_of};

use crate::lines::{from_line, on_line, path_line};
use crate::running::Path;
use crate::told::Told;
use raw_clock_text::cycles_line;
use raw_io::{Failed, Sink};
use raw_outcome::Outcome;
use raw_report::put_outcome;
use raw_serial::Machine;
use raw_state_text::put_line;

// Puts the lines of the processors that take turns of the path, by rising number.
fn put_turns<K: Sink>(told: &Told, out: &mut K) -> Result<(), Failed>
    requires { IsTold (length told.now.turns.items) told.now.stalled told.now.stretches.items told.now }
    ensures { Writes (K.sight out.old) (K.sight out.new)
        (on_lines (length told.now.turns.items) told.now.stretches.items) result }
{
    for p in 0..told.turns.len() {
        put_line(&on_line(p as u64, told.turns[p]), out)?;
    }
    Ok(())
}

// Puts the lines of the stretches, the first one first.
fn put_stretches<K: Sink>(told: &Told, out: &mut K) -> Result<(), Failed>
    ensures { Writes (K.sight out.old) (K.sight out.new) (from_lines told.now.stretches.items) result }
{
    let mut left = told.stretches.len();
    'stretches: while left > 0 {
        left -= 1;
        put_line(&from_line(told.stretches[left]), out)?;
    }
    Ok(())
}

// Puts the lines of the path, where the set has a cycle.
fn put_path<K: Sink>(told: &Told, cycles: u64, out: &mut K) -> Result<(), Failed>
    requires told { IsTold (length told.now.turns.items) told.now.stalled told.now.stretches.items told.now }
    requires stalled { told.now.stalled ≤ cycles }
    requires stretches { length told.now.stretches.items ≤ cycles }
    ensures { Writes (K.sight out.old) (K.sight out.new)
        (path_lines (length told.now.turns.items) cycles told.now.stalled told.now.stretches.items) result }
{
    if cycles == 0 {
        return Ok(());
    }
    let fired = cycles - told.stalled;
    let own = cycles - told.stretches.len() as u64;
    let line = path_line(fired, told.stalled, own, told.values, told.room);
    put_line(&line, out)?;
    put_turns(told, out)?;
    put_stretches(told, out)
}

/// Writes the path of a set, whose machine came to rest by its clock and as the outcome says: the first lines of the
/// report, then `cycles`, `path`, and the lines of processors and stretches. It takes no memory.
///
/// After `Failed` a front of the text is appended.
pub fn write_path<K: Sink>(
    m: &Machine<'_>,
    o: Outcome,
    path: &Path,
    out: &mut K,
) -> Result<(), Failed>
    requires outcome { told (waits_for m.now.set m.now.state) o ≡ outcome m.now.set m.now.state }
    requires path { IsPath m.now path.now }
    ensures { Writes (K.sight out.old) (K.sight out.new) (path_text m.now.set path.now.cycles) result }
{
    put_outcome(m, o, out)?;
    put_line(&cycles_line(path.cycles, path.steps), out)?;
    put_path(&path.told, path.cycles, out)
}
