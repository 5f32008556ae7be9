//! The first lines of a report: how a machine came to rest, and the waits that tell why.
ghost use Rattle.std.specs.Prelude.{◌≡◌, ◌+◌, ◌<◌, true, Some, length, slice_get};
ghost use Rattle.std.specs.List.{flat_map};
ghost use Rattle.raw_cycle.specs.Chains.{stretch};
ghost use Rattle.raw_cycle.specs.Cycles.{others_of};
ghost use Rattle.raw_io.specs.Writing.{Writes};
ghost use Rattle.raw_grid.specs.Topology.{proc_count};
ghost use Rattle.raw_model.specs.Rest.{is_trap};
ghost use Rattle.raw_model.specs.Waits.{waits_for};
ghost use Rattle.raw_model.specs.Outcomes.{outcome};
ghost use Rattle.raw_model.specs.Outcomes.Outcome.{Deadlock, Trapped, Stuck};
ghost use Rattle.raw_model.specs.StateTexts.{wait_line};
ghost use Rattle.raw_outcome.specs.Told.{told};
ghost use Rattle.raw_report.specs.Locals.{mark_at};
ghost use Rattle.raw_report.specs.Report.{outcome_lines};

use crate::lines::{deadlock_head, done_line, ends_line, limit_line, stuck_head, trapped_line};
use raw_grid::ProcId;
use raw_io::{Failed, Sink};
use raw_model::Mark;
use raw_outcome::{Outcome, chain_end};
use raw_serial::Machine;
use raw_state_text::{put_line, wait_line};

// Puts the wait of a processor, and of each that the one before it waits for, of at most so many.
fn put_waits<K: Sink>(m: &Machine<'_>, first: ProcId, count: u32, out: &mut K) -> Result<(), Failed>
    requires { first.0 < proc_count m.now.set.topo }
    ensures { Writes (K.sight out.old) (K.sight out.new)
        (flat_map (wait_line m.now.set m.now.state)
        (stretch (waits_for m.now.set m.now.state) count (Some first.0))) result }
{
    let mut p = first;
    for _step in 0..count {
        match m.first_wait(p) {
            // It waits for none, and has no line.
            None => return Ok(()),
            Some(wait) => {
                put_line(&wait_line(m, p), out)?;
                p = wait.on;
            }
        }
    }
    Ok(())
}

// Puts the lines of a cycle of waits, by its least processor and how many stand on it.
fn put_cycle<K: Sink>(m: &Machine<'_>, least: ProcId, count: u32, out: &mut K) -> Result<(), Failed>
    requires there { least.0 < proc_count m.now.set.topo }
    requires whole { length (others_of (waits_for m.now.set m.now.state) least.0 count) + 1 ≡ count }
    ensures { Writes (K.sight out.old) (K.sight out.new)
        (outcome_lines m.now.set m.now.state
        (Deadlock least.0 (others_of (waits_for m.now.set m.now.state) least.0 count))) result }
{
    put_line(&deadlock_head(count), out)?;
    put_waits(m, least, count, out)
}

// Puts the line of a processor that is trapped.
fn put_trapped<K: Sink>(m: &Machine<'_>, p: ProcId, out: &mut K) -> Result<(), Failed>
    requires there { p.0 < proc_count m.now.set.topo }
    requires trapped { is_trap (mark_at (slice_get m.now.state.locals p.0)) ≡ true }
    ensures { Writes (K.sight out.old) (K.sight out.new)
        (outcome_lines m.now.set m.now.state (Trapped p.0)) result }
{
    let processor = m.processor(p);
    match processor.mark() {
        Mark::Trapped(cause) => put_line(&trapped_line(p, cause), out),
        Mark::Going | Mark::Halted => Ok(()),
    }
}

// Puts the chain of waits from a processor, and its end.
fn put_chain<K: Sink>(m: &Machine<'_>, p: ProcId, out: &mut K) -> Result<(), Failed>
    requires { p.0 < proc_count m.now.set.topo }
    ensures { Writes (K.sight out.old) (K.sight out.new)
        (outcome_lines m.now.set m.now.state (Stuck p.0)) result }
{
    put_line(&stuck_head(), out)?;
    put_waits(m, p, m.procs() + 1, out)?;
    put_line(&ends_line(m, chain_end(m, p)), out)
}

/// Puts the first lines of a report: how a machine came to rest, as the outcome says, and the waits that tell why. It
/// takes no memory; after `Failed` a front of these lines is appended.
pub fn put_outcome<K: Sink>(m: &Machine<'_>, o: Outcome, out: &mut K) -> Result<(), Failed>
    requires { told (waits_for m.now.set m.now.state) o ≡ outcome m.now.set m.now.state }
    ensures { Writes (K.sight out.old) (K.sight out.new)
        (outcome_lines m.now.set m.now.state (outcome m.now.set m.now.state)) result }
{
    let _set = m.set();
    match o {
        Outcome::Done => put_line(&done_line(), out),
        Outcome::Deadlock { least, length } => put_cycle(m, least, length, out),
        Outcome::Trapped { p } => put_trapped(m, p, out),
        Outcome::Limit { p } => put_line(&limit_line(p, m.count(p)), out),
        Outcome::Stuck { p } => put_chain(m, p, out),
    }
}
