//! The lines of one cycle, written as its turns are taken.
ghost use Rattle.std.specs.Prelude.{◌≡◌, ℕ, ◌+◌, ◌<◌, ◌≤◌, Some, option_map, length, slice_get, true, OnOk};
ghost use Rattle.raw_model.specs.StateTexts.{mark_of};
ghost use Rattle.std.specs.List.{flat_map, range_with_len};
ghost use Rattle.raw_io.specs.Writing.{Writes};
ghost use Rattle.raw_grid.specs.Topology.{proc_count};
ghost use Rattle.raw_clock.specs.Clock.{goes};
ghost use Rattle.raw_clock.specs.Engine.{AreTurns, OnlyTilesOwe};
ghost use Rattle.raw_trace.specs.Lines.{is_told, cycle_lines, turn_lines, Stopping, Waiting};
ghost use Rattle.raw_trace.specs.Text.{line_text};
ghost use Rattle.raw_explore.specs.Engine.{IsAt, Took, HasTurn, line_by, lines_by, AreTurnsBefore};

use crate::entries::entries_line;
use crate::firing::fire;
use crate::line::{Line, put_line};
use crate::lines::{cycle_line, stall_line, stop_line, wait_line};
use crate::workspace::Workspace;
use raw_clock::ask_all;
use raw_grid::{MAX_PROCS, ProcId, WireId};
use raw_io::{Failed, Sink};
use raw_serial::{Machine, Turn};

// Whether a turn is told: a wait for the wire for which the processor waited in the cycle before is not, nor that it is
// stopped still.
fn is_told(turn: Turn, before: Option<Turn>) -> bool
    ensures { result ≡ is_told turn before }
{
    match (turn, before) {
        (Turn::Waits { wire }, Some(Turn::Waits { wire: earlier })) => wire.0 != earlier.0,
        (Turn::Stopped, Some(Turn::Stopped)) => false,
        _ => true,
    }
}

// Takes a step of a processor, and puts its line.
fn put_step<K: Sink>(
    machine: &mut Machine<'_>,
    p: ProcId,
    work: &mut Workspace,
    out: &mut K,
) -> Result<(), Failed>
    requires there { p.0 < proc_count machine.old.set.topo }
    requires turn { HasTurn machine.old p.0 Turn.Fired }
    ensures took { Took true machine.old machine.new p.0 }
    ensures writes { Writes (K.sight out.old) (K.sight out.new)
        (line_text (line_by machine.old machine.new p.0 Turn.Fired)) result }
{
    let pc = fire(machine, p, work);
    entries_line(&mut work.line, p, pc, &work.entries);
    put_line(&work.line, out)
}

// Pays a stall turn of a processor, and puts its line.
fn put_stall<K: Sink>(
    machine: &mut Machine<'_>,
    p: ProcId,
    line: &mut Line,
    out: &mut K,
) -> Result<(), Failed>
    requires there { p.0 < proc_count machine.old.set.topo }
    requires turn { HasTurn machine.old p.0 Turn.Stalled }
    ensures took { Took true machine.old machine.new p.0 }
    ensures writes { Writes (K.sight out.old) (K.sight out.new)
        (line_text (line_by machine.old machine.new p.0 Turn.Stalled)) result }
{
    machine.try_step(p);
    stall_line(line, p);
    put_line(line, out)
}

// Puts the line of a processor that is stopped.
fn put_stop<K: Sink>(
    machine: &Machine<'_>,
    p: ProcId,
    line: &mut Line,
    out: &mut K,
) -> Result<(), Failed>
    requires { p.0 < proc_count machine.now.set.topo }
    ensures { Writes (K.sight out.old) (K.sight out.new)
        (line_text (Stopping p.0 (mark_of machine.now.set machine.now.state p.0))) result }
{
    stop_line(line, machine, p);
    put_line(line, out)
}

// Puts the line of a processor that waits for a wire.
fn put_wait<K: Sink>(p: ProcId, wire: WireId, line: &mut Line, out: &mut K) -> Result<(), Failed>
    ensures { Writes (K.sight out.old) (K.sight out.new) (line_text (Waiting p.0 wire.0)) result }
{
    wait_line(line, p, wire);
    put_line(line, out)
}

// Gives a processor its turn in a cycle, and puts the line of it, where it is told.
fn put_turn<K: Sink>(
    machine: &mut Machine<'_>,
    p: ProcId,
    turn: Turn,
    before: Option<Turn>,
    work: &mut Workspace,
    out: &mut K,
) -> Result<(), Failed>
    requires there { p.0 < proc_count machine.old.set.topo }
    requires turn { HasTurn machine.old p.0 turn }
    ensures took { Took (goes turn) machine.old machine.new p.0 }
    ensures writes { Writes (K.sight out.old) (K.sight out.new)
        (flat_map line_text (lines_by machine.old machine.new p.0 turn before)) result }
{
    match turn {
        Turn::Fired => put_step(machine, p, work, out),
        Turn::Stalled => put_stall(machine, p, &mut work.line, out),
        Turn::Stopped if is_told(turn, before) => put_stop(machine, p, &mut work.line, out),
        Turn::Waits { wire } if is_told(turn, before) => put_wait(p, wire, &mut work.line, out),
        Turn::Stopped | Turn::Waits { .. } => Ok(()),
    }
}

// Gives all processors their turns in cycle `k`, and puts the lines of those that are told.
fn put_turns<K: Sink>(
    machine: &mut Machine<'_>,
    first: u64,
    k: u64,
    turns: &[Turn],
    before: &[Option<Turn>],
    work: &mut Workspace,
    out: &mut K,
) -> Result<(), Failed>
    requires many { proc_count machine.old.set.topo ≤ length turns.now }
    requires many_before { proc_count machine.old.set.topo ≤ length before.now }
    requires at { IsAt machine.old k }
    requires turns { AreTurns machine.old turns.now }
    requires tiles { OnlyTilesOwe machine.old }
    requires before { AreTurnsBefore machine.old.set first k before.now }
    ensures set { machine.new.set ≡ machine.old.set }
    ensures at { OnOk result (IsAt machine.new (k + 1)) }
    ensures writes { Writes (K.sight out.old) (K.sight out.new)
        (flat_map (λ p. flat_map line_text (turn_lines machine.old.set first k p)) (range_with_len 0 (proc_count machine.old.set.topo))) result }
{
    // The set is asked for so that it is known to keep its rules.
    let _set = machine.set();
    'procs: for p in 0..machine.procs() {
        let turn = turns[p as usize];
        let earlier = before[p as usize];
        put_turn(machine, ProcId(p), turn, earlier, work, out)?;
    }
    Ok(())
}

// Makes turns those of the cycle before the next one.
fn remember(turns: &[Turn], before: &mut [Option<Turn>], many: usize)
    requires turns { many ≤ length turns.now }
    requires before { many ≤ length before.old }
    ensures { (p : ℕ) → p < many → slice_get before.new p ≡ option_map Some (slice_get turns.now p) }
{
    'procs: for p in 0..many {
        before[p] = Some(turns[p]);
    }
}

/// Writes the lines of cycle `k`, at which the machine stands, of a trace that begins with cycle `first`, and takes the
/// turns of the cycle. `before` has the turns of the cycle before, and then those of this one.
pub(crate) fn put_cycle<K: Sink>(
    machine: &mut Machine<'_>,
    first: u64,
    k: u64,
    before: &mut [Option<Turn>],
    work: &mut Workspace,
    out: &mut K,
) -> Result<(), Failed>
    requires many { proc_count machine.old.set.topo ≤ length before.old }
    requires at { IsAt machine.old k }
    requires begun { first ≤ k }
    requires before { AreTurnsBefore machine.old.set first k before.old }
    ensures set { machine.new.set ≡ machine.old.set }
    ensures at { OnOk result (IsAt machine.new (k + 1)) }
    ensures before { OnOk result (AreTurnsBefore machine.old.set first (k + 1) before.new) }
    ensures writes { Writes (K.sight out.old) (K.sight out.new)
        (flat_map line_text (cycle_lines machine.old.set first k)) result }
{
    // The set is asked for so that it is known to keep its rules.
    let _set = machine.set();
    let mut turns = [Turn::Stopped; MAX_PROCS];
    let procs = machine.procs() as usize;
    ask_all(machine, &mut turns);
    cycle_line(&mut work.line, k);
    put_line(&work.line, out)?;
    put_turns(machine, first, k, &turns, before, work, out)?;
    remember(&turns, before, procs);
    Ok(())
}
