//! A machine, run to its rest.
//!
//! A round that took no step is followed by a turn on the thread of the caller, whether it took stall turns or not.
//! That turn passes over stall turns, so it takes a step exactly where the machine is not quiet, and says so. No other
//! test of quiet is needed, and the steps that are left are measure enough for the end of a run. With enough memory it
//! finds nothing to do, since a fabric on which no step was taken shows each worker the true counts; no clause says so,
//! the tests of `raw_main` show it.
ghost use Rattle.std.specs.Prelude.{◌≡◌, ◌+◌, ◌<◌, ◌≤◌, false};
ghost use Rattle.raw_model.specs.Bounds.{all_left};
ghost use Rattle.raw_model.specs.Rest.{IsQuiet};
ghost use Rattle.raw_serial.specs.Leading.{Leads, HasRun};
ghost use Rattle.raw_workers.specs.Rounds.{HasAdvanced};

use crate::activity::Activity;
use crate::pace::{NextRun, Pace, time};
use crate::parallelism::Parallelism;
use crate::rounds::{Earlier, Tally, has_steps, round};
use crate::turns::serial_turn;
use raw_fabric::{Gate, Workers};
use raw_model::{law_bound, law_weaving};
use raw_serial::{Machine, law_taken};
use std::alloc::Global;
use std::rt::Clock;
use std::thread::Threads;

// A round, and where it took no step a turn on this thread. Says whether a step was taken; where none was, the machine
// is quiet. Says too what the logs of the round came to.
fn advance_together<'s, R: Threads + Clock + Sync, G: Gate>(
    rt: &R,
    alloc: Global,
    machine: Machine<'s>,
    workers: Workers,
    log_steps: u32,
    activity: &Activity,
    earlier: &mut Earlier,
    deadline: u64,
    gate: &G,
) -> (Machine<'s>, bool, Tally)
    ensures advanced { HasAdvanced machine.entry result.0 result.1 }
    ensures quiet { result.1 ≡ false → IsQuiet result.0.set result.0.state }
{
    law_taken();
    law_bound();
    law_weaving();
    let (mut machine, logs) = round(
        rt, alloc, machine, workers, log_steps, activity, earlier, deadline, gate,
    );
    let mut tally = Tally::none();
    if let Some(logs) = logs {
        tally = Tally::of(&logs, log_steps);
        if has_steps(&logs) {
            earlier.logs = logs;
            return (machine, true, tally);
        }
    }
    let steps = serial_turn(&mut machine);
    (machine, !steps.is_empty(), tally)
}

// Runs a machine on for a while, in the next way of the pace. Says whether a step was taken; where none was, the machine
// is quiet.
#[tactic(auto, using(raw_serial::proofs::Taking::run_some))]
fn advance<'s, R: Threads + Clock + Sync, G: Gate>(
    rt: &R,
    alloc: Global,
    machine: Machine<'s>,
    pace: &mut Pace,
    activity: &Activity,
    earlier: &mut Earlier,
    gate: &G,
) -> (Machine<'s>, bool)
    ensures advanced { HasAdvanced machine.entry result.0 result.1 }
    ensures quiet { result.1 ≡ false → IsQuiet result.0.set result.0.state }
{
    let from = time(rt);
    match pace.next(from) {
        NextRun::Alone { most } => {
            let mut machine = machine;
            let ran = machine.run_for(most);
            pace.took(ran.steps, false, from, time(rt));
            (machine, !ran.rests)
        }
        NextRun::Together {
            workers,
            log_steps,
            within,
        } => {
            let deadline = from.saturating_add(within);
            let (machine, fired, tally) = advance_together(
                rt, alloc, machine, workers, log_steps, activity, earlier, deadline, gate,
            );
            pace.took(tally.steps, !tally.full, from, time(rt));
            (machine, fired)
        }
    }
}

/// Runs a machine until it is quiet: by exactly so many workers, or by as many as help and at most so many.
///
/// Several workers run it in rounds. In each a fabric is opened, and each worker goes over its own processors, in a thread of
/// its own where one can be made, until its log is full, or two turns over them in a row found none that took a step or
/// a stall turn, or the round has taken so long that steps on one thread would have been faster, where nobody asked for
/// workers; then the fabric is closed. Where there was no memory for a fabric, or a round took no step, one turn
/// over all processors is taken on the thread of the caller; at the rest of the machine that turn finds nothing, and the
/// call returns. One worker is the serial machine on the thread of the caller, without a fabric.
///
/// No worker waits for another without end: a turn looks at the processors many times before it counts as one that found
/// nothing, and gives up its core in between, and a worker that found nothing in two turns ends its part of the
/// round. Which worker steps when, and which way is taken where that is free, has no clause. The gate is told of the steps
/// on a fabric alone. `work_in_rounds` says in how many rounds.
pub fn work<'s, R: Threads + Clock + Sync, G: Gate>(
    rt: &R,
    alloc: Global,
    machine: Machine<'s>,
    parallelism: Parallelism,
    gate: &G,
) -> Machine<'s>
    ensures set { result.set ≡ machine.entry.set }
    ensures quiet { IsQuiet result.set result.state }
    ensures led { Leads machine.entry.set machine.entry.state result.state }
    ensures ran { HasRun machine.entry result }
{
    let Worked { machine, rounds: _ } = work_in_rounds(rt, alloc, machine, parallelism, gate);
    machine
}

/// A machine that was run to its rest, and in how many rounds.
#[derive(Drop)]
pub struct Worked<'s> {
    /// The machine.
    pub machine: Machine<'s>,
    /// How often it was run on for a while: by all workers, each until it ended its part, or by so many steps on the thread of
    /// the caller. The last round found it at rest.
    pub rounds: u64,
}

/// The same as `work`, and in how many rounds: each but the last took a step, so there are at most as many as steps that
/// are left, and one.
pub fn work_in_rounds<'s, R: Threads + Clock + Sync, G: Gate>(
    rt: &R,
    alloc: Global,
    machine: Machine<'s>,
    parallelism: Parallelism,
    gate: &G,
) -> Worked<'s>
    ensures set { result.machine.set ≡ machine.entry.set }
    ensures quiet { IsQuiet result.machine.set result.machine.state }
    ensures led { Leads machine.entry.set machine.entry.state result.machine.state }
    ensures ran { HasRun machine.entry result.machine }
    ensures rounds { result.rounds ≤ all_left machine.entry.set machine.entry.state + 1 }
{
    let activity = Activity::new();
    let mut earlier = Earlier::none(alloc);
    let mut pace = Pace::new(parallelism, time(rt));
    let mut machine = machine;
    let mut count = 0u64;
    'rounds: loop {
        let (next, fired) = advance(rt, alloc, machine, &mut pace, &activity, &mut earlier, gate);
        machine = next;
        count = count.saturating_add(1);
        if !fired {
            return Worked {
                machine,
                rounds: count,
            };
        }
    }
}
