//! Rounds: a fabric is opened, driven by all workers, and closed.
//!
//! Each round takes the memory of its fabric anew, but that of the logs. What a fabric shares with the machine, its
//! processors and its wires, moves in and out and is not copied. A log of 262,144 steps is a megabyte. Where it was
//! taken anew, the system cleared its pages in each round, which took a sixth of a worker's time. So `Fabric::open` is
//! handed the logs of the round before, and makes its own in their memory.
ghost use Rattle.std.specs.Prelude.{◌≡◌, ◌≢◌, ℕ, true, false, None, List, [], slice_index_or, IfSome};
ghost use Rattle.raw_serial.specs.Leading.{HasTaken};
ghost use Rattle.raw_steps.specs.Weaving.{steps_in};
ghost use Rattle.raw_workers.specs.Rounds.{IsRound};

use crate::activity::Activity;
use crate::drive::{StepCounts, drive_all};
use raw_fabric::{Fabric, Gate, MAX_WORKERS, PassLog, Workers};
use raw_serial::{Machine, law_taken};
use std::alloc::Global;
use std::mem;
use std::rt::Clock;
use std::thread::Threads;

/// How many steps each log has room for in the first round. It is short: many runs end in it.
pub(crate) const FIRST_LOG_STEPS: u32 = 4_096;

/// How many steps each log has room for in later rounds. The longer they are, the fewer threads are started.
pub(crate) const LOG_STEPS: u32 = 262_144;

/// What rounds leave to later ones.
#[derive(Drop)]
pub(crate) struct Earlier {
    /// How many steps each worker has taken.
    pub(crate) told: StepCounts,
    /// The logs of the last round, in whose memory those of the next are made.
    pub(crate) logs: Vec<PassLog>,
}

impl Earlier {
    /// Before the first round.
    pub(crate) fn none(alloc: Global) -> Earlier {
        Earlier {
            told: [0; MAX_WORKERS as usize],
            logs: Vec::new(alloc),
        }
    }
}

// Adds the steps of a round to those that the workers had taken before.
fn count_up(told: &mut StepCounts, logs: &[PassLog]) {
    for (count, log) in told.iter_mut().zip(logs.iter()) {
        *count = count.saturating_add(log.steps.len() as u64);
    }
}

/// What the logs of a round came to. It has no meaning for the result.
#[derive(Clone, Copy, PartialEq, Eq)]
pub(crate) struct Tally {
    /// How many steps they have together.
    pub(crate) steps: u64,
    /// Whether one of them is full.
    pub(crate) full: bool,
}

impl Tally {
    /// That of no logs.
    pub(crate) fn none() -> Tally {
        Tally {
            steps: 0,
            full: false,
        }
    }

    /// That of logs with room for so many steps.
    pub(crate) fn of(logs: &[PassLog], log_steps: u32) -> Tally {
        let mut tally = Tally::none();
        for log in logs {
            tally.steps = tally.steps.saturating_add(log.steps.len() as u64);
            tally.full = tally.full || log.steps.len() >= log_steps as usize;
        }
        tally
    }
}

/// Whether a log has a step.
pub(crate) fn has_steps(logs: &[PassLog]) -> bool
    ensures some { result ≡ true → (w : ℕ) × (slice_index_or (steps_in logs.now) w [] ≢ []) }
    ensures none { result ≡ false → (w : ℕ) → slice_index_or (steps_in logs.now) w [] ≡ [] }
{
    for log in logs {
        if !log.steps.is_empty() {
            return true;
        }
    }
    false
}

/// One fabric, whose logs have room for so many steps, driven by all workers and closed: the machine then, and the logs
/// of the workers. Where there was no memory for a fabric there are no logs, and the machine is as it was. After the deadline,
/// in nanoseconds of the clock, each worker ends its part when it next looks at the clock.
pub(crate) fn round<'s, R: Threads + Clock + Sync, G: Gate>(
    rt: &R,
    alloc: Global,
    machine: Machine<'s>,
    workers: Workers,
    log_steps: u32,
    activity: &Activity,
    earlier: &mut Earlier,
    deadline: u64,
    gate: &G,
) -> (Machine<'s>, Option<Vec<PassLog>>)
    ensures set { result.0.set ≡ machine.entry.set }
    ensures taken { (steps : List ℕ) × HasTaken machine.entry result.0 steps }
    ensures round { IfSome result.1 (λ logs. IsRound machine.entry result.0 logs.items) }
    ensures none { result.1 ≡ None → result.0 ≡ machine.entry }
{
    law_taken();
    let set = machine.set();
    let old = mem::replace(&mut earlier.logs, Vec::new(alloc));
    match Fabric::open(alloc, machine, workers, log_steps, old) {
        Err((machine, _)) => (machine, None),
        Ok((fabric, mut passes)) => {
            drive_all(
                rt,
                &set.topo,
                &fabric,
                &mut passes,
                activity,
                &earlier.told,
                deadline,
                gate,
            );
            let (machine, logs) = fabric.close(passes);
            count_up(&mut earlier.told, &logs);
            (machine, Some(logs))
        }
    }
}
