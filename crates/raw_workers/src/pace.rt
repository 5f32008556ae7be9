//! Which way a machine is run for a while: by serial steps, or by how many workers. It has no meaning for the result.
//!
//! Serial steps run from the start, in pieces that double. After 20 milliseconds rounds of 4 and of 2 workers are due.
//! One that is due is tried in a short round of 4,096 steps a worker; a long one of 32,768, whose cost counts, follows
//! only where that took little more than its threads need to start. A round that has taken half as long again as the
//! fastest way would is called off: beside other programs a worker that gives up its core gets it back after
//! milliseconds, and the others wait for it. The way that is the fastest is taken, and its rounds double up to 262,144
//! steps a worker. A way that lost is due again after 32 times as long as its try took, then 64, up to 1,024 times, so
//! that tries cost little. Where one wins, serial steps are due again after 32 times as long as its try took, since
//! they may only have been held up. A round in which no log got full is followed by serial steps, since the machine is
//! likely to be at rest. The clock is std's; of all of this no clause speaks, and where the clock says nothing the run
//! is as right.
//!
//! Logs grow after the first round, from 4,096 to 262,144 steps. Most runs end in the first round, and in the others a
//! longer round starts fewer threads.
//!
//! Where the system puts threads decides how long workers take. A kernel that is started with `sched_vcpu_pack=15`, as
//! that of the machine on which this was measured, keeps threads that have just begun together on few cores. No worker
//! can change that.
ghost use Rattle.raw_workers.specs.Ways.{IsNextRun};

use crate::parallelism::Parallelism;
use crate::rounds::{FIRST_LOG_STEPS, LOG_STEPS};
use raw_fabric::Workers;
use std::rt::Clock;

// How many ways there are at most: alone, and by 64, 32, 16, 8, 4 or 2 workers.
const WAYS: usize = 7;

// How many steps are taken alone at a time, at first and at most.
const FEW_STEPS: u64 = 1 << 14;

const MANY_STEPS: u64 = 1 << 22;

// After how many nanoseconds workers are tried for the first time: what is done before then needs none.
const FIRST_TRY: u64 = 20_000_000;

// How many steps the logs have room for where workers are tried: first in a short round, since it may take long beside other
// programs, and then in one that is long enough for its cost to count.
const SHORT_TRY: u32 = 4_096;

const LONG_TRY: u32 = 32_768;

// A long try follows a short one where that took at most so many nanoseconds, in which threads start, and so many times
// as long as the fastest way takes for its steps.
const THREADS_START: u64 = 1_000_000;

const SLOWER: u64 = 2;

// How many times as long as a try took passes before the next one, where another way was faster: at first and at most.
const PATIENCE: u64 = 32;

const MOST_PATIENCE: u64 = 1024;

/// A way to run a machine for a while.
#[derive(Clone, Copy, PartialEq, Eq)]
pub(crate) enum NextRun {
    /// On the thread of the caller, for so many steps.
    Alone {
        most: u64,
    },
    /// By so many workers on one fabric, whose logs have room for so many steps, and for so many nanoseconds.
    Together {
        workers: Workers,
        log_steps: u32,
        within: u64,
    },
}

// What is known of a way.
#[derive(Clone, Copy)]
struct Tried {
    // How many workers; 1 stands for the thread of the caller, and 0 for no way at all.
    workers: u32,
    // How many nanoseconds 1,024 steps took, where it was tried.
    cost: Option<u64>,
    // When it is to be tried next while another way is faster, and how many times the length of that try passes then
    // before one more.
    due: u64,
    patience: u64,
}

/// The time, in nanoseconds. Where the clock says nothing it is 0.
pub(crate) fn time<R: Clock>(rt: &R) -> u64 {
    match rt.monotonic() {
        Ok(time) => time
            .as_secs()
            .saturating_mul(1_000_000_000)
            .saturating_add(u64::from(time.subsec_nanos())),
        Err(_) => 0,
    }
}

/// Which way a machine is run next.
#[derive(Drop)]
pub(crate) enum Pace {
    /// On the thread of the caller, to the end.
    Serial,
    /// By so many workers in each round, whose logs have room for so many steps in the next one.
    Steady { workers: Workers, log_steps: u32 },
    /// In the way that is the fastest.
    Adapting(Trials),
}

impl Pace {
    /// The beginning at this time.
    pub(crate) fn new(parallelism: Parallelism, time: u64) -> Pace {
        match parallelism {
            Parallelism::Exactly(workers) if workers.count() > 1 => Pace::Steady {
                workers,
                log_steps: FIRST_LOG_STEPS,
            },
            Parallelism::Exactly(_) => Pace::Serial,
            Parallelism::AtMost(most) => Pace::Adapting(Trials::new(most, time)),
        }
    }

    /// The way to run for a while from this time on.
    pub(crate) fn next(&mut self, time: u64) -> NextRun
        ensures { IsNextRun result }
    {
        match self {
            Pace::Serial => NextRun::Alone { most: u64::MAX },
            Pace::Steady { workers, log_steps } => {
                let way = NextRun::Together {
                    workers: *workers,
                    log_steps: *log_steps,
                    within: u64::MAX,
                };
                *log_steps = LOG_STEPS;
                way
            }
            Pace::Adapting(trials) => trials.next(time),
        }
    }

    /// Takes note of a run in the way that was next: its steps, whether it ended before it had to, and from when
    /// to when it took.
    pub(crate) fn took(&mut self, steps: u64, ends: bool, from: u64, to: u64) {
        if let Pace::Adapting(trials) = self {
            trials.took(steps, ends, from, to);
        }
    }
}

/// How fast a machine ran in each way.
///
/// The way that was the fastest so far is taken. Another one is tried when it is due: first for a short round, and where
/// that was not too slow for a long one, whose cost counts. Rounds of the fastest way get longer, as long as it is the
/// fastest. One that loses is due again after a multiple of the time that its try took, which grows with each loss, and
/// fewer workers are not due before it. Where one wins, the way that was the fastest is due again after a multiple of that
/// time, since it may have been held up, and fewer workers are not due before then.
#[derive(Drop)]
pub(crate) struct Trials {
    // The first is alone, and each of the others has half the workers of the one before it.
    ways: [Tried; WAYS],
    // The one that is taken now.
    now: usize,
    // How many steps are taken at a time alone, and how many each log of a full round has room for.
    steps: u64,
    log_steps: u32,
    // Whether no log of the last round was full: then the machine is likely to be at rest.
    ends: bool,
    // Whether workers are tried for a short while, and whether that was not too slow, and so they are tried again.
    short: bool,
    again: bool,
}

impl Trials {
    // The beginning at this time, for so many workers at most.
    fn new(most: Workers, time: u64) -> Trials {
        let due = time.saturating_add(FIRST_TRY);
        let mut ways = [Tried {
            workers: 1,
            cost: None,
            due,
            patience: PATIENCE,
        }; WAYS];
        let mut many = most.count();
        for way in ways.iter_mut().skip(1) {
            way.workers = if many > 1 { many } else { 0 };
            many /= 2;
        }
        Trials {
            ways,
            now: 0,
            steps: FEW_STEPS,
            log_steps: LONG_TRY,
            ends: false,
            short: false,
            again: false,
        }
    }

    // The fastest way of those that were tried.
    fn fastest(&self) -> usize {
        let mut fastest = 0;
        let mut least = u64::MAX;
        for (i, way) in self.ways.iter().enumerate() {
            if let Some(cost) = way.cost {
                if cost < least {
                    least = cost;
                    fastest = i;
                }
            }
        }
        fastest
    }

    // The first way that is to be tried at this time.
    fn first_due(&self, fastest: usize, time: u64) -> Option<usize> {
        for (i, way) in self.ways.iter().enumerate() {
            if i != fastest && way.due <= time && way.workers > 0 {
                return Some(i);
            }
        }
        None
    }

    // The number of the next way, from this time on.
    fn number_of_next(&self, fastest: usize, time: u64) -> usize {
        if self.ends {
            0
        } else if self.again {
            self.now
        } else {
            self.first_due(fastest, time).unwrap_or(fastest)
        }
    }

    // How many workers a way has, where it is not alone.
    fn workers_of(&self, i: usize) -> Option<Workers> {
        match self.ways.get(i) {
            Some(way) if way.workers > 1 => Workers::new(way.workers),
            _ => None,
        }
    }

    // The way to run for a while from this time on.
    fn next(&mut self, time: u64) -> NextRun
        ensures { IsNextRun result }
    {
        let fastest = self.fastest();
        let next = self.number_of_next(fastest, time);
        if next != 0 || self.now != 0 {
            self.steps = FEW_STEPS;
        }
        if next != self.now {
            self.log_steps = LONG_TRY;
        }
        self.short = next != 0 && next != fastest && !self.again;
        self.now = next;
        match self.workers_of(next) {
            Some(workers) => {
                let log_steps = if self.short {
                    SHORT_TRY
                } else {
                    self.log_steps
                };
                let steps = u64::from(log_steps) * u64::from(workers.count());
                NextRun::Together {
                    workers,
                    log_steps,
                    within: self.time_for(fastest, steps),
                }
            }
            None => NextRun::Alone {
                most: self.steps.clamp(FEW_STEPS, MANY_STEPS),
            },
        }
    }

    // What a way costs, as far as it is known.
    fn cost_of(&self, i: usize) -> u64 {
        match self.ways.get(i) {
            Some(way) => way.cost.unwrap_or(0),
            None => 0,
        }
    }

    // Takes note of what the way that is taken now cost. That of the fastest one is averaged.
    fn note_cost(&mut self, fastest: usize, cost: u64) {
        let now = self.now;
        if let Some(way) = self.ways.get_mut(now) {
            way.cost = match way.cost {
                Some(old) if now == fastest => Some(old - old / 4 + cost / 4),
                _ => Some(cost),
            };
        }
    }

    // A way is the fastest: where it loses later, the next try of it is not far off.
    fn reset_patience(&mut self, i: usize) {
        if let Some(way) = self.ways.get_mut(i) {
            way.patience = PATIENCE;
        }
    }

    // A way is not due before this time.
    fn defer(&mut self, i: usize, due: u64) {
        if let Some(way) = self.ways.get_mut(i) {
            way.due = way.due.max(due);
        }
    }

    // A way lost: it is tried again after many times as long as its try took, and fewer workers not before that.
    fn put_off(&mut self, i: usize, took: u64, to: u64) {
        let mut due = to;
        if let Some(way) = self.ways.get_mut(i) {
            due = to.saturating_add(took.saturating_mul(way.patience));
            way.due = due;
            way.patience = way.patience.saturating_mul(2).min(MOST_PATIENCE);
        }
        self.defer(i.saturating_add(1), due);
    }

    // After how many nanoseconds a round of so many steps has lost, and is called off.
    fn time_for(&self, fastest: usize, steps: u64) -> u64 {
        let expected = self.cost_of(fastest).saturating_mul(steps) / 1024;
        if self.short {
            THREADS_START.saturating_add(expected.saturating_mul(SLOWER))
        } else {
            expected.saturating_add(expected / 2)
        }
    }

    // Takes note of a run in the way that was next: its steps, whether it ended before it had to, and from when
    // to when it took.
    fn took(&mut self, steps: u64, ends: bool, from: u64, to: u64) {
        let before = self.fastest();
        let took = to.saturating_sub(from);
        let cost = took.saturating_mul(1024) / steps.max(1);
        self.ends = ends;
        self.again = self.short && !ends && took <= self.time_for(before, steps);
        if self.again {
            return;
        }
        self.steps = self.steps.saturating_mul(2);
        self.note_cost(before, cost);
        let now = self.now;
        if now == self.fastest() {
            self.log_steps = self.log_steps.saturating_mul(2).min(LOG_STEPS);
            self.reset_patience(now);
            if now != before {
                let due = to.saturating_add(took.saturating_mul(PATIENCE));
                self.defer(before, due);
                self.defer(now.saturating_add(1), due);
            }
        } else {
            self.log_steps = LONG_TRY;
            self.put_off(now, took, to);
        }
    }
}
