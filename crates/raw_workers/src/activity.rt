//! What the workers of a round know of each other. It has no meaning for the result.
//!
//! How often a worker looks goes by what the workers know of each other. In the first of two turns it looks 64 times.
//! Before the second it says that it rests. In that turn it looks 4,096 times while another one does not rest, and else
//! 64 times, so that the end of a run is soon found. Once a log is full it looks no more, since the others will soon be
//! out of work too. Where in the round before no two workers were at work at once, as where threads run one after
//! another, it looks 64 times. All of that is counted in steps of a loop and not in time, each loop has its end, and
//! nothing of it has a meaning for the result.

use std::sync::atomic::{AtomicBool, AtomicU64, AtomicUsize, Ordering};

/// How often a worker that finds nothing looks at its processors while others have something to do: about as long as
/// these take for a full log.
pub(crate) const MANY_LOOKS: u32 = 4096;

/// How often it looks before it counts as one that rests: a step of another worker takes a few looks to be seen.
const FEW_LOOKS: u32 = 64;

/// How far the workers of a round have come.
#[derive(Drop)]
pub(crate) struct Activity {
    /// How many have begun their part, and how many have ended it.
    begun: AtomicUsize,
    ended: AtomicUsize,
    /// How many have found nothing for a while, with those that have ended their part for that.
    resting: AtomicUsize,
    /// Whether the log of one is full: then the round is about to end.
    full: AtomicBool,
    /// Whether two of them were at work at once.
    met: AtomicBool,
    /// Whether no two were in the round before this one. Then there may be no threads, and they run one after another.
    apart: AtomicBool,
    /// The time, in nanoseconds, after which the round is called off.
    deadline: AtomicU64,
    /// Whether it was called off.
    over: AtomicBool,
}

impl Activity {
    /// Workers before their first round.
    pub(crate) fn new() -> Activity {
        Activity {
            begun: AtomicUsize::new(0),
            ended: AtomicUsize::new(0),
            resting: AtomicUsize::new(0),
            full: AtomicBool::new(false),
            met: AtomicBool::new(true),
            apart: AtomicBool::new(false),
            deadline: AtomicU64::new(u64::MAX),
            over: AtomicBool::new(false),
        }
    }

    /// Nobody has begun the next round, which is called off after this time. It is called while no worker is at work.
    pub(crate) fn reset(&self, deadline: u64) {
        self.deadline.store(deadline, Ordering::Relaxed);
        self.over.store(false, Ordering::Relaxed);
        self.begun.store(0, Ordering::Relaxed);
        self.ended.store(0, Ordering::Relaxed);
        self.resting.store(0, Ordering::Relaxed);
        self.full.store(false, Ordering::Relaxed);
        let met = self.met.load(Ordering::Relaxed);
        self.apart.store(!met, Ordering::Relaxed);
        self.met.store(false, Ordering::Relaxed);
    }

    /// A worker begins.
    pub(crate) fn begin(&self) {
        let others = self.begun.fetch_add(1, Ordering::Relaxed);
        if self.ended.load(Ordering::Relaxed) < others {
            self.met.store(true, Ordering::Relaxed);
        }
    }

    /// A worker ends its part, with a full log or because it found nothing.
    pub(crate) fn end(&self, full: bool) {
        if full {
            self.full.store(true, Ordering::Relaxed);
        }
        self.ended.fetch_add(1, Ordering::Relaxed);
    }

    /// A worker has found nothing for a while.
    pub(crate) fn rest(&self) {
        self.resting.fetch_add(1, Ordering::Relaxed);
    }

    /// A worker that rested has found something.
    pub(crate) fn resume(&self) {
        self.resting.fetch_sub(1, Ordering::Relaxed);
    }

    /// A worker says what time it is.
    pub(crate) fn note_time(&self, time: u64) {
        if time > self.deadline.load(Ordering::Relaxed) {
            self.over.store(true, Ordering::Relaxed);
        }
    }

    /// Whether the round was called off.
    pub(crate) fn is_over(&self) -> bool {
        self.over.load(Ordering::Relaxed)
    }

    /// How often one of so many workers had best look, in a turn in which it finds nothing.
    pub(crate) fn looks(&self, workers: u32, rests: bool) -> u32 {
        if workers == 1 || self.is_over() || self.full.load(Ordering::Relaxed) {
            return 1;
        }
        let others = self.resting.load(Ordering::Relaxed) < workers as usize;
        if rests && others && !self.apart.load(Ordering::Relaxed) {
            MANY_LOOKS
        } else {
            FEW_LOOKS
        }
    }
}
