//! Commands whose gate sees the threads: that workers run beside each other, and that each step on a fabric is told.
use crate::failing::{TWO_VALUES, Trial, tried};
use raw_generated::{GeneratedWords, make_set};
use raw_set_text::list_set;
use raw_workers::Gate;
use std::alloc::Global;
use std::rt::Clock;
use std::sync::atomic::{AtomicU64, Ordering};
use std::test::Fail;
use std::thread;
use std::thread::Threads;

/// How often a worker that is held looks for the others.
const LOOKS: u64 = 100_000_000;

/// Holds each worker after its first step until so many have taken one, and keeps the last counts of the first four.
#[derive(Drop)]
pub(crate) struct Watch {
    workers: u64,
    /// How many first steps were told.
    told: AtomicU64,
    /// How many workers went on since they had seen the others, and not since they had looked as often as they may.
    met: AtomicU64,
    counts: [AtomicU64; 4],
}

impl Watch {
    pub(crate) fn of(workers: u64) -> Self {
        Watch {
            workers,
            told: AtomicU64::new(0),
            met: AtomicU64::new(0),
            counts: [
                AtomicU64::new(0),
                AtomicU64::new(0),
                AtomicU64::new(0),
                AtomicU64::new(0),
            ],
        }
    }

    /// How many workers saw the others, and the last counts.
    pub(crate) fn seen(&self) -> [u64; 5] {
        [
            self.met.load(Ordering::SeqCst),
            self.counts[0].load(Ordering::SeqCst),
            self.counts[1].load(Ordering::SeqCst),
            self.counts[2].load(Ordering::SeqCst),
            self.counts[3].load(Ordering::SeqCst),
        ]
    }

    fn hold(&self) {
        for _ in 0..LOOKS {
            if self.told.load(Ordering::SeqCst) >= self.workers {
                self.met.fetch_add(1, Ordering::SeqCst);
                return;
            }
            thread::yield_now();
        }
    }
}

impl Gate for Watch {
    fn fired(&self, worker: u32, count: u64) {
        if let Some(last) = self.counts.get(worker as usize) {
            last.store(count, Ordering::SeqCst);
        }
        if count == 1 {
            self.told.fetch_add(1, Ordering::SeqCst);
            self.hold();
        }
    }
}

/// Two tiles that each take two steps, and need nothing of each other.
const TILES: &[u8] =
    b"grid 2 1\nlimit 10\ntile 0 0\nli $5, 7\nhalt\nend\ntile 1 0\nli $5, 7\nhalt\nend\n";

/// Words, an input, how many workers each is held for, and what is seen. None is held where a first step needs that of
/// another worker: one that finds nothing for a while ends its part of the round.
type Row = (&'static [&'static str], &'static [u8], u64, [u64; 5]);

static ROWS: [Row; 7] = [
    (&["run", "--workers", "2"], TILES, 2, [2, 2, 2, 0, 0]),
    (&["picture", "--workers", "2"], TILES, 2, [2, 2, 2, 0, 0]),
    (&["history", "--workers", "2"], TILES, 2, [2, 2, 2, 0, 0]),
    (
        &["work", "3", "--workers", "2"],
        b"",
        2,
        [2, 163, 163, 0, 0],
    ),
    (
        &["work", "3", "--workers", "16"],
        b"",
        16,
        [16, 23, 23, 20, 20],
    ),
    (&["run", "--workers", "2"], TWO_VALUES, 0, [2, 4, 3, 0, 0]),
    (
        &["history", "--workers", "2"],
        TWO_VALUES,
        0,
        [2, 4, 3, 0, 0],
    ),
];

// The status of the program with these words on this input, and what is seen where each of so many workers is held.
fn watched<R: Threads + Clock + Sync>(
    rt: &R,
    alloc: Global,
    words: &'static [&'static str],
    input: &[u8],
    workers: u64,
) -> Result<(u8, [u64; 5]), Fail> {
    let watch = Watch::of(workers);
    let trial = Trial {
        words,
        input,
        piece: 400_000,
        read_fails: None,
        write_fails: None,
        err_room: 100,
    };
    let seen = tried(rt, alloc, &trial, &watch)?;
    Ok((seen.status, watch.seen()))
}

#[test]
fn workers_run_beside_each_other_and_tell_each_step(rt: HostRuntime) -> Result<(), Fail> {
    for (words, input, held, due) in &ROWS {
        assert!(rt; watched(&rt, rt.alloc(), words, input, *held)? == (0, *due));
    }
    Ok(())
}

/// By four workers, over the set of a thousand words.
static COMMANDS: [&[&str]; 2] = [&["run", "--workers", "4"], &["history", "--workers", "4"]];

// Each worker takes more steps than a log holds.
#[test]
fn several_fabrics_in_one_run(rt: HostRuntime) -> Result<(), Fail> {
    let alloc = rt.alloc();
    let Some(words) = GeneratedWords::new(1000) else {
        return Err("no such number of words".into());
    };
    let Ok(set) = make_set(alloc, words) else {
        return Err("no set".into());
    };
    let listing = list_set(alloc, &set)?;
    for words in &COMMANDS {
        let due = [4, 21_020, 21_020, 20_020, 20_020];
        assert!(rt; watched(&rt, alloc, words, &listing, 4)? == (0, due));
    }
    Ok(())
}
