//! That the reader, the grid and the writer of live input run beside each other, and so do the threads that run the grid.
ghost use Rattle.std.specs.Prelude.{None};

use crate::failing::strings;
use crate::gates::Watch;
use raw_io::{Failed, MemSink, MemSource, Sink, Source};
use raw_live_run::live_main;
use std::alloc::Global;
use std::rt::Clock;
use std::sync::Wait;
use std::sync::atomic::{AtomicU64, Ordering};
use std::test::Fail;
use std::thread;
use std::thread::Threads;

/// How many turns a hold lasts at most.
const TURNS: u64 = 100_000_000;

/// How often the source lets the others go on, so that they wait for it.
const PAUSE: u64 = 100_000;

/// What the source and `out` tell each other.
#[derive(Drop)]
struct Signs {
    asked_again: AtomicU64,
    handed: AtomicU64,
}

// Waits for the sign, and answers how many turns that took.
fn hold(sign: &AtomicU64) -> u64 {
    for turn in 0..TURNS {
        if sign.load(Ordering::SeqCst) == 1 {
            return turn;
        }
        thread::yield_now();
    }
    TURNS
}

// Gives the others the time to wait.
fn pause() {
    for _ in 0..PAUSE {
        thread::yield_now();
    }
}

/// A source that gives its first bytes in one call, and whose next call ends only once `out` was handed a byte, and the
/// others have had the time to wait for what it gives.
#[derive(Drop)]
struct HeldSource<'a> {
    first: &'a [u8],
    rest: &'a [u8],
    calls: u64,
    given: usize,
    turns: u64,
    signs: &'a Signs,
}

impl<'a> Source for HeldSource<'a> {
    ghost sight = { λ s. record { left = None; faults = 0; given = s.given } };

    fn take(&mut self, buf: &mut [u8]) -> Result<usize, Failed> {
        self.calls = self.calls.saturating_add(1);
        if self.calls == 2 {
            self.signs.asked_again.store(1, Ordering::SeqCst);
            self.turns = hold(&self.signs.handed);
            pause();
        }
        let piece = if self.calls == 1 {
            self.first
        } else if self.calls == 2 {
            self.rest
        } else {
            &[]
        };
        let count = piece.len().min(buf.len()).min(usize::MAX - self.given);
        buf[..count].copy_from_slice(&piece[..count]);
        self.given += count;
        Ok(count)
    }
}

/// An `out` whose first call ends only once the source was asked again.
#[derive(Drop)]
struct HeldSink<'a> {
    inner: MemSink,
    calls: u64,
    turns: u64,
    signs: &'a Signs,
}

impl<'a> Sink for HeldSink<'a> {
    ghost sight = { λ s. record { bytes = None; faults = s.inner.faults } };

    fn put(&mut self, bytes: &[u8]) -> Result<usize, Failed> {
        self.calls = self.calls.saturating_add(1);
        if self.calls == 1 {
            self.signs.handed.store(1, Ordering::SeqCst);
            self.turns = hold(&self.signs.asked_again);
        }
        self.inner.put(bytes)
    }
}

// The grid and the writer wait while the source is held. One that does not wait gets no second word, and one that is not
// woken never ends.
#[test]
fn a_word_comes_out_before_the_next_line_is_there(rt: HostRuntime) -> Result<(), Fail> {
    let alloc = rt.alloc();
    let signs = Signs {
        asked_again: AtomicU64::new(0),
        handed: AtomicU64::new(0),
    };
    let mut source = HeldSource {
        first: b"grid 1 1\nlimit 10\nsource 1 0 0 W\nsink 1 0 0 E 2\nswitch 0 0\n1:W>E\n1:W>E\nhalt\nend\nlive\nput 1 0 0 W 3\n",
        rest: b"put 1 0 0 W 4\n",
        calls: 0,
        given: 0,
        turns: 0,
        signs: &signs,
    };
    let mut out = HeldSink {
        inner: MemSink::new(alloc, 100, Vec::new(alloc))?,
        calls: 0,
        turns: 0,
        signs: &signs,
    };
    let mut err = MemSink::new(alloc, 100, Vec::new(alloc))?;
    let watch = Watch::of(0);
    let status = live_main(&rt, alloc, &[], &mut source, &mut out, &mut err, &watch);
    assert!(rt; status == 0 && source.turns < TURNS && out.turns < TURNS);
    assert!(rt; out.inner.bytes() == b"got 3 00000003\ngot 3 00000004\nrest done\n".as_slice());
    Ok(())
}

/// Two tiles that count down from a word that comes: from 40,000 on that takes more steps than are taken before threads help.
const TWO: &[u8] = b"grid 2 1\nlimit 1000000\nsource 1 0 0 W\n\
    tile 0 0\naddu $5, $24, $0\nloop: addiu $5, $5, -1\nbne $5, $0, loop\nhalt\nend\n\
    tile 1 0\naddu $5, $24, $0\nloop: addiu $5, $5, -1\nbne $5, $0, loop\nhalt\nend\n\
    switch 0 0\n1:W>P 1:W>E\nhalt\nend\nswitch 1 0\n1:W>P\nhalt\nend\nlive\nput 1 0 0 W 50000\n";

/// Sixteen tiles that do so from the start.
const SIXTEEN: &[u8] = b"grid 4 4\nlimit 1000000\n\
    tile 0 0\nli $5, 40000\nloop: addiu $5, $5, -1\nbne $5, $0, loop\nhalt\nend\n\
    tile 1 0\nli $5, 40000\nloop: addiu $5, $5, -1\nbne $5, $0, loop\nhalt\nend\n\
    tile 2 0\nli $5, 40000\nloop: addiu $5, $5, -1\nbne $5, $0, loop\nhalt\nend\n\
    tile 3 0\nli $5, 40000\nloop: addiu $5, $5, -1\nbne $5, $0, loop\nhalt\nend\n\
    tile 0 1\nli $5, 40000\nloop: addiu $5, $5, -1\nbne $5, $0, loop\nhalt\nend\n\
    tile 1 1\nli $5, 40000\nloop: addiu $5, $5, -1\nbne $5, $0, loop\nhalt\nend\n\
    tile 2 1\nli $5, 40000\nloop: addiu $5, $5, -1\nbne $5, $0, loop\nhalt\nend\n\
    tile 3 1\nli $5, 40000\nloop: addiu $5, $5, -1\nbne $5, $0, loop\nhalt\nend\n\
    tile 0 2\nli $5, 40000\nloop: addiu $5, $5, -1\nbne $5, $0, loop\nhalt\nend\n\
    tile 1 2\nli $5, 40000\nloop: addiu $5, $5, -1\nbne $5, $0, loop\nhalt\nend\n\
    tile 2 2\nli $5, 40000\nloop: addiu $5, $5, -1\nbne $5, $0, loop\nhalt\nend\n\
    tile 3 2\nli $5, 40000\nloop: addiu $5, $5, -1\nbne $5, $0, loop\nhalt\nend\n\
    tile 0 3\nli $5, 40000\nloop: addiu $5, $5, -1\nbne $5, $0, loop\nhalt\nend\n\
    tile 1 3\nli $5, 40000\nloop: addiu $5, $5, -1\nbne $5, $0, loop\nhalt\nend\n\
    tile 2 3\nli $5, 40000\nloop: addiu $5, $5, -1\nbne $5, $0, loop\nhalt\nend\n\
    tile 3 3\nli $5, 40000\nloop: addiu $5, $5, -1\nbne $5, $0, loop\nhalt\nend\n\
    live\n";

/// Words, an input, and how many workers run the grid.
type Row = (&'static [&'static str], &'static [u8], u64);

static ROWS: [Row; 2] = [
    (&["--workers", "2"], TWO, 2),
    (&["--workers", "16"], SIXTEEN, 16),
];

// Whether the grid comes to rest, and each of its workers sees the others.
fn is_shared<R: Threads + Clock + Wait + Sync>(
    rt: &R,
    alloc: Global,
    row: &Row,
) -> Result<bool, Fail> {
    let words = strings(alloc, row.0)?;
    let mut source = MemSource::new(row.1.to_vec(alloc)?, Vec::new(alloc));
    let mut out = MemSink::new(alloc, 100, Vec::new(alloc))?;
    let mut err = MemSink::new(alloc, 100, Vec::new(alloc))?;
    let watch = Watch::of(row.2);
    let status = live_main(rt, alloc, &words, &mut source, &mut out, &mut err, &watch);
    let is_done = status == 0 && out.bytes() == b"rest done\n".as_slice();
    Ok(is_done && watch.seen()[0] == row.2)
}

#[test]
fn the_workers_of_a_grid_run_beside_each_other(rt: HostRuntime) -> Result<(), Fail> {
    for row in &ROWS {
        assert!(rt; is_shared(&rt, rt.alloc(), row)?);
    }
    Ok(())
}
