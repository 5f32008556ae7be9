//! The top call over streams in memory that fail: each call of the source and each of `out` in its turn, in pieces of 1 and
//! of 7 bytes. Beside pieces of 7 bytes, `err` takes nothing.
use crate::gates::Watch;
use raw_commands::raw_main;
use raw_io::{MemSink, MemSource};
use std::alloc::Global;
use std::process::Abort;
use std::rt::Clock;
use std::test::Fail;
use std::thread::Threads;

/// What the program is given.
#[derive(Drop)]
pub(crate) struct Trial<'t> {
    pub(crate) words: &'static [&'static str],
    pub(crate) input: &'t [u8],
    /// How many bytes a call of the source gives, and one of `out` takes.
    pub(crate) piece: u32,
    /// The call of the source that fails.
    pub(crate) read_fails: Option<u32>,
    /// The call of `out` that fails.
    pub(crate) write_fails: Option<u32>,
    /// How many bytes `err` takes.
    pub(crate) err_room: u32,
}

/// What the program did.
#[derive(Drop)]
pub(crate) struct Seen {
    pub(crate) status: u8,
    pub(crate) out: MemSink,
    pub(crate) err: MemSink,
}

/// The words as a program is given them.
pub(crate) fn strings(alloc: Global, words: &[&str]) -> Result<Vec<String>, Fail> {
    let mut strings = Vec::new(alloc);
    for word in words {
        strings.push(String::from_str(alloc, word)?)?;
    }
    Ok(strings)
}

// The call that fails, where one does, in a list.
fn calls_of(alloc: Global, fails: Option<u32>) -> Result<Vec<u32>, Fail> {
    let mut calls = Vec::new(alloc);
    if let Some(call) = fails {
        calls.push(call)?;
    }
    Ok(calls)
}

/// What the program does in a trial, with this gate.
pub(crate) fn tried<R: Threads + Clock + Sync>(
    rt: &R,
    alloc: Global,
    trial: &Trial<'_>,
    watch: &Watch,
) -> Result<Seen, Fail> {
    let piece = trial.piece;
    if piece == 0 {
        return Err("a piece has a byte".into());
    }
    let words = strings(alloc, trial.words)?;
    let input = trial.input.to_vec(alloc)?;
    let mut source = MemSource::pieces(input, calls_of(alloc, trial.read_fails)?, piece);
    let mut out = MemSink::pieces(alloc, 400_000, calls_of(alloc, trial.write_fails)?, piece)?;
    let mut err = MemSink::new(alloc, trial.err_room, Vec::new(alloc))?;
    let status = raw_main(rt, alloc, &words, &mut source, &mut out, &mut err, watch);
    Ok(Seen { status, out, err })
}

const ADDS_AND_HALTS: &[u8] =
    b"grid 1 1\nlimit 10\ntile 0 0\n.word 0x24050007\n.word 0x7000003f\nend\n";

const ADDS_AND_HALTS_REPORT: &[u8] = b"outcome done\n\
    tile 0 0 halted count 2 pc 1\n\
    regs 0 00000000 00000000 00000000 00000000 00000000 00000007 00000000 00000000\n\
    regs 8 00000000 00000000 00000000 00000000 00000000 00000000 00000000 00000000\n\
    regs 16 00000000 00000000 00000000 00000000 00000000 00000000 00000000 00000000\n\
    regs 24 00000000 00000000 00000000 00000000 00000000 00000000 00000000 00000000\n\
    switch 0 0 halted count 0 pc 0 regs 00000000 00000000 00000000 00000000\n\
    stall 0 0 misses 0 turns 0\n";

/// The image of this set.
const ADDS_AND_HALTS_IMAGE: &[u8] = b"RAWT\0\0\0\x02\x01\x01\x04\0\0\0\0\x0a\0\0\0\0\0\0\0\x02\
    \x24\x05\0\x07\x70\0\0\x3f\0\0\0\0\0\0\0\0\0\0\0\0\0\0\0\0";

/// Its image in version 1.
const FIRST_VERSION: &[u8] = b"RAWT\0\0\0\x01\x01\x01\0\0\0\0\0\x0a\0\0\0\0\0\0\0\x02\
    \x24\x05\0\x07\x70\0\0\x3f\0\0\0\0\0\0\0\0\0\0\0\0";

const LISTING: &[u8] = b"grid 1 1\nlimit 10\ntile 0 0\naddiu $5, $0, 7\nhalt\nend\n";

/// A tile that takes two values of one network in one instruction: tile 0, switch 1, source 2.
pub(crate) const TWO_VALUES: &[u8] =
    b"grid 1 1\nlimit 10\nsource 1 0 0 W\nfeed 1 0 0 W 3 4\ntile 0 0\naddu $5, $24, $24\nhalt\nend\nswitch 0 0\n1:W>P\n1:W>P\nhalt\nend\n";

pub(crate) const TWO_VALUES_REPORT: &[u8] = b"outcome done\n\
    source 1 0 0 W spent sent 2\n\
    tile 0 0 halted count 2 pc 1\n\
    regs 0 00000000 00000000 00000000 00000000 00000000 00000007 00000000 00000000\n\
    regs 8 00000000 00000000 00000000 00000000 00000000 00000000 00000000 00000000\n\
    regs 16 00000000 00000000 00000000 00000000 00000000 00000000 00000000 00000000\n\
    regs 24 00000000 00000000 00000000 00000000 00000000 00000000 00000000 00000000\n\
    switch 0 0 halted count 3 pc 2 regs 00000000 00000000 00000000 00000000\n\
    stall 0 0 misses 0 turns 0\n";

/// The same set with a lawful list of its steps.
const TWO_VALUES_HISTORY: &[u8] =
    b"grid 1 1\nlimit 10\nsource 1 0 0 W\nfeed 1 0 0 W 3 4\ntile 0 0\naddu $5, $24, $24\nhalt\nend\nswitch 0 0\n1:W>P\n1:W>P\nhalt\nend\nhistory\n2\n2\n1\n1\n1\n0\n0\n";

/// A command, its input, and what it writes where nothing fails.
type Row = (&'static [&'static str], &'static [u8], &'static [u8]);

static ROWS: [Row; 5] = [
    (&["run"], ADDS_AND_HALTS, ADDS_AND_HALTS_REPORT),
    (&["run"], TWO_VALUES, TWO_VALUES_REPORT),
    (&["asm"], ADDS_AND_HALTS, ADDS_AND_HALTS_IMAGE),
    (&["list"], FIRST_VERSION, LISTING),
    (&["check"], TWO_VALUES_HISTORY, b"lawful 7\n"),
];

/// More calls than any stream here has.
const CALLS: u32 = 2_000;

// Whether a run did what it has to where this call of the source failed, or of `out`. Then `out` holds a front of what is
// due, and no call before the one that failed was without a byte.
fn is_told(seen: &Seen, due: &[u8], call: u32, of_source: bool, err_room: u32) -> bool {
    let (out, err) = (seen.out.bytes(), seen.err.bytes());
    let (status, line): (u8, &[u8]) = if of_source {
        (7, b"read fault\n")
    } else {
        (8, b"write fault\n")
    };
    let is_front = if of_source {
        out.is_empty()
    } else {
        due.starts_with(out) && out.len() >= call as usize
    };
    let is_line = if err_room == 0 {
        err.is_empty()
    } else {
        err == line
    };
    seen.status == status && is_front && is_line
}

// How many calls of the source, or of `out`, there are: each failed in its turn, and the run behind the last one wrote all.
fn calls<R: Threads + Clock + Sync + Abort>(
    rt: &R,
    alloc: Global,
    row: &Row,
    piece: u32,
    of_source: bool,
) -> Result<usize, Fail> {
    let (words, input, due) = *row;
    let err_room = if piece == 1 { 100 } else { 0 };
    for call in 0..CALLS {
        let trial = Trial {
            words,
            input,
            piece,
            read_fails: if of_source { Some(call) } else { None },
            write_fails: if of_source { None } else { Some(call) },
            err_room,
        };
        let seen = tried(rt, alloc, &trial, &Watch::of(0))?;
        if seen.status == 0 {
            assert!(rt; seen.out.bytes() == due && seen.err.bytes().is_empty());
            return Ok(call as usize);
        }
        assert!(rt; is_told(&seen, due, call, of_source, err_room));
    }
    Err("no run without a failure".into())
}

#[test]
fn each_call_of_a_stream_fails(rt: HostRuntime) -> Result<(), Fail> {
    for row in &ROWS {
        for piece in [1, 7] {
            // Each call of the source gives a piece, and one more finds the end.
            let reads = calls(&rt, rt.alloc(), row, piece, true)?;
            assert!(rt; reads.saturating_mul(piece as usize) > row.1.len());
            let writes = calls(&rt, rt.alloc(), row, piece, false)?;
            assert!(rt; writes.saturating_mul(piece as usize) >= row.2.len());
        }
    }
    Ok(())
}
