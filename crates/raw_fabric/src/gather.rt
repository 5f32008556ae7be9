//! The passes of a fabric that is being closed.
ghost use Rattle.std.specs.Prelude.{◌≡◌, ℕ, ◌+◌, ◌*◌, ◌<◌, ◌≤◌, length, slice_set, vec_len};
ghost use Rattle.raw_fabric_rule.specs.Opening.{share};
ghost use Rattle.raw_fabric.specs.Closed.{ArePutBack, AreKept, AreGathered, GatherStands};

use crate::pass::Pass;
use raw_fabric_rule::{PassSeat, Words, Workers, join};
use raw_processor::Processor;
use raw_steps::PassLog;
use std::mem;

// Puts the processors of a worker into their places.
fn put_back(processors: &mut [Processor], mut own: Vec<Processor>, worker: u32, workers: Workers)
    requires worker { worker < workers }
    requires many { vec_len own ≡ share (length processors.old) workers worker }
    ensures { ArePutBack workers worker own.items processors.old processors.new }
{
    let n = workers.count();
    while let Some(processor) = own.pop() {
        let p = worker as usize + own.len() * n as usize;
        drop(mem::replace(&mut processors[p], processor));
    }
}

// Takes a pass apart: its processors and its log go to their places, and its seat is the answer.
fn take_apart(pass: Pass, processors: &mut [Processor], logs: &mut [PassLog]) -> PassSeat
    requires worker { (pass.log.worker < pass.workers) × (pass.log.worker < length logs.old) }
    requires many { vec_len pass.processors ≡ share (length processors.old) pass.workers pass.log.worker }
    ensures seat { result ≡ pass.seat }
    ensures logs { logs.new ≡ slice_set logs.old pass.log.worker pass.log }
    ensures processors { ArePutBack pass.workers pass.log.worker pass.processors.items processors.old processors.new }
{
    let Pass {
        seat,
        workers,
        processors: own,
        statuses: _,
        log,
        room: _,
        apart: _,
    } = pass;
    let worker = log.worker;
    put_back(processors, own, worker, workers);
    logs[worker as usize] = log;
    seat
}

/// Joins the seats of all passes into one. Their processors and logs go to their places.
pub(crate) fn gather(
    words: &Words<'_>,
    mut passes: Vec<Pass>,
    processors: &mut [Processor],
    logs: &mut [PassLog],
) -> PassSeat
    requires stands { GatherStands words.now.key words.now.table_id passes.items processors.old logs.old }
    ensures seat { result.table_id ≡ words.now.table_id }
    ensures gathered { AreGathered words.now.key 0 result.me.0 processors.new logs.new }
    ensures kept { AreKept words.now.key.workers passes.items processors.new logs.new }
{
    let Some(last) = passes.pop() else {
        unreachable!()
    };
    let mut keeper = take_apart(last, processors, logs);
    while let Some(pass) = passes.pop() {
        let own = take_apart(pass, processors, logs);
        join(words, &mut keeper, own);
    }
    keeper
}
