//! The passes of a fabric that is being opened.
//!
//! Processors change places, and none is copied. A fabric that is opened moves each processor into its pass and leaves
//! a port without memory in its place; one that is closed moves it back. So closing takes no memory.
ghost use Rattle.std.specs.Prelude.{◌≡◌, ◌≢◌, ℕ, ◌+◌, ◌-◌, ◌*◌, ◌/◌, ◌%◌, ◌<◌, ◌≤◌, Some, [], length, slice_get, vec_len, vec_capacity};
ghost use Rattle.raw_grid.specs.declared.limits.TheConstants.{MAX_PROCS};
ghost use Rattle.raw_fabric_rule.specs.Opening.{share};
ghost use Rattle.raw_processor.specs.declared.processor.Processor.{Processor};
ghost use Rattle.raw_fabric.specs.Rooms.{AreRooms};
ghost use Rattle.raw_fabric.specs.Dealing.{HaveBefore, AreTaken, AreLeft, IsEmptyRoom, IsMadePass, IsFirstSeat, HaveDealt};

use crate::pass::{APART, Pass};
use crate::rooms::Room;
use raw_fabric_rule::{PassSeat, Words, Workers, split};
use raw_processor::{PortState, Processor};
use raw_steps::PassLog;
use std::alloc::Global;
use std::mem;

// A processor that stands in the place of one that a pass holds.
fn placeholder(alloc: Global) -> Processor {
    Processor::Source(PortState {
        done: 0,
        got: Vec::new(alloc),
    })
}

// Moves the processors of a worker out of those of the machine.
fn take_processors(
    alloc: Global,
    processors: &mut [Processor],
    own: &mut Vec<Processor>,
    worker: u32,
    workers: Workers,
)
    requires worker { worker < workers }
    requires few { length processors.old ≤ MAX_PROCS }
    requires empty { own.old.items ≡ [] }
    requires room { share (length processors.old) workers worker ≤ vec_capacity own.old }
    ensures taken { AreTaken workers worker processors.old own.new.items }
    ensures left { AreLeft workers worker processors.old processors.new }
{
    let n = workers.count();
    let count = (processors.len() as u32 + (n - 1) - worker) / n;
    for j in 0..count {
        let p = (worker + j * n) as usize;
        let processor = mem::replace(&mut processors[p], placeholder(alloc));
        own.push_reserved(processor);
    }
}

// The pass of a worker, with its processors moved out of those of the machine.
fn make_pass(
    alloc: Global,
    seat: PassSeat,
    worker: u32,
    workers: Workers,
    log_steps: u32,
    room: Room,
    processors: &mut [Processor],
) -> Pass
    requires few { length processors.old ≤ MAX_PROCS }
    requires room { IsEmptyRoom workers worker (length processors.old) room }
    ensures seat { result.seat ≡ seat }
    ensures made { IsMadePass workers worker log_steps room result }
    ensures taken { AreTaken workers worker processors.old result.processors.items }
    ensures left { AreLeft workers worker processors.old processors.new }
{
    let Room {
        processors: mut own,
        statuses,
        steps,
    } = room;
    take_processors(alloc, processors, &mut own, worker, workers);
    Pass {
        seat,
        workers,
        processors: own,
        statuses,
        log: PassLog { worker, steps },
        room: log_steps,
        apart: [0; APART],
    }
}

/// Gives each worker a pass, and the last one the seat itself. The rooms of the last workers come first.
pub(crate) fn deal(
    alloc: Global,
    words: &Words<'_>,
    mut seat: PassSeat,
    mut rooms: Vec<Room>,
    mut passes: Vec<Pass>,
    workers: Workers,
    log_steps: u32,
    processors: &mut [Processor],
) -> Vec<Pass>
    requires seat { IsFirstSeat words.now.key words.now.table_id seat workers }
    requires rooms { (vec_len rooms ≡ workers) × AreRooms words.now.key log_steps rooms.items }
    requires passes { (vec_len passes ≡ 0) × (workers ≤ vec_capacity passes) }
    requires processors { HaveBefore words.now.key processors.old }
    ensures dealt { HaveDealt words.now.key words.now.table_id workers log_steps processors.old processors.new result.items }
{
    let n = workers.count();
    for worker in 0..n - 1 {
        let Some(room) = rooms.pop() else {
            unreachable!()
        };
        let own = split(words, &mut seat);
        let pass = make_pass(alloc, own, worker, workers, log_steps, room, processors);
        passes.push_reserved(pass);
    }
    let Some(room) = rooms.pop() else {
        unreachable!()
    };
    let last = make_pass(alloc, seat, n - 1, workers, log_steps, room, processors);
    passes.push_reserved(last);
    passes
}
