//! What a pass needs, made before there is a table.
ghost use Rattle.std.specs.Prelude.{◌≡◌, ℕ, ◌+◌, ◌-◌, ◌*◌, ◌/◌, ◌<◌, ◌≤◌, [], IfOk, vec_len, vec_capacity};
ghost use Rattle.raw_fabric_rule.specs.ByEnds.{procs};
ghost use Rattle.raw_fabric_rule.specs.Opening.{share};
ghost use Rattle.raw_fabric.specs.Laying.{HasWords};
ghost use Rattle.raw_fabric.specs.Opened.{about_before};
ghost use Rattle.raw_fabric.specs.Rooms.{HaveStatuses, IsRoom, AreRooms};

use raw_fabric_rule::{STRIDE, Workers};
use raw_grid::ProcId;
use raw_processor::Processor;
use raw_serial::Machine;
use raw_steps::PassLog;
use std::alloc::{AllocError, Global};

/// The memory of a pass.
#[derive(Drop)]
pub(crate) struct Room {
    pub(crate) processors: Vec<Processor>,
    pub(crate) statuses: Vec<u64>,
    pub(crate) steps: Vec<ProcId>,
}

// The status words of the processors of a worker.
fn statuses_of(
    alloc: Global,
    machine: &Machine<'_>,
    workers: Workers,
    words: &[u64],
    worker: u32,
) -> Result<Vec<u64>, AllocError>
    requires words { HasWords machine.now.set machine.now.state words.now }
    requires worker { worker < workers }
    ensures many { IfOk result (λ statuses. vec_len statuses ≡ share (procs machine.now.set) workers worker) }
    ensures statuses { IfOk result (λ statuses. HaveStatuses (about_before machine.now workers) worker statuses.items) }
{
    let n = workers.count();
    let count = (machine.procs() + (n - 1) - worker) / n;
    // What is left over keeps the words of two workers apart, as in a pass.
    let mut statuses = Vec::with_capacity(alloc, count as usize + STRIDE as usize)?;
    for j in 0..count {
        let p = worker + j * n;
        statuses.push_reserved(words[STRIDE as usize * p as usize]);
    }
    Ok(statuses)
}

// An empty log with room for so many steps: in the memory of an old one, where that is enough.
fn empty_log(alloc: Global, old: Option<PassLog>, log_steps: u32) -> Result<Vec<ProcId>, AllocError>
    ensures empty { IfOk result (λ steps. steps.items ≡ []) }
    ensures room { IfOk result (λ steps. log_steps ≤ vec_capacity steps) }
{
    let Some(old) = old else {
        return Vec::with_capacity(alloc, log_steps as usize);
    };
    let mut steps = old.steps;
    if steps.capacity() < log_steps as usize {
        return Vec::with_capacity(alloc, log_steps as usize);
    }
    steps.clear();
    Ok(steps)
}

// The memory of the pass of a worker. Its log may be in the memory of an old one.
fn make_room(
    alloc: Global,
    machine: &Machine<'_>,
    workers: Workers,
    log_steps: u32,
    words: &[u64],
    worker: u32,
    old: Option<PassLog>,
) -> Result<Room, AllocError>
    requires words { HasWords machine.now.set machine.now.state words.now }
    requires worker { worker < workers }
    ensures { IfOk result (IsRoom (about_before machine.now workers) log_steps worker) }
{
    let statuses = statuses_of(alloc, machine, workers, words, worker)?;
    let processors = Vec::with_capacity(alloc, statuses.len())?;
    let steps = empty_log(alloc, old, log_steps)?;
    Ok(Room {
        processors,
        statuses,
        steps,
    })
}

/// The memory of the pass of each worker, that of the last first. Logs are made in the memory of old ones, as far as these
/// have room.
pub(crate) fn make_rooms(
    alloc: Global,
    machine: &Machine<'_>,
    workers: Workers,
    log_steps: u32,
    words: &[u64],
    mut old: Vec<PassLog>,
) -> Result<Vec<Room>, AllocError>
    requires words { HasWords machine.now.set machine.now.state words.now }
    ensures many { IfOk result (λ rooms. vec_len rooms ≡ workers) }
    ensures rooms { IfOk result (λ rooms. AreRooms (about_before machine.now workers) log_steps rooms.items) }
{
    let n = workers.count();
    let mut rooms = Vec::with_capacity(alloc, n as usize)?;
    for i in 0..n {
        let log = old.pop();
        let room = make_room(alloc, machine, workers, log_steps, words, n - 1 - i, log)?;
        rooms.push_reserved(room);
    }
    Ok(rooms)
}
