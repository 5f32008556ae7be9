//! One list of steps from the logs of workers.
ghost use Rattle.std.specs.Prelude.{◌≡◌, ℕ, ◌<◌, ◌≤◌, true, false, [], length, slice_index_or, IfOk, OnErr, vec_len, vec_capacity};
ghost use Rattle.raw_model.specs.Serial.{IsJoined};
ghost use Rattle.raw_steps.specs.Taking.{numbers};
ghost use Rattle.raw_serial.specs.Leading.{HasTaken};
ghost use Rattle.raw_steps.specs.Weaving.{steps_in, AreInOrder, HaveLawfulJoining};
ghost use Rattle.raw_steps.specs.Left.{entries_of, count_in, CanBeWoven, IsWovenOn, BeginsIdle};

use crate::following::{follow, take_log};
use crate::log::PassLog;
use raw_grid::ProcId;
use raw_model::law_weaving;
use raw_serial::{Machine, law_taken};
use std::alloc::{AllocError, Global};

// An empty list with room for all entries of the logs.
fn room_for(alloc: Global, logs: &[PassLog]) -> Result<Vec<ProcId>, AllocError>
    ensures empty { IfOk result (λ list. list.items ≡ []) }
    ensures room { IfOk result (λ list. count_in (steps_in logs.now) ≤ vec_capacity list) }
{
    let mut entries = 0usize;
    for log in logs {
        entries = entries.checked_add(log.steps.len()).ok_or(AllocError)?;
    }
    Vec::with_capacity(alloc, entries)
}

// What is left of each log before anything is taken: all of it.
fn all_of<'a>(alloc: Global, logs: &'a [PassLog]) -> Result<Vec<&'a [ProcId]>, AllocError>
    ensures { IfOk result (λ left. entries_of left.items ≡ steps_in logs.now) }
{
    let mut left = Vec::new(alloc);
    for log in logs {
        left.push(log.steps.as_slice())?;
    }
    Ok(left)
}

// Takes from log w as long as its next entry is enabled; where it is not, from the logs that it waits for.
fn weave_log(
    m: &mut Machine<'_>,
    left: &mut [&[ProcId]],
    w: usize,
    awaited: &mut Vec<ProcId>,
    woven: &mut Vec<ProcId>,
)
    requires there { w < length left.old }
    requires can { CanBeWoven m.old (entries_of left.old) woven.old }
    ensures can { CanBeWoven m.new (entries_of left.new) woven.new }
    ensures on { IsWovenOn m.old m.new (entries_of left.old) (entries_of left.new)
        (numbers woven.old.items) (numbers woven.new.items) }
    // Where nothing was taken, the log does not go on.
    ensures idle { vec_len woven.new ≤ vec_len woven.old →
        BeginsIdle m.old.set m.old.state (slice_index_or (entries_of left.old) w []) }
{
    law_taken();
    let before = woven.len();
    take_log(m, left, w, woven);
    if woven.len() != before {
        return;
    }
    follow(m, left, w, awaited, woven);
}

// Goes over the logs, and says whether anything was taken.
fn round(
    m: &mut Machine<'_>,
    left: &mut [&[ProcId]],
    awaited: &mut Vec<ProcId>,
    woven: &mut Vec<ProcId>,
) -> bool
    requires can { CanBeWoven m.old (entries_of left.old) woven.old }
    ensures can { CanBeWoven m.new (entries_of left.new) woven.new }
    ensures on { IsWovenOn m.old m.new (entries_of left.old) (entries_of left.new)
        (numbers woven.old.items) (numbers woven.new.items) }
    ensures more { result ≡ true → vec_len woven.old < vec_len woven.new }
    ensures spent { result ≡ false → (w : ℕ) → slice_index_or (entries_of left.new) w [] ≡ [] }
{
    law_weaving();
    law_taken();
    let before = woven.len();
    for w in 0..left.len() {
        weave_log(m, left, w, awaited, woven);
    }
    woven.len() > before
}

/// One list of steps from the logs of workers, in which each step is enabled when its turn comes. The
/// machine takes it.
///
/// There has to be such a list: it is the one condition beside the order of the logs, and want of memory, which
/// leaves the machine as it was, the one refusal. All memory is taken before the first step.
///
/// It goes over the logs again and again, and takes from each as long as its next entry is enabled. Where a log waits
/// for a processor, that one's log goes on first, so that few entries are looked at more than once or twice. How
/// many looks it takes has no clause.
pub fn weave(
    alloc: Global,
    start: &mut Machine<'_>,
    logs: &[PassLog],
) -> Result<Vec<ProcId>, AllocError>
    requires order { AreInOrder logs.now }
    requires joining { HaveLawfulJoining start.old.set start.old.state (steps_in logs.now) }
    ensures joined { IfOk result (λ steps. IsJoined (numbers steps.items) (steps_in logs.now)) }
    ensures taken { IfOk result (λ steps. HasTaken start.old start.new (numbers steps.items)) }
    ensures unchanged { OnErr result (start.new ≡ start.old) }
{
    law_taken();
    let mut woven = room_for(alloc, logs)?;
    let mut left = all_of(alloc, logs)?;
    let mut awaited = Vec::with_capacity(alloc, logs.len())?;
    'rounds: while round(start, &mut left, &mut awaited, &mut woven) {}
    Ok(woven)
}
