//! Logs that go on until another log no longer waits for them.
ghost use Rattle.std.specs.Prelude.{◌≡◌, ◌+◌, ◌-◌, ◌*◌, ◌<◌, ◌≤◌, true, [], length, slice_index_or, vec_len, vec_capacity};
ghost use Rattle.raw_grid.specs.Topology.{proc_count};
ghost use Rattle.raw_steps.specs.Taking.{numbers, AreThere};
ghost use Rattle.raw_steps.specs.Left.{entries_of, count_in, CanBeWoven, IsWovenOn, BeginsIdle};

use crate::taking::take_from;
use raw_grid::ProcId;
use raw_model::law_weaving;
use raw_serial::{Machine, law_taken};

// Takes from log w as long as its next entry is enabled.
pub(crate) fn take_log(
    m: &mut Machine<'_>,
    left: &mut [&[ProcId]],
    w: usize,
    woven: &mut Vec<ProcId>,
)
    requires there { w < length left.old }
    requires can { CanBeWoven m.old (entries_of left.old) woven.old }
    ensures can { CanBeWoven m.new (entries_of left.new) woven.new }
    ensures on { IsWovenOn m.old m.new (entries_of left.old) (entries_of left.new)
        (numbers woven.old.items) (numbers woven.new.items) }
    // Where it took nothing, the log does not go on.
    ensures idle { vec_len woven.new ≤ vec_len woven.old →
        BeginsIdle m.old.set m.old.state (slice_index_or (entries_of left.old) w []) }
{
    law_weaving();
    // The set is asked for so that it is known to keep its rules, and the number of processors so that each
    // is known to have a local state.
    let _set = m.set();
    let _procs = m.procs();
    left[w] = take_from(m, left[w], woven);
}

// Adds the processor that a log's next entry waits for to those that are awaited, if there is one, and room
// for it.
fn wait_for_next(m: &Machine<'_>, log: &[ProcId], awaited: &mut Vec<ProcId>) -> bool
    requires { AreThere (proc_count m.now.set.topo) log.now }
    ensures one_more { result ≡ true → vec_len awaited.new ≡ vec_len awaited.old + 1 }
    ensures capacity { vec_capacity awaited.new ≡ vec_capacity awaited.old }
{
    let Some(p) = log.first() else {
        return false;
    };
    let Some(wait) = m.first_wait(*p) else {
        return false;
    };
    if awaited.len() == awaited.capacity() {
        return false;
    }
    awaited.push_reserved(wait.on);
    true
}

// Lets the log of the processor that is awaited last go on. Where that one steps, it is awaited no more; where its
// log waits for another, that one is awaited too. It says whether there is more to do.
fn advance(
    m: &mut Machine<'_>,
    left: &mut [&[ProcId]],
    awaited: &mut Vec<ProcId>,
    woven: &mut Vec<ProcId>,
) -> bool
    requires some_log { 0 < length left.old }
    requires can { CanBeWoven m.old (entries_of left.old) woven.old }
    ensures can { CanBeWoven m.new (entries_of left.new) woven.new }
    ensures on { IsWovenOn m.old m.new (entries_of left.old) (entries_of left.new)
        (numbers woven.old.items) (numbers woven.new.items) }
    ensures less { result ≡ true → 2 * count_in (entries_of left.new) + (vec_capacity awaited.new - vec_len awaited.new)
        < 2 * count_in (entries_of left.old) + (vec_capacity awaited.old - vec_len awaited.old) }
{
    let Some(p) = awaited.last().copied() else {
        return false;
    };
    let before = woven.len();
    let w = p.0 as usize % left.len();
    take_log(m, left, w, woven);
    if woven.len() > before && woven[before..].contains(&p) {
        awaited.pop();
        return true;
    }
    // The number of processors is asked for so that each is known to have a local state.
    let _procs = m.procs();
    wait_for_next(m, left[w], awaited)
}

// Where log w waits for a processor, lets that one's log go on until the processor has stepped; where that log
// waits itself, first the log that it waits for, and so on. `awaited` is made empty for this, and its room is how
// far it goes.
pub(crate) fn follow(
    m: &mut Machine<'_>,
    left: &mut [&[ProcId]],
    w: usize,
    awaited: &mut Vec<ProcId>,
    woven: &mut Vec<ProcId>,
)
    requires there { w < length left.old }
    requires can { CanBeWoven m.old (entries_of left.old) woven.old }
    ensures can { CanBeWoven m.new (entries_of left.new) woven.new }
    ensures on { IsWovenOn m.old m.new (entries_of left.old) (entries_of left.new)
        (numbers woven.old.items) (numbers woven.new.items) }
{
    law_taken();
    // The number of processors is asked for so that each is known to have a local state.
    let _procs = m.procs();
    awaited.clear();
    wait_for_next(m, left[w], awaited);
    'awaited: while advance(m, left, awaited, woven) {}
}
