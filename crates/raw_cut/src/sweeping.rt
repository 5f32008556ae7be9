//! Runs with terms in the serial order, and the steps that they take.
ghost use Rattle.std.specs.Prelude.{◌≡◌, ◌<◌, true, IfOk, IfSome};
ghost use Rattle.raw_grid.specs.Topology.{proc_count};
ghost use Rattle.raw_model.specs.Program.{IsSet};
ghost use Rattle.raw_cut.specs.Kept.{IsKept};

use crate::stepping::turn;
use raw_grid::ProcId;
use raw_model::Set;
use raw_prove::{Machine, Turn};
use std::alloc::{AllocError, Global};

/// The most sweeps that a search makes before it gives up.
pub(crate) const MOST_SWEEPS: u32 = 200_000;

// Gives a processor its turn, and notes its step. Whether it took one; none where it hangs or needs too many terms.
fn step(
    set: &Set,
    machine: &mut Machine,
    p: u32,
    steps: &mut Vec<u32>,
) -> Result<Option<bool>, AllocError>
    requires kept { IsKept set.now machine.old }
    requires proc { p < proc_count set.now.topo }
    ensures { IfOk result (λ found. IfSome found (λ moved. IsKept set.now machine.new)) }
{
    match turn(set, machine, ProcId(p))? {
        Turn::Idle => Ok(Some(false)),
        Turn::Fired => {
            steps.push(p)?;
            Ok(Some(true))
        }
        _ => Ok(None),
    }
}

/// Gives each processor its turn, and notes the steps. Whether one was taken; none where one hangs or needs too many terms.
pub fn sweep(
    set: &Set,
    machine: &mut Machine,
    steps: &mut Vec<u32>,
) -> Result<Option<bool>, AllocError>
    requires { IsKept set.now machine.old }
    ensures { IfOk result (λ found. IfSome found (λ moved. IsKept set.now machine.new)) }
{
    let mut moved = false;
    for p in 0..set.topo.procs() {
        match step(set, machine, p, steps)? {
            Some(steps_now) => moved = moved || steps_now,
            None => return Ok(None),
        }
    }
    Ok(Some(moved))
}

/// Sweeps until no step is taken. Whether the machine comes to rest so.
pub fn run_to_rest(
    set: &Set,
    machine: &mut Machine,
    steps: &mut Vec<u32>,
) -> Result<bool, AllocError>
    requires { IsKept set.now machine.old }
    ensures { IfOk result (λ rests. rests ≡ true → IsKept set.now machine.new) }
{
    for _sweep in 0..MOST_SWEEPS {
        match sweep(set, machine, steps)? {
            Some(true) => {}
            Some(false) => return Ok(true),
            None => return Ok(false),
        }
    }
    Ok(false)
}

/// The most of these steps that one of the first so many processors takes, and at least 1.
pub fn most_by_one(alloc: Global, procs: usize, steps: &[u32]) -> Result<u32, AllocError> {
    let mut counts: Vec<u32> = Vec::new(alloc);
    counts.resize(procs, 0)?;
    let mut most = 1;
    for p in steps {
        if let Some(count) = counts.get_mut(*p as usize) {
            *count = count.saturating_add(1);
            most = most.max(*count);
        }
    }
    Ok(most)
}
