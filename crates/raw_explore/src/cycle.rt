//! Cycles that are stepped and not told.
ghost use Rattle.std.specs.Prelude.{◌≡◌, ◌+◌, ◌<◌, max};
ghost use Rattle.raw_grid.specs.Topology.{proc_count};
ghost use Rattle.raw_clock.specs.Clock.{goes};
ghost use Rattle.raw_explore.specs.Engine.{IsAt, Took};

use raw_clock::ask_all;
use raw_grid::{MAX_PROCS, ProcId};
use raw_serial::{Machine, Turn};

// Gives a processor its turn, if it goes on.
fn take(machine: &mut Machine<'_>, p: ProcId, turn: Turn)
    requires { p.0 < proc_count machine.old.set.topo }
    ensures { Took (goes turn) machine.old machine.new p.0 }
{
    match turn {
        Turn::Fired | Turn::Stalled => {
            machine.try_step(p);
        }
        Turn::Stopped | Turn::Waits { .. } => {}
    }
}

// Steps a machine by one cycle.
fn step_cycle(machine: &mut Machine<'_>, k: u64)
    requires { IsAt machine.old k }
    ensures set { machine.new.set ≡ machine.old.set }
    ensures at { IsAt machine.new (k + 1) }
{
    // The set is asked for so that it is known to keep its rules.
    let _set = machine.set();
    let count = machine.procs();
    let mut turns = [Turn::Stopped; MAX_PROCS];
    ask_all(machine, &mut turns);
    'procs: for p in 0..count {
        take(machine, ProcId(p), turns[p as usize]);
    }
}

/// Steps a machine that stands at cycle `k` on to a later one. Where it stands past that, it stays.
pub(crate) fn step_to(machine: &mut Machine<'_>, k: u64, to: u64)
    requires { IsAt machine.old k }
    ensures set { machine.new.set ≡ machine.old.set }
    ensures at { IsAt machine.new (max k to) }
{
    'cycles: for cycle in k..to {
        step_cycle(machine, cycle);
    }
}
