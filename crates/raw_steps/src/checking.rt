//! Whether a list of steps is lawful.
ghost use Rattle.std.specs.Prelude.{◌≡◌, ◌↔◌, ◌<◌, false};
ghost use Rattle.raw_grid.specs.Topology.{proc_count};
ghost use Rattle.raw_model.specs.Rest.{enabled, IsLawfulFrom};
ghost use Rattle.raw_steps.specs.Taking.{numbers, AreThere};
ghost use Rattle.raw_serial.specs.Leading.{HasTaken};
ghost use Rattle.raw_steps.specs.Checking.{IsWhy, IsAnswer, taken_of};

use crate::taking::take_enabled;
use raw_grid::ProcId;
use raw_model::law_waits;
use raw_serial::{Machine, Wait};

/// Why a processor can't take a step.
#[derive(Clone, Copy, PartialEq, Eq)]
pub enum Why {
    /// It is stopped: it takes no more steps.
    Stopped,
    /// It waits, and this is its first wait.
    Waits(Wait),
}

/// Whether a list of steps is lawful.
#[derive(Clone, Copy, PartialEq, Eq)]
pub enum CheckAnswer {
    /// Each step is enabled when its turn comes.
    Lawful,
    /// The step at this place, counted from 0, is the first that is not enabled when its turn comes.
    Unlawful { place: u64, why: Why },
}

// Why a processor that is not enabled can't take a step.
fn why_not(m: &Machine<'_>, p: ProcId) -> Why
    requires there { p.0 < proc_count m.now.set.topo }
    requires idle { enabled m.now.set m.now.state p.0 ≡ false }
    ensures { IsWhy m.now.set m.now.state p.0 result }
{
    law_waits();
    // It is asked for their number so that each processor is known to have a local state.
    let _procs = m.procs();
    match m.first_wait(p) {
        Some(wait) => Why::Waits(wait),
        None => Why::Stopped,
    }
}

/// Takes the steps of a list as long as each is enabled, and says whether it took all.
///
/// Stall turns that tiles owe are passed over, also those of a tile whose step is not enabled. It takes
/// no memory.
pub fn check_run(m: &mut Machine<'_>, steps: &[ProcId]) -> CheckAnswer
    requires { AreThere (proc_count m.old.set.topo) steps.now }
    ensures lawful { (result ≡ CheckAnswer.Lawful) ↔ IsLawfulFrom m.old.set m.old.state (numbers steps.now) }
    ensures answer { IsAnswer m.old.set m.old.state (numbers steps.now) result }
    ensures taken { HasTaken m.old m.new (taken_of result (numbers steps.now)) }
{
    let taken = take_enabled(m, steps);
    match steps.get(taken) {
        Some(p) => CheckAnswer::Unlawful {
            place: taken as u64,
            why: why_not(m, *p),
        },
        None => CheckAnswer::Lawful,
    }
}
