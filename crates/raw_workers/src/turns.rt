//! Turns on the thread of the caller.
//!
//! The steps of a turn are in an array of fixed room, since the turn has to go on where there is no memory.
ghost use Rattle.std.specs.Prelude.{◌≡◌, ◌<◌, [], All};
ghost use Rattle.raw_grid.specs.Topology.{proc_count};
ghost use Rattle.raw_model.specs.Rest.{IsQuiet};
ghost use Rattle.raw_serial.specs.Leading.{HasTaken};

use arrayvec::ArrayVec;
use raw_grid::{MAX_PROCS, ProcId};
use raw_serial::{Machine, law_taken};
use raw_steps::take_step;

/// The numbers of processors that took a step, in order.
pub(crate) type Steps = ArrayVec<u32, MAX_PROCS>;

/// Gives each processor one turn, past the stall turns that it owes, and says which took a step. This takes no
/// memory.
pub(crate) fn serial_turn(machine: &mut Machine<'_>) -> Steps
    ensures taken { HasTaken machine.old machine.new result.items }
    ensures there { All (λ p. p < proc_count machine.old.set.topo) result.items }
    // Where none did, no processor is enabled.
    ensures quiet { result.items ≡ [] → IsQuiet machine.new.set machine.new.state }
{
    law_taken();
    let mut steps = ArrayVec::new();
    for p in 0..machine.procs() {
        if take_step(machine, ProcId(p)) {
            steps.push(p);
        }
    }
    // The number of processors is asked for so that each is known to have a local state.
    let _procs = machine.procs();
    steps
}
