//! A machine as processors that wait for one another.

use raw_cycle::Waits;
use raw_grid::ProcId;
use raw_model::law_waits;
use raw_serial::Machine;

// A machine that is asked for whom each of its processors waits.
#[derive(Clone, Copy)]
pub(crate) struct Asked<'m, 's> {
    pub(crate) machine: &'m Machine<'s>,
}

impl Waits for Asked<'_, '_> {
    ghost use Rattle.raw_grid.specs.Topology.{proc_count};
    ghost use Rattle.raw_model.specs.Waits.{waits_for};

    ghost next = { λ asked. waits_for asked.machine.now.set asked.machine.now.state };

    ghost count = { λ asked. proc_count asked.machine.now.set.topo };

    fn count(&self) -> u32 {
        law_waits();
        // The set is asked for so that it is known to keep its rules.
        let _set = self.machine.set();
        self.machine.procs()
    }

    fn waits_for(&self, p: u32) -> Option<u32> {
        let wait = self.machine.first_wait(ProcId(p))?;
        Some(wait.on.0)
    }
}
