//! The serial run with terms.
ghost use Rattle.std.specs.Prelude.{◌≡◌, ◌<◌, ◌^◌, IfOk};
ghost use Rattle.raw_grid.specs.Topology.{proc_count};
ghost use Rattle.raw_model.specs.Program.{IsSet};
ghost use Rattle.raw_prove.specs.Units.{MachineStands};
ghost use Rattle.raw_prove.specs.Runs.{IsReached, IsCountedTurn, IsSweep, IsEnd};

use crate::machine::Machine;
use crate::turn::Turn;
use raw_grid::ProcId;
use raw_model::Set;
use raw_term::law_runs;
use std::alloc::AllocError;

/// How a run with terms ended.
#[derive(Clone, Copy, PartialEq, Eq)]
pub enum End {
    /// No processor is enabled.
    Rests,
    /// This step, counted from 0, is one of this processor, which wants a word where it has a term that is none.
    Hangs { step: u64, p: ProcId },
    /// It needs more terms than a table holds.
    TooMany,
}

impl Machine {
    // Gives a processor its turn, and counts it where it is a step. Where the run breaks off this says how.
    fn take_turn(
        &mut self,
        set: &Set,
        p: ProcId,
        steps: &mut u64,
    ) -> Result<Option<End>, AllocError>
        requires valid { IsSet set.now }
        requires stands { MachineStands set.now self.old }
        requires proc { p.0 < proc_count set.now.topo }
        requires few { steps.old < 2 ^ 32 }
        ensures { IfOk result (λ end. IsCountedTurn set.now p.0 self.old steps.old end self.new steps.new) }
    {
        match self.turn(set, p)? {
            Turn::Idle => Ok(None),
            Turn::Fired => {
                *steps += 1;
                Ok(None)
            }
            Turn::Hangs => Ok(Some(End::Hangs { step: *steps, p })),
            Turn::TooMany => Ok(Some(End::TooMany)),
        }
    }

    // Gives each processor its turn, and counts the steps. Where the run breaks off this says how.
    fn sweep(&mut self, set: &Set, steps: &mut u64) -> Result<Option<End>, AllocError>
        requires valid { IsSet set.now }
        requires stands { MachineStands set.now self.old }
        requires reached { IsReached set.now self.old steps.old }
        ensures { IfOk result (λ end. IsSweep set.now self.old steps.old end self.new steps.new) }
    {
        law_runs();
        for p in 0..set.topo.procs() {
            if let Some(end) = self.take_turn(set, ProcId(p), steps)? {
                return Ok(Some(end));
            }
        }
        Ok(None)
    }

    /// Sweeps over the processors until none is enabled or the run breaks off.
    pub(crate) fn run(&mut self, set: &Set) -> Result<End, AllocError>
        requires valid { IsSet set.now }
        requires stands { MachineStands set.now self.old }
        requires reached { IsReached set.now self.old 0 }
        ensures { IfOk result (λ end. IsEnd set.now self.new end) }
    {
        let mut steps = 0;
        'sweeps: loop {
            let before = steps;
            if let Some(end) = self.sweep(set, &mut steps)? {
                return Ok(end);
            }
            if steps == before {
                return Ok(End::Rests);
            }
        }
    }
}
