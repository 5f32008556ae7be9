//! Which processors of a machine are known to be stopped, so that a sweep passes over them.
ghost use Rattle.std.specs.Prelude.{◌≡◌, ℕ, ◌+◌, ◌<◌, ◌≤◌, true};
ghost use Rattle.raw_grid.specs.Topology.{proc_count};
ghost use Rattle.raw_model.specs.Program.{ProgramSet};
ghost use Rattle.raw_model.specs.Start.{MachineState};
ghost use Rattle.raw_model.specs.Rest.{stopped};
ghost use Rattle.raw_debug.specs.Walking.{AllStopped, PassesStopped};

use raw_grid::{MAX_PROCS, ProcId};
use raw_processor::{Processor, switch_stopped, tile_stopped};
use raw_serial::Machine;

/// Of each processor, up to where it and those behind it are known to be stopped. Where that is no later, nothing is known.
#[derive(Clone, Copy)]
pub(crate) struct Passing {
    pub(crate) ends: [u32; MAX_PROCS],
}

impl Passing {
    /// What a look at each tile and switch of a machine tells.
    pub(crate) fn at(machine: &Machine<'_>) -> Passing
        ensures { PassesStopped machine.now.set machine.now.state result.ends }
    {
        let procs = machine.procs();
        let mut passing = Passing::new();
        let mut end = procs;
        for i in 0..procs {
            let p = procs - 1 - i;
            end = end_of(machine, ProcId(p), end);
            passing.note(p, end);
        }
        passing
    }

    // Nothing is known.
    fn new() -> Passing
        ensures { (set : ProgramSet) (s : MachineState) → PassesStopped set s result.ends }
    {
        Passing {
            ends: [0; MAX_PROCS],
        }
    }

    /// The first processor from a number on that is not known to be stopped.
    #[inline(always)]
    pub(crate) fn first(&self, from: u32) -> u32
        ensures later { from ≤ result }
        ensures stopped { (set : ProgramSet) (s : MachineState) → PassesStopped set s self.now.ends → AllStopped set s from result }
    {
        match self.ends.get(from as usize) {
            Some(end) if *end > from => *end,
            _ => from,
        }
    }

    // Notes up to where a processor and those behind it are stopped.
    fn note(&mut self, p: u32, end: u32)
        ensures { (set : ProgramSet) (s : MachineState) → PassesStopped set s self.old.ends → AllStopped set s p end →
            PassesStopped set s self.new.ends }
    {
        if (p as usize) < MAX_PROCS {
            self.ends[p as usize] = end;
        }
    }
}

// Up to where a processor and those behind it are stopped, where those behind it are up to a number.
fn end_of(machine: &Machine<'_>, p: ProcId, end: u32) -> u32
    requires there { p.0 < proc_count machine.now.set.topo }
    requires behind { AllStopped machine.now.set machine.now.state (p.0 + 1) end }
    ensures { AllStopped machine.now.set machine.now.state p.0 result }
{
    if is_stopped(machine, p) { end } else { p.0 }
}

// Whether a tile or a switch is stopped. Of a port this is not asked.
fn is_stopped(machine: &Machine<'_>, p: ProcId) -> bool
    requires { p.0 < proc_count machine.now.set.topo }
    ensures { result ≡ true → stopped machine.now.set machine.now.state p.0 ≡ true }
{
    let limit = machine.set().limit;
    match machine.processor(p) {
        Processor::Tile(tile) => tile_stopped(&tile.state, limit),
        Processor::Switch(switch) => switch_stopped(&switch.state, limit),
        Processor::Source(_) | Processor::Sink(_) => false,
    }
}
