//! What is counted of the cycles of a set.
//!
//! A wait is counted at both ends of its wire: each wire leads from one processor to one other, so two numbers a wire
//! tell who waited for it, and how often.
//!
//! The steps of `cycles` are those of tiles and switches, as in the line of `work`; what ports put in and take out is
//! in their own lines.
ghost use Rattle.std.specs.Prelude.{◌≡◌, ◌<◌, ◌^◌, length, slice_set, IfOk};
ghost use Rattle.raw_grid.specs.Topology.{proc_count};
ghost use Rattle.raw_grid.specs.Wires.{wires_of};
ghost use Rattle.raw_model.specs.Program.{IsSet};
ghost use Rattle.raw_clock.specs.Clock.{program_steps};
ghost use Rattle.raw_clock.specs.Tally.{IsTally, IsNoted, starves, noted, HasRoom, HasRoomAt, AllHaveRoom, WaitsThere};

use raw_grid::ProcId;
use raw_model::Set;
use raw_serial::Turn;
use std::alloc::{AllocError, Global};

/// How the cycles of a processor were spent.
#[derive(Clone, Copy, PartialEq, Eq)]
pub struct Spent {
    /// It took a step.
    pub fired: u64,
    /// It paid a stall turn.
    pub stalled: u64,
    /// It waited for a value.
    pub starved: u64,
    /// It waited for room.
    pub blocked: u64,
    /// It was stopped.
    pub stopped: u64,
}

/// What is counted of the cycles of a set.
#[derive(Drop)]
pub struct Tally {
    /// How the cycles of each processor were spent.
    pub spent: Vec<Spent>,
    /// In how many cycles the processor to which a wire leads waited for it.
    pub inputs: Vec<u64>,
    /// In how many cycles the processor from which a wire comes waited for it.
    pub outputs: Vec<u64>,
}

const NONE: Spent = Spent {
    fired: 0,
    stalled: 0,
    starved: 0,
    blocked: 0,
    stopped: 0,
};

impl Tally {
    /// A tally of no cycles.
    pub(crate) fn open(alloc: Global, set: &Set) -> Result<Self, AllocError>
        ensures { IfOk result (λ tally. IsTally set.now 0 tally) }
    {
        let procs = set.topo.procs() as usize;
        let wires = set.topo.wires() as usize;
        Ok(Tally {
            spent: vec![in alloc; NONE; procs]?,
            inputs: vec![in alloc; 0; wires]?,
            outputs: vec![in alloc; 0; wires]?,
        })
    }

    /// How many steps tiles and switches took, in so many cycles.
    pub(crate) fn program_steps(&self, set: &Set, cycles: u64) -> u64
        requires valid { IsSet set.now }
        requires few { cycles < 2 ^ 41 }
        requires tally { IsTally set.now cycles self.now }
        ensures { result ≡ program_steps set.now cycles }
    {
        let mut steps = 0;
        'procs: for p in 0..2 * set.topo.tiles() {
            steps += self.spent[p as usize].fired;
        }
        steps
    }

    /// Counts so many cycles in which a processor had this turn.
    pub(crate) fn note(&mut self, set: &Set, p: ProcId, turn: Turn, cycles: u64)
        requires valid { IsSet set.now }
        requires there { p.0 < proc_count set.now.topo }
        requires wire { WaitsThere set.now.topo turn }
        requires each { length self.old.spent.items ≡ proc_count set.now.topo }
        requires each_input { length self.old.inputs.items ≡ length (wires_of set.now.topo) }
        requires each_output { length self.old.outputs.items ≡ length (wires_of set.now.topo) }
        requires room { HasRoomAt self.old p.0 }
        requires inputs { AllHaveRoom self.old.inputs.items }
        requires outputs { AllHaveRoom self.old.outputs.items }
        requires few { cycles < 2 ^ 62 }
        ensures { IsNoted set.now.topo p.0 turn cycles self.old self.new }
    {
        let starving = starves(set, p, turn);
        spend(&mut self.spent[p.0 as usize], turn, starving, cycles);
        if let Turn::Waits { wire } = turn {
            let w = wire.0 as usize;
            if starving {
                self.inputs[w] += cycles;
            } else {
                self.outputs[w] += cycles;
            }
        }
    }
}

// Whether a processor with this turn waits for a value.
fn starves(set: &Set, p: ProcId, turn: Turn) -> bool
    requires valid { IsSet set.now }
    requires wire { WaitsThere set.now.topo turn }
    ensures { result ≡ starves set.now.topo p.0 turn }
{
    match turn {
        Turn::Waits { wire } => set.topo.consumer(wire).0 == p.0,
        Turn::Fired | Turn::Stalled | Turn::Stopped => false,
    }
}

// Counts so many cycles more of a processor.
fn spend(spent: &mut Spent, turn: Turn, starving: bool, cycles: u64)
    requires room { HasRoom spent.old }
    requires few { cycles < 2 ^ 62 }
    ensures { spent.new ≡ noted turn starving cycles spent.old }
{
    match turn {
        Turn::Fired => spent.fired += cycles,
        Turn::Stalled => spent.stalled += cycles,
        Turn::Stopped => spent.stopped += cycles,
        Turn::Waits { .. } => {
            if starving {
                spent.starved += cycles;
            } else {
                spent.blocked += cycles;
            }
        }
    }
}
