//! What the processors do, each from one cycle on, and what is counted of the cycles before.
ghost use Rattle.std.specs.Prelude.{◌≡◌, ◌<◌, ◌^◌, IfOk, Some, length, replicate, slice_get, slice_index, slice_set};
ghost use Rattle.raw_grid.specs.Topology.{proc_count};
ghost use Rattle.raw_model.specs.Program.{IsSet};
ghost use Rattle.raw_serial.specs.declared.turn.Turn.TheVariants.{Fired};
ghost use Rattle.raw_clock.specs.Account.{IsAccount, AccountStands};
ghost use Rattle.raw_clock.specs.Engine.{AreOthersAlike};
ghost use Rattle.raw_clock.specs.Tally.{IsTally};

use crate::tally::Tally;
use raw_grid::ProcId;
use raw_model::Set;
use raw_serial::Turn;
use std::alloc::{AllocError, Global};

/// What the processors do, each from one cycle on, and what is counted of the cycles before. So a cycle in which a turn is
/// that of the cycle before costs no count.
#[derive(Drop)]
pub struct Account {
    /// What is counted of the cycles of each processor before it has had its turn.
    pub tally: Tally,
    /// The turn of each processor.
    pub turns: Vec<Turn>,
    /// The cycle since which it has had it.
    pub since: Vec<u64>,
}

impl Account {
    /// An account of no cycles.
    pub fn open(alloc: Global, set: &Set) -> Result<Self, AllocError>
        ensures account { IfOk result (IsAccount set.now 0) }
        ensures turns { IfOk result (λ account. account.turns.items ≡ replicate (proc_count set.now.topo) Fired) }
    {
        let procs = set.topo.procs() as usize;
        Ok(Account {
            tally: Tally::open(alloc, set)?,
            turns: vec![in alloc; Turn::Fired; procs]?,
            since: vec![in alloc; 0; procs]?,
        })
    }

    /// The turn that was noted of a processor.
    pub(crate) fn turn(&self, p: ProcId) -> Turn
        requires { p.0 < length self.now.turns.items }
        ensures { slice_get self.now.turns.items p.0 ≡ Some result }
    {
        self.turns[p.0 as usize]
    }

    /// Notes the turn of a processor in the cycle after so many.
    pub(crate) fn note(&mut self, set: &Set, p: ProcId, turn: Turn, cycles: u64)
        requires valid { IsSet set.now }
        requires there { p.0 < proc_count set.now.topo }
        requires stands { AccountStands set.now cycles self.old }
        ensures account { IsAccount set.now cycles self.new }
        ensures turn { slice_get self.new.turns.items p.0 ≡ Some turn }
        ensures others { AreOthersAlike p.0 self.old.turns.items self.new.turns.items }
    {
        let i = p.0 as usize;
        if self.turns[i] != turn {
            self.count(set, p, cycles);
            self.turns[i] = turn;
        }
    }

    /// Counts all of so many cycles.
    pub(crate) fn close(&mut self, set: &Set, cycles: u64)
        requires valid { IsSet set.now }
        requires stands { AccountStands set.now cycles self.old }
        ensures { IsTally set.now cycles self.new.tally }
    {
        'procs: for p in 0..set.topo.procs() {
            self.count(set, ProcId(p), cycles);
        }
    }

    // Counts the cycles in which a processor has had its turn.
    fn count(&mut self, set: &Set, p: ProcId, cycles: u64)
        requires valid { IsSet set.now }
        requires there { p.0 < proc_count set.now.topo }
        requires stands { AccountStands set.now cycles self.old }
        ensures account { IsAccount set.now cycles self.new }
        ensures turns { self.new.turns.items ≡ self.old.turns.items }
        ensures since { self.new.since.items ≡ slice_set self.old.since.items p.0 cycles }
    {
        let i = p.0 as usize;
        let since = self.since[i];
        if since < cycles {
            self.tally.note(set, p, self.turns[i], cycles - since);
        }
        self.since[i] = cycles;
    }
}
