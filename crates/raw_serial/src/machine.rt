//! The serial machine of a program set.
ghost use Rattle.std.specs.Prelude.{◌≡◌, ◌≢◌, ◌<◌, Some, IfOk};
ghost use Rattle.raw_grid.specs.Topology.{proc_count, kind_at};
ghost use Rattle.raw_serial.specs.Fresh.{IsFresh};
ghost use Rattle.raw_serial.specs.Told.{told_of};
ghost use Rattle.raw_serial.specs.Standing.{IsOfKind};
ghost use Rattle.raw_serial.specs.Running.{turn_of, stalled_once, IsStep, IsTurnOf};

use crate::opening::{open_ends, open_processors};
use crate::resetting::reset_processors;
use crate::telling::{Silent, Tells};
use crate::turn::Turn;
use crate::turns::turn_processor;
use crate::wires::Wires;
use raw_grid::{ProcId, ProcKind};
use raw_model::Set;
use raw_processor::{EndWires, Processor};
use std::alloc::{AllocError, Global};
use std::marker::Model;

/// A machine that runs a set: its processors, and the values on each wire.
///
/// It takes memory only when it is opened.
#[derive(Drop)]
pub struct Machine<'s> {
    pub(crate) set: &'s Set,
    /// The wires at the ends of each processor.
    pub(crate) ends: Vec<EndWires>,
    /// The processors, in the order of their numbers.
    pub(crate) processors: Vec<Processor>,
    pub(crate) wires: Wires,
}

impl<'s> Model for Machine<'s> {
    ghost use Rattle.raw_serial.specs.Running.{Running};

    ghost Value = { Running };

    ghost use Rattle.raw_serial.specs.Parts.{running_of, AreParts};

    ghost view = { λ m. running_of m.set.now m.processors.items m.wires };

    ghost invariant = { λ m. AreParts m.set.now m.ends.items m.processors.items m.wires };
}

impl<'s> Machine<'s> {
    /// A machine of a set that has done nothing yet. All memory that it will need is taken here, that of
    /// full sinks too.
    pub fn open(alloc: Global, set: &'s Set) -> Result<Self, AllocError>
        ensures { IfOk result (IsFresh set.now) }
    {
        let ends = open_ends(alloc, set)?;
        let processors = open_processors(alloc, set)?;
        let wires = Wires::open(alloc, set.topo.wires() as usize)?;
        Ok(Machine {
            set,
            ends,
            processors,
            wires,
        })
    }
}

impl Machine<'_> {
    /// Makes the machine as fresh: each processor is as it was before it had done anything, all wires and
    /// caches are empty, and no tile owes a turn. This takes no memory.
    pub fn restart(&mut self)
        ensures { IsFresh self.old.set self.new }
    {
        reset_processors(&mut self.processors, self.set);
        self.wires.clear();
    }

    // What a processor is.
    pub(crate) fn kind_of(&self, p: ProcId) -> ProcKind
        requires { p.0 < proc_count self.now.set.topo }
        ensures { kind_at self.now.set.topo p.0 ≡ Some result }
    {
        let set: &Set = self.set;
        set.topo.kind_of(p)
    }

    // Gives a processor of this kind its turn, and tells what it does, if that is a step.
    #[inline(always)]
    fn turn_as<T: Tells>(&mut self, p: ProcId, kind: ProcKind, teller: &mut T) -> Turn
        requires { IsOfKind self.old.set.topo p.0 kind }
        ensures turn { IsTurnOf self.old self.new p.0 result }
        ensures told { result ≡ Turn.Fired → T.has teller.new (told_of self.old self.new p.0) }
    {
        let i = p.0 as usize;
        let ends = &self.ends[i];
        let processor = &mut self.processors[i];
        turn_processor(self.set, p, kind, ends, processor, &mut self.wires, teller)
    }

    // The same with what the answer says of the machine.
    #[inline(always)]
    pub(crate) fn try_step_as(&mut self, p: ProcId, kind: ProcKind) -> Turn
        requires { IsOfKind self.old.set.topo p.0 kind }
        ensures answer { result ≡ turn_of self.old p.0 }
        ensures set { self.new.set ≡ self.old.set }
        ensures fired { result ≡ Turn.Fired → IsStep self.old self.new p.0 }
        ensures stalled { result ≡ Turn.Stalled → self.new ≡ stalled_once self.old p.0 }
        ensures stays { result ≢ Turn.Fired → result ≢ Turn.Stalled → self.new ≡ self.old }
    {
        self.turn_as(p, kind, &mut Silent)
    }

    /// Gives a processor its turn: it takes a step if it can.
    ///
    /// A tile that owes stall turns takes none of them past its next turn: each turn is one less.
    pub fn try_step(&mut self, p: ProcId) -> Turn
        requires { p.0 < proc_count self.old.set.topo }
        ensures answer { result ≡ turn_of self.old p.0 }
        ensures set { self.new.set ≡ self.old.set }
        ensures fired { result ≡ Turn.Fired → IsStep self.old self.new p.0 }
        ensures stalled { result ≡ Turn.Stalled → self.new ≡ stalled_once self.old p.0 }
        ensures stays { result ≢ Turn.Fired → result ≢ Turn.Stalled → self.new ≡ self.old }
    {
        let kind = self.kind_of(p);
        self.try_step_as(p, kind)
    }
    /// Gives a processor its turn, as `try_step` does, and tells what it does, if that is a step.
    pub fn try_step_telling<T: Tells>(&mut self, p: ProcId, teller: &mut T) -> Turn
        requires { p.0 < proc_count self.old.set.topo }
        ensures turn { IsTurnOf self.old self.new p.0 result }
        ensures told { result ≡ Turn.Fired → T.has teller.new (told_of self.old self.new p.0) }
    {
        let kind = self.kind_of(p);
        self.turn_as(p, kind, teller)
    }
}
