//! Runs of a machine until it rests.
ghost use Rattle.std.specs.Prelude.{◌≡◌, ◌≢◌, ◌<◌, ◌≤◌, true, false, Some, [], ◌∷◌, if◌then◌else◌};
ghost use Rattle.raw_grid.specs.Topology.{proc_count};
ghost use Rattle.raw_model.specs.Rest.{enabled, step, IsQuiet};
ghost use Rattle.raw_model.specs.Bounds.{all_left};
ghost use Rattle.raw_serial.specs.Standing.{IsOfKind};
ghost use Rattle.raw_serial.specs.Running.{turn_of, IsStep};
ghost use Rattle.raw_serial.specs.Leading.{Leads, HasTaken, HasRun, HasRunFor, IsRunFor, past_stalls};

use crate::machine::Machine;
use crate::turn::Turn;
use crate::turns::{Turns, take_turns};
use raw_grid::{ProcId, ProcKind};
use raw_model::Set;
use raw_processor::ProcSet;

/// How a machine ran that might take so many steps and no more.
#[derive(Clone, Copy, PartialEq, Eq)]
pub struct Ran {
    /// Whether it is known to be at rest. Where it is not, all of the steps were taken.
    pub rests: bool,
    /// How many steps it took.
    pub steps: u64,
}

impl Machine<'_> {
    /// Takes the next step of a processor, if it is enabled, and says whether it was. It passes over the stall turns that
    /// a tile owes (`past_stalls`); a tile that is stopped takes none.
    pub fn step(&mut self, p: ProcId) -> bool
        requires { p.0 < proc_count self.old.set.topo }
        ensures set { self.new.set ≡ self.old.set }
        ensures enabled { result ≡ enabled self.old.set self.old.state p.0 }
        ensures fired { result ≡ true → IsStep (past_stalls self.old p.0) self.new p.0 }
        ensures step { result ≡ true → self.new.state ≡ step self.old.set self.old.state p.0 }
        ensures passed { result ≡ false → self.new ≡ past_stalls self.old p.0 }
        ensures stays { result ≡ false → self.new.state ≡ self.old.state }
        ensures taken { HasTaken self.old self.new (if result then p.0 ∷ [] else []) }
    {
        let set: &Set = self.set;
        let kind = set.topo.kind_of(p);
        'stalls: loop {
            match self.try_step_as(p, kind) {
                Turn::Stalled => {}
                Turn::Fired => return true,
                _ => return false,
            }
        }
    }

    // Steps a processor until it can't step or has taken so many steps, and says how many of them are left.
    #[inline(always)]
    fn run_one(&mut self, p: ProcId, most: u64) -> u64
        requires { p.0 < proc_count self.old.set.topo }
        ensures { IsRunFor self.old self.new most result }
    {
        // Each kind has a loop of its own.
        match self.kind_of(p) {
            ProcKind::Tile => self.run_tile(p, most),
            ProcKind::Switch => self.take_turns_as(p, ProcKind::Switch, most).left,
            ProcKind::Source => self.take_turns_as(p, ProcKind::Source, most).left,
            ProcKind::Sink => self.take_turns_as(p, ProcKind::Sink, most).left,
        }
    }

    // The same of a tile. Where it takes a stall turn, `step` passes over the further ones that it owes.
    #[inline(always)]
    fn run_tile(&mut self, p: ProcId, most: u64) -> u64
        requires { IsOfKind self.old.set.topo p.0 ProcKind.Tile }
        ensures { IsRunFor self.old self.new most result }
    {
        let mut left = most;
        'stalls: loop {
            let turns = self.take_turns_as(p, ProcKind::Tile, left);
            let last = turns.left;
            if last == 0 {
                return 0;
            }
            if !turns.stalled {
                return last;
            }
            if !self.step(p) {
                return last;
            }
            left = last - 1;
        }
    }

    // Gives a processor of this kind turns, as by `take_turns`.
    #[inline(always)]
    fn take_turns_as(&mut self, p: ProcId, kind: ProcKind, most: u64) -> Turns
        requires { IsOfKind self.old.set.topo p.0 kind }
        ensures { IsRunFor self.old self.new most result.left }
    {
        let i = p.0 as usize;
        let ends = &self.ends[i];
        let processor = &mut self.processors[i];
        take_turns(self.set, p, kind, ends, processor, &mut self.wires, most)
    }

    // Steps a processor until it can't step or so many steps were taken. Where it took a step, those at the other ends of
    // its wires are marked, since they may have got a value or room. Says how many of the steps are left.
    #[inline(always)]
    fn run_marked(&mut self, p: ProcId, marked: &mut ProcSet, most: u64) -> u64
        requires { p.0 < proc_count self.old.set.topo }
        ensures { IsRunFor self.old self.new most result }
    {
        let left = self.run_one(p, most);
        if left < most {
            marked.insert_all(&self.ends(p).peers);
        }
        left
    }

    // Takes each mark away and steps its processor until it can't step or so many steps were taken, and says how many of
    // them are left.
    fn round(&mut self, marked: &mut ProcSet, most: u64) -> u64
        ensures { IsRunFor self.old self.new most result }
    {
        let procs = self.procs();
        let mut left = most;
        let mut from = 0;
        'marks: loop {
            match marked.take(from) {
                Some(p) if p.0 < procs => {
                    left = self.run_marked(p, marked, left);
                    from = p.0 + 1;
                }
                _ => return left,
            }
        }
    }

    // Steps the processors that have got something to do, and so on until none of them can step or so many steps were
    // taken, and says how many of them are left.
    fn settle(&mut self, marked: &mut ProcSet, most: u64) -> u64
        ensures { IsRunFor self.old self.new most result }
    {
        let mut left = most;
        'rounds: loop {
            let next = self.round(marked, left);
            if next == left {
                return left;
            }
            left = next;
        }
    }

    // Steps a processor once, if it is enabled and a step may be taken, and then marks it and those at the other ends of
    // its wires. Says how many of the steps are left.
    #[inline(always)]
    fn step_and_mark(&mut self, p: ProcId, marked: &mut ProcSet, most: u64) -> u64
        requires { p.0 < proc_count self.old.set.topo }
        ensures run { IsRunFor self.old self.new most result }
        ensures idle { 0 < result → result ≡ most → enabled self.old.set self.old.state p.0 ≡ false }
    {
        if most == 0 {
            return 0;
        }
        if !self.step(p) {
            return most;
        }
        marked.insert(p);
        marked.insert_all(&self.ends(p).peers);
        most - 1
    }

    // Steps each processor once, by `step_and_mark`, and says how many of the steps are left.
    fn sweep(&mut self, marked: &mut ProcSet, most: u64) -> u64
        ensures run { IsRunFor self.old self.new most result }
        ensures quiet { 0 < most → result ≡ most → IsQuiet self.old.set self.new.state }
    {
        let mut left = most;
        for p in 0..self.procs() {
            left = self.step_and_mark(ProcId(p), marked, left);
        }
        left
    }

    // The ports.
    fn ports(&self) -> ProcSet {
        let mut ports = ProcSet::new();
        for p in 2 * self.tiles()..self.procs() {
            ports.insert(ProcId(p));
        }
        ports
    }

    /// Steps until no processor is enabled or so many steps were taken.
    pub fn run_for(&mut self, most: u64) -> Ran
        ensures set { self.new.set ≡ self.old.set }
        ensures quiet { result.rests ≡ true → IsQuiet self.new.set self.new.state }
        ensures led { Leads self.old.set self.old.state self.new.state }
        ensures ran { HasRunFor self.old self.new result.steps }
        ensures few { result.steps ≤ most }
        ensures spent { result.rests ≡ false → result.steps ≡ most }
        ensures less { result.rests ≡ false → 0 < most →
            all_left self.old.set self.new.state < all_left self.old.set self.old.state }
    {
        // A machine that was at rest before a source got a word goes on from there.
        let mut marked = self.ports();
        let mut left = most;
        'sweeps: loop {
            left = self.settle(&mut marked, left);
            if left == 0 {
                return Ran {
                    rests: false,
                    steps: most,
                };
            }
            let next = self.sweep(&mut marked, left);
            if next == left {
                return Ran {
                    rests: true,
                    steps: most - left,
                };
            }
            left = next;
        }
    }

    /// Steps until no processor is enabled.
    pub fn run(&mut self)
        ensures set { self.new.set ≡ self.old.set }
        ensures quiet { IsQuiet self.new.set self.new.state }
        ensures led { Leads self.old.set self.old.state self.new.state }
        ensures ran { HasRun self.old self.new }
    {
        'runs: loop {
            if self.run_for(u64::MAX).rests {
                return;
            }
        }
    }
}
