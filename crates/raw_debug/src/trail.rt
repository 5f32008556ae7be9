//! The way of a machine through the serial order, and copies of it that are kept there, so that going back need not begin at
//! the start.
ghost use Rattle.std.specs.Prelude.{◌≡◌, ◌<◌, ◌≤◌, length, IfOk};
ghost use Rattle.std.specs.Option.{option_or};
ghost use Rattle.raw_grid.specs.Topology.{proc_count};
ghost use Rattle.raw_grid.specs.Wires.{wires_of};
ghost use Rattle.raw_model.specs.Program.{ProgramSet};
ghost use Rattle.raw_model.specs.Serial.{serial};
ghost use Rattle.raw_debug.specs.Walking.{state_after, count_at, moment_of, sent_by, AreOn, HasLed, HasLooked};
ghost use Rattle.raw_debug.specs.Sending.{IsSent};
ghost use Rattle.raw_debug.specs.Stops.{stop_after, last_up_to, stopped_after};
ghost use Rattle.raw_debug.specs.Script.{leads_to};
ghost use Rattle.raw_debug.specs.Debugging.{CanAim, MayLookBack, IsPossible};

use crate::command::{Aim, Command};
use crate::sent::Sent;
use crate::walk::{Place, Walk};
use raw_grid::{ProcId, WireId};
use raw_model::Set;
use raw_model::limits::MAX_STEPS;
use raw_serial::Machine;
use std::alloc::{AllocError, Global};
use std::marker::Model;
use std::mem::swap;

/// How many copies are kept at the most. A way of 2^16 steps of a processor is halved as often.
const MAX_COPIES: usize = 16;

/// How many steps two copies stand apart at first, at the least, that are kept on the way to the end.
const FIRST_PART: u64 = 1 << 14;

/// How many steps for each tile of the grid: a copy has the memories of all tiles, and takes then about a twentieth of the
/// time of the steps that it stands behind the one before.
const PART_OF_TILE: u64 = 1 << 12;

/// How many parts such a way has at most. The distance is doubled after each eight of them at the latest.
const MAX_PARTS: usize = 256;

/// A machine at a moment of the serial order, and copies of it. All memory is taken when it is opened.
#[derive(Drop)]
pub(crate) struct Trail<'s> {
    walk: Walk<'s>,
    /// Each stands somewhere in the serial order. The first `kept` stand at places before that of the machine, in their order;
    /// the others are free.
    copies: Vec<Walk<'s>>,
    kept: usize,
}

impl<'s> Model for Trail<'s> {
    ghost use Rattle.raw_debug.specs.Walking.{Instant, instant_of, StandsWith};

    ghost Value = { Instant };

    ghost view = { λ t. instant_of t.walk };

    ghost invariant = { λ t. StandsWith t.walk t.copies.items };
}

/// What a look at a part of the way found: the latest step that was looked for, if there is one behind the moment `low`.
#[derive(Clone, Copy)]
pub(crate) struct Look {
    pub(crate) found: Option<u64>,
    pub(crate) low: u64,
}

// Takes memory for one copy more, and says whether there was any.
fn add_copy<'s>(alloc: Global, set: &'s Set, walks: &mut Vec<Walk<'s>>) -> bool
    requires { AreOn set.now walks.old.items }
    ensures { AreOn set.now walks.new.items }
{
    let Ok(walk) = Walk::open(alloc, set) else {
        return false;
    };
    walks.push(walk).is_ok()
}

// Room for as many copies as there is memory for, at most `MAX_COPIES`, and one for each line of a script. On a small
// grid there is room for more: for as many as have `MAX_COPIES` tiles together.
fn open_copies<'s>(alloc: Global, set: &'s Set, lines: usize) -> Vec<Walk<'s>>
    ensures { AreOn set.now result.items }
{
    let tiles = set.topo.tiles() as usize;
    let mut walks = Vec::new(alloc);
    for copy in 0..MAX_COPIES {
        if copy >= lines && copy.saturating_mul(tiles) >= MAX_COPIES {
            return walks;
        }
        if !add_copy(alloc, set, &mut walks) {
            return walks;
        }
    }
    walks
}

// Gives up each other one of the copies that are kept, the first one first, and says how many are left.
fn thin(copies: &mut Vec<Walk<'_>>, kept: usize) -> usize
    ensures { (set : ProgramSet) → AreOn set copies.old.items → AreOn set copies.new.items }
{
    let left = kept.min(copies.len()) / 2;
    for i in 0..left {
        copies.swap(i, 2 * i + 1);
    }
    left
}

// Gives up the first one where none is free, and says how many are left. The others stay in their order.
fn free_one(copies: &mut Vec<Walk<'_>>, kept: usize) -> usize
    ensures { (set : ProgramSet) → AreOn set copies.old.items → AreOn set copies.new.items }
{
    let left = copies.len().saturating_sub(1);
    if kept <= left {
        return kept;
    }
    for i in 0..left {
        copies.swap(i, i + 1);
    }
    left
}

impl<'s> Trail<'s> {
    /// A machine at the start of a set, with room for copies while a script of so many lines is run. Where there is no memory
    /// for a copy, it has fewer.
    pub(crate) fn open(alloc: Global, set: &'s Set, lines: usize) -> Result<Trail<'s>, AllocError>
        ensures { IfOk result (λ trail. trail ≡ record { set = set.now; moment = 0 }) }
    {
        let walk = Walk::open(alloc, set)?;
        let copies = open_copies(alloc, set, lines);
        Ok(Trail {
            walk,
            copies,
            kept: 0,
        })
    }

    /// The machine.
    pub(crate) fn machine(&self) -> &Machine<'s>
        ensures set { result.now.set ≡ self.now.set }
        ensures state { result.now.state ≡ state_after self.now.set self.now.moment }
    {
        // The set is asked for so that it is known to keep its rules.
        let _set = self.walk.machine.set();
        &self.walk.machine
    }
}

impl Trail<'_> {
    /// How many steps all processors have taken together.
    pub(crate) fn moment(&self) -> u64
        ensures value { result ≡ self.now.moment }
        ensures within { result ≤ length (serial self.now.set) }
    {
        let _set = self.walk.machine.set();
        self.walk.moment
    }

    /// How many steps a processor has taken.
    pub(crate) fn count(&self, p: ProcId) -> u64
        requires { p.0 < proc_count self.now.set.topo }
        ensures value { result ≡ count_at self.now.set p.0 self.now.moment }
        ensures few { result ≤ MAX_STEPS }
    {
        let _set = self.walk.machine.set();
        self.walk.machine.count(p)
    }

    /// What was sent on a wire so far.
    pub(crate) fn sent_on(&mut self, wire: WireId) -> Sent
        requires { wire.0 < length (wires_of self.old.set.topo) }
        ensures stays { self.new ≡ self.old }
        ensures sent { IsSent result (sent_by self.old.set self.old.moment wire.0) }
    {
        self.walk.sent_on(wire)
    }

    /// Goes on until right after the next step of a processor that does what is aimed at, and says whether there is one;
    /// where there is none, it goes to the end.
    pub(crate) fn go_until(&mut self, proc: ProcId, aim: Aim) -> bool
        requires { CanAim self.old.set proc.0 aim }
        ensures { HasLed self.old self.new (stop_after self.old.set self.old.moment proc.0 aim) result }
    {
        self.walk.go_until(proc, aim)
    }

    // How many of the copies that are kept, from the first one on, stand before a place.
    fn kept_before(&self, place: Place) -> usize {
        for copy in 0..self.kept.min(self.copies.len()) {
            let machine = &self.copies[copy].machine;
            if place.proc.0 >= machine.procs() || machine.count(place.proc) >= place.steps {
                return copy;
            }
        }
        self.kept
    }

    // How many of them stand at a moment or before it.
    fn kept_up_to(&self, moment: u64) -> usize {
        for copy in 0..self.kept.min(self.copies.len()) {
            if self.copies[copy].moment > moment {
                return copy;
            }
        }
        self.kept
    }

    // At which moment the last copy that is kept stands.
    fn last_moment(&self) -> Option<u64> {
        let last = self.kept.checked_sub(1)?;
        let walk = self.copies.get(last)?;
        Some(walk.moment)
    }

    // Stands where a copy does, if there is one with this number.
    fn stand_at(&mut self, copy: usize)
        ensures { self.new.set ≡ self.old.set }
    {
        if let Some(copy) = self.copies.get(copy) {
            self.walk.copy_from(copy);
        }
    }

    // Takes the place of a copy, and leaves the machine there.
    fn exchange(&mut self, copy: usize)
        ensures { self.new.set ≡ self.old.set }
    {
        if copy < self.copies.len() {
            swap(&mut self.walk, &mut self.copies[copy]);
        }
    }

    // Keeps a copy of the machine, where one is free.
    fn keep(&mut self)
        ensures { self.new ≡ self.old }
    {
        if self.kept < self.copies.len() {
            self.copies[self.kept].copy_from(&self.walk);
            self.kept += 1;
        }
    }

    // Goes back to the last copy before a place, where it is at the place or past it, and gives up those behind.
    fn go_back(&mut self, place: Place)
        requires { place.proc.0 < proc_count self.old.set.topo }
        ensures { self.new.set ≡ self.old.set }
    {
        self.kept = self.kept_before(place);
        let Some(last) = self.kept.checked_sub(1) else {
            return;
        };
        if self.walk.machine.count(place.proc) >= place.steps {
            self.stand_at(last);
        }
    }

    // Goes on toward a place until one step of its processor is left, and keeps a copy half way, half way from there, and
    // so on. Where too few are free for that, those that were kept are given up.
    fn go_by_halves(&mut self, place: Place)
        requires { place.proc.0 < proc_count self.old.set.topo }
        ensures { self.new.set ≡ self.old.set }
    {
        let mut left = place
            .steps
            .saturating_sub(self.walk.machine.count(place.proc));
        let copies = u64::BITS - left.leading_zeros();
        if self.copies.len().saturating_sub(self.kept) < copies as usize {
            self.kept = 0;
        }
        'halves: while left > 1 {
            left -= left / 2;
            let half = Place {
                proc: place.proc,
                steps: place.steps.saturating_sub(left),
            };
            if !self.walk.go_to(half) {
                return;
            }
            self.keep();
        }
    }

    /// Goes to the moment right after so many steps of a processor, and says whether the processor has so many. Back it goes
    /// from the last copy before the place, or from the start where there is none.
    pub(crate) fn go_to(&mut self, place: Place) -> bool
        requires { place.proc.0 < proc_count self.old.set.topo }
        ensures { HasLed self.old self.new (moment_of self.old.set place.proc.0 place.steps) result }
    {
        self.go_back(place);
        self.go_by_halves(place);
        self.walk.go_to(place)
    }

    // Goes to the last copy that stands before a moment, where it is past the moment, or before that copy. The place of one
    // that stands at the moment itself is taken, and none is copied.
    fn take_back(&mut self, moment: u64)
        ensures { self.new.set ≡ self.old.set }
    {
        self.kept = self.kept_up_to(moment);
        let Some(at) = self.last_moment() else {
            return;
        };
        if at <= self.walk.moment && self.walk.moment <= moment {
            return;
        }
        let last = self.kept.saturating_sub(1);
        if at == moment {
            self.exchange(last);
            self.kept = last;
        } else {
            self.stand_at(last);
        }
    }

    /// Goes to a moment: on from where it is, or from the last copy before the moment, or from the start where there is none.
    pub(crate) fn return_to(&mut self, moment: u64)
        requires { moment ≤ length (serial self.old.set) }
        ensures { self.new ≡ record { set = self.old.set; moment = moment } }
    {
        self.take_back(moment);
        self.walk.return_to(moment);
    }

    // Keeps a copy of the machine, so many steps behind the one before, and says how many steps on the next one is to be
    // kept. Where none is free, each other one is given up, and that is twice as many.
    fn keep_next(&mut self, steps: u64) -> u64
        ensures { self.new ≡ self.old }
    {
        if self.kept < self.copies.len() {
            self.keep();
            return steps;
        }
        self.kept = thin(&mut self.copies, self.kept);
        self.keep();
        steps.saturating_mul(2)
    }

    /// Goes to the end of the serial order, and keeps copies on the way, at like distances. Where none is free, each other one
    /// is given up, and the distance is doubled.
    pub(crate) fn go_to_rest(&mut self)
        ensures { self.new ≡ record { set = self.old.set; moment = length (serial self.old.set) } }
    {
        self.kept = self.kept_up_to(self.walk.moment);
        let tiles = u64::from(self.walk.machine.set().topo.tiles());
        let mut steps = FIRST_PART.max(tiles.saturating_mul(PART_OF_TILE));
        for _part in 0..MAX_PARTS {
            if !self.walk.go_on(steps) {
                return;
            }
            steps = self.keep_next(steps);
        }
        self.walk.go_to_rest();
    }

    // Looks for the latest step that does what is aimed at, from the copy at a place up to a moment.
    fn look_from(&mut self, place: usize, moment: u64, proc: ProcId, aim: Aim) -> Look
        requires { MayLookBack self.old.set proc.0 aim moment }
        ensures low { result.low ≤ moment }
        ensures looked { HasLooked self.old self.new (last_up_to self.old.set moment proc.0 aim)
            (option_or result.found (last_up_to self.old.set result.low proc.0 aim)) }
    {
        let nothing = Look {
            found: None,
            low: moment,
        };
        let Some(copy) = self.copies.get(place) else {
            return nothing;
        };
        if copy.moment >= moment {
            return nothing;
        }
        self.walk.copy_from(copy);
        let low = self.walk.moment;
        let found = self.walk.latest_up_to(moment, proc, aim);
        Look { found, low }
    }

    // Looks for the latest step that does what is aimed at from the start up to a moment, and keeps copies on the way: half
    // way, half way from there, and so on.
    fn look_anew(&mut self, moment: u64, proc: ProcId, aim: Aim) -> Option<u64>
        requires { MayLookBack self.old.set proc.0 aim moment }
        ensures { HasLooked self.old self.new (last_up_to self.old.set moment proc.0 aim) result }
    {
        self.kept = 0;
        self.walk.restart();
        let mut latest = None;
        'halves: while self.walk.moment < moment {
            let half = moment - (moment - self.walk.moment) / 2;
            latest = self.walk.latest_up_to(half, proc, aim).or(latest);
            self.keep();
        }
        latest
    }

    // Keeps the machine itself, where copies are kept and the last one stands before it, and takes the place of that copy in
    // its stead. The first one is given up where none is free.
    fn keep_here(&mut self)
        ensures { self.new.set ≡ self.old.set }
    {
        let Some(at) = self.last_moment() else {
            return;
        };
        if at >= self.walk.moment {
            return;
        }
        let free = free_one(&mut self.copies, self.kept);
        self.exchange(free);
        self.kept = free.saturating_add(1);
    }

    // Looks for the latest step of the way so far that does what is aimed at, from the last copy on, then from the one
    // before it up to that, and so on. It ends where it looked last. Where copies are kept, the machine is kept itself where it
    // stood, to go back there where there is no such step.
    fn latest(&mut self, proc: ProcId, aim: Aim) -> Option<u64>
        requires { CanAim self.old.set proc.0 aim }
        ensures { HasLooked self.old self.new (last_up_to self.old.set self.old.moment proc.0 aim) result }
    {
        let mut high = self.moment();
        self.keep_here();
        let mut left = self.kept;
        'copies: while left > 0 {
            left -= 1;
            let look = self.look_from(left, high, proc, aim);
            if look.found.is_some() {
                return look.found;
            }
            high = look.low;
        }
        if self.kept == 0 {
            return self.look_anew(high, proc, aim);
        }
        self.walk.restart();
        self.walk.latest_up_to(high, proc, aim)
    }

    // Goes back to right after the latest step of a processor that did what is aimed at, and says whether there is one.
    fn go_to_last(&mut self, proc: ProcId, aim: Aim) -> bool
        requires { CanAim self.old.set proc.0 aim }
        ensures { HasLed self.old self.new (last_up_to self.old.set self.old.moment proc.0 aim) result }
    {
        // The moment is asked for so that it is known to stand in the serial order.
        let _moment = self.moment();
        match self.latest(proc, aim) {
            Some(found) => {
                self.return_to(found);
                true
            }
            None => false,
        }
    }

    // Goes on until right after the last step of a processor, and says whether it takes one more.
    fn finish(&mut self, proc: ProcId) -> bool
        requires { proc.0 < proc_count self.old.set.topo }
        ensures { HasLed self.old self.new (stopped_after self.old.set self.old.moment proc.0) result }
    {
        let before = self.count(proc);
        self.go_to_rest();
        let all = self.count(proc);
        if before == all {
            return false;
        }
        self.go_to(Place { proc, steps: all })
    }

    /// Goes where a command leads, where this is the current processor, and says whether there is such a moment.
    pub(crate) fn go(&mut self, current: ProcId, command: Command) -> bool
        requires there { current.0 < proc_count self.old.set.topo }
        requires possible { IsPossible self.old.set current.0 command }
        ensures { HasLed self.old self.new
            (leads_to self.old.set (record { moment = self.old.moment; current = current }) command) result }
    {
        match command {
            Command::At { proc, steps } | Command::Count { proc, steps } => {
                let steps = u64::from(steps);
                self.go_to(Place { proc, steps })
            }
            Command::Back { steps } => {
                let before = self.count(current).saturating_sub(u64::from(steps));
                self.go_to(Place {
                    proc: current,
                    steps: before,
                })
            }
            Command::Forth { steps: 0 } => true,
            Command::Forth { steps } => {
                let behind = self.count(current) + u64::from(steps);
                self.go_to(Place {
                    proc: current,
                    steps: behind,
                })
            }
            Command::Until { proc, aim } => self.go_until(proc, aim),
            Command::Last { proc, aim } => self.go_to_last(proc, aim),
            Command::Finish => self.finish(current),
            Command::Rest => {
                self.go_to_rest();
                true
            }
            Command::Where
            | Command::All
            | Command::Registers
            | Command::Memory { .. }
            | Command::Wires
            | Command::Waits
            | Command::Code { .. }
            | Command::Passed { .. } => true,
        }
    }
}
