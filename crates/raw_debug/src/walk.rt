//! A machine that is taken through its steps in the serial order.
ghost use Rattle.std.specs.Prelude.{◌≡◌, ℕ, ◌+◌, ◌-◌, ◌<◌, ◌≤◌, ◌&&◌, ◌==◌, true, false, None, List, [], Some, length, slice_get, if◌then◌else◌, IfOk, IfSome};
ghost use Rattle.std.specs.Option.{option_or, unwrap_or};
ghost use Rattle.raw_network.specs.Network.{values_on};
ghost use Rattle.raw_grid.specs.Topology.{tile_count, proc_count};
ghost use Rattle.raw_grid.specs.Wires.{wires_of};
ghost use Rattle.raw_model.specs.Program.{memory_size};
ghost use Rattle.raw_model.specs.Rest.{IsQuiet};
ghost use Rattle.raw_model.specs.Serial.{serial};
ghost use Rattle.raw_processor.specs.Processor.{local_of};
ghost use Rattle.raw_processor.specs.Given.{taken_by, sent_by as sent_from};
ghost use Rattle.raw_serial.specs.Within.{IsWithin};
ghost use Rattle.raw_debug.specs.Walking.{moment_of, sent_by, led, AtDone, IsUnderWay, IsFresh, HasStepped, HasPassed, HasGone, HasGoneOn, HasStayed, HasEnded, HasTakenNext, IsOn, PassesStopped};
ghost use Rattle.raw_debug.specs.Stops.{has_pc, word_in, stop_after, last_up_to, sight_of, shows, IsSeenIn, IsLocal, OnlyLast, GoesPast};
ghost use Rattle.raw_debug.specs.Sending.{IsSent};
ghost use Rattle.raw_debug.specs.Debugging.{IsPossibleAim, CanAim, MaySeek};

use crate::command::Aim;
use crate::passing::Passing;
use crate::sent::Sent;
use raw_grid::{ProcId, WireId};
use raw_model::{Set, law_bound, law_queues, law_serial, law_steps, law_wired};
use raw_processor::{TileWires, tile_wires};
use raw_serial::{Machine, Processor, register_in};
use std::alloc::{AllocError, Global};

/// Where in the serial order a step of a processor stands: right after so many of them.
#[derive(Clone, Copy)]
pub(crate) struct Place {
    pub(crate) proc: ProcId,
    pub(crate) steps: u64,
}

/// A machine somewhere in the serial order of its steps.
#[derive(Drop)]
pub(crate) struct Walk<'s> {
    pub(crate) machine: Machine<'s>,
    /// The processor whose turn is next in the sweep.
    pub(crate) next: u32,
    /// How many steps all processors have taken together.
    pub(crate) moment: u64,
    /// Whether only the processor whose turn was last may be enabled. Where it is not set, that is not known.
    pub(crate) alone: bool,
    /// Which processors it passes over.
    pub(crate) passing: Passing,
}

impl<'s> Walk<'s> {
    /// A machine at the start of a set. All memory is taken here.
    pub(crate) fn open(alloc: Global, set: &'s Set) -> Result<Walk<'s>, AllocError>
        ensures { IfOk result (λ walk. IsFresh set.now walk) }
    {
        let machine = Machine::open(alloc, set)?;
        let passing = Passing::at(&machine);
        Ok(Walk {
            machine,
            next: 0,
            moment: 0,
            alone: false,
            passing,
        })
    }
}

impl Walk<'_> {
    /// Stands where another walk of the same set does. This takes no memory.
    pub(crate) fn copy_from(&mut self, other: &Walk<'_>)
        requires { other.now.machine.set ≡ self.old.machine.set }
        ensures { self.new ≡ other.now }
    {
        self.machine.copy_from(&other.machine);
        self.next = other.next;
        self.moment = other.moment;
        self.alone = other.alone;
        self.passing = other.passing;
    }

    /// Starts anew.
    pub(crate) fn restart(&mut self)
        ensures { IsFresh self.old.machine.set self.new }
    {
        self.machine.restart();
        self.next = 0;
        self.moment = 0;
        self.alone = false;
        self.passing = Passing::at(&self.machine);
    }

    // Looks which processors are stopped, so that they are passed over from here on.
    fn pass_stopped(&mut self)
        requires { IsUnderWay self.old }
        ensures { HasStayed self.old self.new }
    {
        self.passing = Passing::at(&self.machine);
    }

    // Whether the processor before a place is a tile whose next step takes nothing from a wire, and sends nothing.
    #[inline(always)]
    fn is_within_before(&self, place: u32) -> bool
        requires { place ≤ proc_count self.now.machine.set.topo }
        ensures { result ≡ true → IsWithin self.now.machine.set self.now.machine.state (place - 1) }
    {
        place > 0 && self.is_within(ProcId(place - 1))
    }

    // The same of a processor.
    #[inline(always)]
    fn is_within(&self, p: ProcId) -> bool
        requires { p.0 < proc_count self.now.machine.set.topo }
        ensures { result ≡ true → IsWithin self.now.machine.set self.now.machine.state p.0 }
    {
        let ends = self.machine.ends(p);
        match self.machine.processor(p) {
            Processor::Tile(tile) => names_none(tile_wires(&tile.code, &tile.state, ends)),
            Processor::Switch(_) | Processor::Source(_) | Processor::Sink(_) => false,
        }
    }

    // Gives the processors from the next one on their turns until one takes a step, and says which one did.
    // Where none did, the turn is that of processor 0.
    fn sweep_on(&mut self) -> Option<ProcId>
        requires within { self.old.next ≤ proc_count self.old.machine.set.topo }
        requires passing { PassesStopped self.old.machine.set self.old.machine.state self.old.passing.ends }
        ensures set { self.new.machine.set ≡ self.old.machine.set }
        ensures moment { self.new.moment ≡ self.old.moment }
        ensures alone { self.new.alone ≡ self.old.alone }
        ensures fired { IfSome result (λ p. HasStepped self.old self.new p.0) }
        ensures idle { result ≡ None → HasPassed self.old self.new }
    {
        let procs = self.machine.procs();
        let mut p = self.next;
        'turns: while p < procs {
            if self.machine.step(ProcId(p)) {
                self.next = p + 1;
                return Some(ProcId(p));
            }
            p = self.passing.first(p + 1);
        }
        self.next = 0;
        None
    }

    // Takes the next step of the serial order where only the processor whose turn was last may be enabled, and says whose it
    // was, if there was one.
    #[inline(always)]
    fn advance_alone(&mut self) -> Option<ProcId>
        requires under_way { IsUnderWay self.old }
        requires alone { self.old.alone ≡ true }
        ensures { HasTakenNext self.old self.new result }
    {
        law_wired();
        law_serial();
        law_bound();
        // The set is asked for so that it is known to keep its rules, and that the state fits it.
        let _set = self.machine.set();
        let p = ProcId(self.next - 1);
        let within = self.is_within(p);
        if !self.machine.step(p) {
            return None;
        }
        self.alone = within;
        self.moment += 1;
        Some(p)
    }

    // Takes the next step of the serial order, in this sweep or the next one, and says whose it was, if there was one.
    #[inline(always)]
    fn advance(&mut self) -> Option<ProcId>
        requires { IsUnderWay self.old }
        ensures { HasTakenNext self.old self.new result }
    {
        if self.alone {
            return self.advance_alone();
        }
        law_wired();
        law_serial();
        law_bound();
        let _set = self.machine.set();
        let last = self.next;
        if let Some(stepped) = self.sweep_on() {
            self.moment += 1;
            return Some(stepped);
        }
        let within = self.is_within_before(last);
        let stepped = self.sweep_on()?;
        self.alone = within && stepped.0 + 1 == last;
        self.moment += 1;
        Some(stepped)
    }

    // Takes the next steps of the processor whose turn was last, where only that one may be enabled: up to a moment, as long
    // as each touches no wire and the register holds what it does now. Says whose they are, if there was any. Where no
    // register is given, there is none.
    #[inline(always)]
    fn run_alone(&mut self, moment: u64, watched: Option<u32>) -> Option<ProcId>
        requires { IsUnderWay self.old }
        ensures gone { IfSome result (λ _. HasGoneOn self.old self.new moment) }
        ensures stays { result ≡ None → HasStayed self.old self.new }
        ensures seen { IfSome result (λ q. (p : ℕ) (aim : Aim) → IsPossibleAim self.old.machine.set p aim →
            (self.old.next ≡ p + 1 → IfSome watched (IsSeenIn aim)) → OnlyLast self.old self.new q.0 p aim) }
    {
        law_wired();
        law_queues();
        let _set = self.machine.set();
        let register = watched?;
        if !self.alone {
            return None;
        }
        let p = ProcId(self.next - 1);
        let most = moment.saturating_sub(self.moment);
        let steps = self.machine.run_within(p, register, most);
        self.moment += steps;
        if steps > 0 { Some(p) } else { None }
    }

    // Takes the next step of the serial order, and maybe further ones up to a moment. Says whether there was any.
    #[inline(always)]
    fn advance_up_to(&mut self, moment: u64) -> bool
        requires { IsUnderWay self.old }
        ensures gone { result ≡ true → HasGoneOn self.old self.new moment }
        ensures rests { result ≡ false → HasEnded self.old self.new }
    {
        if self.run_alone(moment, Some(0)).is_some() {
            return true;
        }
        let _set = self.machine.set();
        let Some(_stepped) = self.advance() else {
            return false;
        };
        true
    }

    // Takes the next step of the serial order, and says whose it was, if there was one. A step of another processor leaves
    // what is to be seen of `proc`.
    #[inline(always)]
    fn advance_by_one(&mut self, moment: u64, proc: ProcId, aim: Aim) -> Option<ProcId>
        requires { MaySeek self.old proc.0 aim }
        ensures gone { IfSome result (λ _. HasGoneOn self.old self.new moment) }
        ensures stays { result ≡ None → HasStayed self.old self.new }
        ensures rests { result ≡ None → HasEnded self.old self.new }
        ensures past { IfSome result (λ q. GoesPast self.old self.new q.0 proc.0 aim) }
    {
        law_wired();
        law_queues();
        let _set = self.machine.set();
        let stepped = self.advance()?;
        Some(stepped)
    }

    // Whether the step of a processor was one of another than `proc` that leaves what is to be seen of `proc`, and the next one
    // may be taken in the same way.
    #[inline(always)]
    fn is_past(&self, stepped: ProcId, moment: u64, proc: ProcId, aim: Aim) -> bool
        ensures other { result ≡ true → stepped.0 ≡ proc.0 → ⊥ }
        ensures local { result ≡ true → IsLocal aim }
        ensures before { result ≡ true → self.now.moment < moment }
    {
        stepped.0 != proc.0 && aim.is_local() && !self.alone && self.moment < moment
    }

    // Takes the next step of the serial order, and further ones up to a moment, as long as they are steps of others and leave
    // what is to be seen of `proc`. Says whose the last one was, if there was any.
    #[inline(always)]
    fn advance_past(&mut self, moment: u64, proc: ProcId, aim: Aim) -> Option<ProcId>
        requires { MaySeek self.old proc.0 aim }
        ensures gone { IfSome result (λ _. HasGoneOn self.old self.new moment) }
        ensures rests { result ≡ None → HasEnded self.old self.new }
        ensures seen { IfSome result (λ q. OnlyLast self.old self.new q.0 proc.0 aim) }
    {
        let mut stepped = self.advance_by_one(moment, proc, aim)?;
        'steps: while self.is_past(stepped, moment, proc, aim) {
            let Some(next) = self.advance_by_one(moment, proc, aim) else {
                return Some(stepped);
            };
            stepped = next;
        }
        Some(stepped)
    }

    // The same, but steps of the processor that is alone are taken at once where they need no look each. None of the steps but
    // the last one is one of `proc` that does what is aimed at.
    #[inline(always)]
    fn advance_to_sight(&mut self, moment: u64, proc: ProcId, aim: Aim) -> Option<ProcId>
        requires { MaySeek self.old proc.0 aim }
        ensures gone { IfSome result (λ _. HasGoneOn self.old self.new moment) }
        ensures rests { result ≡ None → HasEnded self.old self.new }
        ensures seen { IfSome result (λ q. OnlyLast self.old self.new q.0 proc.0 aim) }
    {
        let watched = self.watched(proc, aim);
        if let Some(stepped) = self.run_alone(moment, watched) {
            return Some(stepped);
        }
        let stepped = self.advance_past(moment, proc, aim)?;
        Some(stepped)
    }

    // The register by whose change alone a step of the processor whose turn was last, which touches no wire, is seen to be
    // one of `proc` that does what is aimed at; register 0, which never changes, where no such step is. None where more has
    // to be looked at.
    #[inline(always)]
    fn watched(&self, proc: ProcId, aim: Aim) -> Option<u32>
        ensures { self.now.next ≡ proc.0 + 1 → IfSome result (IsSeenIn aim) }
    {
        if self.next == 0 || self.next - 1 != proc.0 {
            return Some(0);
        }
        match aim {
            Aim::Sends { .. } | Aim::SendsAny { .. } => Some(0),
            Aim::Sets { register, .. } | Aim::SetsAny { register } => Some(register),
            Aim::Pc { .. } | Aim::Stores { .. } | Aim::StoresAny { .. } => None,
        }
    }

    /// Goes to the state right after so many steps of a processor, on from where it is or from the start, and
    /// says whether the processor has so many.
    pub(crate) fn go_to(&mut self, place: Place) -> bool
        requires under_way { IsUnderWay self.old }
        requires there { place.proc.0 < proc_count self.old.machine.set.topo }
        ensures on { IsOn self.old.machine.set self.new }
        ensures led { moment_of self.old.machine.set place.proc.0 place.steps ≡ led result self.new.moment }
    {
        law_serial();
        law_bound();
        let _set = self.machine.set();
        let steps = place.steps;
        if self.machine.count(place.proc) >= steps {
            self.restart();
        }
        'steps: loop {
            let taken = self.machine.count(place.proc);
            if taken >= steps {
                return true;
            }
            let moment = self.moment.saturating_add(steps - taken);
            if !self.advance_up_to(moment) {
                return false;
            }
        }
    }

    // What the state shows of what is aimed at, before a step.
    #[inline(always)]
    fn sight(&self, proc: ProcId, aim: Aim) -> usize
        requires { CanAim self.now.machine.set proc.0 aim }
        ensures { result ≡ sight_of self.now.machine.state proc.0 aim }
    {
        match aim {
            Aim::Pc { .. } => 0,
            Aim::Sends { wire, .. } | Aim::SendsAny { wire } => self.machine.wire(wire).len(),
            Aim::Stores { address, .. } | Aim::StoresAny { address } => {
                word_in(&self.machine, proc, address) as usize
            }
            Aim::Sets { register, .. } | Aim::SetsAny { register } => {
                register_in(self.machine.processor(proc), register) as usize
            }
        }
    }

    // Whether the state after a step shows what is aimed at, where this was to be seen before it.
    #[inline(always)]
    fn shows(&self, proc: ProcId, aim: Aim, before: usize) -> bool
        requires { CanAim self.now.machine.set proc.0 aim }
        ensures { result ≡ shows self.now.machine.state proc.0 aim before }
    {
        match aim {
            Aim::Pc { pc } => has_pc(self.machine.processor(proc), pc),
            Aim::Sends { wire, value } => match self.machine.wire(wire).get(before) {
                Some(sent) => *sent == value,
                None => false,
            },
            Aim::SendsAny { wire } => self.machine.wire(wire).get(before).is_some(),
            Aim::Stores { address, word } => {
                word_in(&self.machine, proc, address) == word && before != word as usize
            }
            Aim::StoresAny { address } => {
                word_in(&self.machine, proc, address) as usize != before
            }
            Aim::Sets { register, value } => {
                let now = register_in(self.machine.processor(proc), register);
                now == value && before != value as usize
            }
            Aim::SetsAny { register } => {
                register_in(self.machine.processor(proc), register) as usize != before
            }
        }
    }

    // Whether the step of a processor was one of `proc` that does what is aimed at.
    #[inline(always)]
    fn is_met(&self, stepped: ProcId, proc: ProcId, aim: Aim, before: usize) -> bool
        requires { CanAim self.now.machine.set proc.0 aim }
        ensures { result ≡ ((stepped.0 == proc.0) && shows self.now.machine.state proc.0 aim before) }
    {
        stepped.0 == proc.0 && self.shows(proc, aim, before)
    }

    /// Goes on until right after the next step of a processor that does what is aimed at, and says whether there is one;
    /// where there is none, it goes to the end.
    pub(crate) fn go_until(&mut self, proc: ProcId, aim: Aim) -> bool
        requires { MaySeek self.old proc.0 aim }
        ensures on { IsOn self.old.machine.set self.new }
        ensures led { stop_after self.old.machine.set self.old.moment proc.0 aim ≡ led result self.new.moment }
    {
        self.pass_stopped();
        'steps: loop {
            let before = self.sight(proc, aim);
            let Some(stepped) = self.advance_to_sight(u64::MAX, proc, aim) else {
                return false;
            };
            if self.is_met(stepped, proc, aim, before) {
                return true;
            }
        }
    }

    /// Goes on to a moment, and says after which of the steps on the way it did last what is aimed at, if one did.
    pub(crate) fn latest_up_to(&mut self, moment: u64, proc: ProcId, aim: Aim) -> Option<u64>
        requires seek { MaySeek self.old proc.0 aim }
        requires later { self.old.moment ≤ moment }
        requires within { moment ≤ length (serial self.old.machine.set) }
        ensures on { IsOn self.old.machine.set self.new }
        ensures latest { last_up_to self.old.machine.set moment proc.0 aim
            ≡ option_or result (last_up_to self.old.machine.set self.old.moment proc.0 aim) }
        ensures moment { self.new.moment ≡ moment }
    {
        self.pass_stopped();
        let mut latest = None;
        'steps: while self.moment < moment {
            let before = self.sight(proc, aim);
            let Some(stepped) = self.advance_to_sight(moment, proc, aim) else {
                return latest;
            };
            latest = self.noted(latest, self.is_met(stepped, proc, aim, before));
        }
        latest
    }

    // The moment where it stands, if the last step is one that is looked for, and else the one that was found before.
    #[inline(always)]
    fn noted(&self, latest: Option<u64>, is_met: bool) -> Option<u64>
        ensures { result ≡ (if is_met then Some self.now.moment else latest) }
    {
        if is_met { Some(self.moment) } else { latest }
    }

    /// Goes on by so many steps, and says whether there are so many; where there are not, it goes to the end.
    pub(crate) fn go_on(&mut self, steps: u64) -> bool
        requires { IsUnderWay self.old }
        ensures on { IsOn self.old.machine.set self.new }
        ensures rests { result ≡ false → self.new.moment ≡ length (serial self.old.machine.set) }
    {
        self.pass_stopped();
        let moment = self.moment.saturating_add(steps);
        'steps: while self.moment < moment {
            if !self.advance_up_to(moment) {
                return false;
            }
        }
        true
    }

    /// Goes on to the end of the serial order.
    pub(crate) fn go_to_rest(&mut self)
        requires { IsUnderWay self.old }
        ensures on { IsOn self.old.machine.set self.new }
        ensures moment { self.new.moment ≡ length (serial self.old.machine.set) }
    {
        'steps: loop {
            if !self.advance_up_to(u64::MAX) {
                return;
            }
        }
    }

    // Starts anew where it stands past a moment.
    fn restart_past(&mut self, moment: u64)
        requires { IsUnderWay self.old }
        ensures on { IsOn self.old.machine.set self.new }
        ensures upto { self.new.moment ≤ moment }
    {
        if self.moment > moment {
            self.restart();
        }
    }

    /// Goes to a moment, on from where it is or from the start.
    pub(crate) fn return_to(&mut self, moment: u64)
        requires under_way { IsUnderWay self.old }
        requires there { moment ≤ length (serial self.old.machine.set) }
        ensures on { IsOn self.old.machine.set self.new }
        ensures moment { self.new.moment ≡ moment }
    {
        self.restart_past(moment);
        'steps: while self.moment < moment {
            if !self.advance_up_to(moment) {
                return;
            }
        }
    }

    // How many values are on a wire.
    fn held(&self, wire: WireId) -> usize
        requires { wire.0 < length (wires_of self.now.machine.set.topo) }
        ensures { result ≡ length (values_on self.now.machine.state.wires wire.0) }
    {
        self.machine.wire(wire).len()
    }

    // The value on a wire behind so many others, if there is one.
    fn value_behind(&self, wire: WireId, before: usize) -> Option<u32>
        requires { wire.0 < length (wires_of self.now.machine.set.topo) }
        ensures { result ≡ slice_get (values_on self.now.machine.state.wires wire.0) before }
    {
        self.machine.wire(wire).get(before).copied()
    }

    /// What was sent on a wire up to where it stands. It goes there once more, from the start.
    pub(crate) fn sent_on(&mut self, wire: WireId) -> Sent
        requires under_way { IsUnderWay self.old }
        requires there { wire.0 < length (wires_of self.old.machine.set.topo) }
        ensures on { IsOn self.old.machine.set self.new }
        ensures moment { self.new.moment ≡ self.old.moment }
        ensures sent { IsSent result (sent_by self.old.machine.set self.old.moment wire.0) }
    {
        law_wired();
        law_queues();
        law_steps();
        let moment = self.moment;
        let mut sent = Sent::new();
        self.restart();
        'steps: while self.moment < moment {
            let _set = self.machine.set();
            let before = self.held(wire);
            let Some(_stepped) = self.advance() else {
                return sent;
            };
            sent.note(self.value_behind(wire, before));
        }
        sent
    }
}

// Whether these are no wires.
#[inline(always)]
fn names_none(wires: TileWires) -> bool
    ensures { result ≡ true → (taken_by wires ≡ []) × (sent_from wires ≡ []) }
{
    wires.first.is_none() && wires.second.is_none() && wires.sent.is_none()
}

// Whether a processor is a tile or a switch that has this pc.
fn has_pc(processor: &Processor, pc: u32) -> bool
    ensures { result ≡ has_pc pc (Some (local_of processor.now)) }
{
    match processor {
        Processor::Tile(tile) => tile.state.pc == pc,
        Processor::Switch(switch) => switch.state.pc == pc,
        Processor::Source(_) | Processor::Sink(_) => false,
    }
}

// The word at an address of a tile's memory.
fn word_in(m: &Machine<'_>, tile: ProcId, address: u32) -> u32
    requires there { tile.0 < tile_count m.now.set.topo }
    requires within { address + 4 ≤ memory_size }
    ensures { result ≡ word_in address (slice_get m.now.state.locals tile.0) }
{
    let tile = m.tile(tile.0);
    tile.memory.word_at(address)
}
