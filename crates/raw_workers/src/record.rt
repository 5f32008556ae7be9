//! A machine, run to its rest by workers, and the steps in one list.
//!
//! `history` takes its steps itself where nobody asks for workers. All steps have to be put in one list and taken once
//! on one machine, so workers could only add to that.
//!
//! The second machine of `work_kept` is the one that is given back. It has taken the very list that is given with it.
ghost use Rattle.std.specs.Prelude.{◌≡◌, ◌<◌, ℕ, List, true, false, All, OnOk, IfOk, vec_len};
ghost use Rattle.raw_grid.specs.Topology.{proc_count};
ghost use Rattle.raw_model.specs.Rest.{enabled, IsQuiet, IsLawfulFrom, end_from};
ghost use Rattle.raw_model.specs.Bounds.{all_left};
ghost use Rattle.raw_model.specs.Laws.{IsLawfulJoining};
ghost use Rattle.raw_steps.specs.Weaving.{steps_in, AreInOrder, HaveLawfulJoining};
ghost use Rattle.raw_workers.specs.Kept.{IsKept, IsKeptBeside, IsKeptOn};

use crate::activity::Activity;
use crate::parallelism::Parallelism;
use crate::rounds::{Earlier, FIRST_LOG_STEPS, LOG_STEPS, has_steps, round};
use crate::turns::{Steps, serial_turn};
use raw_fabric::{Gate, PassLog, Workers};
use raw_grid::ProcId;
use raw_model::{Set, law_bound, law_steps, law_weaving};
use raw_serial::Machine;
use raw_steps::{check_run, take_step, weave};
use std::alloc::{AllocError, Global};
use std::rt::Clock;
use std::thread::Threads;

/// A machine, and the steps that it has taken since it was fresh.
#[derive(Drop)]
pub struct Kept<'s> {
    /// The machine.
    pub machine: Machine<'s>,
    /// The processor of each step, in order.
    pub steps: Vec<ProcId>,
}

impl Kept<'_> {
    // Takes a list of steps that the logs of a round can be woven to.
    fn keep_logs(&mut self, alloc: Global, logs: &[PassLog]) -> Result<(), AllocError>
        requires kept { IsKept self.old.machine.set self.old }
        requires order { AreInOrder logs.now }
        requires joining { HaveLawfulJoining self.old.machine.set self.old.machine.state (steps_in logs.now) }
        ensures kept { OnOk result (IsKept self.old.machine.set self.new) }
        ensures there { OnOk result ((steps : List ℕ) →
            IsLawfulJoining self.old.machine.set self.old.machine.state (steps_in logs.now) steps →
            self.new.machine.state ≡ end_from self.old.machine.set self.old.machine.state steps) }
    {
        law_steps();
        law_weaving();
        // The set is asked for so that it is known to keep its rules.
        let _set = self.machine.set();
        let woven = weave(alloc, &mut self.machine, logs)?;
        self.steps.extend_from_slice(&woven)?;
        Ok(())
    }

    // Takes the steps of a turn.
    fn keep_turn(&mut self, turn: &Steps) -> Result<(), AllocError>
        requires kept { IsKept self.old.machine.set self.old }
        requires there { All (λ p. p < proc_count self.old.machine.set.topo) turn.now.items }
        requires lawful { IsLawfulFrom self.old.machine.set self.old.machine.state turn.now.items }
        ensures kept { OnOk result (IsKept self.old.machine.set self.new) }
        ensures there { OnOk result (self.new.machine.state
            ≡ end_from self.old.machine.set self.old.machine.state turn.now.items) }
    {
        law_steps();
        let before = self.steps.len();
        for i in 0..turn.len() {
            self.steps.push(ProcId(turn[i]))?;
        }
        check_run(&mut self.machine, &self.steps[before..]);
        Ok(())
    }

    // Takes the next step of a processor, if it is enabled, and says whether it was.
    fn take(&mut self, p: ProcId) -> Result<bool, AllocError>
        requires there { p.0 < proc_count self.old.machine.set.topo }
        requires kept { IsKept self.old.machine.set self.old }
        ensures on { OnOk result (IsKeptOn self.old.machine.set self.old self.new) }
        ensures more { IfOk result (λ fired. fired ≡ true → vec_len self.old.steps < vec_len self.new.steps) }
        ensures idle { IfOk result (λ fired. fired ≡ false →
            enabled self.old.machine.set self.new.machine.state p.0 ≡ false) }
    {
        law_steps();
        law_bound();
        if !take_step(&mut self.machine, p) {
            return Ok(false);
        }
        self.steps.push(p)?;
        Ok(true)
    }

    // Takes steps of a processor until it is not enabled.
    fn take_all(&mut self, p: ProcId) -> Result<(), AllocError>
        requires there { p.0 < proc_count self.old.machine.set.topo }
        requires kept { IsKept self.old.machine.set self.old }
        ensures on { OnOk result (IsKeptOn self.old.machine.set self.old self.new) }
        ensures idle { OnOk result (enabled self.old.machine.set self.new.machine.state p.0 ≡ false) }
    {
        'steps: while self.take(p)? {}
        Ok(())
    }

    // Takes steps of each processor until it is not enabled, and says whether there was a step.
    fn sweep(&mut self) -> Result<bool, AllocError>
        requires kept { IsKept self.old.machine.set self.old }
        ensures on { OnOk result (IsKeptOn self.old.machine.set self.old self.new) }
        ensures more { IfOk result (λ fired. fired ≡ true → vec_len self.old.steps < vec_len self.new.steps) }
        ensures quiet { IfOk result (λ fired. fired ≡ false → IsQuiet self.old.machine.set self.new.machine.state) }
    {
        let before = self.steps.len();
        for p in 0..self.machine.procs() {
            self.take_all(ProcId(p))?;
        }
        Ok(self.steps.len() != before)
    }
}

// A round, and where it took no step a turn on this thread, which are kept. Says whether a step was taken; where none
// was, the machine is quiet.
fn advance<'s, R: Threads + Clock + Sync, G: Gate>(
    rt: &R,
    alloc: Global,
    machine: Machine<'s>,
    kept: &mut Kept<'_>,
    workers: Workers,
    log_steps: u32,
    activity: &Activity,
    earlier: &mut Earlier,
    gate: &G,
) -> Result<(Machine<'s>, bool), AllocError>
    requires kept { IsKeptBeside machine.set kept.old machine }
    ensures kept { IfOk result (λ next. IsKeptBeside machine.entry.set kept.new next.0) }
    ensures less { IfOk result (λ next. next.1 ≡ true →
        all_left machine.entry.set next.0.state < all_left machine.entry.set machine.entry.state) }
    ensures quiet { IfOk result (λ next. next.1 ≡ false → IsQuiet next.0.set next.0.state) }
{
    law_bound();
    law_weaving();
    let (mut machine, logs) = round(
        rt,
        alloc,
        machine,
        workers,
        log_steps,
        activity,
        earlier,
        u64::MAX,
        gate,
    );
    if let Some(logs) = logs {
        kept.keep_logs(alloc, &logs)?;
        if has_steps(&logs) {
            earlier.logs = logs;
            return Ok((machine, true));
        }
    }
    let steps = serial_turn(&mut machine);
    kept.keep_turn(&steps)?;
    Ok((machine, !steps.is_empty()))
}

// Runs a set until its machine is quiet, by these workers.
fn kept_together<'s, R: Threads + Clock + Sync, G: Gate>(
    rt: &R,
    alloc: Global,
    set: &'s Set,
    workers: Workers,
    gate: &G,
) -> Result<Kept<'s>, AllocError>
    ensures kept { IfOk result (IsKept set.now) }
    ensures quiet { IfOk result (λ kept. IsQuiet set.now kept.machine.state) }
{
    let activity = Activity::new();
    let mut earlier = Earlier::none(alloc);
    let mut log_steps = FIRST_LOG_STEPS;
    let mut machine = Machine::open(alloc, set)?;
    let mut kept = Kept {
        machine: Machine::open(alloc, set)?,
        steps: Vec::new(alloc),
    };
    'rounds: loop {
        let (next, fired) = advance(
            rt,
            alloc,
            machine,
            &mut kept,
            workers,
            log_steps,
            &activity,
            &mut earlier,
            gate,
        )?;
        machine = next;
        if !fired {
            return Ok(kept);
        }
        log_steps = LOG_STEPS;
    }
}

/// Runs a set until its machine is quiet, and gives all steps in one list, in which each is enabled when its turn comes.
///
/// Where the machine is run by exactly so many workers, and by more than one, they run it in rounds as in `work`; after
/// each the logs of the workers are woven on a second machine, which is the one that is given back. Else it is run on the
/// thread of the caller, and the list is that of its own steps: all steps have to be taken there in any case, so
/// workers would not help.
///
/// It refuses only where there is no memory.
pub fn work_kept<'s, R: Threads + Clock + Sync, G: Gate>(
    rt: &R,
    alloc: Global,
    set: &'s Set,
    parallelism: Parallelism,
    gate: &G,
) -> Result<Kept<'s>, AllocError>
    ensures kept { IfOk result (IsKept set.now) }
    ensures quiet { IfOk result (λ kept. IsQuiet set.now kept.machine.state) }
{
    match parallelism {
        Parallelism::Exactly(workers) if workers.count() > 1 => {
            return kept_together(rt, alloc, set, workers, gate);
        }
        _ => {}
    }
    let mut kept = Kept {
        machine: Machine::open(alloc, set)?,
        steps: Vec::new(alloc),
    };
    'sweeps: while kept.sweep()? {}
    Ok(kept)
}
