//! A machine that is stepped by the clock until it is over, with the path of its set.
ghost use Rattle.std.specs.Prelude.{◌≡◌, ℕ, ◌<◌, ◌^◌, [], false, Some, IfOk, OnOk, length, replicate, slice_get};
ghost use Rattle.raw_grid.specs.Topology.{proc_count};
ghost use Rattle.raw_grid.specs.Wires.{wires_of};
ghost use Rattle.raw_model.specs.Rest.{IsQuiet};
ghost use Rattle.raw_serial.specs.declared.turn.Turn.{Turn};
ghost use Rattle.raw_serial.specs.declared.turn.Turn.TheVariants.{Fired};
ghost use Rattle.raw_serial.specs.Fresh.{IsFresh};
ghost use Rattle.raw_clock.specs.Clock.{clock, machine_at, goes, HasCycles};
ghost use Rattle.raw_clock.specs.Account.{IsAccount};
ghost use Rattle.raw_path.specs.Known.{AreKnown, AreHops, IsPath};

use crate::hops::Hop;
use crate::seen::{Seen, look, unseen};
use crate::steps::program_steps;
use crate::told::Told;
use crate::walking::walk_back;
use raw_clock::{Account, step_cycle};
use raw_serial::Machine;
use std::alloc::{AllocError, Global};

/// The path of a set.
#[derive(Drop)]
pub struct Path {
    /// How many cycles the set has.
    pub cycles: u64,
    /// How many steps tiles and switches take in them.
    pub steps: u64,
    /// What is told of the path.
    pub told: Told,
}

/// Steps a machine that has done nothing yet by the clock until no turn goes on, and finds the path of its set.
///
/// Memory is taken for each turn that a processor takes after a wait; where there is too little, the machine stands
/// somewhere before its rest.
pub fn run_path(machine: &mut Machine<'_>, alloc: Global) -> Result<Path, AllocError>
    requires { IsFresh machine.old.set machine.old }
    ensures set { machine.new.set ≡ machine.old.set }
    ensures path { IfOk result (λ path. IsPath machine.new path) }
    ensures quiet { OnOk result (IsQuiet machine.new.set machine.new.state) }
{
    let set = machine.set();
    let mut account = Account::open(alloc, set)?;
    let mut passed = vec![in alloc; 0; set.topo.wires() as usize]?;
    let mut seen = unseen(alloc, set)?;
    let mut next = unseen(alloc, set)?;
    let mut hops = Vec::new(alloc);
    let cycles = run_seen(
        machine,
        &mut account,
        &mut passed,
        &mut seen,
        &mut next,
        &mut hops,
    )?;
    let steps = program_steps(set, &account, cycles);
    let told = walk_back(alloc, set, &seen, &hops, cycles)?;
    Ok(Path {
        cycles,
        steps,
        told,
    })
}

// The same with an account of no cycles, and with nothing seen.
fn run_seen(
    machine: &mut Machine<'_>,
    account: &mut Account,
    passed: &mut [u64],
    seen: &mut [Seen],
    next: &mut [Seen],
    hops: &mut Vec<Hop>,
) -> Result<u64, AllocError>
    requires fresh { IsFresh machine.old.set machine.old }
    requires account { IsAccount machine.old.set 0 account.old }
    requires turns { account.old.turns.items ≡ replicate (proc_count machine.old.set.topo) Fired }
    requires passed { passed.old ≡ replicate (length (wires_of machine.old.set.topo)) 0 }
    requires seen { AreKnown machine.old.set [] 0 seen.old }
    requires next { length next.old ≡ proc_count machine.old.set.topo }
    requires hops { hops.old.items ≡ [] }
    ensures set { machine.new.set ≡ machine.old.set }
    ensures cycles { IfOk result (λ cycles. HasCycles machine.old.set cycles) }
    ensures few { IfOk result (λ cycles. cycles < 2 ^ 41) }
    ensures state { IfOk result (λ cycles. machine.new.state ≡ machine_at (clock machine.old.set cycles)) }
    ensures account { IfOk result (λ cycles. IsAccount machine.old.set cycles account.new) }
    ensures over { OnOk result ((p : ℕ) (turn : Turn) → slice_get account.new.turns.items p ≡ Some turn → goes turn ≡ false) }
    ensures seen { IfOk result (λ cycles. AreKnown machine.old.set hops.new.items cycles seen.new) }
    ensures hops { OnOk result (AreHops machine.old.set hops.new.items) }
{
    // The set and the number of processors are asked for so that it is known that there are few.
    let _set = machine.set();
    let _procs = machine.procs();
    let mut cycles = 0;
    'cycles: while step_cycle(machine, account, passed, cycles) {
        look(machine, &account.turns, cycles, seen, next, hops)?;
        seen.copy_from_slice(next);
        cycles += 1;
    }
    Ok(cycles)
}
