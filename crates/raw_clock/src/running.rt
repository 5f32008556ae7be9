//! A machine that is stepped by the clock until it is over.
ghost use Rattle.std.specs.Prelude.{◌≡◌, ◌<◌, ◌^◌, IfOk, length, replicate};
ghost use Rattle.raw_grid.specs.Topology.{proc_count};
ghost use Rattle.raw_grid.specs.Wires.{wires_of};
ghost use Rattle.raw_model.specs.Rest.{IsQuiet, IsRun};
ghost use Rattle.raw_serial.specs.declared.turn.Turn.TheVariants.{Fired};
ghost use Rattle.raw_serial.specs.Fresh.{IsFresh};
ghost use Rattle.raw_clock.specs.Clock.{clock, clock_steps, clock_turns, machine_at, HasCycles};
ghost use Rattle.raw_clock.specs.Laws.{NoneIsSooner};
ghost use Rattle.raw_clock.specs.Values.{HaveSent};
ghost use Rattle.raw_clock.specs.Account.{IsAccount};
ghost use Rattle.raw_clock.specs.Tally.{IsTally};
ghost use Rattle.raw_clock.specs.Counted.{IsCounted};

use crate::account::Account;
use crate::cycle::step_cycle;
use crate::tally::Tally;
use raw_serial::Machine;
use std::alloc::{AllocError, Global};

/// How many cycles a set has, and what is counted of them.
#[derive(Drop)]
pub struct Cycles {
    /// The number of cycles.
    pub cycles: u64,
    /// How many steps tiles and switches took in them.
    pub steps: u64,
    /// How the processors spent them.
    pub tally: Tally,
    /// How many values were sent on each wire, by the numbers of the wires.
    pub passed: Vec<u64>,
}

/// Steps a machine that has done nothing yet by the clock until no turn goes on. In each cycle all processors take at
/// once the turns that they have in the state before it: what is sent in a cycle can be taken in the next one.
///
/// All memory is taken at the start; where there is too little of it, the machine stays as it is.
pub fn run(machine: &mut Machine<'_>, alloc: Global) -> Result<Cycles, AllocError>
    requires { IsFresh machine.old.set machine.old }
    ensures set { machine.new.set ≡ machine.old.set }
    ensures counted { IfOk result (λ ran. IsCounted machine.new ran) }
    ensures quiet { IfOk result (λ ran. IsQuiet machine.new.set machine.new.state) }
    ensures steps { IfOk result (λ ran. IsRun machine.new.set (clock_steps machine.new.set ran.cycles)) }
    ensures none_sooner { IfOk result (λ ran. NoneIsSooner machine.new.set ran.cycles) }
{
    let set = machine.set();
    let mut account = Account::open(alloc, set)?;
    let mut passed = vec![in alloc; 0; set.topo.wires() as usize]?;
    let cycles = run_counted(machine, &mut account, &mut passed);
    let steps = account.tally.program_steps(set, cycles);
    Ok(Cycles {
        cycles,
        steps,
        tally: account.tally,
        passed,
    })
}

// The same with an account of no cycles, and counts of no values.
fn run_counted(machine: &mut Machine<'_>, account: &mut Account, passed: &mut [u64]) -> u64
    requires fresh { IsFresh machine.old.set machine.old }
    requires account { IsAccount machine.old.set 0 account.old }
    requires turns { account.old.turns.items ≡ replicate (proc_count machine.old.set.topo) Fired }
    requires passed { passed.old ≡ replicate (length (wires_of machine.old.set.topo)) 0 }
    ensures set { machine.new.set ≡ machine.old.set }
    ensures cycles { HasCycles machine.old.set result }
    ensures few { result < 2 ^ 41 }
    ensures tally { IsTally machine.old.set result account.new.tally }
    ensures passed { HaveSent machine.old.set (clock_turns machine.old.set result) passed.new }
    ensures state { machine.new.state ≡ machine_at (clock machine.old.set result) }
{
    // The set and the number of processors are asked for so that it is known that there are few.
    let set = machine.set();
    let _procs = machine.procs();
    let mut cycles = 0;
    'cycles: while step_cycle(machine, account, passed, cycles) {
        cycles += 1;
    }
    account.close(set, cycles);
    cycles
}
