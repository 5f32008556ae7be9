//! A run by the clock whose turns and sends are kept.
ghost use Rattle.std.specs.Prelude.{◌≡◌, ◌<◌, ◌^◌, IfOk, OnOk, length, replicate};
ghost use Rattle.raw_grid.specs.Topology.{proc_count};
ghost use Rattle.raw_grid.specs.Wires.{wires_of};
ghost use Rattle.raw_serial.specs.declared.turn.Turn.TheVariants.{Fired};
ghost use Rattle.raw_serial.specs.Fresh.{IsFresh};
ghost use Rattle.raw_clock.specs.Account.{IsAccount};
ghost use Rattle.raw_clock.specs.Clock.{HasCycles};
ghost use Rattle.raw_whole.specs.Kept.{AreTurnsKept, AreSendsKept, IsWhole};

use crate::sends::{Sends, no_sends, note_sends};
use crate::turns::{Turns, no_turns, note_turns};
use raw_clock::{Account, step_cycle};
use raw_model::Set;
use raw_serial::Machine;
use std::alloc::{AllocError, Global};

/// The turns and the sends of a whole run, at the positions 0 to the number of its cycles.
#[derive(Drop)]
pub struct Whole {
    /// The turns of each processor.
    pub turns: Vec<Turns>,
    /// The sends on each wire.
    pub sends: Vec<Sends>,
}

impl Whole {
    // What is kept of no cycles.
    fn open(alloc: Global, set: &Set) -> Result<Self, AllocError>
        ensures turns { IfOk result (λ whole. AreTurnsKept set.now 0 whole.turns.items) }
        ensures sends { IfOk result (λ whole. AreSendsKept set.now 0 whole.sends.items) }
    {
        Ok(Whole {
            turns: no_turns(alloc, set.topo.procs())?,
            sends: no_sends(alloc, set.topo.wires())?,
        })
    }
}

// Steps a machine by so many cycles and one more, the last of which is the state at rest, and notes them all.
fn gather_cycles(
    machine: &mut Machine<'_>,
    account: &mut Account,
    passed: &mut [u64],
    whole: &mut Whole,
    cycles: u64,
) -> Result<(), AllocError>
    requires fresh { IsFresh machine.old.set machine.old }
    requires cycles { HasCycles machine.old.set cycles }
    requires few { cycles < 2 ^ 24 }
    requires account { IsAccount machine.old.set 0 account.old }
    requires turns { account.old.turns.items ≡ replicate (proc_count machine.old.set.topo) Fired }
    requires passed { passed.old ≡ replicate (length (wires_of machine.old.set.topo)) 0 }
    requires kept_turns { AreTurnsKept machine.old.set 0 whole.old.turns.items }
    requires kept_sends { AreSendsKept machine.old.set 0 whole.old.sends.items }
    ensures set { machine.new.set ≡ machine.old.set }
    ensures whole { OnOk result (IsWhole machine.old.set cycles whole.new) }
{
    // The set is asked for so that it is known to keep its rules.
    let set = machine.set();
    'cycles: for k in 0..cycles + 1 {
        step_cycle(machine, account, passed, k);
        note_turns(set, &mut whole.turns, &account.turns, k)?;
        note_sends(set, &mut whole.sends, passed, k)?;
    }
    Ok(())
}

/// Steps a machine that has done nothing yet by the clock, and keeps the turns and the sends of all its cycles. Want of
/// memory is the one refusal.
pub fn gather(machine: &mut Machine<'_>, alloc: Global, cycles: u64) -> Result<Whole, AllocError>
    requires fresh { IsFresh machine.old.set machine.old }
    requires cycles { HasCycles machine.old.set cycles }
    requires few { cycles < 2 ^ 24 }
    ensures set { machine.new.set ≡ machine.old.set }
    ensures whole { IfOk result (λ whole. IsWhole machine.old.set cycles whole) }
{
    let set = machine.set();
    let mut account = Account::open(alloc, set)?;
    let mut passed = vec![in alloc; 0; set.topo.wires() as usize]?;
    let mut whole = Whole::open(alloc, set)?;
    gather_cycles(machine, &mut account, &mut passed, &mut whole, cycles)?;
    Ok(whole)
}
