//! The lost cycles of all processors, counted cycle by cycle.
ghost use Rattle.std.specs.Prelude.{◌≡◌, ◌+◌, ◌<◌, ◌≤◌, ◌^◌, suc, None, IfOk, length, replicate};
ghost use Rattle.raw_grid.specs.Topology.{proc_count};
ghost use Rattle.raw_grid.specs.Wires.{wires_of};
ghost use Rattle.raw_model.specs.Program.{IsSet};
ghost use Rattle.raw_serial.specs.declared.turn.Turn.TheVariants.{Fired};
ghost use Rattle.raw_serial.specs.Fresh.{IsFresh};
ghost use Rattle.raw_clock.specs.Account.{IsAccount};
ghost use Rattle.raw_clock.specs.Clock.{clock, turn_in, HasCycles};
ghost use Rattle.raw_whole.specs.Kept.{AreTurnsIn};
ghost use Rattle.raw_steady.specs.Steady.{is_wait};
ghost use Rattle.raw_lost.specs.Lost.{lost_by};
ghost use Rattle.raw_lost.specs.Known.{AreKinds, AreLost};

use crate::finding::kind_of_root;
use crate::lost::{Lost, NONE};
use crate::root::RootKind;
use raw_clock::{Account, step_cycle};
use raw_model::Set;
use raw_serial::{Machine, Turn};
use std::alloc::{AllocError, Global};

// Whether a processor with this turn waits.
fn is_wait(turn: Turn) -> bool
    ensures { result ≡ is_wait turn }
{
    match turn {
        Turn::Waits { .. } => true,
        Turn::Fired | Turn::Stalled | Turn::Stopped => false,
    }
}

// Notes the cycle after so many of a processor that has this turn: where it waits, the cycle is lost.
fn note_turn(
    set: &Set,
    turns: &[Turn],
    kinds: &mut [Option<RootKind>],
    lost: &mut Lost,
    p: u32,
    turn: Turn,
    cycles: u64,
)
    requires valid { IsSet set.now }
    requires few { cycles ≤ 2 ^ 40 }
    requires there { p < proc_count set.now.topo }
    requires many { length turns.now ≡ proc_count set.now.topo }
    requires turns { AreTurnsIn set.now cycles turns.now }
    requires turn { turn ≡ turn_in set.now (clock set.now cycles) p }
    requires kinds { AreKinds set.now cycles kinds.old }
    requires lost { lost.old ≡ lost_by set.now cycles p }
    ensures kinds { AreKinds set.now cycles kinds.new }
    ensures lost { lost.new ≡ lost_by set.now (suc cycles) p }
{
    if is_wait(turn) {
        let enough = set.topo.procs() + 1;
        let kind = kind_of_root(set, turns, kinds, p, enough, cycles);
        lost.note(kind);
    }
}

// Forgets all kinds.
fn forget(kinds: &mut [Option<RootKind>])
    ensures { kinds.new ≡ replicate (length kinds.old) None }
{
    kinds.fill(None);
}

// Notes the cycle after so many, in which the processors have these turns.
fn note_cycle(
    set: &Set,
    turns: &[Turn],
    kinds: &mut [Option<RootKind>],
    lost: &mut [Lost],
    cycles: u64,
)
    requires valid { IsSet set.now }
    requires few { cycles ≤ 2 ^ 40 }
    requires many { length turns.now ≡ proc_count set.now.topo }
    requires turns { AreTurnsIn set.now cycles turns.now }
    requires kinds { length kinds.old ≡ proc_count set.now.topo }
    requires lost { AreLost set.now cycles lost.old }
    ensures { AreLost set.now (cycles + 1) lost.new }
{
    forget(kinds);
    'all: for p in 0..set.topo.procs() {
        let turn = turns[p as usize];
        note_turn(set, turns, kinds, &mut lost[p as usize], p, turn, cycles);
    }
}

// Steps a machine by so many cycles, and counts those that are lost.
fn count_cycles(
    machine: &mut Machine<'_>,
    account: &mut Account,
    passed: &mut [u64],
    kinds: &mut [Option<RootKind>],
    lost: &mut [Lost],
    cycles: u64,
)
    requires fresh { IsFresh machine.old.set machine.old }
    requires cycles { HasCycles machine.old.set cycles }
    requires account { IsAccount machine.old.set 0 account.old }
    requires turns { account.old.turns.items ≡ replicate (proc_count machine.old.set.topo) Fired }
    requires passed { passed.old ≡ replicate (length (wires_of machine.old.set.topo)) 0 }
    requires kinds { length kinds.old ≡ proc_count machine.old.set.topo }
    requires lost { AreLost machine.old.set 0 lost.old }
    ensures { AreLost machine.old.set cycles lost.new }
{
    // The set and the number of processors are asked for so that it is known that there are few cycles.
    let set = machine.set();
    let _procs = machine.procs();
    'cycles: for k in 0..cycles {
        step_cycle(machine, account, passed, k);
        note_cycle(set, &account.turns, kinds, lost, k);
    }
}

/// The lost cycles of each processor of a set that has so many cycles, by rising number: a machine of it is stepped by its
/// clock. Want of memory is the one refusal.
pub fn lost_of(alloc: Global, set: &Set, cycles: u64) -> Result<Vec<Lost>, AllocError>
    requires { HasCycles set.now cycles }
    ensures { IfOk result (λ lost. AreLost set.now cycles lost.items) }
{
    let procs = set.topo.procs() as usize;
    let mut machine = Machine::open(alloc, set)?;
    let mut account = Account::open(alloc, set)?;
    let mut passed = vec![in alloc; 0; set.topo.wires() as usize]?;
    let mut kinds = vec![in alloc; None; procs]?;
    let mut lost = vec![in alloc; NONE; procs]?;
    count_cycles(
        &mut machine,
        &mut account,
        &mut passed,
        &mut kinds,
        &mut lost,
        cycles,
    );
    Ok(lost)
}
