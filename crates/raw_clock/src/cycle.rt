//! One cycle of a machine.
//!
//! Each processor is asked in each cycle, also one that has waited for long. So a cycle costs a look at each processor,
//! and a grid in which few go on costs more by the clock than in the serial order, which passes over those that wait.
ghost use Rattle.std.specs.Prelude.{◌≡◌, ◌≢◌, ℕ, ◌<◌, ◌≤◌, ◌^◌, ◌||◌, false, nat_lt, Some, None, length, slice_get, slice_index, MatchBool};
ghost use Rattle.raw_grid.specs.Topology.{tile_count, proc_count};
ghost use Rattle.raw_grid.specs.Wires.{wires_of};
ghost use Rattle.raw_model.specs.Machine.{is_stopped};
ghost use Rattle.raw_model.specs.Start.{IsFit};
ghost use Rattle.raw_processor.specs.Processor.{local_of, owed_of};
ghost use Rattle.raw_serial.specs.Turns.{turn_by};
ghost use Rattle.raw_serial.specs.Running.{turn_of, IsTurnOf};
ghost use Rattle.raw_clock.specs.Clock.{goes};
ghost use Rattle.raw_clock.specs.Engine.{OnlyTilesOwe, AreTurns, AreSent, Took, IsCycle, SomeGoes, NoneGoes, StaysStopped, AreOthersAlike};
ghost use Rattle.raw_clock.specs.Values.{NumbersStand, AreFewMore};
ghost use Rattle.raw_clock.specs.Account.{IsAccount, AccountStands};

use crate::account::Account;
use crate::values::count_sent;
use raw_grid::{ProcId, WireId};
use raw_model::Set;
use raw_serial::{Event, Machine, Processor, Turn};

// How many stall turns a processor owes.
fn owed(processor: &Processor) -> u8
    ensures { result ≡ owed_of processor.now }
{
    match processor {
        Processor::Tile(tile) => tile.owed,
        Processor::Switch(_) | Processor::Source(_) | Processor::Sink(_) => 0,
    }
}

// What the turn of a processor comes to that waits for no wire.
fn ask_ready(set: &Set, p: ProcId, processor: &Processor) -> Turn
    requires { IsFit set.now p.0 (local_of processor.now) }
    ensures { result ≡ turn_by (is_stopped set.now p.0 (local_of processor.now)) (nat_lt 0 (owed_of processor.now)) None }
{
    if processor.is_stopped(set, p) {
        return Turn::Stopped;
    }
    if owed(processor) > 0 {
        return Turn::Stalled;
    }
    Turn::Fired
}

// What the turn of a processor comes to that waits for a wire, and so is not stopped.
fn ask_waiting(processor: &Processor, wire: WireId) -> Turn
    ensures { result ≡ turn_by false (nat_lt 0 (owed_of processor.now)) (Some wire.0) }
{
    if owed(processor) > 0 {
        return Turn::Stalled;
    }
    Turn::Waits { wire }
}

/// What the turn of a processor comes to, before it takes it.
pub(crate) fn ask(machine: &Machine<'_>, p: ProcId) -> Turn
    requires { p.0 < proc_count machine.now.set.topo }
    ensures answer { result ≡ turn_of machine.now p.0 }
    ensures tiles { tile_count machine.now.set.topo ≤ p.0 → slice_index machine.now.owed p.0 ≡ 0 }
{
    let processor = machine.processor(p);
    let set = machine.set();
    match machine.first_wait(p) {
        Some(wait) => ask_waiting(processor, wait.wire),
        None => ask_ready(set, p, processor),
    }
}

/// Whether a turn goes on: it is a step, or pays a stall turn.
pub fn goes(turn: Turn) -> bool
    ensures { result ≡ goes turn }
{
    match turn {
        Turn::Fired | Turn::Stalled => true,
        Turn::Stopped | Turn::Waits { .. } => false,
    }
}

/// Asks each processor what its turn comes to, and says whether one goes on.
pub fn ask_all(machine: &Machine<'_>, turns: &mut [Turn]) -> bool
    requires { proc_count machine.now.set.topo ≤ length turns.old }
    ensures turns { AreTurns machine.now turns.new }
    ensures tiles { OnlyTilesOwe machine.now }
    ensures goes { MatchBool result (SomeGoes machine.now (proc_count machine.now.set.topo))
        (NoneGoes machine.now (proc_count machine.now.set.topo)) }
{
    let mut some = false;
    'procs: for p in 0..machine.procs() {
        let turn = ask(machine, ProcId(p));
        turns[p as usize] = turn;
        some = either(some, goes(turn));
    }
    some
}

// One of the two.
fn either(first: bool, second: bool) -> bool
    ensures { result ≡ (first || second) }
{
    first || second
}

// Gives a processor its turn, and counts the values that it sends on each wire. What `event` has before it is of no account.
fn give(machine: &mut Machine<'_>, p: ProcId, event: &mut Event, passed: &mut [u64]) -> Turn
    requires there { p.0 < proc_count machine.old.set.topo }
    requires passed { NumbersStand machine.old.set (2 ^ 62) passed.old }
    ensures turn { IsTurnOf machine.old machine.new p.0 result }
    ensures sent { AreSent result machine.old p.0 passed.old passed.new }
    ensures few { AreFewMore 10 passed.old passed.new }
{
    match machine.try_step_telling(p, event) {
        Turn::Fired => {
            count_sent(&event.sent, passed);
            Turn::Fired
        }
        turn => turn,
    }
}

// Asks a switch or a port what its turn comes to, and notes it.
fn ask_other(machine: &Machine<'_>, account: &mut Account, p: ProcId, cycles: u64)
    requires there { p.0 < proc_count machine.now.set.topo }
    requires account { AccountStands machine.now.set cycles account.old }
    requires stopped { StaysStopped machine.now account.old.turns.items p.0 }
    ensures account { IsAccount machine.now.set cycles account.new }
    ensures turn { slice_get account.new.turns.items p.0 ≡ Some (turn_of machine.now p.0) }
    ensures others { AreOthersAlike p.0 account.old.turns.items account.new.turns.items }
    ensures tiles { tile_count machine.now.set.topo ≤ p.0 → slice_index machine.now.owed p.0 ≡ 0 }
{
    // The processor is read so that it is known that it owes nothing.
    let _processor = machine.processor(p);
    match account.turn(p) {
        Turn::Stopped => {}
        _ => {
            let turn = ask(machine, p);
            account.note(machine.set(), p, turn, cycles);
        }
    }
}

// Gives a tile its turn and notes it, and says whether it goes on.
//
// No wire leads from tile to tile, so what one does in a cycle changes no other one's turn.
fn take_tile(
    machine: &mut Machine<'_>,
    account: &mut Account,
    event: &mut Event,
    passed: &mut [u64],
    p: ProcId,
    cycles: u64,
) -> bool
    requires tile { p.0 < tile_count machine.old.set.topo }
    requires passed { NumbersStand machine.old.set (2 ^ 62) passed.old }
    requires account { AccountStands machine.old.set cycles account.old }
    requires stopped { StaysStopped machine.old account.old.turns.items p.0 }
    ensures goes { result ≡ goes (turn_of machine.old p.0) }
    ensures took { Took result machine.old machine.new p.0 passed.old passed.new }
    ensures tiles { (q : ℕ) → q < tile_count machine.old.set.topo → q ≢ p.0 → turn_of machine.new q ≡ turn_of machine.old q }
    ensures account { IsAccount machine.old.set cycles account.new }
    ensures turn { slice_get account.new.turns.items p.0 ≡ Some (turn_of machine.old p.0) }
    ensures others { AreOthersAlike p.0 account.old.turns.items account.new.turns.items }
    ensures few { AreFewMore 10 passed.old passed.new }
{
    let set = machine.set();
    match account.turn(p) {
        Turn::Stopped => false,
        _ => {
            let turn = give(machine, p, event, passed);
            account.note(set, p, turn, cycles);
            goes(turn)
        }
    }
}

// Gives a switch or a port its turn, if what was noted of it goes on, and says so.
fn take_other(
    machine: &mut Machine<'_>,
    turn: Turn,
    event: &mut Event,
    passed: &mut [u64],
    p: ProcId,
) -> bool
    requires there { p.0 < proc_count machine.old.set.topo }
    requires passed { NumbersStand machine.old.set (2 ^ 62) passed.old }
    ensures goes { result ≡ goes turn }
    ensures took { Took result machine.old machine.new p.0 passed.old passed.new }
    ensures few { AreFewMore 10 passed.old passed.new }
{
    let goes_on = goes(turn);
    if goes_on {
        give(machine, p, event, passed);
    }
    goes_on
}

// Asks the switches and the ports what their turns come to, and notes them.
fn ask_others(machine: &Machine<'_>, account: &mut Account, cycles: u64)
    requires account { AccountStands machine.now.set cycles account.old }
    requires stopped { (p : ℕ) → p < proc_count machine.now.set.topo → StaysStopped machine.now account.old.turns.items p }
    ensures account { IsAccount machine.now.set cycles account.new }
    ensures turns { (p : ℕ) → tile_count machine.now.set.topo ≤ p → p < proc_count machine.now.set.topo →
        slice_get account.new.turns.items p ≡ Some (turn_of machine.now p) }
    ensures others { (p : ℕ) → p < tile_count machine.now.set.topo →
        slice_get account.new.turns.items p ≡ slice_get account.old.turns.items p }
    ensures tiles { OnlyTilesOwe machine.now }
{
    let tiles = machine.set().topo.tiles();
    'procs: for p in tiles..machine.procs() {
        ask_other(machine, account, ProcId(p), cycles);
    }
}

// Takes the turns that go on: those of tiles, and those that were noted of the others. Says whether there are some.
fn take_all(
    machine: &mut Machine<'_>,
    account: &mut Account,
    passed: &mut [u64],
    cycles: u64,
) -> bool
    requires account { AccountStands machine.old.set cycles account.old }
    requires tiles { OnlyTilesOwe machine.old }
    requires stopped { (p : ℕ) → p < tile_count machine.old.set.topo → StaysStopped machine.old account.old.turns.items p }
    requires turns { (p : ℕ) → tile_count machine.old.set.topo ≤ p → p < proc_count machine.old.set.topo →
        slice_get account.old.turns.items p ≡ Some (turn_of machine.old p) }
    requires passed { NumbersStand machine.old.set (2 ^ 61) passed.old }
    ensures set { machine.new.set ≡ machine.old.set }
    ensures cycle { IsCycle machine.old machine.new passed.old passed.new }
    ensures account { IsAccount machine.old.set cycles account.new }
    ensures turns { AreTurns machine.old account.new.turns.items }
    ensures goes { MatchBool result (SomeGoes machine.old (proc_count machine.old.set.topo))
        (NoneGoes machine.old (proc_count machine.old.set.topo)) }
    ensures few { AreFewMore 2560 passed.old passed.new }
{
    let tiles = machine.set().topo.tiles();
    let mut event = Event::new();
    let mut some = false;
    'procs: for p in 0..machine.procs() {
        let proc = ProcId(p);
        let goes_on = if p < tiles {
            take_tile(machine, account, &mut event, passed, proc, cycles)
        } else {
            take_other(machine, account.turn(proc), &mut event, passed, proc)
        };
        some = either(some, goes_on);
    }
    some
}

/// Steps a machine by one cycle: the turns that go on are taken, all turns are noted, and the values that are sent on each
/// wire are counted. Says whether some turn goes on; where none does, nothing is done.
///
/// Tiles are given their turns one after another, which no other tile's step changes. What is sent in a cycle may change
/// those of switches and ports, so these are asked first.
pub fn step_cycle(
    machine: &mut Machine<'_>,
    account: &mut Account,
    passed: &mut [u64],
    cycles: u64,
) -> bool
    requires few { cycles < 2 ^ 62 }
    requires account { IsAccount machine.old.set cycles account.old }
    requires stopped { (p : ℕ) → p < proc_count machine.old.set.topo → StaysStopped machine.old account.old.turns.items p }
    requires each { length passed.old ≡ length (wires_of machine.old.set.topo) }
    requires room { (w : ℕ) → slice_index passed.old w < 2 ^ 61 }
    ensures set { machine.new.set ≡ machine.old.set }
    ensures cycle { IsCycle machine.old machine.new passed.old passed.new }
    ensures account { IsAccount machine.old.set cycles account.new }
    ensures turns { AreTurns machine.old account.new.turns.items }
    ensures tiles { OnlyTilesOwe machine.old }
    ensures goes { MatchBool result (SomeGoes machine.old (proc_count machine.old.set.topo))
        (NoneGoes machine.old (proc_count machine.old.set.topo)) }
    ensures few { AreFewMore 2560 passed.old passed.new }
{
    ask_others(machine, account, cycles);
    take_all(machine, account, passed, cycles)
}
