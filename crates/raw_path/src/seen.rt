//! What is seen of the processors of a set from cycle to cycle.
ghost use Rattle.std.specs.Prelude.{◌≡◌, ◌<◌, ◌^◌, suc, true, IfOk, OnOk, Some, [], length};
ghost use Rattle.raw_grid.specs.Topology.{proc_count};
ghost use Rattle.raw_model.specs.Program.{IsSet};
ghost use Rattle.raw_processor.specs.Processor.{local_of};
ghost use Rattle.raw_clock.specs.Clock.{clock, machine_at, turn_in, goes, is_stalled};
ghost use Rattle.raw_trace.specs.Parts.{pc_of};
ghost use Rattle.raw_whole.specs.Kept.{AreTurnsIn};
ghost use Rattle.raw_path.specs.Path.{wire_of, one_stall};
ghost use Rattle.raw_path.specs.Known.{IsKnown, AreKnown, AreHops, AreKept, IsReached};

use crate::hops::{End, Hop};
use crate::stretch::far_end;
use raw_clock::goes;
use raw_grid::ProcId;
use raw_model::Set;
use raw_serial::{Machine, Processor, Turn};
use std::alloc::{AllocError, Global};

/// What is known of a processor after some cycles.
#[derive(Clone, Copy, PartialEq, Eq)]
pub(crate) struct Seen {
    /// Its turn in the last of them.
    pub turn: Turn,
    /// Its pc; 0 for a port.
    pub pc: u32,
    /// The end of the stretch of that turn, where it went on.
    pub end: End,
}

// What is known before the first cycle.
const UNSEEN: Seen = Seen {
    turn: Turn::Fired,
    pc: 0,
    end: End {
        p: 0,
        to: 0,
        last: 0,
        stalled: 0,
        hop: None,
    },
};

/// What is known of each processor before the first cycle.
pub(crate) fn unseen(alloc: Global, set: &Set) -> Result<Vec<Seen>, AllocError>
    ensures { IfOk result (λ seen. AreKnown set.now [] 0 seen.items) }
{
    let seen = vec![in alloc; UNSEEN; set.topo.procs() as usize]?;
    Ok(seen)
}

// One for a stall turn.
fn one_stall(turn: Turn) -> u64
    ensures { result ≡ one_stall (is_stalled turn) }
{
    match turn {
        Turn::Stalled => 1,
        Turn::Fired | Turn::Stopped | Turn::Waits { .. } => 0,
    }
}

// The number of the next instruction; 0 for a port.
fn pc(processor: &Processor) -> u32
    ensures { result ≡ pc_of (Some (local_of processor.now)) }
{
    match processor {
        Processor::Tile(tile) => tile.state.pc,
        Processor::Switch(switch) => switch.state.pc,
        Processor::Source(_) | Processor::Sink(_) => 0,
    }
}

// The wire for which a turn waits.
fn wire_of(turn: Turn) -> Option<u32>
    ensures { result ≡ wire_of turn }
{
    match turn {
        Turn::Waits { wire } => Some(wire.0),
        Turn::Fired | Turn::Stalled | Turn::Stopped => None,
    }
}

// The end of the stretch of a processor's turn in the cycle after so many, where that goes on. Where the turn comes after
// a wait, a hop is kept.
fn reach(
    set: &Set,
    seen: &[Seen],
    p: u32,
    turn: Turn,
    cycles: u64,
    hops: &mut Vec<Hop>,
) -> Result<End, AllocError>
    requires valid { IsSet set.now }
    requires there { p < proc_count set.now.topo }
    requires few { cycles < 2 ^ 62 }
    requires known { AreKnown set.now hops.old.items cycles seen.now }
    requires hops { AreHops set.now hops.old.items }
    requires turn { turn ≡ turn_in set.now (clock set.now cycles) p }
    ensures reached { IfOk result (λ end. goes turn ≡ true → IsReached set.now hops.new.items cycles p end) }
    ensures hops { OnOk result (AreHops set.now hops.new.items) }
    ensures kept { OnOk result (AreKept hops.old.items hops.new.items) }
{
    let own = seen[p as usize];
    if !goes(turn) {
        return Ok(own.end);
    }
    match wire_of(own.turn) {
        None => Ok(End {
            p,
            to: cycles,
            last: own.pc,
            stalled: own.end.stalled + one_stall(turn),
            hop: own.end.hop,
        }),
        Some(wire) => {
            let before = seen[far_end(&set.topo, p, wire) as usize].end;
            let hop = hops.len();
            hops.push(Hop {
                from: cycles,
                wire,
                first: own.pc,
                before,
            })?;
            Ok(End {
                p,
                to: cycles,
                last: own.pc,
                stalled: before.stalled + one_stall(turn),
                hop: Some(hop),
            })
        }
    }
}

// What is known of a processor after one cycle more, in which it had this turn.
fn see(
    machine: &Machine<'_>,
    turn: Turn,
    p: ProcId,
    cycles: u64,
    seen: &[Seen],
    hops: &mut Vec<Hop>,
) -> Result<Seen, AllocError>
    requires there { p.0 < proc_count machine.now.set.topo }
    requires few { cycles < 2 ^ 62 }
    requires state { machine.now.state ≡ machine_at (clock machine.now.set (suc cycles)) }
    requires known { AreKnown machine.now.set hops.old.items cycles seen.now }
    requires hops { AreHops machine.now.set hops.old.items }
    requires turn { turn ≡ turn_in machine.now.set (clock machine.now.set cycles) p.0 }
    ensures known { IfOk result (λ seen. IsKnown machine.now.set hops.new.items (suc cycles) p.0 seen) }
    ensures hops { OnOk result (AreHops machine.now.set hops.new.items) }
    ensures kept { OnOk result (AreKept hops.old.items hops.new.items) }
{
    let pc = pc(machine.processor(p));
    let end = reach(machine.set(), seen, p.0, turn, cycles, hops)?;
    Ok(Seen { turn, pc, end })
}

/// Makes `next` what is known of each processor after one cycle more than so many. The machine stands behind it, and these
/// were the turns in it.
pub(crate) fn look(
    machine: &Machine<'_>,
    turns: &[Turn],
    cycles: u64,
    seen: &[Seen],
    next: &mut [Seen],
    hops: &mut Vec<Hop>,
) -> Result<(), AllocError>
    requires few { cycles < 2 ^ 62 }
    requires state { machine.now.state ≡ machine_at (clock machine.now.set (suc cycles)) }
    requires turns { AreTurnsIn machine.now.set cycles turns.now }
    requires many { length next.old ≡ proc_count machine.now.set.topo }
    requires known { AreKnown machine.now.set hops.old.items cycles seen.now }
    requires hops { AreHops machine.now.set hops.old.items }
    ensures known { OnOk result (AreKnown machine.now.set hops.new.items (suc cycles) next.new) }
    ensures hops { OnOk result (AreHops machine.now.set hops.new.items) }
{
    'procs: for p in 0..machine.procs() {
        let turn = turns[p as usize];
        next[p as usize] = see(machine, turn, ProcId(p), cycles, seen, hops)?;
    }
    Ok(())
}
