//! The kinds of the roots of processors in a cycle. Each is found once: what is found is kept for those whose waits lead
//! there.
ghost use Rattle.std.specs.Prelude.{◌≡◌, ◌<◌, suc, length};
ghost use Rattle.raw_grid.specs.Topology.{proc_count};
ghost use Rattle.raw_grid.specs.Wires.{wires_of, producer_of, consumer_of};
ghost use Rattle.raw_model.specs.Program.{IsSet};
ghost use Rattle.raw_pace.specs.Path.{far_end};
ghost use Rattle.raw_clock.specs.Clock.{clock, turn_in};
ghost use Rattle.raw_whole.specs.Kept.{AreTurnsIn};
ghost use Rattle.raw_steady.specs.Steady.{root};
ghost use Rattle.raw_lost.specs.Lost.{root_kind};
ghost use Rattle.raw_lost.specs.Known.{AreKinds};

use crate::root::{RootKind, firing_kind};
use raw_grid::{Topo, WireId};
use raw_model::Set;
use raw_serial::Turn;

// The processor at the other end of a wire.
fn far_end(topo: &Topo, p: u32, wire: WireId) -> u32
    requires { wire.0 < length (wires_of topo.now) }
    ensures { result ≡ far_end (producer_of topo.now) (consumer_of topo.now) p wire.0 }
{
    let consumer = topo.consumer(wire).0;
    if consumer == p {
        topo.producer(wire).0
    } else {
        consumer
    }
}

/// The kind of the root of a processor in the cycle after so many, in which the processors have these turns. So many more
/// waits are enough to come to its root, if it has one.
#[cycle(finding)]
pub(crate) fn kind_of_root(
    set: &Set,
    turns: &[Turn],
    kinds: &mut [Option<RootKind>],
    p: u32,
    left: u32,
    cycles: u64,
) -> RootKind
    requires valid { IsSet set.now }
    requires there { p < proc_count set.now.topo }
    requires many { length turns.now ≡ proc_count set.now.topo }
    requires turns { AreTurnsIn set.now cycles turns.now }
    requires kinds { AreKinds set.now cycles kinds.old }
    requires enough { root set.now (clock set.now cycles) left p ≡ root set.now (clock set.now cycles) (suc (proc_count set.now.topo)) p }
    ensures kind { result ≡ root_kind set.now (clock set.now cycles) p }
    ensures kinds { AreKinds set.now cycles kinds.new }
{
    match kinds[p as usize] {
        Some(kind) => kind,
        None => {
            let kind = follow(set, turns, kinds, p, turns[p as usize], left, cycles);
            kinds[p as usize] = Some(kind);
            kind
        }
    }
}

// The same of a processor that has this turn.
#[cycle(finding)]
fn follow(
    set: &Set,
    turns: &[Turn],
    kinds: &mut [Option<RootKind>],
    p: u32,
    turn: Turn,
    left: u32,
    cycles: u64,
) -> RootKind
    requires valid { IsSet set.now }
    requires there { p < proc_count set.now.topo }
    requires many { length turns.now ≡ proc_count set.now.topo }
    requires turns { AreTurnsIn set.now cycles turns.now }
    requires turn { turn ≡ turn_in set.now (clock set.now cycles) p }
    requires kinds { AreKinds set.now cycles kinds.old }
    requires enough { root set.now (clock set.now cycles) left p ≡ root set.now (clock set.now cycles) (suc (proc_count set.now.topo)) p }
    ensures kind { result ≡ root_kind set.now (clock set.now cycles) p }
    ensures kinds { AreKinds set.now cycles kinds.new }
{
    match turn {
        Turn::Fired => firing_kind(&set.topo, p),
        Turn::Stalled => RootKind::Stalled,
        Turn::Stopped => RootKind::Stopped,
        Turn::Waits { wire } => {
            if left == 0 {
                return RootKind::Ring;
            }
            let next = far_end(&set.topo, p, wire);
            kind_of_root(set, turns, kinds, next, left - 1, cycles)
        }
    }
}
