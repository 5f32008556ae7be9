//! The walk back over the hops, from the last turn of a path to its first.
ghost use Rattle.std.specs.Prelude.{◌≡◌, ℕ, ◌+◌, ◌-◌, ◌<◌, ◌≤◌, ◌^◌, suc, IfOk, length};
ghost use Rattle.raw_grid.specs.Topology.{proc_count};
ghost use Rattle.raw_grid.specs.Wires.{wires_of};
ghost use Rattle.raw_model.specs.Program.{IsSet};
ghost use Rattle.raw_clock.specs.Clock.{HasCycles};
ghost use Rattle.raw_path.specs.declared.stretch.WaitedFor.TheVariants.{Nothing};
ghost use Rattle.raw_path.specs.Path.{goes_in, waited_for, stretches, stretch_of, last_of, path_of, stalls_of};
ghost use Rattle.raw_path.specs.Known.{Leads, IsEnd, AreHops, AreKnown, IsReached, IsTold};

use crate::hops::{End, Hop};
use crate::seen::Seen;
use crate::stretch::{Stretch, WaitedFor, waited_for};
use crate::told::Told;
use raw_clock::goes;
use raw_grid::Topo;
use raw_model::Set;
use std::alloc::{AllocError, Global};

// The stretch that begins with a hop.
fn stretch_from(topo: &Topo, hop: Hop, end: End) -> Stretch
    requires wire { hop.wire < length (wires_of topo.now) }
    requires early { hop.from ≤ end.to }
    requires few { end.to < 2 ^ 62 }
    ensures { result ≡ record { p = end.p; from = hop.from; turns = end.to + 1 - hop.from; first = hop.first; last = end.last; wait = waited_for topo.now end.p hop.wire } }
{
    Stretch {
        p: end.p,
        from: hop.from,
        turns: end.to + 1 - hop.from,
        first: hop.first,
        last: end.last,
        wait: waited_for(topo, end.p, hop.wire),
    }
}

// The stretch that begins with cycle 0, in which each pc is 0.
fn first_stretch(end: End) -> Stretch
    requires { end.to < 2 ^ 62 }
    ensures { result ≡ record { p = end.p; from = 0; turns = end.to + 1; first = 0; last = end.last; wait = Nothing } }
{
    Stretch {
        p: end.p,
        from: 0,
        turns: end.to + 1,
        first: 0,
        last: end.last,
        wait: WaitedFor::Nothing,
    }
}

// What is told of the way back from a turn.
fn walk(alloc: Global, set: &Set, hops: &[Hop], last: End) -> Result<Told, AllocError>
    requires valid { IsSet set.now }
    requires few { last.to < 2 ^ 61 }
    requires hops { AreHops set.now hops.now }
    requires end { IsEnd set.now hops.now last }
    ensures { IfOk result (IsTold (proc_count set.now.topo) last.stalled (stretches set.now last.to last.to last.p)) }
{
    let mut told = Told::new(alloc, set, last.stalled)?;
    let mut end = last;
    'hops: while let Some(i) = end.hop {
        let hop = hops[i];
        told.add(stretch_from(&set.topo, hop, end))?;
        end = hop.before;
    }
    told.add(first_stretch(end))?;
    Ok(told)
}

// The end of the stretch of the last turn of the path, of a set of so many cycles.
fn last_end(set: &Set, seen: &[Seen], hops: &[Hop], cycles: u64) -> End
    requires cycles { HasCycles set.now cycles }
    requires some { 0 < cycles }
    requires known { AreKnown set.now hops.now cycles seen.now }
    ensures { (k : ℕ) → suc k ≡ cycles → IsReached set.now hops.now k (last_of set.now k) result }
{
    let mut p = 0;
    'procs: while !goes(seen[p].turn) {
        p += 1;
    }
    seen[p].end
}

/// What is told of the path of a set of so many cycles.
pub(crate) fn walk_back(
    alloc: Global,
    set: &Set,
    seen: &[Seen],
    hops: &[Hop],
    cycles: u64,
) -> Result<Told, AllocError>
    requires valid { IsSet set.now }
    requires cycles { HasCycles set.now cycles }
    requires few { cycles < 2 ^ 61 }
    requires known { AreKnown set.now hops.now cycles seen.now }
    requires hops { AreHops set.now hops.now }
    ensures { IfOk result (IsTold (proc_count set.now.topo) (stalls_of set.now cycles) (path_of set.now cycles)) }
{
    if cycles == 0 {
        return Told::new(alloc, set, 0);
    }
    let last = last_end(set, seen, hops, cycles);
    walk(alloc, set, hops, last)
}
