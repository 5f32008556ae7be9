//! The stretches of a path.
ghost use Rattle.std.specs.Prelude.{◌≡◌, ◌<◌, length};
ghost use Rattle.raw_pace.specs.Path.{far_end};
ghost use Rattle.raw_grid.specs.Wires.{wires_of, producer_of, consumer_of};
ghost use Rattle.raw_path.specs.Path.{waited_for};

use raw_grid::{Topo, WireId};

/// What the first turn of a stretch waited for in the cycle before.
#[derive(Clone, Copy, PartialEq, Eq)]
pub enum WaitedFor {
    /// For nothing: it is the first turn of the path, in cycle 0.
    Nothing,
    /// For a value on this wire.
    Value(u32),
    /// For room on this wire.
    Room(u32),
}

/// Turns of one processor in cycles that follow each other, which are part of a path.
#[derive(Clone, Copy, PartialEq, Eq)]
pub struct Stretch {
    /// The number of the processor.
    pub p: u32,
    /// The cycle of the first turn.
    pub from: u64,
    /// How many turns there are.
    pub turns: u64,
    /// The pc of the processor before the first turn; 0 for a port.
    pub first: u32,
    /// Its pc before the last turn; 0 for a port.
    pub last: u32,
    /// What the first turn waited for.
    pub wait: WaitedFor,
}

/// What a processor waits for that waits for a wire: a value on an input, or room on an output.
pub(crate) fn waited_for(topo: &Topo, p: u32, wire: u32) -> WaitedFor
    requires { wire < length (wires_of topo.now) }
    ensures { result ≡ waited_for topo.now p wire }
{
    if topo.consumer(WireId(wire)).0 == p {
        WaitedFor::Value(wire)
    } else {
        WaitedFor::Room(wire)
    }
}

/// The processor at the other end of a wire.
pub(crate) fn far_end(topo: &Topo, p: u32, wire: u32) -> u32
    requires { wire < length (wires_of topo.now) }
    ensures { result ≡ far_end (producer_of topo.now) (consumer_of topo.now) p wire }
{
    let consumer = topo.consumer(WireId(wire)).0;
    if consumer == p {
        topo.producer(WireId(wire)).0
    } else {
        consumer
    }
}
