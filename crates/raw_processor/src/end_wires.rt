//! The wires at the ends of a processor.
ghost use Rattle.std.specs.Prelude.{◌<◌};
ghost use Rattle.raw_grid.specs.Topology.{proc_count};
ghost use Rattle.raw_processor.specs.Ends.{AreEndsOf};

use crate::proc_set::ProcSet;
use raw_grid::{ProcId, Topo, Way, WireId};

/// The numbers of the wires at the ten ends of a processor: N, E, S, W, P of network 1 and then of
/// network 2. An end without a wire has none.
#[derive(Clone, Copy, PartialEq, Eq)]
pub struct EndWires {
    pub inputs: [Option<u32>; 10],
    pub outputs: [Option<u32>; 10],
    /// The processors at the other ends of these wires.
    pub peers: ProcSet,
}

/// The wires at the ends of a processor. This goes over the list of wires, so it is called at
/// opening and not in a step.
pub fn ends_of(topo: &Topo, p: ProcId) -> EndWires
    requires { p.0 < proc_count topo.now }
    ensures { AreEndsOf topo.now p.0 result }
{
    let inputs = topo.wires_at(p, Way::In);
    let outputs = topo.wires_at(p, Way::Out);
    let peers = peers_at(topo, &inputs, &outputs);
    EndWires {
        inputs,
        outputs,
        peers,
    }
}

/// The processors at the other ends of these wires, of which the first lead to one processor and the others from it. As
/// `ends_of` it is called at opening.
pub fn peers_at(topo: &Topo, inputs: &[Option<u32>; 10], outputs: &[Option<u32>; 10]) -> ProcSet {
    let mut peers = ProcSet::new();
    for end in 0..10 {
        match inputs[end] {
            Some(w) if w < topo.wires() => peers.insert(topo.producer(WireId(w))),
            _ => {}
        }
        match outputs[end] {
            Some(w) if w < topo.wires() => peers.insert(topo.consumer(WireId(w))),
            _ => {}
        }
    }
    peers
}
