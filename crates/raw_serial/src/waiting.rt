//! What the processors of a machine wait for.
ghost use Rattle.std.specs.Prelude.{◌≡◌, ◌<◌, ◌↔◌, IsTrue, IfSome, false, length, option_map};
ghost use Rattle.raw_grid.specs.Topology.{proc_count};
ghost use Rattle.raw_grid.specs.Wires.{wires_of};
ghost use Rattle.raw_model.specs.Rest.{enabled, stopped, IsQuiet};
ghost use Rattle.raw_model.specs.Waits.{first_wait, waits_for, other_end};
ghost use Rattle.raw_serial.specs.Turns.{turn_by};

use crate::asking::ask_processor;
use crate::machine::Machine;
use crate::turn::{Turn, Wait};
use raw_grid::{ProcId, WireId};
use raw_model::Set;

impl Machine<'_> {
    // What a turn of a processor would come to if it owed no stall turns.
    fn ask(&self, p: ProcId) -> Turn
        requires { p.0 < proc_count self.now.set.topo }
        ensures { result ≡ turn_by (stopped self.now.set self.now.state p.0) false (first_wait self.now.set self.now.state p.0) }
    {
        let i = p.0 as usize;
        ask_processor(self.set, p, &self.ends[i], &self.processors[i], &self.wires)
    }

    // The processor at the other end of a wire.
    #[tactic(auto, using(raw_grid::proofs::WireLaws::producer_few, raw_grid::proofs::WireLaws::consumer_few))]
    fn other_end(&self, p: ProcId, wire: WireId) -> ProcId
        requires { wire.0 < length (wires_of self.now.set.topo) }
        ensures value { result.0 ≡ other_end self.now.set.topo p.0 wire.0 }
        ensures there { result.0 < proc_count self.now.set.topo }
    {
        let set: &Set = self.set;
        if set.topo.consumer(wire) == p {
            set.topo.producer(wire)
        } else {
            set.topo.consumer(wire)
        }
    }

    /// What a processor waits for first. One that is stopped, or is enabled, waits for nothing.
    pub fn first_wait(&self, p: ProcId) -> Option<Wait>
        requires { p.0 < proc_count self.now.set.topo }
        ensures wire { option_map (λ wait. wait.wire.0) result ≡ first_wait self.now.set self.now.state p.0 }
        ensures on { option_map (λ wait. wait.on.0) result ≡ waits_for self.now.set self.now.state p.0 }
        ensures wire_there { IfSome result (λ wait. wait.wire.0 < length (wires_of self.now.set.topo)) }
        ensures on_there { IfSome result (λ wait. wait.on.0 < proc_count self.now.set.topo) }
    {
        match self.ask(p) {
            Turn::Waits { wire } => Some(Wait {
                wire,
                on: self.other_end(p, wire),
            }),
            _ => None,
        }
    }

    // Whether a processor is enabled.
    fn is_enabled(&self, p: ProcId) -> bool
        requires { p.0 < proc_count self.now.set.topo }
        ensures { result ≡ enabled self.now.set self.now.state p.0 }
    {
        // The machine is read so that its invariant is known: each processor has a local state.
        let _set = self.set;
        match self.ask(p) {
            Turn::Fired => true,
            _ => false,
        }
    }

    /// Whether no processor is enabled.
    pub fn quiet(&self) -> bool
        ensures { IsTrue result ↔ IsQuiet self.now.set self.now.state }
    {
        for p in 0..self.procs() {
            if self.is_enabled(ProcId(p)) {
                return false;
            }
        }
        true
    }
}
