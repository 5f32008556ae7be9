//! The marks of the processors of a machine.
ghost use Rattle.std.specs.Prelude.{◌≡◌, ◌+◌, ◌<◌, ◌≤◌, ◌++◌, length};
ghost use Rattle.raw_grid.specs.Topology.{proc_count};
ghost use Rattle.raw_model.specs.Start.{IsFit};
ghost use Rattle.raw_model.specs.Waits.{first_wait};
ghost use Rattle.raw_model.specs.StateTexts.{mark_of};
ghost use Rattle.raw_processor.specs.Processor.{local_of};
ghost use Rattle.raw_state_text.specs.Parts.{mark_by};

use crate::line::{LINE_SIZE, Line};
use raw_grid::ProcId;
use raw_model::Set;
use raw_processor::Processor;
use raw_serial::Machine;

impl Line {
    /// Appends the mark of a processor: `halted`, `trapped` and why, `limit`, `spent`, `full`, `waits` and
    /// the wire of its first wait, or `ready`. It has at most 26 bytes.
    #[tactic(auto, using(crate::proofs::MarkTexts::mark_is))]
    pub fn push_mark(&mut self, m: &Machine<'_>, p: ProcId)
        requires room { length self.old + 26 ≤ LINE_SIZE }
        requires there { p.0 < proc_count m.now.set.topo }
        ensures text { self.new ≡ self.old ++ mark_of m.now.set m.now.state p.0 }
        ensures len { length self.new ≤ length self.old + 26 }
    {
        self.push_processor_mark(m.set(), p, m.processor(p), wait_of(m, p));
    }

    // Appends the mark of a processor that waits for this wire first, if it waits.
    fn push_processor_mark(
        &mut self,
        set: &Set,
        p: ProcId,
        processor: &Processor,
        wait: Option<u32>,
    )
        requires room { length self.old + 26 ≤ LINE_SIZE }
        requires fits { IsFit set.now p.0 (local_of processor.now) }
        ensures text { self.new ≡ self.old ++ mark_by set.now p.0 wait (local_of processor.now) }
        ensures len { length self.new ≤ length self.old + 26 }
    {
        let stopped = processor.is_stopped(set, p);
        match processor {
            Processor::Tile(tile) => {
                self.push_program_mark(set.limit, tile.state.mark, tile.state.count, wait)
            }
            Processor::Switch(switch) => {
                self.push_program_mark(set.limit, switch.state.mark, switch.state.count, wait)
            }
            Processor::Source(_) => self.push_port_mark(b"spent", stopped, wait),
            Processor::Sink(_) => self.push_port_mark(b"full", stopped, wait),
        }
    }
}

// The wire that a processor waits for first.
fn wait_of(m: &Machine<'_>, p: ProcId) -> Option<u32>
    requires { p.0 < proc_count m.now.set.topo }
    ensures { result ≡ first_wait m.now.set m.now.state p.0 }
{
    m.first_wait(p).map(|wait| wait.wire.0)
}
