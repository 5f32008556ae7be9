//! A pass: what one worker holds of a fabric.
//!
//! The room of the logs is said when a fabric is opened. A longer log makes fewer rounds and costs memory, so who runs
//! the rounds chooses. A pass gives its room (`Pass::room`), so a driver can see that its log is full before it asks
//! for a turn. Room for no step is allowed: each turn of a processor that is going is then `LogFull`.
//!
//! Passes have room between them. They are side by side in one list, and each step writes to the length of a log there.
//! With nothing between them two threads would take the same cache line from each other at each step. So a pass ends
//! with 128 bytes that nobody reads, and so does the list of its status words. It is 128 and not 64, since there are
//! processors that load lines by pairs.
ghost use Rattle.std.specs.Prelude.{◌≡◌, ◌↔◌, ◌/◌, IsTrue, IsSomeAnd, slice_get};
ghost use Rattle.atomic_table.specs.Seated.{TableId};
ghost use Rattle.raw_model.specs.Local.{steps_of};
ghost use Rattle.raw_processor.specs.Processor.{local_of};
ghost use Rattle.raw_fabric_rule.specs.Views.{About};
ghost use Rattle.raw_fabric.specs.Opened.{IsPass, Holds};

use crate::place::place_of;
use raw_fabric_rule::{PassSeat, Workers};
use raw_grid::ProcId;
use raw_processor::Processor;
use raw_steps::PassLog;

// The words that keep the fields of two passes as far apart as the table keeps two status words.
pub(crate) const APART: usize = 16;

/// What one worker holds of a fabric: of `n` workers, worker `k` has the processors whose number is `k` modulo `n`,
/// with their local states, caches, misses and owed stall turns, and the log of its steps.
///
/// A pass is given to a thread; its seat at the table goes with it.
#[derive(Drop)]
pub struct Pass {
    pub(crate) seat: PassSeat,
    pub(crate) workers: Workers,
    // Its processors, by rising number.
    pub(crate) processors: Vec<Processor>,
    // The status word of each.
    pub(crate) statuses: Vec<u64>,
    pub(crate) log: PassLog,
    // The most steps that its log holds.
    pub(crate) room: u32,
    // This is never read. Passes stand side by side and go to threads: without it each step would take a cache line from
    // another thread, that with the length of the log.
    pub(crate) apart: [u64; APART],
}

impl Pass {
    /// The number of its worker, from 0.
    pub fn worker(&self) -> u32
        ensures { result ≡ self.now.log.worker }
    {
        self.log.worker
    }

    /// The steps that were taken with it, in order.
    pub fn log(&self) -> &PassLog
        ensures { result.now ≡ self.now.log }
    {
        &self.log
    }

    /// The most steps that its log holds.
    pub fn room(&self) -> u32
        ensures { result ≡ self.now.room }
    {
        self.room
    }

    /// Whether it holds a processor.
    pub fn holds(&self, p: ProcId) -> bool
        requires { (about : About) × (id : TableId) × IsPass about id self.now.log.worker self.now }
        ensures { (about : About) (id : TableId) → IsPass about id self.now.log.worker self.now → IsTrue result ↔ Holds about self.now p.0 }
    {
        let place = place_of(p.0, self.workers);
        p.0 - place * self.workers.count() == self.log.worker
            && (place as usize) < self.processors.len()
    }

    /// How many steps a processor has taken that it holds: the instructions that a tile or a switch has executed, the
    /// words that a port has put in or taken out.
    pub fn count(&self, p: ProcId) -> u64
        requires { (about : About) × (id : TableId) × IsPass about id self.now.log.worker self.now × Holds about self.now p.0 }
        ensures { IsSomeAnd (slice_get self.now.processors.items (p.0 / self.now.workers)) (λ x. result ≡ steps_of (local_of x)) }
    {
        self.processors[place_of(p.0, self.workers) as usize].count()
    }
}
