//! The steps of one worker.

use raw_grid::ProcId;

/// The steps that one worker took, in order.
#[derive(Drop)]
pub struct PassLog {
    /// The number of the worker, from 0.
    pub worker: u32,
    /// The processor of each step. Of `n` workers' logs, the entries of worker `w` are numbers that are `w`
    /// modulo `n`.
    pub steps: Vec<ProcId>,
}
