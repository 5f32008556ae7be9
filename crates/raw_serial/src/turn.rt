//! What a turn of a processor comes to.

use raw_grid::{ProcId, WireId};

/// What a turn of a processor came to.
#[derive(Clone, Copy, PartialEq, Eq)]
pub enum Turn {
    /// It took a step.
    Fired,
    /// It is a tile that owed stall turns, and now owes one less.
    Stalled,
    /// It takes no more steps.
    Stopped,
    /// It can't step yet.
    Waits {
        /// The wire that it waits for first.
        wire: WireId,
    },
}

/// What a processor waits for.
#[derive(Clone, Copy, PartialEq, Eq)]
pub struct Wait {
    /// The first of its wires whose need is unmet.
    pub wire: WireId,
    /// The processor at the other end of that wire.
    pub on: ProcId,
}
