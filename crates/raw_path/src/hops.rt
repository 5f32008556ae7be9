//! The hops of a path: from a turn that a processor takes after a wait to the one for which it waited.

/// The end of a stretch.
#[derive(Clone, Copy, PartialEq, Eq)]
pub(crate) struct End {
    /// The number of the processor.
    pub p: u32,
    /// The cycle of its last turn.
    pub to: u64,
    /// The pc of the processor before that turn; 0 for a port.
    pub last: u32,
    /// How many stall turns there are on the way back from it.
    pub stalled: u64,
    /// The number of the hop with which the stretch begins; none where it begins with cycle 0.
    pub hop: Option<usize>,
}

/// A turn that a processor takes after a wait.
#[derive(Clone, Copy, PartialEq, Eq)]
pub(crate) struct Hop {
    /// Its cycle.
    pub from: u64,
    /// The wire for which the processor waited in the cycle before.
    pub wire: u32,
    /// The pc of the processor before it; 0 for a port.
    pub first: u32,
    /// The end of the stretch to which the turn of the other end of the wire in the cycle before belongs.
    pub before: End,
}
