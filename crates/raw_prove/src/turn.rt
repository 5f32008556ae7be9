//! What a turn of a processor comes to.

/// What a turn of a processor of a machine with terms came to.
#[derive(Clone, Copy, PartialEq, Eq)]
pub enum Turn {
    /// It is not enabled.
    Idle,
    /// It took a step.
    Fired,
    /// It is enabled, and its row wants a word where it has a term that is none. The machine is not used again.
    Hangs,
    /// It is enabled, and its row needs more terms than a table holds. The machine is not used again.
    TooMany,
}
