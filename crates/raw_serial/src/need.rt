//! What a step needs of a wire.

/// What a step needs of a wire.
#[derive(Clone, Copy)]
pub(crate) enum Need {
    /// A value to take.
    Value,
    /// Room for a value.
    Room {
        /// How many values a wire holds at most.
        depth: usize,
    },
}
