//! The limit of the generated set.

/// The most words that pass the grid.
pub const MAX_GENERATED_WORDS: u32 = 100_000;
