//! The limit of a table of terms.

/// The most terms of a table, the word 0 and the inputs among them.
pub const MAX_TERMS: u32 = 4_194_304;
