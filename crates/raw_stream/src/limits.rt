//! The limit of a stream.

/// How many rows a stream has at most.
pub const MAX_ROWS: u32 = 262_144;
