//! The limits of a tile's program.

/// The most instructions of a tile's program.
pub const MAX_TILE_CODE: usize = 16_384;
