//! The limits of a switch's program.

/// The most instructions of a switch's program.
pub const MAX_SWITCH_CODE: usize = 8_192;
