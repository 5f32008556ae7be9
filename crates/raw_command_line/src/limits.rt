//! The limits of the words of commands.

/// The most cycles that the words of a trace may ask for.
pub const MAX_TRACE_CYCLES: u32 = 50_000;
