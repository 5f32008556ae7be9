//! The limits of what commands tell.

/// The most cycles that a trace has where the words of its command do not say how many.
pub const DEFAULT_TRACE_CYCLES: u32 = 1_000;

/// The most words of the sources of a set that are told where they refute a claim of rows.
pub const MAX_TOLD_WORDS: u32 = 4_096;
