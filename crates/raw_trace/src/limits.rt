//! How much a trace tells.

/// The most turns of processors, one for each processor and position, of which the lines of a whole run are written: who
/// reads them may keep a few bytes for each.
pub const MAX_WHOLE_TURNS: u64 = 1 << 24;
