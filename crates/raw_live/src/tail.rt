//! What stands behind the line `live`.
//!
//! What is known of the lines after `live` before they are read is one type, `Tail`: how they are judged, the bytes
//! that were read before, and how many may follow. Its bounds are facts of the type.
ghost use Rattle.std.specs.Prelude.{◌+◌, ◌^◌, ◌<◌, ◌≤◌, length};
ghost use Rattle.raw_text.specs.declared.limits.TheConstants.{MAX_TEXT};

use raw_live_text::Intake;

/// The lines behind `live`, as far as they are known before they are read.
#[derive(Clone, Copy)]
pub struct Tail<'t> {
    /// What the lines are judged by.
    pub intake: &'t Intake,
    /// The bytes behind the `live` line that were read before.
    pub rest: &'t [u8],
    /// How many bytes are read besides, at most.
    pub most: usize,
    ghost size: { length rest.now + most ≤ MAX_TEXT },
    ghost lines: { intake.now.line + length rest.now + most + 1 < 2 ^ 32 },
}
