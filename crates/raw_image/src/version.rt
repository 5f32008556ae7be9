//! The versions of images.

/// A version that is read. Version 1 has neither the depth nor the miss streams.
#[derive(Clone, Copy, PartialEq, Eq)]
pub(crate) enum Version {
    One,
    Two,
}

/// How many values a wire holds at most in a set of version 1. That version has no room for the number, so this stays
/// whatever `DEFAULT_DEPTH` becomes.
pub(crate) const VERSION_1_DEPTH: u8 = 4;
