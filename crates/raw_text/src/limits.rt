//! The limits of texts, each once.

/// The most bytes of a text: 32 MiB.
pub const MAX_TEXT: usize = 33_554_432;

/// The most bytes of a line, its newline not counted.
pub const MAX_LINE: usize = 1_000;
