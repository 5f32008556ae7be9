//! Why the lines behind `live` are read no further.

use crate::fault::LineFault;

/// Why the reading stopped before the end of input.
#[derive(Clone, Copy, PartialEq, Eq)]
pub enum Stop {
    /// The line with this number has this fault.
    At { line: u32, kind: LineFault },
    /// A call of the source failed.
    Read,
    /// The source gave more bytes than are read.
    TooLong,
    /// Want of memory.
    Memory,
}
