//! Where the lines of a trace are made.
//!
//! A line is made in an array that is made once in a run: no line is copied, or cleared before it is made. What a step
//! did and what is told of it stand in arrays beside it, which are made once too.
use crate::entries::Entries;
use crate::line::Line;
use arrayvec::ArrayVec;
use raw_serial::Event;

/// Where the lines of a trace are made, one after another. It is made once in a run, and what it has between two lines is
/// of no account.
#[derive(Drop)]
pub(crate) struct Workspace {
    /// What a step did.
    pub event: Event,
    /// What the line of a step tells.
    pub entries: Entries,
    /// The line.
    pub line: Line,
}

impl Workspace {
    /// A new one.
    pub(crate) fn new() -> Workspace {
        Workspace {
            event: Event::new(),
            entries: ArrayVec::new(),
            line: Line::new(),
        }
    }
}
