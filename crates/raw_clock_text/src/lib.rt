//! The text of the clock of a set: how many cycles it has, how each processor spent them, for which wires it waited, and
//! how many values passed on each wire.
//!
//! It stands apart from `raw_clock`, which needs no sink and no report: these lines begin as a report does. No call takes
//! memory.
#![tactic(auto)]

mod counted;
mod lines;
mod parts;
mod waits;
mod writing;

pub use lines::cycles_line;
pub use writing::{write_cycles, write_spending, write_waiting};
