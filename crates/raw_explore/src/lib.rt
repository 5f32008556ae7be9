//! The run of a set by its clock, written as a trace with which a reader steps through it, forth and back.
//!
//! All memory is taken when a run is opened, and the set is stepped to its rest there once; `write_trace` steps it once
//! more and writes each line as it goes.
#![tactic(auto)]

mod cycle;
mod entries;
mod firing;
mod line;
mod lines;
mod opening;
mod parts;
mod position;
mod standing;
mod workspace;
mod writing;

pub use opening::Opened;
pub use writing::write_trace;
