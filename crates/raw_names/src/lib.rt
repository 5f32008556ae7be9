//! The text that says by name what the numbers of a set mean: a line for each processor, and one for each wire.
//!
//! No call takes memory.
#![tactic(auto)]

mod lines;
mod names;
mod writing;

pub use names::push_processor_name;
pub use writing::write_names;
