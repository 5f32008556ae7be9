//! The turns and the sends of a whole run, kept by lengths, and the lines that tell them.
//!
//! `gather` steps a machine by the clock and takes the memory that is needed; `write_whole` takes none.
#![tactic(auto)]

mod gathering;
mod lines;
mod rested;
mod sends;
mod turns;
mod writing;

pub use gathering::{Whole, gather};
pub use sends::Sends;
pub use turns::Turns;
pub use writing::write_whole;
