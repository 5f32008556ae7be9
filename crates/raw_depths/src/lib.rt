//! A set at each depth that its wires may have: how it comes to rest there, after how many cycles, and whether a deadlock
//! is one of depth alone.
#![tactic(auto)]

mod collecting;
mod cycle;
mod found;
mod lines;
mod running;
mod writing;

pub use found::{AtDepth, Depths, ValueDeadlock};
pub use running::depths;
pub use writing::write_depths;
