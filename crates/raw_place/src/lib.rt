//! Where the values of a graph are made, and in which order: placement by earliest finish on a part of a grid, and
//! ranks by what is most urgent.
#![tactic(auto)]

mod paths;
mod placing;
mod ranking;
mod searching;
mod urgency;

pub use placing::{Style, place};
pub use ranking::{Rule, ranks};
