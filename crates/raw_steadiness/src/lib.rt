//! Whether the time of a set tells anything of the words in its sources: one run with terms says whether its clock is the
//! same with all of them, and one line tells it.
#![tactic(auto)]

mod lines;
mod steadying;
mod writing;

pub use steadying::{Steadiness, steady};
pub use writing::write_steadiness;
