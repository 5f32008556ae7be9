//! What each command of `rawgrid` owes for its input, and the answer of a command that has put it.
#![tactic(auto)]

mod answer;
mod laws;
mod limits;
mod putting;

pub use answer::Answer;
pub use laws::{law_delays, law_each_run, law_one_flow};
pub use limits::{DEFAULT_TRACE_CYCLES, MAX_TOLD_WORDS};
pub use putting::{ended, put_output};
