//! What is said of a claim, as text: the line of a verdict, or the lines of a refutation.
#![tactic(auto)]

mod lines;
mod live;
mod writing;

pub use live::{lacks_text, write_no_cut, write_proved_rows};
pub use writing::write_answer;
