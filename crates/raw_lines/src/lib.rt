//! Which line of a text gives each instruction of its programs, and which labels stand there: the lines that tell it.
//!
//! A text has a section for each program that is not empty. The place of a line in its program is the sum of the sizes
//! of the lines before it, which is what a label of that line stands for.
#![tactic(auto)]

mod appending;
mod kind;
mod laws;
mod lines;
mod listing;
mod naming;
mod placing;
mod section;
mod telling;

pub use kind::ProgramKind;
pub use laws::law_lines;
pub use listing::{list_lines, push_sources};
pub use placing::TextLabels;
pub use section::{ProgramSection, sections};
