//! The commands of `rawgrid` that run a set, or step it by its clock, or check a list of its steps.
#![tactic(auto)]

mod checked;
mod clocked;
mod generated;
mod runs;

pub use checked::check_history;
pub use clocked::{put_path, run_cycles, run_trace};
pub use generated::run_generated;
pub use runs::run_set;
