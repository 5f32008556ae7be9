//! The path of a set: one turn of each cycle, each of which had to wait for the one before it, and so alone shows that no
//! schedule is shorter.
//!
//! The set is stepped by its clock once. Where a wait of a processor ends, a hop is kept that leads to the turn for which
//! it waited; at the end the hops are walked back from the last turn. `law_path` says what the path is, and does nothing
//! when called.
#![tactic(auto)]

mod hops;
mod laws;
mod lines;
mod running;
mod seen;
mod steps;
mod stretch;
mod told;
mod walking;
mod writing;

pub use laws::law_path;
pub use running::{Path, run_path};
pub use stretch::{Stretch, WaitedFor};
pub use told::Told;
pub use writing::write_path;
