//! A machine, run to its rest: by serial steps, or by workers in threads in rounds, each on a shared fabric.
#![tactic(auto)]

mod activity;
mod drive;
mod pace;
mod parallelism;
mod record;
mod rounds;
mod run;
mod swept;
mod turns;

pub use parallelism::{DEFAULT_WORKERS, Parallelism};
pub use raw_fabric::{Gate, MAX_WORKERS, OpenGate, Workers};
pub use record::{Kept, work_kept};
pub use run::{Worked, work, work_in_rounds};
