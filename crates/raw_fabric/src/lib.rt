//! The shared fabric: the wires of a grid as words of one table, at which any number of passes in any threads take
//! steps. Each step takes effect with one store.
//!
//! The turn of a processor, by the pass that holds it (`raw_tests/src/fabric.rt`):
//!
//! ```
//! let worker = p % fabric.workers();
//! Some(fabric.try_fire(&mut passes[worker as usize], ProcId(p)))
//! ```
#![tactic(auto)]

mod answer;
mod deal;
mod fabric;
mod gate;
mod gather;
mod lay;
mod pass;
mod place;
mod read;
mod rooms;
mod rows;
mod sides;
mod sync;
mod units;

pub use answer::FabricTurn;
pub use fabric::Fabric;
pub use gate::{Gate, OpenGate};
pub use pass::Pass;
pub use raw_fabric_rule::{MAX_WORKERS, Workers};
pub use raw_fabric_step::Post;
pub use raw_steps::PassLog;
pub use sync::law_threads;
