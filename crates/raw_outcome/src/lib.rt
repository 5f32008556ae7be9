//! How a machine at rest came to rest: the outcome, and the chain of waits.
//!
//! No call takes memory.
#![tactic(auto)]

mod asked;
mod ends;
mod resting;

pub use ends::Outcome;
pub use resting::{chain_end, outcome};
