//! Cycles and chains of waits among numbered processors, each of which waits for at most one other.
//!
//! Whoever can tell for whom each processor waits, as a `Waits`, has a cycle found and followed to its
//! end without any memory: n walks of at most n steps, where most stop early.
#![tactic(auto)]

mod chain;
mod cycle;
mod laws;
mod waits;

pub use chain::chain_end;
pub use cycle::{Cycle, find_cycle};
pub use laws::{law_cycles, law_least};
pub use waits::Waits;
