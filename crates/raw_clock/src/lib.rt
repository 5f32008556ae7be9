//! The clock of a program set: cycles of its machine, who fires in them, and who waits for what.
//!
//! In each cycle all processors take at once the turns that they have in the state before it. A tile that owes stall
//! turns pays one in place of its step. A cycle is a definition over the tables, and no time of any machine.
//!
//! `specs/Clock.antt` defines it, `law_clock` says what is so of it, and does nothing when called, and `run` counts.
#![tactic(auto)]

mod account;
mod cycle;
mod laws;
mod running;
mod tally;
mod values;

pub use account::Account;
pub use cycle::{ask_all, goes, step_cycle};
pub use laws::law_clock;
pub use running::{Cycles, run};
pub use tally::{Spent, Tally};
