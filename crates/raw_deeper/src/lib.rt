//! Networks of deeper wires: what a network does it does too where each wire holds more values.
//!
//! `specs/Deeper.antt` says what is claimed of one network, and the functions of `laws` claim it of all. They do
//! nothing when called.
#![tactic(auto)]

pub mod laws;

pub use laws::{law_deeper, law_held};
