//! Program sets with deeper wires: what a set does, and what it comes to, where each wire holds more values and all
//! else is as the set says.
//!
//! `specs` says what the words mean, and the functions of `laws` claim what is so. They do nothing when called.
#![tactic(auto)]

pub mod laws;

pub use laws::{law_deeper, law_done, law_never_done, law_verdicts};
