//! Pace: what makes the cycles of a network fewer, and what no schedule can go below.
//!
//! `specs/Pace.antt` says what is claimed of one network, and the functions of `laws` claim it of all. They do nothing
//! when called.
#![tactic(auto)]

mod laws;

pub use laws::{law_control, law_pace, law_path};
