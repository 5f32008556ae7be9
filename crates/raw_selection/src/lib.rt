//! The tile instructions by which operations on words are done, before their registers are known.
#![tactic(auto)]

mod step;

pub use step::{Cell, Operation, constant_of, copy, load, step_of, store};
