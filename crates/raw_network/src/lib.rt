//! Processors joined by wires: what a step is, and what lists of steps do.
//!
//! `specs/Network.antt` defines a network over any type of local states and its steps, `Runs.antt` its
//! lists of steps; `Laws.antt` says what is claimed of them, and the functions of `laws` claim it. They do
//! nothing when called. The machine of `raw_model` is one network, and each of its words is one of these at
//! that network.
#![tactic(auto)]

pub mod laws;

pub use laws::{
    law_bound, law_diamond, law_invariant, law_queues, law_same_rest, law_steps, law_waits,
    law_weaving,
};
