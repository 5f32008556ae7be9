//! Lockstep: the laws of every network of processors and wires, when all processors that can step do so at once.
//!
//! A *cycle* is here one such moment: each processor that is enabled in the state before it takes one step. (In the crate
//! `raw_cycle` a cycle is something else: a ring of processors, each of which waits for the next.) A *schedule* is a list
//! of rounds; in a round no processor stands twice, and each could step in the state before it. A *stall turn* is a turn
//! that a processor spends on what it has touched, without a step.
//!
//! `specs/Lockstep.antt` defines cycles and schedules, `specs/Stalls.antt` the network in which stall turns are turns
//! like steps. The functions say what is so of them, and do nothing when called.
#![tactic(auto)]

mod laws;

pub use laws::{law_lockstep, law_stalls};
