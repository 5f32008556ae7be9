//! What is known of the cycles of every set beyond their number: with any words in its sources, with deeper wires, with
//! fewer stall turns, of the longest way through its turns, and of the turns for which those that wait do so.
//!
//! `specs/Steady.antt` says what is claimed, and the functions of `laws` claim it of every set. They do nothing when
//! called. `specs/Count.antt` says how many cycles a set has as a function of it, and `cycles_of` counts them.
#![tactic(auto)]

mod counting;
mod laws;

pub use counting::cycles_of;
pub use laws::{law_count, law_depths, law_longest, law_misses, law_roots, law_words};
