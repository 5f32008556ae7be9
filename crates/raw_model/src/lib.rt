//! The machine: the type of a program set, the marks of its processors, how it comes to rest, the
//! definitions of its states, steps, runs and outcomes, and the laws of all machines.
//!
//! The definitions stand in `specs/`. They are those of a network of processors and wires
//! (`raw_network`), taken at the tables of this machine. The functions of `laws` claim what is so of
//! every set, and do nothing when called.
#![tactic(auto)]

mod adding;
mod ending;
pub mod laws;
pub mod limits;
mod marks;
mod program;
mod wiring;

pub use adding::AddRefusal;
pub use ending::Ending;
pub use laws::{
    law_bound, law_diamond, law_fits, law_miss_streams, law_more_words, law_needs, law_outcome,
    law_queues, law_same_rest, law_sent_exactly, law_serial, law_steps, law_waits, law_weaving,
    law_wired,
};
pub use marks::{Cause, Mark};
pub use program::{DataWord, PortProg, Set, Show, TileProg};
pub use wiring::{has_wires, wired_ends};
