//! What is written for a flow that is scheduled: of the candidates of the search, each of which is proved to meet the
//! flow before it is taken, the one with the fewest cycles, and where none has fewer than the compiled set, that.
#![tactic(auto)]

mod choosing;

pub use choosing::choose;
