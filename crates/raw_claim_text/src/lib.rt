//! The text of a claim: a set, a line `claim`, and a flow that says what the set is to compute.
//!
//! ```text
//! grid 1 1
//! limit 10
//! source 1 0 0 W
//! sink 1 0 0 E 1
//! feed 1 0 0 W 3
//! switch 0 0
//! 1:W>E
//! halt
//! end
//! claim
//! grid 1 1
//! input x 3
//! out x
//! ```
//!
//! A line `out x` may name a sink: `out x 1 0 0 E` claims of `x` the next word of that sink. `mem x 0 0 8` claims of it the
//! word at address 8 in the memory of a tile at rest.
#![tactic(auto)]

mod builder;
mod claim;
mod laws;
mod named;
mod placing;
mod reader;

pub use claim::Claim;
pub use laws::law_one_text;
pub use reader::read_claim;
