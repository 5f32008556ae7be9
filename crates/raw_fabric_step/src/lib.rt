//! The steps of one processor at the words of a fabric: it looks at the status words of its neighbours,
//! fetches its operands, stores what it sends, and takes effect with the store of its own status word.
//!
//! None takes memory, and none waits.
#![tactic(auto)]

mod looks;
mod moves;
mod pairs;
mod ports;
mod post;
mod switches;
mod tiles;
mod word;

pub use looks::{Asks, Unmet, see_ends};
pub use moves::{commit_row, fetch_operand, stage_value};
pub use ports::{step_sink, step_source};
pub use post::{Post, Side};
pub use switches::step_switch;
pub use tiles::step_tile;
pub use word::{bump, field_of};
