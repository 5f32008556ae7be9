//! The text of a plan: what its lines mean, read into the hauls that a planner is given.
//!
//! A plan is a grid and the words that are sent over it. Its text is a line `grid C R`, and lines `send NET X Y W X1 Y1 ..`,
//! each of which sends the word W from the tile in column X and row Y to the tiles of the pairs behind it, on the network NET.
#![tactic(auto)]

mod forms;
mod laws;
mod plan;
mod reader;
mod tile;

pub use laws::{law_one_answer, law_one_plan_text};
pub use plan::Plan;
pub use reader::read_plan;
