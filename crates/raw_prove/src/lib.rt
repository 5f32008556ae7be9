//! Sets against claims: one serial run with terms says whether a set meets a claim for all words of its sources.
//!
//! The machine is that of `raw_serial` with numbers of terms in the place of words: the number of a term stands in a
//! register, in a word of a memory, on a wire, among the words of a sink. Its table grows as rows make terms; nothing
//! else takes memory in a step.
#![tactic(auto)]

mod comparing;
mod machine;
mod opening;
mod proof;
mod proving;
mod rows;
mod running;
mod seeing;
mod turn;
mod turns;
mod unclaimed;
mod unit;

pub use machine::Machine;
pub use opening::{open, open_ends, word_count};
pub use proof::{Difference, Proof};
pub use proving::{nodes_of, outcome_of, prove};
pub use rows::{misfed, prove_rows, words_at};
pub use running::End;
pub use turn::Turn;
pub use turns::{has_stopped, route_switch, switch_program, tile_program, turn_switch, turn_tile};
pub use unclaimed::run_terms;
pub use unit::{SourceUnit, TileUnit, Unit};
