//! Schedules of streams: program sets with loops that compute a stream on its grid, found by a search.
//!
//! The body of a row, or of some rows, is spread over tiles; each tile and each switch runs a short loop, and rows go
//! through the grid one behind the other. The search is not trusted: no contract says what a set computes that it gives.
#![tactic(auto)]

mod attempt;
mod coloring;
mod lives;
mod making;
mod memory;
mod plan;
mod regions;
mod registers;
mod relieving;
mod search;
mod switch_code;
mod tile_code;

pub use attempt::Pipeline;
pub use search::find_pipeline;
