//! The line of a listing that an instruction has, appended to a line of text. No call takes memory.
//!
//! The texts are those of `raw_tile_asm` and `raw_switch_asm`, which list whole programs.
#![tactic(auto)]

mod register;
mod switch_line;
mod tile_line;

pub use switch_line::push_switch_line;
pub use tile_line::push_tile_line;
