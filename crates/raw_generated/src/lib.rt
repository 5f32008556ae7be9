//! The standard benchmark: a generated program set, as large as is asked for.
//!
//! Words pass the sixteen tiles of a grid of 4 by 4, row after row, and each tile adds its number.
#![tactic(auto)]

mod laws;
mod limits;
mod make;
mod ports;
mod switches;
mod tiles;
mod words;

pub use laws::{law_generated, law_lines};
pub use limits::MAX_GENERATED_WORDS;
pub use make::make_set;
pub use words::GeneratedWords;
