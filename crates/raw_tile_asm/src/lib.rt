//! Tile text: the assembler and the lister of a tile's program.
//!
//! The names, the operands and the ranges are those of the table of `raw_tile_isa`; labels, places and
//! the order of faults are those of `raw_asm`.
#![tactic(auto)]

mod assembling;
mod forms;
mod laws;
mod listing;
mod names;
mod operands;
mod statement;

pub use assembling::assemble_tile;
pub use laws::{law_lawful, law_listing_is_short, law_read_back};
pub use listing::list_tile;
pub use raw_asm::{AsmKind, AsmRefusal};
