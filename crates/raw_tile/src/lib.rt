//! A tile's processor: one firing is one row of the table of tile instructions.
//!
//! One firing of a tile, with what it takes from the networks (`raw_tests/src/tile.rt`):
//!
//! ```
//! let out = tile_fire(&mut tile, &code, given(&ins, a, b));
//! Ok((tile, out))
//! ```
#![tactic(auto)]

mod access;
mod fire;
mod memory;
mod rows;
mod state;
mod step;

pub use fire::{TileGiven, TileOut, tile_fire};
pub use memory::{TileMemory, access_fault};
pub use rows::{address_of, is_above_zero, is_below_zero};
pub use state::TileState;
pub use step::{TileStep, Via};
