//! The resources of a part of a grid in time, as a scheduler counts them: where tiles stand, which cycles of a tile
//! are taken, which words are on their way, and what the registers of a tile hold.
//!
//! Each call is total: what lies past a table, a grid or a wire reads as nothing, and is not written.
#![tactic(auto)]

mod numbers;
mod part;
mod registers;
mod slots;
mod table;
mod tiles;
mod waiting;
mod wires;

pub use numbers::{Numbered, OutId, TileId, ValueId};
pub use part::{Part, net_index};
pub use registers::{Held, Register, Registers};
pub use slots::Slots;
pub use table::Table;
pub use tiles::TileSet;
pub use waiting::{Rank, ReadyList, Waiting};
pub use wires::{Arrival, WirePlace, Wires, Word};
