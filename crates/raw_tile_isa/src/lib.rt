//! The instructions of a tile: one table of them, their words, and the arithmetic of words.
//!
//! What an instruction takes from the networks, of two values (`raw_tests/src/tile.rt`):
//!
//! ```
//! TileGiven {
//!     a: (ins.op.uses_rs() && is_network(ins.rs)).then_some(a),
//!     b: (ins.op.reads_rt() && is_network(ins.rt)).then_some(b),
//! }
//! ```
#![tactic(auto)]

mod arithmetic;
mod instruction;
mod laws;
mod limits;
mod load;
mod making;
mod networks;
mod table;

pub use arithmetic::{
    add, leading_zeros, less, less_unsigned, mul_high, mul_high_unsigned, mul_low, ones,
    shift_left, shift_right, shift_right_signed, sign_extended, sign_extended_byte, sub,
};
pub use instruction::{TileIns, decode, encode};
pub use laws::{law_codes, law_load, law_numbers, law_table, law_words};
pub use limits::MAX_TILE_CODE;
pub use load::{is_one, is_short, li};
pub use networks::{LINK, NETWORK_1, NETWORK_2, TileNeeds, needs};
pub use table::{Destination, Opcode, Operand, TileOp};
