//! Switch instructions: their table, their words of 64 bits, and the ends that they name.
//!
//! A switch joins the five inputs and the five outputs, N, E, S, W and P (the tile beside it), of
//! each of the two static networks. An instruction is one control operation and, for each of the
//! ten outputs, a route: where the output's value comes from. The encoding, the operations and the
//! four switch registers are this project's own; what follows the Raw microprocessor is that a
//! static switch beside each tile has an instruction memory of its own.
//!
//! An end index 0 to 9 means N, E, S, W, P of network 1 and then of network 2. A `u16` of ends has
//! bit `i` for index `i`.
//!
//! Which values an instruction takes, of those that are offered at the ten ends (`raw_tests/src/switch.rt`):
//!
//! ```
//! let named = inputs(ins);
//! let mut given = [None; 10];
//! for end in 0..10 {
//!     given[end] = has_end(named, end).then_some(offers[end]);
//! }
//! ```
#![tactic(auto)]

mod code;
mod ends;
mod instruction;
mod limits;
mod making;
mod table;

pub use code::{decode, encode};
pub use ends::{are_within, has_end, inputs, next_end, outputs};
pub use instruction::{SwitchIns, SwitchSource};
pub use limits::MAX_SWITCH_CODE;
pub use making::route_codes;
pub use table::{SwitchOp, SwitchOperand};
