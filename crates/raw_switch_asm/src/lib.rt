//! Texts of switches: their assembler and their listing.
//!
//! A statement is `name operands routes`: a name of the table of switch instructions, its operands, and
//! a route for each output that sends a value. An operand is a register, `r0` to `r3`; what a `move`
//! takes its value from, a register or an input such as `1:W`; or a target, a label or a number from 0
//! to 65,535. A route such as `1:W>E` or `2:r3>S` has a network, `:`, an input or a register, `>`, and
//! the output on the same network. A statement of routes alone is a `nop` with them.
#![tactic(auto)]

mod assembling;
mod laws;
mod letters;
mod listing;
mod names;
mod operands;
mod routes;
mod statement;

pub use assembling::assemble_switch;
pub use laws::{law_lawful, law_listing_is_short, law_read_back, law_register_first};
pub use listing::list_switch;
pub use raw_asm::{AsmKind, AsmRefusal};
