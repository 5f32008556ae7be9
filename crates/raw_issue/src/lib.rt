//! The event scheduler: a run of a part of a grid, cycle by cycle, that decides as it goes which instruction each tile
//! and each switch executes, and writes them down.
//!
//! In each cycle a switch passes on all words at its fronts that can go, by their ranks, and a tile does the operation
//! of the least rank whose operands are at hand, or what that one needs first. Nothing of it is trusted: what is
//! written is a program, and what programs do is proved elsewhere.
#![tactic(auto)]

mod cycle;
mod doing;
mod fetching;
mod finding;
mod making;
mod outs;
mod spilling;
mod state;
mod switching;
mod task;
mod tile;
mod turn;

pub use cycle::{Issued, issue};
