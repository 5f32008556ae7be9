//! On which tiles the values of a body are made: a search that moves values from tile to tile, at first also to worse
//! places, from the same numbers each time.
#![tactic(auto)]

mod chance;
mod cost;
mod spreading;

pub use spreading::{Aim, spread};
