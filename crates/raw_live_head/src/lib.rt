//! The head of live input: a set, and behind it the mark, a line that is one word alone; or why these are not read.
#![tactic(auto)]

mod beginning;
mod flaw;

pub use beginning::{Begun, begin, failure_of};
pub use flaw::{Failure, LineFlaw};
