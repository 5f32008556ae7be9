//! A search for words under which two terms have other values.
//!
//! What it finds is not trusted: who calls it runs a set with these words before it says anything of it. So its only
//! clause is how many words it gives. It is deterministic, and bounded by evaluations that are counted, not by time.
#![tactic(auto)]

mod cone;
mod descent;
mod generator;
mod inverse;
mod lists;
mod search;
mod values;

pub use lists::{Lists, MAX_LISTS};
pub use search::{Budget, Terms, find};
