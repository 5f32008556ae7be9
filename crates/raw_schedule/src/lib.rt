//! Schedules of flows: program sets that compute a flow on parts of its grid, found by a search.
//!
//! The search is not trusted: what is said of a candidate is that it is a set for the flow's grid and inputs, and not
//! what it computes.
#![tactic(auto)]

mod candidates;
mod giving;
mod parts;
mod replacing;
mod whole;

pub use candidates::Candidates;
pub use replacing::with_programs;
