//! What is said of a claim.

use crate::fault::Fault;
use raw_term::Verdict;

/// What is said of a claim.
#[derive(Drop)]
pub enum Answer {
    /// The set meets the claim, which has so many outs.
    Proved(usize),
    /// The set meets a claim of rows, which has so many outs: it is proved by rows.
    ProvedByRows(u64),
    /// With these words in its sources each run of the set differs from the claim so. So it does not meet the claim.
    Refuted { words: Vec<u32>, fault: Fault },
    /// The run with terms does not prove the claim, the set's own words do not refute it, and no others were found.
    Unproved(Verdict),
}
