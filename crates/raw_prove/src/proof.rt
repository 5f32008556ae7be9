//! What a run with terms gives.

use raw_flow::Node;
use raw_term::Verdict;

/// Terms of which some are not seen to be the same, for who looks for words under which they differ.
#[derive(Drop)]
pub struct Difference {
    /// The table of terms: each names earlier ones by their numbers, and the k-th input is the k-th word of the sources.
    pub nodes: Vec<Node>,
    /// The numbers of the terms at the places of the claim.
    pub received: Vec<u32>,
    /// Those of the outs of the claim, in the same order.
    pub claimed: Vec<u32>,
}

/// What is said of a claim.
#[derive(Drop)]
pub struct Proof {
    pub verdict: Verdict,
    /// Behind `Differs`, the terms that were compared.
    pub difference: Option<Difference>,
}
