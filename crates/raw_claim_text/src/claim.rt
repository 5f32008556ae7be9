//! A set with what is claimed of it.
use raw_flow::Flow;
use raw_model::Set;
use raw_term::Place;

/// A set, and a flow that says what it is to compute: the flow's inputs stand for the words of all sources of the set, and its
/// outs for the words at places of the set at rest.
#[derive(Drop)]
pub struct Claim {
    /// The set.
    pub set: Set,
    /// What is claimed of it, on a grid of the same size.
    pub flow: Flow,
    /// The places of its outs, in their order. Where there are none, the outs stand for the words that all sinks receive,
    /// those of the first port first.
    pub places: Vec<Place>,
}
