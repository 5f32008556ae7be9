//! How a run differs from a claim.

use raw_outcome::Outcome;

/// How a run that came to rest differs from what is claimed of it: the first of these that applies.
#[derive(Clone, Copy, PartialEq, Eq)]
pub enum Fault {
    /// It came to rest so, and not done.
    Ends(Outcome),
    /// A sink has received so many words, and another number is claimed of it; it is the first such sink. Where no places
    /// are named, these are the numbers of all sinks and all outs.
    Words { received: usize, outs: usize },
    /// The word that was found for an out, by its place among the outs, from 0, is not the one that is claimed. It is the
    /// first such out.
    Out { out: usize, word: u32, claim: u32 },
}
