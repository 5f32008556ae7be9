//! What is said of a claim.

use raw_grid::ProcId;
use raw_outcome::Outcome;

/// What the serial run of a set with terms says of a claim. `Proved` says that the set meets the claim; the others say
/// only why that is not shown.
#[derive(Clone, Copy, PartialEq, Eq)]
pub enum Verdict {
    /// The set meets the claim, which has so many outs.
    Proved(usize),
    /// Step `step` of the serial order, counted from 0, which is one of `p`, wants a word where it has a term that is
    /// none.
    Hangs { step: u64, p: ProcId },
    /// The run or the claim needs more terms than a table holds.
    TooMany,
    /// The run comes to rest with this outcome, which is not `Done`.
    Rests(Outcome),
    /// So many inputs of the claim stand for so many words of sources. This comes before all others.
    Inputs { inputs: usize, words: usize },
    /// The first sink of which another number of words is claimed than it has received has so many, and so many are
    /// claimed; where no places are named, these are the numbers of all sinks and all outs.
    Words { received: usize, outs: usize },
    /// The out with this number, counted from 0, is the first whose term is not that of its word.
    Differs(usize),
}
