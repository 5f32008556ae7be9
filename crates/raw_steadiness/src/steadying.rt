//! Whether the clock of a set is the same with all words.
ghost use Rattle.std.specs.Prelude.{IfOk};
ghost use Rattle.raw_steadiness.specs.Steadiness.{IsSteadiness};

use raw_grid::ProcId;
use raw_model::Set;
use raw_prove::{End, run_terms};
use raw_steady::{cycles_of, law_count, law_words};
use std::alloc::{AllocError, Global};

/// What a run with terms says of the time of a set. `Steady` says that it is the same with all words; the others say only
/// why that is not shown.
#[derive(Clone, Copy, PartialEq, Eq)]
pub enum Steadiness {
    /// With any words in its sources the set has so many cycles, in which its processors have the same turns.
    Steady(u64),
    /// Step `step` of the serial order, counted from 0, which is one of `p`, wants a word where it has a term that is
    /// none: a branch, a load, a store or a shift hangs on an input there.
    Hangs { step: u64, p: ProcId },
    /// The run needs more terms than a table holds.
    TooMany,
}

/// Runs a set once with terms in the place of the words of its sources, and says whether that shows that its clock is the
/// same with all of them.
///
/// The words of all sources are unknown in it, and those in memory known. Beside the machine with terms the call takes the
/// memory of one machine of the set, by whose clock its cycles are counted.
pub fn steady(alloc: Global, set: &Set) -> Result<Steadiness, AllocError>
    ensures { IfOk result (IsSteadiness set.now) }
{
    law_count();
    law_words();
    match run_terms(alloc, set)? {
        End::Rests => Ok(Steadiness::Steady(cycles_of(alloc, set)?)),
        End::Hangs { step, p } => Ok(Steadiness::Hangs { step, p }),
        End::TooMany => Ok(Steadiness::TooMany),
    }
}
