//! Runs with terms of which nothing is claimed.
ghost use Rattle.std.specs.Prelude.{IfOk};
ghost use Rattle.raw_prove.specs.Runs.{EndsAs};

use crate::opening::open;
use crate::running::End;
use raw_model::Set;
use raw_term::TermRefusal;
use std::alloc::{AllocError, Global};

/// Runs a set once with terms in the place of the words of its sources, in the serial order, and says how that run ends.
///
/// Where it rests, no step of it hung on an input, and the table had room for all terms (`TermsRest`). What that says of
/// the set with other words is said by the laws of `raw_term` and `raw_steady`.
pub fn run_terms(alloc: Global, set: &Set) -> Result<End, AllocError>
    ensures { IfOk result (EndsAs set.now) }
{
    // The set is read so that its rules are known.
    let _limit = set.limit;
    let mut machine = match open(alloc, set) {
        Ok(machine) => machine,
        Err(TermRefusal::TooMany) => return Ok(End::TooMany),
        Err(TermRefusal::Memory) => return Err(AllocError),
    };
    machine.run(set)
}
