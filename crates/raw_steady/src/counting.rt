//! How many cycles a set has.
ghost use Rattle.std.specs.Prelude.{◌≡◌, IfOk};
ghost use Rattle.raw_model.specs.Program.{IsSet};
ghost use Rattle.raw_steady.specs.Count.{cycle_count};

use crate::laws::law_count;
use raw_clock::run;
use raw_model::Set;
use raw_serial::Machine;
use std::alloc::{AllocError, Global};

/// How many cycles a set has: a machine of it is stepped by its clock until that is over.
pub fn cycles_of(alloc: Global, set: &Set) -> Result<u64, AllocError>
    ensures count { IfOk result (λ cycles. cycles ≡ cycle_count set.now) }
    ensures valid { IsSet set.now }
{
    law_count();
    // The set is read so that its rules are known.
    let _limit = set.limit;
    let mut machine = Machine::open(alloc, set)?;
    let ran = run(&mut machine, alloc)?;
    Ok(ran.cycles)
}
