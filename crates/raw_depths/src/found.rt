//! What is found of a set at each depth.
ghost use Rattle.std.specs.Prelude.{◌≡◌, [], ◌∷◌, ◌++◌, Some, None, OnOk, if◌then◌else◌};
ghost use Rattle.std.specs.Option.{option_or};
ghost use Rattle.raw_model.specs.Program.{ProgramSet};
ghost use Rattle.raw_depths.specs.Found.{is_done_answer, deadlock_of, IsFoundTo};

use raw_outcome::Outcome;
use std::alloc::{AllocError, Global};

/// How a set came to rest at one depth.
#[derive(Clone, Copy, PartialEq, Eq)]
pub struct AtDepth {
    pub outcome: Outcome,
    /// How many steps all tiles and switches took.
    pub steps: u64,
    /// How many cycles its clock has.
    pub cycles: u64,
}

/// A deadlock in which each processor of the cycle waits for a value, and none for room.
#[derive(Drop)]
pub struct ValueDeadlock {
    /// The depth at which the set comes to it.
    pub depth: u8,
    /// The lines of the waits, as the report has them.
    pub waits: Vec<u8>,
}

/// What is found of a set at each depth from 1 to 7.
#[derive(Drop)]
pub struct Depths {
    /// How it came to rest at each depth, by rising depth.
    pub rests: Vec<AtDepth>,
    /// The least depth from which all greater ones have the same report.
    pub same_from: u8,
    /// The least depth at which it has the fewest cycles.
    pub fastest_from: u8,
    /// How many these are.
    pub fewest: u64,
    /// The least depth at which it is done.
    pub done_from: Option<u8>,
    /// The deadlock of values at the least depth that has one.
    pub deadlock: Option<ValueDeadlock>,
}

impl Depths {
    /// Nothing found yet.
    pub(crate) fn new(alloc: Global) -> Depths
        ensures found { (set : ProgramSet) → IsFoundTo set 0 result }
        ensures from { result.same_from ≡ 1 }
    {
        Depths {
            rests: Vec::new(alloc),
            same_from: 1,
            fastest_from: 1,
            fewest: 0,
            done_from: None,
            deadlock: None,
        }
    }

    /// How a set came to rest at the next depth, with the same report as at the depth before or not, and with fewer
    /// cycles than at each depth before or not.
    pub(crate) fn add(
        &mut self,
        depth: u8,
        same: bool,
        faster: bool,
        rest: AtDepth,
        waits: Option<Vec<u8>>,
    ) -> Result<(), AllocError>
        ensures rests { OnOk result (self.new.rests.items ≡ self.old.rests.items ++ rest ∷ []) }
        ensures same { OnOk result (self.new.same_from ≡ (if same then self.old.same_from else depth)) }
        ensures fastest { OnOk result (self.new.fastest_from ≡ (if faster then depth else self.old.fastest_from)) }
        ensures fewest { OnOk result (self.new.fewest ≡ (if faster then rest.cycles else self.old.fewest)) }
        ensures done { OnOk result (self.new.done_from
            ≡ option_or self.old.done_from (if is_done_answer rest.outcome then Some depth else None)) }
        ensures deadlock { OnOk result (self.new.deadlock ≡ option_or self.old.deadlock (deadlock_of depth waits)) }
    {
        self.rests.push(rest)?;
        if !same {
            self.same_from = depth;
        }
        if faster {
            self.fastest_from = depth;
            self.fewest = rest.cycles;
        }
        if self.done_from.is_none() && is_done(rest.outcome) {
            self.done_from = Some(depth);
        }
        if self.deadlock.is_none() {
            self.deadlock = deadlock_at(depth, waits);
        }
        Ok(())
    }
}

// Whether it is that a set is done.
fn is_done(outcome: Outcome) -> bool
    ensures { result ≡ is_done_answer outcome }
{
    match outcome {
        Outcome::Done => true,
        _ => false,
    }
}

// The deadlock of these waits at a depth.
fn deadlock_at(depth: u8, waits: Option<Vec<u8>>) -> Option<ValueDeadlock>
    ensures { result ≡ deadlock_of depth waits }
{
    match waits {
        Some(waits) => Some(ValueDeadlock { depth, waits }),
        None => None,
    }
}
