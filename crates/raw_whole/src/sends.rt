//! The cycles in which a value is sent on wires, kept as pieces of distances.
ghost use Rattle.std.specs.Prelude.{◌≡◌, ℕ, suc, ◌+◌, ◌-◌, ◌<◌, ◌≤◌, ◌^◌, ◌==◌, IfOk, OnOk, length, slice_index, slice_index_or};
ghost use Rattle.raw_grid.specs.Wires.{wires_of};
ghost use Rattle.raw_model.specs.Program.{IsSet};
ghost use Rattle.raw_clock.specs.Clock.{passed_in};
ghost use Rattle.raw_trace.specs.Whole.{one_more};
ghost use Rattle.raw_whole.specs.Kept.{AreNoSends, AreSendsKept, IsNoted};

use raw_model::Set;
use std::alloc::{AllocError, Global};

/// The first cycles in which a value is sent on a wire, as how far each is from the one before it, in the longest pieces of
/// one distance.
#[derive(Drop)]
pub struct Sends {
    /// Of each piece its distance, and how often it stands.
    pub pieces: Vec<(u32, u32)>,
    /// The last one of these cycles; 0 where there is none.
    pub last: u32,
    /// How many values are sent in them.
    pub passed: u64,
}

// One distance more behind pieces. After an `Err` they are of no account.
fn add(pieces: &mut Vec<(u32, u32)>, distance: u32) -> Result<(), AllocError>
    requires room { (i : ℕ) → (slice_index_or pieces.old.items i (0, 0)).1 + 1 < 2 ^ 32 }
    ensures { OnOk result (pieces.new.items ≡ one_more (λ a b. a == b) pieces.old.items distance) }
{
    let n = pieces.len();
    if n > 0 && pieces[n - 1].0 == distance {
        pieces[n - 1].1 += 1;
    } else {
        pieces.push((distance, 1))?;
    }
    Ok(())
}

impl Sends {
    // Notes a cycle, behind which so many values were sent. After an `Err` it is of no account.
    fn note(&mut self, cycle: u32, passed: u64) -> Result<(), AllocError>
        requires later { self.old.last ≤ cycle }
        requires room { (i : ℕ) → (slice_index_or self.old.pieces.items i (0, 0)).1 + 1 < 2 ^ 32 }
        ensures { OnOk result (IsNoted (self.old.passed == passed) cycle passed self.old self.new) }
    {
        if passed != self.passed {
            add(&mut self.pieces, cycle - self.last)?;
            self.last = cycle;
            self.passed = passed;
        }
        Ok(())
    }
}

/// The sends on so many wires in no cycles.
pub(crate) fn no_sends(alloc: Global, wires: u32) -> Result<Vec<Sends>, AllocError>
    ensures { IfOk result (λ all. AreNoSends wires all.items) }
{
    let mut all = Vec::new(alloc);
    'wires: while all.len() < wires as usize {
        all.push(Sends {
            pieces: Vec::new(alloc),
            last: 0,
            passed: 0,
        })?;
    }
    Ok(all)
}

/// Notes the cycle after so many, behind which these are the numbers of values that were sent on the wires. After an `Err`
/// they are of no account.
pub(crate) fn note_sends(
    set: &Set,
    all: &mut [Sends],
    passed: &[u64],
    cycles: u64,
) -> Result<(), AllocError>
    requires valid { IsSet set.now }
    requires few { cycles ≤ 2 ^ 24 }
    requires kept { AreSendsKept set.now cycles all.old }
    requires many { length passed.now ≡ length (wires_of set.now.topo) }
    requires passed { (w : ℕ) → w < length (wires_of set.now.topo) → slice_index passed.now w ≡ passed_in set.now (suc cycles) w }
    ensures { OnOk result (AreSendsKept set.now (cycles + 1) all.new) }
{
    let wires = set.topo.wires() as usize;
    'all: for w in 0..wires {
        let sent = passed[w];
        all[w].note(cycles as u32, sent)?;
    }
    Ok(())
}
