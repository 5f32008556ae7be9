//! The turns of processors, kept as pieces.
ghost use Rattle.std.specs.Prelude.{◌≡◌, ℕ, ◌+◌, ◌<◌, ◌≤◌, ◌^◌, IfOk, OnOk, [], length, slice_index_or};
ghost use Rattle.raw_grid.specs.Topology.{proc_count};
ghost use Rattle.raw_serial.specs.declared.turn.Turn.TheVariants.{Fired};
ghost use Rattle.raw_trace.specs.Whole.{one_more, same_turn};
ghost use Rattle.raw_whole.specs.Kept.{AreNoTurns, AreTurnsKept, AreTurnsIn};

use raw_model::Set;
use raw_serial::Turn;
use std::alloc::{AllocError, Global};

/// The turns of a processor in the first cycles, in the longest pieces of one turn.
#[derive(Drop)]
pub struct Turns {
    /// Of each piece its turn, and how many cycles it has.
    pub pieces: Vec<(Turn, u32)>,
}

// Whether two turns are of one kind, and waits are for one wire.
fn is_same(a: Turn, b: Turn) -> bool
    ensures { result ≡ same_turn a b }
{
    match (a, b) {
        (Turn::Fired, Turn::Fired)
        | (Turn::Stalled, Turn::Stalled)
        | (Turn::Stopped, Turn::Stopped) => true,
        (Turn::Waits { wire }, Turn::Waits { wire: other }) => wire.0 == other.0,
        _ => false,
    }
}

// One turn more behind pieces. After an `Err` they are of no account.
fn add(pieces: &mut Vec<(Turn, u32)>, turn: Turn) -> Result<(), AllocError>
    requires room { (i : ℕ) → (slice_index_or pieces.old.items i (Fired, 0)).1 + 1 < 2 ^ 32 }
    ensures { OnOk result (pieces.new.items ≡ one_more same_turn pieces.old.items turn) }
{
    let n = pieces.len();
    if n > 0 && is_same(pieces[n - 1].0, turn) {
        pieces[n - 1].1 += 1;
    } else {
        pieces.push((turn, 1))?;
    }
    Ok(())
}

/// The turns of so many processors in no cycles.
pub(crate) fn no_turns(alloc: Global, procs: u32) -> Result<Vec<Turns>, AllocError>
    ensures { IfOk result (λ all. AreNoTurns procs all.items) }
{
    let mut all = Vec::new(alloc);
    'procs: while all.len() < procs as usize {
        all.push(Turns {
            pieces: Vec::new(alloc),
        })?;
    }
    Ok(all)
}

/// Notes the turns of all processors in the cycle after so many. After an `Err` they are of no account.
pub(crate) fn note_turns(
    set: &Set,
    all: &mut [Turns],
    turns: &[Turn],
    cycles: u64,
) -> Result<(), AllocError>
    requires few { cycles ≤ 2 ^ 24 }
    requires kept { AreTurnsKept set.now cycles all.old }
    requires many { length turns.now ≡ proc_count set.now.topo }
    requires turns { AreTurnsIn set.now cycles turns.now }
    ensures { OnOk result (AreTurnsKept set.now (cycles + 1) all.new) }
{
    let procs = set.topo.procs() as usize;
    'all: for p in 0..procs {
        let turn = turns[p];
        add(&mut all[p].pieces, turn)?;
    }
    Ok(())
}
