//! What a call for one processor answers.
ghost use Rattle.std.specs.Prelude.{◌≡◌};
ghost use Rattle.raw_fabric.specs.Answers.{has_fired};

use raw_grid::WireId;

/// What became of the turn of a processor.
#[derive(Clone, Copy, PartialEq, Eq)]
pub enum FabricTurn {
    /// It took a step.
    Fired,
    /// It owed stall turns, and owes one less now.
    Stalled,
    /// It is stopped: it takes no more steps.
    Stopped,
    /// It is not stopped, and the log of the pass holds as many steps as it has room for.
    LogFull,
    /// A status word that was loaded in the call shows that the wire has too few values for its next step, or no
    /// room. `seen` is that word.
    Waits { wire: WireId, seen: u64 },
}

/// Whether a step was taken.
pub(crate) fn has_fired(turn: FabricTurn) -> bool
    ensures { result ≡ has_fired turn }
{
    match turn {
        FabricTurn::Fired => true,
        FabricTurn::Stalled
        | FabricTurn::Stopped
        | FabricTurn::LogFull
        | FabricTurn::Waits { .. } => false,
    }
}
