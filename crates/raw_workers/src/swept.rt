//! What turns of processors of a pass come to.
ghost use Rattle.std.specs.Prelude.{◌≡◌, vec_len};
ghost use Rattle.raw_fabric.specs.declared.pass.Pass.{Pass};
ghost use Rattle.raw_fabric.specs.Owing.{owing};
ghost use Rattle.raw_fabric.specs.InRow.{AreTurns};
ghost use Rattle.raw_workers.specs.Swept.{HasSwept};

use raw_fabric::FabricTurn;

/// What some turns of processors of a pass came to.
#[derive(Clone, Copy, PartialEq, Eq)]
pub(crate) enum Swept {
    /// A step was taken.
    Fired,
    /// No step was taken, but a stall turn.
    Stalled,
    /// Neither was.
    Idle,
}

impl Swept {
    /// What these turns and then others came to together.
    pub(crate) fn then(self, next: Swept) -> Swept
        ensures { (first second third : Pass) → HasSwept self first second → HasSwept next second third →
            HasSwept result first third }
    {
        match (self, next) {
            (Swept::Fired, _) | (_, Swept::Fired) => Swept::Fired,
            (Swept::Stalled, _) | (_, Swept::Stalled) => Swept::Stalled,
            (Swept::Idle, Swept::Idle) => Swept::Idle,
        }
    }
}

/// What several turns in a row came to, the last of which was this one, by how many steps the log had before and has then.
pub(crate) fn swept_by(turn: FabricTurn, before: usize, after: usize) -> Swept
    ensures { (old new : Pass) → vec_len old.log.steps ≡ before → vec_len new.log.steps ≡ after →
        AreTurns turn old.log new.log (owing old) (owing new) → HasSwept result old new }
{
    if before < after {
        return Swept::Fired;
    }
    match turn {
        FabricTurn::Stalled => Swept::Stalled,
        _ => Swept::Idle,
    }
}
