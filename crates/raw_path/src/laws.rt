//! What the path of a set says. The function does nothing: its contract is the law.
ghost use Rattle.std.specs.Prelude.{ℕ, suc};
ghost use Rattle.raw_model.specs.Program.{ProgramSet, IsSet};
ghost use Rattle.raw_clock.specs.Clock.{HasCycles};
ghost use Rattle.raw_path.specs.Laws.{IsItsPath};

/// The path of each set that has a cycle is a chain of as many turns as the set has cycles, and so no schedule has its
/// last turn sooner; where it has no wait for room, deeper wires do not change that.
pub fn law_path()
    ensures { (set : ProgramSet) (k : ℕ) → IsSet set → HasCycles set (suc k) → IsItsPath set k }
{}
