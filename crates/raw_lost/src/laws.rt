//! What the counts of lost cycles add up to. The function does nothing: its contract is the law.
ghost use Rattle.std.specs.Prelude.{ℕ, ◌<◌};
ghost use Rattle.raw_grid.specs.Topology.{proc_count};
ghost use Rattle.raw_model.specs.Program.{ProgramSet, IsSet};
ghost use Rattle.raw_lost.specs.Lost.{LostAddUp};

/// Of each processor the lost cycles of all kinds are together those in which it waited for a value or for room.
pub fn law_lost()
    ensures { (set : ProgramSet) (n p : ℕ) → IsSet set → p < proc_count set.topo → LostAddUp set n p }
{}
