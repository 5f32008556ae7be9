//! The laws of the cycles of every set. The functions do nothing: their contracts are the laws.
ghost use Rattle.std.specs.Prelude.{◌≡◌, ℕ, ◌≤◌, ◌<◌, List, ◌∷◌, length};
ghost use Rattle.raw_network.specs.Network.{count_of};
ghost use Rattle.raw_lockstep.specs.Lockstep.{first_rounds};
ghost use Rattle.raw_pace.specs.Path.{TurnOf, IsChain};
ghost use Rattle.raw_grid.specs.Topology.{proc_count};
ghost use Rattle.raw_model.specs.Program.{ProgramSet, IsSet};
ghost use Rattle.raw_depth.specs.Depth.{at_depth};
ghost use Rattle.raw_clock.specs.Clock.{clocked, first_clock, clock_turns, clock_steps, clock, HasCycles};
ghost use Rattle.raw_clock.specs.Laws.{IsTurnSchedule};
ghost use Rattle.raw_steady.specs.Count.{cycle_count};
ghost use Rattle.raw_steady.specs.Steady.{EachSameClock, EachKeepsTime, EachProvedKeepsTime, EachHasLongest, NoneBlocked, DiffersInMisses, EachRootIsNeeded, EachRingIsNever, SharesAddUp};

use raw_term::law_moves_alike;

/// How many cycles a set has, as a function of it.
pub fn law_count()
    ensures has { (set : ProgramSet) → IsSet set → HasCycles set (cycle_count set) }
    ensures only { (set : ProgramSet) (n : ℕ) → IsSet set → HasCycles set n → n ≡ cycle_count set }
{}

/// Where no step of a run with terms hangs on an input, the clock of the set does the same with any words in its sources.
pub fn law_words()
    ensures alike { EachSameClock }
    // So it has as many cycles as with its own words,
    ensures keeps { EachKeepsTime }
    // and that is so of each set of which a claim is proved.
    ensures proved { EachProvedKeepsTime }
{
    law_moves_alike();
}

/// Deeper wires never slow a set, beyond the limit of depths too:
pub fn law_depths()
    // after as many cycles each processor has had at least as many turns,
    ensures ahead { (set : ProgramSet) (d k p : ℕ) → IsSet set → set.depth ≤ d →
        count_of p (clock_turns set k) ≤ count_of p (clock_turns (at_depth set d) k) }
    // and where none waits for room once the set is at rest, it has no more cycles with them.
    ensures no_longer { (set : ProgramSet) (d n m : ℕ) → IsSet set → set.depth ≤ d →
        HasCycles set n → HasCycles (at_depth set d) m → NoneBlocked set (clock set n) → m ≤ n }
{}

/// Nor do fewer stall turns: where no number of its miss streams is greater, a set has no step later, and no more cycles.
pub fn law_misses()
    ensures ahead { (set other : ProgramSet) (k p : ℕ) → IsSet set → IsSet other → DiffersInMisses set other →
        count_of p (clock_steps set k) ≤ count_of p (clock_steps other k) }
    ensures no_longer { (set other : ProgramSet) (n m : ℕ) → IsSet set → IsSet other → DiffersInMisses set other →
        HasCycles set n → HasCycles other m → m ≤ n }
{}

/// The cycles of a set are as many as the longest chain of turns has, each of which needs the one before it.
pub fn law_longest()
    ensures is_there { (set : ProgramSet) → IsSet set → EachHasLongest set }
    // No schedule of turns has the last turn of a chain in fewer rounds than the chain has turns.
    ensures none_below { (set : ProgramSet) (t : TurnOf) (us : List TurnOf) (rounds : List (List ℕ)) (k : ℕ) → IsSet set →
        IsChain (clocked set) (first_clock set) t us → IsTurnSchedule set rounds → t.before < count_of t.p (first_rounds k rounds) →
        length (t ∷ us) ≤ k }
{}

/// Why a cycle is lost: who waits needs the turn of the one to which the waits of the cycle lead.
pub fn law_roots()
    ensures needed { (set : ProgramSet) → IsSet set → EachRootIsNeeded set }
    // Where the waits have no end, they come round, and none of these turns is ever taken.
    ensures rings { (set : ProgramSet) → IsSet set → EachRingIsNever set }
    // Each lost cycle has one root.
    ensures shares { (set : ProgramSet) (n p : ℕ) → IsSet set → p < proc_count set.topo → SharesAddUp set n p }
{}
