//! The laws of deeper wires, for every program set. Each function does nothing: its contract is the law.
ghost use Rattle.std.specs.Prelude.{◌≡◌, ◌≢◌, ℕ, ◌<◌, ◌≤◌, false, Some, List, slice_get};
ghost use Rattle.raw_network.specs.Network.{count_of};
ghost use Rattle.raw_model.specs.Program.{ProgramSet, IsSet};
ghost use Rattle.raw_model.specs.Local.{Local};
ghost use Rattle.raw_model.specs.Start.{MachineState, start};
ghost use Rattle.raw_model.specs.Rest.{IsLawfulFrom, IsRun, end};
ghost use Rattle.raw_model.specs.declared.ending.Ending.TheVariants as ending;
ghost use Rattle.raw_model.specs.Outcomes.{outcome, ending_of};
ghost use Rattle.raw_model.specs.Outcomes.Outcome.{Done};
ghost use Rattle.raw_depth.specs.Verdicts.{rest_at, outcome_at, waits_for_values, verdict, StaysDeadlocked};
ghost use Rattle.raw_depth.specs.Verdicts.Verdict.{DoneFrom, NeverDone, NotDone};
ghost use Rattle.raw_depth.specs.Depth.{at_depth, RunsDeeper, is_source, IsValueCycle, StaysValueCycle};

/// What a set does it does with deeper wires.
pub fn law_deeper()
    ensures start { (set : ProgramSet) (d : ℕ) → start (at_depth set d) ≡ start set }
    // A list of steps that is lawful at a depth is lawful at each greater one, with the same events and the same end;
    ensures runs { (set : ProgramSet) (d : ℕ) (s : MachineState) (steps : List ℕ) → set.depth ≤ d →
        IsLawfulFrom set s steps → RunsDeeper set d s steps }
    // and until the rest no processor takes fewer steps.
    ensures no_fewer { (set : ProgramSet) (d : ℕ) (h g : List ℕ) → IsSet set → set.depth ≤ d →
        IsRun set h → IsRun (at_depth set d) g → (p : ℕ) → count_of p h ≤ count_of p g }
{}

/// What is done at a depth is done at each greater one.
pub fn law_done()
    ensures done { (set : ProgramSet) (d : ℕ) (h g : List ℕ) → IsSet set → IsSet (at_depth set d) → set.depth ≤ d →
        IsRun set h → IsRun (at_depth set d) g → outcome set (end set h) ≡ Done →
        outcome (at_depth set d) (end (at_depth set d) g) ≡ Done }
    // Each tile, each switch and each sink is as it was: the registers, the memory, the words that the sink has.
    ensures same { (set : ProgramSet) (d : ℕ) (h g : List ℕ) → IsSet set → set.depth ≤ d →
        IsRun set h → IsRun (at_depth set d) g → outcome set (end set h) ≡ Done →
        (p : ℕ) (l : Local) → slice_get (end set h).locals p ≡ Some l → is_source l ≡ false →
        slice_get (end (at_depth set d) g).locals p ≡ Some l }
{}

/// A cycle of waits in which each processor waits for a value, and none for room, is there at each greater depth.
pub fn law_never_done()
    ensures stays { (set : ProgramSet) (d : ℕ) (h g : List ℕ) (p : ℕ) (ps : List ℕ) → IsSet set → set.depth ≤ d →
        IsRun set h → IsRun (at_depth set d) g → IsValueCycle set (end set h) p ps →
        StaysValueCycle set d (end set h) (end (at_depth set d) g) p ps }
    // So the set is done at no depth, not at a lesser one either, and not beyond the limit of depths.
    ensures never { (set : ProgramSet) (d : ℕ) (h g : List ℕ) (p : ℕ) (ps : List ℕ) → IsSet set → 1 ≤ d →
        IsRun set h → IsRun (at_depth set d) g → IsValueCycle set (end set h) p ps →
        outcome (at_depth set d) (end (at_depth set d) g) ≢ Done }
{}

/// What the verdict on a set says of it.
pub fn law_verdicts()
    // Done from a depth: so at each depth from there to the greatest, and at none before.
    ensures done { (set : ProgramSet) (from d : ℕ) → IsSet set → verdict set ≡ DoneFrom from → from ≤ d → d ≤ 7 →
        outcome_at set d ≡ Done }
    ensures not_before { (set : ProgramSet) (from d : ℕ) → IsSet set → verdict set ≡ DoneFrom from → 1 ≤ d → d < from →
        outcome_at set d ≢ Done }
    // Never done: at no depth at all, however great, and whatever order its processors step in.
    ensures never { (set : ProgramSet) (from d : ℕ) (g : List ℕ) → IsSet set → verdict set ≡ NeverDone from → 1 ≤ d →
        IsRun (at_depth set d) g → outcome (at_depth set d) (end (at_depth set d) g) ≢ Done }
    // The deadlock of the verdict is there at its depth and at each greater one, however great;
    ensures stays { (set : ProgramSet) (from d : ℕ) (g : List ℕ) → IsSet set → verdict set ≡ NeverDone from → from ≤ d →
        IsRun (at_depth set d) g → StaysDeadlocked set from d (end (at_depth set d) g) }
    // so a set comes to a deadlock at each of these that it may have;
    ensures deadlock { (set : ProgramSet) (from d : ℕ) → IsSet set → verdict set ≡ NeverDone from → from ≤ d → d ≤ 7 →
        ending_of (outcome_at set d) ≡ ending.Deadlock }
    // and at a lesser one it comes to none for values alone.
    ensures first { (set : ProgramSet) (from d : ℕ) → IsSet set → verdict set ≡ NeverDone from → 1 ≤ d → d < from →
        waits_for_values (at_depth set d) (rest_at set d) ≡ false }
    // Not done up to 7: at none of these depths, and at none is there a deadlock for values alone.
    ensures not_done { (set : ProgramSet) (d : ℕ) → IsSet set → verdict set ≡ NotDone → 1 ≤ d → d ≤ 7 →
        (outcome_at set d ≢ Done) × (waits_for_values (at_depth set d) (rest_at set d) ≡ false) }
{}
