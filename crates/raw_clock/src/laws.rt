//! The laws of the clock of every set. Each function does nothing: its contract is the law.
ghost use Rattle.std.specs.Prelude.{◌≡◌, ℕ, ◌+◌, ◌≤◌, ◌<◌, List, length};
ghost use Rattle.raw_network.specs.Network.{count_of};
ghost use Rattle.raw_grid.specs.Topology.{proc_count};
ghost use Rattle.raw_model.specs.Program.{ProgramSet, IsSet};
ghost use Rattle.raw_model.specs.Rest.{IsRun};
ghost use Rattle.raw_model.specs.Machine.{machine_of};
ghost use Rattle.raw_lockstep.specs.Lockstep.{first_rounds};
ghost use Rattle.raw_lockstep.specs.Stalls.{IsStepSchedule};
ghost use Rattle.raw_clock.specs.Clock.{cost_of, first_clock, clock_turns, clock_steps, HasCycles, stalls_paid};
ghost use Rattle.raw_clock.specs.Laws.{IsClockAt, CycleInAnyOrder, IsTurnSchedule, NoneIsSooner, steps_by, IsSpent};

/// What the clock of a set does, and that no schedule is shorter.
pub fn law_clock()
    // The steps of the first cycles are lawful; each cycle takes the steps and pays the stall turns that its turns say,
    ensures at { (set : ProgramSet) (k : ℕ) → IsSet set → IsClockAt set k }
    // and its steps may be taken in any order.
    ensures any_order { (set : ProgramSet) (k : ℕ) → IsSet set → CycleInAnyOrder set k }
    // The clock comes to an end, and rests there.
    ensures ends { (set : ProgramSet) → IsSet set → (n : ℕ) × HasCycles set n }
    ensures rests { (set : ProgramSet) (n : ℕ) → IsSet set → HasCycles set n → IsRun set (clock_steps set n) }
    // No schedule of turns has more steps of a processor in its first rounds than as many cycles have, nor more turns,
    ensures none_sooner { (set : ProgramSet) (rounds : List (List ℕ)) (k p : ℕ) → IsSet set → IsTurnSchedule set rounds →
        count_of p (steps_by set k rounds) ≤ count_of p (clock_steps set k) }
    ensures no_turn_sooner { (set : ProgramSet) (rounds : List (List ℕ)) (k p : ℕ) → IsSet set → IsTurnSchedule set rounds →
        count_of p (first_rounds k rounds) ≤ count_of p (clock_turns set k) }
    // nor has a schedule of steps, in each of whose rounds those pay that owe a stall turn,
    ensures no_step_sooner { (set : ProgramSet) (rounds : List (List ℕ)) (k p : ℕ) → IsSet set →
        IsStepSchedule (machine_of set) (cost_of set) (first_clock set) rounds →
        count_of p (first_rounds k rounds) ≤ count_of p (clock_steps set k) }
    // and none is over in fewer rounds.
    ensures none_over_sooner { (set : ProgramSet) (n : ℕ) → IsSet set → HasCycles set n → NoneIsSooner set n }
    // A processor takes a step or pays a stall turn once a cycle at most, and each cycle has a step or such a turn.
    ensures at_least { (set : ProgramSet) (n p : ℕ) → IsSet set → count_of p (clock_turns set n) ≤ n }
    ensures steps_at_least { (set : ProgramSet) (n p : ℕ) → IsSet set → count_of p (clock_steps set n) ≤ n }
    ensures at_most { (set : ProgramSet) (n : ℕ) → IsSet set → HasCycles set n → n ≤ length (clock_steps set n) + stalls_paid set n }
    // Each cycle is spent once, and so the numbers that `cycles` shows of a processor in one line add up to that of the cycles.
    ensures spent { (set : ProgramSet) (n p : ℕ) → IsSet set → p < proc_count set.topo → IsSpent set n p }
{}
