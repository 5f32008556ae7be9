//! The laws of cycles and of stall turns, over every type `L` of local states. What each says of one network stands in
//! `specs/Lockstep.antt` or `specs/Stalls.antt` under the same name.
ghost use Rattle.std.specs.Prelude.{ℕ, Bool, List, IsTrue};
ghost use Rattle.raw_network.specs.Network.{Network};
ghost use Rattle.raw_network.specs.Wired.{IsWired, IsBounded};
ghost use Rattle.raw_lockstep.specs.Lockstep.{AnyOrder, CycleIsRound, CyclesAreLawful, EmptyIsQuiet, CyclesRest, AtMostOnce, NoneSooner, NoneRestsSooner};
ghost use Rattle.raw_lockstep.specs.Stalls.{StaysWired, StaysBounded, MayTurn, StepsOfTurns, RestsToo, CycleFires, MoreTurnsMoreSteps, NoneStepsSooner, NoStepsSooner};

/// Cycles: in each one all processors step that are enabled in the state before it.
pub fn law_lockstep<L>()
    // A cycle is the round of all processors that are enabled, and the steps of a round may be taken in any order.
    ensures cycle { (net : Network L) → CycleIsRound net }
    ensures any_order { (net : Network L) (producer consumer : ℕ → ℕ) →
        IsWired net producer consumer → AnyOrder net }
    // Cycles are a lawful list, in which each step stands as early as any schedule has it;
    ensures lawful { (net : Network L) (producer consumer : ℕ → ℕ) →
        IsWired net producer consumer → CyclesAreLawful net }
    ensures none_sooner { (net : Network L) (producer consumer : ℕ → ℕ) →
        IsWired net producer consumer → NoneSooner net }
    ensures none_rests_sooner { (net : Network L) (producer consumer : ℕ → ℕ) →
        IsWired net producer consumer → NoneRestsSooner net }
    // they rest where a cycle is empty, and not before each processor has had a cycle for each of its steps.
    ensures empty { (net : Network L) → EmptyIsQuiet net }
    ensures at_most_once { (net : Network L) → AtMostOnce net }
    ensures rest { (net : Network L) (producer consumer : ℕ → ℕ) (fit : ℕ → L → Bool) (left : ℕ → L → ℕ) →
        IsWired net producer consumer → IsBounded net (λ p l. IsTrue (fit p l)) left →
        CyclesRest net (λ p l. IsTrue (fit p l)) left }
{}

/// Stall turns: a network in which touches cost turns is a network again, of the same wires, and its turns without
/// those that pay are steps. So the laws of networks hold of its turns, and those of cycles too.
pub fn law_stalls<L>()
    // It keeps the rules of networks, where no processor's touches cost more than some number;
    ensures wired { (net : Network L) (cost : ℕ → List ℕ → ℕ) → StaysWired net cost }
    ensures bounded { (net : Network L) (cost : ℕ → List ℕ → ℕ) (fit : ℕ → L → Bool) (left : ℕ → L → ℕ) (most : ℕ → ℕ) →
        StaysBounded net cost (λ p l. IsTrue (fit p l)) left most }
    // a processor may take a turn where it is not stopped, and owes one or is enabled;
    ensures may_turn { (net : Network L) (cost : ℕ → List ℕ → ℕ) → MayTurn net cost }
    // the turns that are steps are a lawful list of steps with the same end,
    ensures steps { (net : Network L) (cost : ℕ → List ℕ → ℕ) → StepsOfTurns net cost }
    // where no turn is left no processor is enabled,
    ensures rests { (net : Network L) (cost : ℕ → List ℕ → ℕ) → RestsToo net cost }
    // and the steps of a cycle are those of all that are enabled and owe nothing.
    ensures cycle { (net : Network L) (cost : ℕ → List ℕ → ℕ) → CycleFires net cost }
    // Of two lists of turns, the one that has more turns of a processor has no fewer steps of it;
    ensures more_turns { (net : Network L) (cost : ℕ → List ℕ → ℕ) (producer consumer : ℕ → ℕ) →
        IsWired net producer consumer → MoreTurnsMoreSteps net cost }
    // so no schedule has a step sooner than cycles have it, be it one of turns
    ensures none_sooner { (net : Network L) (cost : ℕ → List ℕ → ℕ) (producer consumer : ℕ → ℕ) →
        IsWired net producer consumer → NoneStepsSooner net cost }
    // or one of steps, in each of whose rounds those pay that owe a turn.
    ensures no_steps_sooner { (net : Network L) (cost : ℕ → List ℕ → ℕ) (producer consumer : ℕ → ℕ) →
        IsWired net producer consumer → NoStepsSooner net cost }
{}
