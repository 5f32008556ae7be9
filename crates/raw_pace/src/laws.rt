//! The laws of pace, over every type `L` of local states. What each says of one network stands in `specs/Pace.antt`
//! under the same name.
ghost use Rattle.std.specs.Prelude.{ℕ, List};
ghost use Rattle.raw_network.specs.Network.{Network, State};
ghost use Rattle.raw_network.specs.Wired.{IsWired};
ghost use Rattle.raw_pace.specs.Pace.{DeeperIsAhead, DeeperRestsToo, FewerStallsAreAhead, FewerStallsRestToo};
ghost use Rattle.raw_pace.specs.Control.{SameCycles, SameTurns, SameWaits, SameStops};
ghost use Rattle.raw_pace.specs.Path.{NoneBelowChain, ChainOfEach, NeedsGoOn, WaitIsNeed, WayIsChain, WayIsDeepChain, AreNever};
ghost use Rattle.raw_network.specs.Waits.{IsCovered};

/// Deeper wires never slow a network, nor do fewer stall turns.
pub fn law_pace<L>()
    // After as many cycles each processor has had at least as many turns there,
    ensures deeper { (net : Network L) (producer consumer : ℕ → ℕ) →
        IsWired net producer consumer → DeeperIsAhead net }
    // and where nothing is left to do with deeper wires either, they are at rest too.
    ensures deeper_rests { (net : Network L) (producer consumer : ℕ → ℕ) →
        IsWired net producer consumer → DeeperRestsToo net }
    // Where each touch costs no more, no step is later,
    ensures fewer_stalls { (net : Network L) (producer consumer : ℕ → ℕ) →
        IsWired net producer consumer → FewerStallsAreAhead net }
    // nor is the rest.
    ensures fewer_stalls_rest { (net : Network L) (producer consumer : ℕ → ℕ) →
        IsWired net producer consumer → FewerStallsRestToo net }
{}

/// The longest way: cycles are as many as the longest chain of turns in which each needs the one before it.
pub fn law_path<L>()
    // No schedule has the last turn of a chain in fewer rounds than the chain has turns,
    ensures none_below { (net : Network L) (producer consumer : ℕ → ℕ) →
        IsWired net producer consumer → NoneBelowChain net }
    // and each turn of a cycle is the last one of a chain with a turn in each cycle before it.
    ensures of_each { (net : Network L) (producer consumer : ℕ → ℕ) →
        IsWired net producer consumer → ChainOfEach net }
    // A wait is a need, and needs go on: so who waits can take no turn before the one at the end of a chain of waits has.
    ensures go_on { (net : Network L) → NeedsGoOn net }
    ensures waits { (net : Network L) (producer consumer : ℕ → ℕ) (inputs outputs : ℕ → List ℕ) →
        IsWired net producer consumer → WaitIsNeed net producer consumer inputs outputs }
    // A ring of waits, or a wait for one that is stopped, never ends.
    ensures never { (net : Network L) (producer consumer : ℕ → ℕ) → IsWired net producer consumer → (s : State L) → AreNever net s }
    // The way back by own turns and by first waits is such a chain.
    ensures way { (net : Network L) (producer consumer : ℕ → ℕ) (inputs outputs : ℕ → List ℕ) →
        IsWired net producer consumer → IsCovered net inputs outputs → WayIsChain net producer consumer inputs outputs }
    // Where no turn of it waits for room, it is one with deeper wires too, which so make no turn of it sooner.
    ensures deep { (net : Network L) (producer consumer : ℕ → ℕ) (inputs outputs : ℕ → List ℕ) →
        IsWired net producer consumer → IsCovered net inputs outputs → WayIsDeepChain net producer consumer inputs outputs }
{}

/// Control: networks whose steps are the same but for their values have the same cycles.
pub fn law_control<L, M>()
    ensures cycles { (a : Network L) (b : Network M) (producer consumer : ℕ → ℕ) →
        IsWired a producer consumer → IsWired b producer consumer → SameCycles a b }
    ensures turns { (a : Network L) (b : Network M) (producer consumer : ℕ → ℕ) →
        IsWired a producer consumer → IsWired b producer consumer → SameTurns a b }
    ensures waits { (a : Network L) (b : Network M) (producer consumer : ℕ → ℕ) (inputs outputs : ℕ → List ℕ) →
        IsWired a producer consumer → IsWired b producer consumer → SameWaits a b inputs outputs }
    ensures stops { (a : Network L) (b : Network M) (producer consumer : ℕ → ℕ) →
        IsWired a producer consumer → IsWired b producer consumer → SameStops a b }
{}
