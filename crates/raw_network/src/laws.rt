//! The laws of networks, over every type `L` of local states. What each says of one network stands in
//! `specs/Laws.antt` under the same name.
ghost use Rattle.std.specs.Prelude.{ℕ, Bool, List, IsTrue};
ghost use Rattle.raw_network.specs.Laws.{StillEnabled, SameState, SameEvents, KthIsThere, OneEventEach, OneAfterAnother, AtMostAsOften, SameSteps, PassedPrefix, SameRest, SameEnd, NextIsEnabled, SomeIsBeyond, StaysFit, NoLonger, SomeRest, IsQueue, KeepsDepth, NoneWhereEnabled, WaitIsUnmet, OneMayBeTaken, FirstMayBeTaken, SameLogsSameEnd};
ghost use Rattle.raw_network.specs.Network.{Network};
ghost use Rattle.raw_network.specs.Waits.{IsCovered};
ghost use Rattle.raw_network.specs.Wired.{IsWired, SendsOnce, IsBounded, IsInvariant};

/// Two different processors that are enabled may step in either order.
pub fn law_diamond<L>()
    ensures still_enabled { (net : Network L) (producer consumer : ℕ → ℕ) →
        IsWired net producer consumer → StillEnabled net }
    ensures same_state { (net : Network L) (producer consumer : ℕ → ℕ) →
        IsWired net producer consumer → SameState net }
    ensures same_events { (net : Network L) (producer consumer : ℕ → ℕ) →
        IsWired net producer consumer → SameEvents net }
{}

/// What a list of steps says of one processor, and what one list after another does.
pub fn law_steps<L>()
    ensures kth { (net : Network L) → KthIsThere net }
    ensures events { (net : Network L) → OneEventEach net }
    ensures in_turn { (net : Network L) → OneAfterAnother net }
{}

/// What all lawful lists of steps from one state have in common.
pub fn law_same_rest<L>()
    ensures at_most_as_often { (net : Network L) (producer consumer : ℕ → ℕ) →
        IsWired net producer consumer → AtMostAsOften net }
    ensures same_steps { (net : Network L) (producer consumer : ℕ → ℕ) →
        IsWired net producer consumer → SameSteps net }
    ensures prefix { (net : Network L) (producer consumer : ℕ → ℕ) →
        IsWired net producer consumer → PassedPrefix net }
    ensures same_rest { (net : Network L) (producer consumer : ℕ → ℕ) →
        IsWired net producer consumer → SameRest net }
    ensures same_end { (net : Network L) (producer consumer : ℕ → ℕ) →
        IsWired net producer consumer → SameEnd net }
    ensures next_is_enabled { (net : Network L) (producer consumer : ℕ → ℕ) →
        IsWired net producer consumer → NextIsEnabled net }
    ensures some_is_beyond { (h g : List ℕ) → SomeIsBeyond h g }
{}

/// Where each step of a processor lowers a measure of its local state, lawful lists end. The local
/// states that fit are those for which that is known.
pub fn law_bound<L>()
    ensures no_longer { (net : Network L) (fit : ℕ → L → Bool) (left : ℕ → L → ℕ) →
        IsBounded net (λ p l. IsTrue (fit p l)) left → NoLonger net (λ p l. IsTrue (fit p l)) left }
    ensures some_rest { (net : Network L) (fit : ℕ → L → Bool) (left : ℕ → L → ℕ) →
        IsBounded net (λ p l. IsTrue (fit p l)) left → SomeRest net (λ p l. IsTrue (fit p l)) }
{}

/// What each row keeps of its processor's local state and of the values on wires holds in every state that
/// a lawful list leads to.
pub fn law_invariant<L>()
    ensures stays_fit { (net : Network L) (fit : ℕ → L → Bool) (fine : ℕ → Bool) →
        IsInvariant net (λ p l. IsTrue (fit p l)) (λ value. IsTrue (fine value)) →
        StaysFit net (λ p l. IsTrue (fit p l)) (λ value. IsTrue (fine value)) }
{}

/// Wires are queues, and hold no more than the most.
pub fn law_queues<L>()
    ensures queue { (net : Network L) → IsQueue net }
    ensures depth { (net : Network L) → SendsOnce net → KeepsDepth net }
{}

/// A processor waits exactly where a need of its next row is unmet.
pub fn law_waits<L>()
    ensures none_where_enabled { (net : Network L) (inputs outputs : ℕ → List ℕ) →
        IsCovered net inputs outputs → NoneWhereEnabled net inputs outputs }
    ensures unmet { (net : Network L) (inputs outputs : ℕ → List ℕ) → WaitIsUnmet net inputs outputs }
{}

/// The entries of a lawful list may be taken in another order, in which those of each worker keep theirs.
/// So the steps of several workers can be woven into one list: take any entry that is enabled and comes
/// first in its worker's log.
pub fn law_weaving<L>()
    // What is left is again joined by a lawful list, with the same end;
    ensures taken { (net : Network L) (producer consumer : ℕ → ℕ) →
        IsWired net producer consumer → OneMayBeTaken net }
    // where anything is left, some log begins with an entry that may be taken;
    ensures goes_on { (net : Network L) → FirstMayBeTaken net }
    // and all lawful lists of these logs end alike.
    ensures same_end { (net : Network L) (producer consumer : ℕ → ℕ) →
        IsWired net producer consumer → SameLogsSameEnd net }
{}
