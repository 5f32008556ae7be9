//! The laws of deeper wires, over every type `L` of local states. What each says of one network stands in
//! `specs/Deeper.antt` under the same name.
ghost use Rattle.std.specs.Prelude.{ℕ, List};
ghost use Rattle.raw_network.specs.Network.{Network};
ghost use Rattle.raw_network.specs.Wired.{IsWired};
ghost use Rattle.raw_deeper.specs.Deeper.{DoesTheSameDeeper, NoFewerSteps, StaysHeld};

/// What a network does it does with deeper wires.
pub fn law_deeper<L>()
    // A list that is lawful at a depth is lawful at each greater one, with the same events and the same end;
    ensures same { (net : Network L) → DoesTheSameDeeper net }
    // and no processor takes fewer steps until the rest.
    ensures no_fewer { (net : Network L) (producer consumer : ℕ → ℕ) →
        IsWired net producer consumer → NoFewerSteps net }
{}

/// Processors that are stopped or wait for values from one another, and for room nowhere, stay so at each greater
/// depth: room is all that deeper wires give.
pub fn law_held<L>()
    ensures { (net : Network L) (producer consumer : ℕ → ℕ) (inputs outputs : ℕ → List ℕ) →
        IsWired net producer consumer → StaysHeld net producer consumer inputs outputs }
{}
