//! A flow with its ports and words.
use raw_flow::{Flow, Ports};
use std::marker::Model;

/// A flow, its ports, and a word for each of its inputs.
///
/// Its type keeps what `compile_at` asks for.
#[derive(Drop)]
pub struct PlacedInput {
    pub flow: Flow,
    pub ports: Ports,
    /// The words that are put in, in the order of the flow's inputs.
    pub inputs: Vec<u32>,
}

impl Model for PlacedInput {
    ghost use Rattle.raw_either_flow.specs.Placed.{PlacedFlow, IsPlacedFlow};

    ghost Value = { PlacedFlow };

    ghost view = { λ p. record { flow = p.flow; ports = p.ports; inputs = p.inputs.items } };

    ghost invariant = { λ p. IsPlacedFlow (record { flow = p.flow; ports = p.ports; inputs = p.inputs.items }) };
}
