//! A flow with the words of its inputs.
use raw_flow::Flow;
use std::marker::Model;

/// A flow, and a word for each of its inputs.
///
/// Its type keeps as many words as the flow has inputs, so that `direct` and `compile` take the two.
#[derive(Drop)]
pub struct FlowInput {
    /// The flow.
    pub flow: Flow,
    /// The words that are put in, in the order of the flow's inputs.
    pub inputs: Vec<u32>,
}

impl Model for FlowInput {
    ghost use Rattle.raw_flow_text.specs.Flows.{FedFlow, IsFed};

    ghost Value = { FedFlow };

    ghost view = { λ input. record { flow = input.flow; inputs = input.inputs.items } };

    ghost invariant = { λ input. IsFed (record { flow = input.flow; inputs = input.inputs.items }) };
}
