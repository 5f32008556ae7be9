//! Instructions made for stepping.
ghost use Rattle.std.specs.Prelude.{◌≡◌, ℕ, ◌<◌, None, slice_index_or, IfSome};
ghost use Rattle.raw_switch_isa.specs.Ends.{has_end, is_used_input, is_filled, route_source, IsSource};

use raw_switch_isa::{SwitchIns, SwitchSource, inputs, outputs};
use std::marker::Model;

/// An instruction with the ends that it takes from and sends to. A contract sees the instruction
/// alone.
#[derive(Drop)]
pub struct SwitchStep {
    pub(crate) ins: SwitchIns,
    // The inputs that it takes from, as a word of ends.
    inputs: u16,
    // The outputs that it sends to.
    outputs: u16,
    // What each output sends, by end index.
    pub(crate) sources: [Option<SwitchSource>; 10],
}

impl Model for SwitchStep {
    ghost use Rattle.raw_switch_isa.specs.Instruction.{SwitchInstruction};

    ghost Value = { SwitchInstruction };

    ghost use Rattle.raw_switch.specs.Step.{AreItsEnds};

    ghost view = { λ step. step.ins };

    ghost invariant = { λ step. AreItsEnds step.ins step.inputs step.outputs step.sources };
}

impl SwitchStep {
    /// An instruction made for stepping.
    pub fn new(ins: SwitchIns) -> Self
        ensures { result ≡ ins }
    {
        let inputs = inputs(&ins);
        let outputs = outputs(&ins);
        let sources = sources_of(&ins);
        SwitchStep {
            ins,
            inputs,
            outputs,
            sources,
        }
    }

    /// The inputs that it takes a value from.
    pub fn inputs(&self) -> u16
        ensures { (end : ℕ) → has_end result end ≡ is_used_input self.now end }
    {
        self.inputs
    }

    /// The outputs that it sends a value to.
    pub fn outputs(&self) -> u16
        ensures { (end : ℕ) → has_end result end ≡ is_filled self.now end }
    {
        self.outputs
    }
}

// What each output sends, by end index.
fn sources_of(ins: &SwitchIns) -> [Option<SwitchSource>; 10]
    ensures sources { (output : ℕ) → output < 10 → slice_index_or result output None ≡ route_source ins.now output }
    ensures within { (output : ℕ) → output < 10 → IfSome (route_source ins.now output) IsSource }
{
    let mut sources = [None; 10];
    for output in 0..10 {
        sources[output] = ins.route_source(output);
    }
    sources
}
