//! A switch of a machine.
ghost use Rattle.std.specs.Prelude.{◌≡◌, ℕ, ◌<◌, ◌≤◌, ◌||◌, ◌&&◌, not, nat_le, option_map, is_some, slice_index_or, None, true, false};
ghost use Rattle.raw_switch_isa.specs.Ends.{ends, has_end};
ghost use Rattle.raw_grid.specs.Topology.{Topology};
ghost use Rattle.raw_model.specs.Program.{has_wires};
ghost use Rattle.raw_model.specs.SwitchTable.{next_instruction};
ghost use Rattle.raw_model.specs.Machine.{is_ended, switch_takes, switch_sends};
ghost use Rattle.raw_switch.specs.Given.{takes_from};
ghost use Rattle.raw_processor.specs.Ends.{AreEndsOf};
ghost use Rattle.raw_processor.specs.Given.{all_have_wires, wires_in, sends_to};

use crate::end_wires::EndWires;
use crate::needs::Needs;
use raw_model::Mark;
use raw_switch::{SwitchState, SwitchStep};
use raw_switch_isa::{SwitchIns, has_end, inputs, outputs};

/// Whether a switch takes no more steps: it is halted or trapped, or has executed as many
/// instructions as the limit says.
pub fn switch_stopped(switch: &SwitchState, limit: u32) -> bool
    ensures { result ≡ (is_ended switch.now.mark || nat_le limit switch.now.count) }
{
    switch.mark != Mark::Going || u64::from(limit) <= switch.count
}

/// The ends that a switch's next step takes from and sends to, each once.
#[inline(always)]
pub fn switch_needs(code: &[SwitchStep], switch: &SwitchState) -> Needs
    ensures inputs { (end : ℕ) →
        has_end result.inputs end ≡ takes_from (next_instruction code.now switch.now) end }
    ensures outputs { (end : ℕ) →
        has_end result.outputs end ≡ sends_to (next_instruction code.now switch.now) end }
    ensures takes { (topo : Topology) (p : ℕ) (ends : EndWires) → AreEndsOf topo p ends →
        wires_in result.inputs ends.inputs ≡ switch_takes topo p (next_instruction code.now switch.now) }
    ensures sends { (topo : Topology) (p : ℕ) (ends : EndWires) → AreEndsOf topo p ends →
        wires_in result.outputs ends.outputs ≡ switch_sends topo p (next_instruction code.now switch.now) }
{
    match next_instruction(code, switch) {
        Some(step) => Needs {
            inputs: step.inputs(),
            outputs: step.outputs(),
        },
        None => Needs {
            inputs: 0,
            outputs: 0,
        },
    }
}

/// Whether each end that an instruction names has a wire.
pub fn has_wires(ins: &SwitchIns, ends: &EndWires) -> bool
    ensures { (topo : Topology) (p : ℕ) → AreEndsOf topo p ends.now →
        result ≡ has_wires topo p ins.now }
{
    all_have_wires(inputs(ins), &ends.inputs) && all_have_wires(outputs(ins), &ends.outputs)
}

// The instruction that is next; none where the pc is past the program.
fn next_instruction<'c>(code: &'c [SwitchStep], switch: &SwitchState) -> Option<&'c SwitchStep>
    ensures { option_map (λ step. step.now) result ≡ next_instruction code.now switch.now }
{
    code.get(switch.pc as usize)
}

// Whether each end of a word has a wire.
fn all_have_wires(word: u16, wires: &[Option<u32>; 10]) -> bool
    ensures { result ≡ all_have_wires word wires.now ends }
{
    for end in 0..10 {
        if is_missing(word, wires, end) {
            return false;
        }
    }
    true
}

// Whether a word has an end that has no wire.
fn is_missing(word: u16, wires: &[Option<u32>; 10], end: usize) -> bool
    requires { end < 10 }
    ensures { result ≡ (has_end word end && not (is_some (slice_index_or wires.now end None))) }
{
    has_end(word, end) && wires[end].is_none()
}
