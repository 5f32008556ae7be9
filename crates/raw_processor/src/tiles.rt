//! A tile of a machine.
ghost use Rattle.std.specs.Prelude.{◌≡◌, ℕ, ◌<◌, ◌||◌, nat_le, is_some, length, Some, option_map};
ghost use Rattle.std.specs.List.{flat_map};
ghost use Rattle.std.specs.Option.{option_to_list};
ghost use Rattle.raw_tile_isa.specs.Instruction.{source_registers, destination_register};
ghost use Rattle.raw_grid.specs.Topology.{Topology};
ghost use Rattle.raw_model.specs.TileTable.{next_instruction};
ghost use Rattle.raw_model.specs.Machine.{is_ended, source_wire, destination_wire, tile_takes, tile_sends};
ghost use Rattle.raw_tile.specs.Given.{takes_first, takes_second};
ghost use Rattle.raw_processor.specs.Ends.{AreEndsOf, HasNetworks};
ghost use Rattle.raw_processor.specs.Given.{taken_by, sent_by, wire_via};

use crate::end_wires::EndWires;
use raw_model::Mark;
use raw_tile::{TileState, TileStep, Via};

/// Whether a tile takes no more steps: it is halted or trapped, or has executed as many
/// instructions as the limit says.
pub fn tile_stopped(tile: &TileState, limit: u32) -> bool
    ensures { result ≡ (is_ended tile.now.mark || nat_le limit tile.now.count) }
{
    tile.mark != Mark::Going || u64::from(limit) <= tile.count
}

/// The wires of a tile's next step.
#[derive(Clone, Copy, PartialEq, Eq)]
pub struct TileWires {
    /// The wire that the operand at rs is taken from, if it is taken from a network. It is taken
    /// before that at rt.
    pub first: Option<u32>,
    /// The wire that the operand at rt is taken from.
    pub second: Option<u32>,
    /// The wire that the result is sent to.
    pub sent: Option<u32>,
}

impl TileWires {
    // The wires of a step that takes nothing from the networks, and sends nothing to them.
    const NONE: TileWires = TileWires {
        first: None,
        second: None,
        sent: None,
    };
}

/// The wires that a tile's next step takes from, and the wire that it sends to.
#[inline(always)]
pub fn tile_wires(code: &[TileStep], tile: &TileState, ends: &EndWires) -> TileWires
    ensures takes { (topo : Topology) (p : ℕ) → AreEndsOf topo p ends.now →
        taken_by result ≡ tile_takes topo p (next_instruction code.now tile.now) }
    ensures sends { (topo : Topology) (p : ℕ) → AreEndsOf topo p ends.now →
        sent_by result ≡ tile_sends topo p (next_instruction code.now tile.now) }
    ensures first { HasNetworks ends.now →
        is_some result.first ≡ takes_first (next_instruction code.now tile.now) }
    ensures second { HasNetworks ends.now →
        is_some result.second ≡ takes_second (next_instruction code.now tile.now) }
{
    match next_instruction(code, tile) {
        Some(step) => step_wires(step, ends),
        None => TileWires::NONE,
    }
}

// The instruction that is next; none where the pc is past the program.
fn next_instruction<'c>(code: &'c [TileStep], tile: &TileState) -> Option<&'c TileStep>
    ensures { option_map (λ step. step.now) result ≡ next_instruction code.now tile.now }
{
    code.get(tile.pc as usize)
}

/// The instruction at a tile's pc.
#[inline(always)]
pub fn tile_step<'c>(code: &'c [TileStep], tile: &TileState) -> &'c TileStep
    requires { tile.now.pc < length code.now }
    ensures { next_instruction code.now tile.now ≡ Some result.now }
{
    &code[tile.pc as usize]
}

/// The wires that an instruction takes from, and the wire that it sends to.
#[inline(always)]
pub fn step_wires(step: &TileStep, ends: &EndWires) -> TileWires
    ensures takes { (topo : Topology) (p : ℕ) → AreEndsOf topo p ends.now →
        taken_by result ≡ flat_map (source_wire topo p) (source_registers step.now) }
    ensures sends { (topo : Topology) (p : ℕ) → AreEndsOf topo p ends.now →
        sent_by result ≡ flat_map (destination_wire topo p) (option_to_list (destination_register step.now)) }
    ensures first { HasNetworks ends.now → is_some result.first ≡ takes_first (Some step.now) }
    ensures second { HasNetworks ends.now → is_some result.second ≡ takes_second (Some step.now) }
{
    if step.is_within() {
        return TileWires::NONE;
    }
    let first = input_wire(step.first(), ends);
    let second = input_wire(step.second(), ends);
    let sent = output_wire(step.sent(), ends);
    TileWires {
        first,
        second,
        sent,
    }
}

// The wire on which a tile takes an operand.
fn input_wire(via: Via, ends: &EndWires) -> Option<u32>
    ensures { result ≡ wire_via ends.now.inputs via }
{
    match via {
        Via::Tile => None,
        Via::Network1 => ends.inputs[4],
        Via::Network2 => ends.inputs[9],
    }
}

// The wire on which a tile sends a result.
fn output_wire(via: Via, ends: &EndWires) -> Option<u32>
    ensures { result ≡ wire_via ends.now.outputs via }
{
    match via {
        Via::Tile => None,
        Via::Network1 => ends.outputs[4],
        Via::Network2 => ends.outputs[9],
    }
}
