//! The ends of a switch that have a wire.
ghost use Rattle.std.specs.Prelude.{◌≡◌, ◌+◌, ◌<◌, ℕ};
ghost use Rattle.raw_grid.specs.Topology.{Topology, tile_count};
ghost use Rattle.raw_model.specs.Program.{has_wires};
ghost use Rattle.raw_model.specs.Wired.{AreWired};

use raw_grid::{Ends, Topo};
use raw_switch_isa::{SwitchIns, are_within, inputs, outputs};

/// The ends that have a wire, of the switch beside a tile.
pub fn wired_ends(topo: &Topo, tile: u32) -> Ends
    requires { tile < tile_count topo.now }
    ensures { AreWired topo.now (tile_count topo.now + tile) result }
{
    let (x, y) = topo.position_of(tile);
    topo.ends_of(x, y)
}

/// Whether each end that an instruction names is among those that have a wire.
pub fn has_wires(ins: &SwitchIns, wired: Ends) -> bool
    ensures { (topo : Topology) (p : ℕ) → AreWired topo p wired → result ≡ has_wires topo p ins.now }
{
    are_within(inputs(ins), wired.inputs) && are_within(outputs(ins), wired.outputs)
}
