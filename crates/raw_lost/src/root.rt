//! The kinds of roots.
ghost use Rattle.std.specs.Prelude.{◌≡◌};
ghost use Rattle.raw_lost.specs.Lost.{firing_kind};

use raw_grid::Topo;

/// To what the waits of a cycle lead from a processor that waits.
#[derive(Clone, Copy, PartialEq, Eq)]
pub enum RootKind {
    /// To a tile that takes a step.
    Tile,
    /// To a switch that takes one.
    Switch,
    /// To a port that takes one.
    Port,
    /// To a tile that pays a stall turn.
    Stalled,
    /// To a processor that is stopped.
    Stopped,
    /// To none: they come round.
    Ring,
}

/// What a processor is that takes a step.
pub(crate) fn firing_kind(topo: &Topo, p: u32) -> RootKind
    ensures { result ≡ firing_kind topo.now p }
{
    if p < topo.tiles() {
        RootKind::Tile
    } else if p < 2 * topo.tiles() {
        RootKind::Switch
    } else {
        RootKind::Port
    }
}
