//! What is counted of the lost cycles of a processor.
ghost use Rattle.std.specs.Prelude.{◌≡◌};
ghost use Rattle.raw_lost.specs.Known.{HasRoom, noted};

use crate::root::RootKind;

/// In how many cycles a processor waited, by the kind of its root.
#[derive(Clone, Copy, PartialEq, Eq)]
pub struct Lost {
    /// A tile that took a step.
    pub tiles: u64,
    /// A switch that took one.
    pub switches: u64,
    /// A port that took one.
    pub ports: u64,
    /// A tile that paid a stall turn.
    pub stalled: u64,
    /// A processor that was stopped.
    pub stopped: u64,
    /// None: the waits came round.
    pub ring: u64,
}

/// What is counted of no cycles.
pub(crate) const NONE: Lost = Lost {
    tiles: 0,
    switches: 0,
    ports: 0,
    stalled: 0,
    stopped: 0,
    ring: 0,
};

impl Lost {
    /// Counts one cycle more, with a root of this kind.
    pub(crate) fn note(&mut self, kind: RootKind)
        requires { HasRoom self.old }
        ensures { self.new ≡ noted kind self.old }
    {
        match kind {
            RootKind::Tile => self.tiles += 1,
            RootKind::Switch => self.switches += 1,
            RootKind::Port => self.ports += 1,
            RootKind::Stalled => self.stalled += 1,
            RootKind::Stopped => self.stopped += 1,
            RootKind::Ring => self.ring += 1,
        }
    }
}
