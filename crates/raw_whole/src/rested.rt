//! What the lines of a whole run are written of.
ghost use Rattle.std.specs.Prelude.{◌≡◌};
ghost use Rattle.raw_clock.specs.Clock.{clock, machine_at};
ghost use Rattle.raw_whole.specs.Kept.{IsWhole};

use crate::gathering::Whole;
use raw_serial::Machine;

/// A machine that came to rest by the clock, after so many cycles, with what is kept of all of them.
#[derive(Clone, Copy)]
pub(crate) struct RestedRun<'m, 's> {
    /// The machine at rest.
    pub(crate) machine: &'m Machine<'s>,
    /// What is kept.
    pub(crate) whole: &'m Whole,
    /// How many cycles there were.
    pub(crate) cycles: u64,
    ghost rests: { machine.now.state ≡ machine_at (clock machine.now.set cycles) },
    ghost keeps: { IsWhole machine.now.set cycles whole.now },
}
