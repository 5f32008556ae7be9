//! What the text of a clock is written of.
ghost use Rattle.std.specs.Prelude.{◌≡◌};
ghost use Rattle.raw_clock.specs.Clock.{machine_at, clock, clock_turns, program_steps};
ghost use Rattle.raw_clock.specs.Tally.{IsTally};
ghost use Rattle.raw_clock.specs.Values.{HaveSent};

use raw_clock::Cycles;
use raw_serial::Machine;

/// A machine that came to rest by the clock of its set, with what was counted of all cycles.
#[derive(Clone, Copy)]
pub(crate) struct CountedRun<'m, 's> {
    /// The machine at rest.
    pub(crate) machine: &'m Machine<'s>,
    /// What was counted.
    pub(crate) counts: &'m Cycles,
    ghost steps: { counts.now.steps ≡ program_steps machine.now.set counts.now.cycles },
    ghost tally: { IsTally machine.now.set counts.now.cycles counts.now.tally },
    ghost passed: { HaveSent machine.now.set (clock_turns machine.now.set counts.now.cycles) counts.now.passed.items },
    ghost state: { machine.now.state ≡ machine_at (clock machine.now.set counts.now.cycles) },
}
