//! How a machine came to rest.
ghost use Rattle.std.specs.Prelude.{◌≡◌, ◌≤◌, ℕ, Option, length};
ghost use Rattle.raw_model.specs.Outcomes.{ending_of};
ghost use Rattle.raw_model.specs.StateTexts.{outcome_word};
ghost use Rattle.raw_outcome.specs.Told.{told, word_of};

use raw_grid::ProcId;
use raw_model::Ending;

/// How a machine came to rest: the first of these that applies.
#[derive(Clone, Copy, PartialEq, Eq)]
pub enum Outcome {
    /// Every tile and every switch is halted.
    Done,
    /// Processors wait for one another in a cycle. Of all cycles this is the one with the least
    /// processor, `least`; `length` stand on it, each waiting for the next and the last for `least`.
    Deadlock { least: ProcId, length: u32 },
    /// A processor is trapped; `p` is the least such number.
    Trapped { p: ProcId },
    /// A tile or switch that is neither halted nor trapped has executed as many instructions as the
    /// set's limit; `p` is the least such number.
    Limit { p: ProcId },
    /// A tile or switch is not halted; `p` is the least such number. It waits, in the end for a
    /// processor that is stopped.
    Stuck { p: ProcId },
}

impl Outcome {
    /// Which of the five it is, whatever processors it names.
    pub fn ending(self) -> Ending
        ensures { (next : ℕ → Option ℕ) → result ≡ ending_of (told next self) }
    {
        match self {
            Outcome::Done => Ending::Done,
            Outcome::Deadlock { .. } => Ending::Deadlock,
            Outcome::Trapped { .. } => Ending::Trapped,
            Outcome::Limit { .. } => Ending::Limit,
            Outcome::Stuck { .. } => Ending::Stuck,
        }
    }

    /// Its one word, as every text has it.
    pub fn word(self) -> &'static [u8]
        ensures word { result.now ≡ word_of self }
        ensures outcome { (next : ℕ → Option ℕ) → result.now ≡ outcome_word (told next self) }
        ensures short { length result.now ≤ 8 }
    {
        self.ending().word()
    }
}

// What is looked for in the local states of processors.
#[derive(Clone, Copy)]
pub(crate) enum Test {
    Trapped,
    Limit,
    Unhalted,
}
