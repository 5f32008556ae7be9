//! How a command ended that was done.
ghost use Rattle.std.specs.Prelude.{◌≡◌};
ghost use Rattle.raw_shell.specs.Answers.{ending_status};

use raw_model::Ending;

/// How a command ended that was done. In each case the output was written.
#[derive(Clone, Copy, PartialEq, Eq)]
pub enum CommandEnding {
    /// There is nothing else to say.
    Done,
    /// A grid was run, and came to rest so.
    Rested(Ending),
    /// The steps that were checked are not lawful.
    Unlawful,
    /// The claim is not proved.
    Unproved,
    /// Words are told under which the claim is false.
    Refuted,
}

impl CommandEnding {
    /// The status with which the program ends.
    pub fn status(self) -> u8
        ensures { result ≡ ending_status self }
    {
        match self {
            CommandEnding::Done | CommandEnding::Rested(Ending::Done) => 0,
            CommandEnding::Rested(Ending::Deadlock) => 3,
            CommandEnding::Rested(Ending::Stuck) => 4,
            CommandEnding::Rested(Ending::Trapped) => 5,
            CommandEnding::Rested(Ending::Limit) => 6,
            CommandEnding::Unlawful => 11,
            CommandEnding::Unproved => 12,
            CommandEnding::Refuted => 13,
        }
    }
}
