//! How a grid came to rest, in one word.
ghost use Rattle.std.specs.Prelude.{◌≡◌, ◌≤◌, length};
ghost use Rattle.raw_model.specs.Texts.{ending_word};

/// How a grid came to rest, whatever processors its outcome names.
#[derive(Clone, Copy, PartialEq, Eq)]
pub enum Ending {
    /// Every tile and every switch is halted.
    Done,
    /// Processors wait for one another in a cycle.
    Deadlock,
    /// A tile or a switch waits in the end for a processor that is stopped.
    Stuck,
    /// A processor is trapped.
    Trapped,
    /// A processor has executed as many instructions as the limit of its set.
    Limit,
}

impl Ending {
    /// Its word, as every text has it.
    pub fn word(self) -> &'static [u8]
        ensures word { result.now ≡ ending_word self }
        ensures short { length result.now ≤ 8 }
    {
        match self {
            Ending::Done => b"done",
            Ending::Deadlock => b"deadlock",
            Ending::Stuck => b"stuck",
            Ending::Trapped => b"trapped",
            Ending::Limit => b"limit",
        }
    }
}
