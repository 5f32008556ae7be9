//! Why a command was not done.
ghost use Rattle.std.specs.Prelude.{◌≡◌, ℕ, List};
ghost use Rattle.raw_io.specs.Writing.{Writes};
ghost use Rattle.raw_shell.specs.Answers.{failure_status};

use raw_io::{Failed, Sink};

/// What is wrong with an input. A program says which flaws there are, and the line that tells each.
pub trait Flaw: Copy {
    /// The line on `err`: where the input is refused, and why.
    ghost line: { Self → List ℕ };

    /// Puts the line.
    fn put_line<E: Sink>(self, err: &mut E) -> Result<(), Failed>
        ensures { Writes (E.sight err.old) (E.sight err.new) (line self) result };
}

/// Why a command was not done.
#[derive(Clone, Copy, PartialEq, Eq)]
pub enum Failure<F> {
    /// The words are no command.
    Use,
    /// The input is refused, for this flaw.
    Refused(F),
    /// A call of the source failed.
    ReadFault,
    /// A call of `out` failed.
    WriteFault,
    /// There was no memory.
    Memory,
    /// The source gave more bytes than are read.
    TooLong,
}

impl<F: Copy> Failure<F> {
    /// The status with which the program ends.
    pub fn status(self) -> u8
        ensures { result ≡ failure_status self }
    {
        match self {
            Failure::Use | Failure::Refused(_) => 2,
            Failure::ReadFault => 7,
            Failure::WriteFault => 8,
            Failure::Memory => 9,
            Failure::TooLong => 10,
        }
    }
}
