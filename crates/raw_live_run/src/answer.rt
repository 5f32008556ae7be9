//! The answers of the program.
ghost use Rattle.std.specs.Prelude.{◌≡◌};
ghost use Rattle.raw_live_run.specs.Answers.{as_program_answer};

use raw_live_head::{Failure, LineFlaw};
use raw_model::Ending;
use raw_shell::CommandEnding;

/// How a call of the program ended: how the grid came to rest, `Done` where a fixed text was written, or why not.
pub type Answer = Result<Ending, Failure>;

/// The answer as one of any program.
pub fn as_program_answer(answer: Answer) -> raw_shell::Answer<LineFlaw>
    ensures { result ≡ as_program_answer answer }
{
    match answer {
        Ok(ending) => Ok(CommandEnding::Rested(ending)),
        Err(failure) => Err(failure),
    }
}
