//! The command `steady`: whether the time of a set is the same with any words in its sources.
ghost use Rattle.std.specs.Prelude.{◌≡◌, ℕ, List};
ghost use Rattle.raw_inputs.specs.Inputs.{whole, Means};
ghost use Rattle.raw_owed.specs.Proved.{steady_ending};
ghost use Rattle.raw_shell.specs.Seen.{sink_seen};
ghost use Rattle.raw_owed.specs.Obeyed.{Obeyed};

use raw_command_line::{Command, ReadingCommand, SetForm};
use raw_inputs::Failure;
use raw_io::Sink;
use raw_model::Set;
use raw_owed::{Answer, ended};
use raw_shell::CommandEnding;
use raw_steadiness::{Steadiness, steady, write_steadiness};
use std::alloc::Global;

// How the command ends with what is said.
fn ending_with(steadiness: Steadiness) -> CommandEnding
    ensures { result ≡ steady_ending steadiness }
{
    match steadiness {
        Steadiness::Steady(_) => CommandEnding::Done,
        _ => CommandEnding::Unproved,
    }
}

/// Runs a set with terms, and puts the line that says whether its clock is the same with all words.
pub fn put_steadiness<K: Sink>(alloc: Global, set: &Set, form: SetForm, out: &mut K) -> Answer
    ensures { (input : List ℕ) → Means (whole form) input set.now →
        Obeyed (Command.Reads (ReadingCommand.Steady form)) input
        (sink_seen K.sight out.old out.new) result }
{
    let Ok(steadiness) = steady(alloc, set) else {
        return Err(Failure::Memory);
    };
    ended(write_steadiness(steadiness, out), ending_with(steadiness))
}
