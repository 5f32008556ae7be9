//! How a command ends that has put its output.
ghost use Rattle.std.specs.Prelude.{ℕ, List};
ghost use Rattle.raw_io.specs.Writing.{Writes};
ghost use Rattle.raw_command_line.specs.declared.arguments.Command.{Command};
ghost use Rattle.raw_owed.specs.Owed.{Owes};
ghost use Rattle.raw_shell.specs.Seen.{SinkSeen, sink_seen};
ghost use Rattle.raw_owed.specs.Obeyed.{Obeyed};

use crate::answer::Answer;
use raw_inputs::Failure;
use raw_io::{Failed, Sink, put_all};
use raw_shell::CommandEnding;

/// The answer of a command whose output was put, or a front of it, where it ends so once all is put.
pub fn ended(put: Result<(), Failed>, ending: CommandEnding) -> Answer
    ensures { (command : Command) (input text : List ℕ) (out : SinkSeen) → Writes out.old out.new text put →
        Owes command input text ending → Obeyed command input out result }
{
    match put {
        Ok(()) => Ok(ending),
        Err(_) => Err(Failure::WriteFault),
    }
}

/// The output of a command that is done once it is put.
pub fn put_output<K: Sink>(output: &[u8], out: &mut K) -> Answer
    ensures { (command : Command) (input : List ℕ) → Owes command input output.now CommandEnding.Done →
        Obeyed command input (sink_seen K.sight out.old out.new) result }
{
    ended(put_all(out, output), CommandEnding::Done)
}
