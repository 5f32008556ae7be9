//! The command `debug`: the script behind a set.
ghost use Rattle.std.specs.Prelude.{◌≤◌, length};
ghost use Rattle.raw_text.specs.declared.limits.TheConstants.{MAX_TEXT};
ghost use Rattle.raw_shell.specs.Seen.{sink_seen};
ghost use Rattle.raw_owed.specs.Obeyed.{Obeyed};
ghost use Rattle.raw_command_line.specs.declared.arguments.ReadingCommand.TheVariants.{Debug};
ghost use Rattle.raw_command_line.specs.declared.arguments.Command.TheVariants.{Reads};

use raw_debug::{DebugRefusal, debug};
use raw_inputs::{Failure, InputFlaw, LineKind, Refusal, script_in};
use raw_io::Sink;
use raw_lines::TextLabels;
use raw_owed::Answer;
use raw_shell::CommandEnding;
use std::alloc::Global;

/// Runs the script behind the set in an input, and puts what it shows.
pub(crate) fn run_script<K: Sink>(alloc: Global, input: Vec<u8>, out: &mut K) -> Answer
    requires { length input.items ≤ MAX_TEXT }
    ensures { Obeyed (Reads Debug) input.items
        (sink_seen K.sight out.old out.new) result }
{
    let scripted = match script_in(alloc, input) {
        Ok(scripted) => scripted,
        Err(failure) => return Err(failure),
    };
    let mark = scripted.from - 1;
    let Ok(labels) = TextLabels::new(alloc, &scripted.text, mark, &scripted.set.topo) else {
        return Err(Failure::Memory);
    };
    match debug(
        alloc,
        &labels,
        &scripted.set,
        &scripted.text,
        scripted.from,
        out,
    ) {
        Ok(()) => Ok(CommandEnding::Done),
        Err(DebugRefusal::BadCommand { line }) => {
            Err(Failure::Refused(InputFlaw::At(Refusal::Line(line, LineKind::BadCommand))))
        }
        Err(DebugRefusal::PastEnd { line }) => Err(Failure::Refused(InputFlaw::PastEnd(line))),
        Err(DebugRefusal::Fault) => Err(Failure::WriteFault),
        Err(DebugRefusal::Memory) => Err(Failure::Memory),
    }
}
