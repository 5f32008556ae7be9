//! The command `lines`: which line of a text gives each instruction of its programs.
ghost use Rattle.std.specs.Prelude.{◌≤◌, length};
ghost use Rattle.raw_text.specs.declared.limits.TheConstants.{MAX_TEXT};
ghost use Rattle.raw_shell.specs.Seen.{sink_seen};
ghost use Rattle.raw_owed.specs.Obeyed.{Obeyed};
ghost use Rattle.raw_command_line.specs.declared.arguments.ReadingCommand.TheVariants.{Lines};
ghost use Rattle.raw_command_line.specs.declared.arguments.Command.TheVariants.{Reads};

use raw_inputs::{Failure, text_in};
use raw_io::Sink;
use raw_lines::list_lines;
use raw_owed::{Answer, put_output};
use std::alloc::Global;

/// Reads a text, and puts which line gives each instruction of the programs of its set, and which labels stand there.
pub(crate) fn put_lines<K: Sink>(alloc: Global, input: Vec<u8>, out: &mut K) -> Answer
    requires { length input.items ≤ MAX_TEXT }
    ensures { Obeyed (Reads Lines) input.items
        (sink_seen K.sight out.old out.new) result }
{
    let read = match text_in(alloc, input) {
        Ok(read) => read,
        Err(failure) => return Err(failure),
    };
    match list_lines(alloc, &read.text, read.text.line_count(), &read.set.topo) {
        Ok(lines) => put_output(&lines, out),
        Err(_) => Err(Failure::Memory),
    }
}
