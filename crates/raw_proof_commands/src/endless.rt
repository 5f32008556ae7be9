//! The command `flow --schedule --endless`: a set that takes rows of a stream as long as it is fed with them.
ghost use Rattle.std.specs.Prelude.{◌≤◌, length};
ghost use Rattle.raw_shell.specs.Seen.{sink_seen};
ghost use Rattle.raw_owed.specs.Obeyed.{Obeyed};
ghost use Rattle.raw_command_line.specs.declared.arguments.FlowSet.TheVariants.{Endless};
ghost use Rattle.raw_command_line.specs.declared.arguments.ReadingCommand.TheVariants.{Flow};
ghost use Rattle.raw_command_line.specs.declared.arguments.Command.TheVariants.{Reads};

use raw_inputs::{Failure, stream_in};
use raw_io::Sink;
use raw_owed::{Answer, ended, put_output};
use raw_set_text::list_set;
use raw_shell::CommandEnding;
use raw_stream_choice::choose_endless;
use raw_text::MAX_TEXT;
use raw_verdict::write_no_cut;
use std::alloc::Global;

/// Puts the listing of a set for the stream in an input that is proved to meet it row by row, or says that none is.
pub fn put_endless<K: Sink>(alloc: Global, input: Vec<u8>, out: &mut K) -> Answer
    requires { length input.items ≤ MAX_TEXT }
    ensures { Obeyed (Reads (Flow Endless)) input.items
        (sink_seen K.sight out.old out.new) result }
{
    let read = match stream_in(alloc, input) {
        Ok(read) => read,
        Err(failure) => return Err(failure),
    };
    let set = match choose_endless(alloc, &read.stream) {
        Ok(Some(set)) => set,
        Ok(None) => return ended(write_no_cut(out), CommandEnding::Unproved),
        Err(_) => return Err(Failure::Memory),
    };
    match list_set(alloc, &set) {
        Ok(listing) => put_output(&listing, out),
        Err(_) => Err(Failure::Memory),
    }
}
