//! The top call: the debugger over live input.
ghost use Rattle.raw_shell.specs.Seen.{seen, source_seen, sink_seen};
ghost use Rattle.raw_debug_live.specs.Serving.{answer_of, Serves, Ended};
ghost use Rattle.raw_debug_live.specs.Promises.{Promises};
ghost use Rattle.std.specs.Prelude.{◌≡◌};

use crate::answer::Answer;
use crate::answering::{Halt, answer_lines};
use crate::labels::labels_of;
use raw_debug::Debugger;
use raw_io::{Sink, Source};
use raw_live_head::{Failure, begin};
use raw_shell::{CommandEnding, conclude};
use raw_text::MAX_TEXT;
use std::alloc::Global;

// How the call ends whose lines were read so far.
fn answer_of(answered: Result<(), Halt>) -> Answer
    ensures { result ≡ answer_of answered }
{
    match answered {
        Ok(()) => Ok(CommandEnding::Done),
        Err(Halt::Read) => Err(Failure::ReadFault),
        Err(Halt::Write) => Err(Failure::WriteFault),
        Err(Halt::TooLong) => Err(Failure::TooLong),
    }
}

// Reads the set, and answers the lines behind it.
fn serve<S: Source, K: Sink>(alloc: Global, source: &mut S, out: &mut K) -> Answer
    ensures { Serves (source_seen S.sight source.old source.new) (sink_seen K.sight out.old out.new) result }
{
    let begun = match begin(alloc, b"script", 1, source) {
        Ok(begun) => begun,
        Err(failure) => return Err(failure),
    };
    let Ok(mut debugger) = Debugger::open(alloc, &begun.set) else {
        return Err(Failure::Memory);
    };
    let Ok(labels) = labels_of(alloc, &begun) else {
        return Err(Failure::Memory);
    };
    let most = MAX_TEXT - begun.given;
    let answered = answer_lines(&mut debugger, &labels, most, source, out);
    answer_of(answered)
}

// Reads the set, answers the lines behind it, and says on `err` how that ended.
fn answer_live<S: Source, K: Sink, E: Sink>(
    alloc: Global,
    source: &mut S,
    out: &mut K,
    err: &mut E,
) -> u8
    ensures { Ended (source_seen S.sight source.old source.new) (sink_seen K.sight out.old out.new)
        (sink_seen E.sight err.old err.new) result }
{
    let answer = serve(alloc, source, out);
    conclude(err, answer)
}

/// Reads a set and the line `script` from a source, and then answers the lines behind it on `out`, each when it is whole and
/// before a byte behind it is taken. On a failure `err` has one line. It answers the status of the program.
///
/// All memory is taken before the first byte behind the line `script` is.
pub fn live_debug<S: Source, K: Sink, E: Sink>(
    alloc: Global,
    source: &mut S,
    out: &mut K,
    err: &mut E,
) -> u8
    ensures { Promises (seen S.sight source.old source.new K.sight out.old out.new E.sight err.old err.new) result }
{
    answer_live(alloc, source, out, err)
}
