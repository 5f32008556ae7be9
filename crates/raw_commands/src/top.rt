//! The top call: everything that the program does.
ghost use Rattle.std.specs.Prelude.{◌≡◌, ◌≤◌, true, false, map, string_bytes, IfOk, IfErr, length};
ghost use Rattle.raw_io.specs.Reading.{TakesFront};
ghost use Rattle.raw_debug_live.specs.Words.{asks_live};
ghost use Rattle.raw_debug_live.specs.Promises as live;
ghost use Rattle.raw_command_line.specs.Arguments.{command_of};
ghost use Rattle.raw_shell.specs.Seen.{limit, seen, source_seen, sink_seen, ReadsWhole};
ghost use Rattle.raw_shell.specs.Call.{call};
ghost use Rattle.raw_commands.specs.Ended.{Answered, Performed, Ended, NotRead};
ghost use Rattle.raw_commands.specs.Promises.{Headline, Promises};
ghost use Rattle.raw_command_line.specs.declared.arguments.Command.TheVariants.{Reads};

use crate::commands::{obey_alone, run_command};
use raw_command_line::{Command, ReadingCommand, command_in};
use raw_debug_live::{asks_live, live_debug};
use raw_inputs::{Failure, law_one_input};
use raw_io::{ReadRefusal, Sink, Source, read_all};
use raw_owed::{Answer, law_one_flow};
use raw_shell::conclude;
use raw_text::MAX_TEXT;
use raw_workers::Gate;
use std::alloc::Global;
use std::rt::Clock;
use std::thread::Threads;

/// Carries out the command that the words are: its input comes from `source`, its output goes to
/// `out`, and a line goes to `err` where it was not done. Answers the status of the program.
///
/// The words are those after the program's name. Words that are no command touch neither `source`
/// nor `out`, and a command that reads nothing does not touch `source`. After status 2, 7, 9 or 10
/// nothing was put on `out`, but what the lines of a script show before the one that goes past the end; after status 8 a
/// front of the output was, and not all of it. Nothing is put on `err` where the
/// command was done.
///
/// A grid is run by workers in threads, which tell the gate of their steps; it has no meaning for what is done.
pub fn raw_main<R: Threads + Clock + Sync, S: Source, K: Sink, E: Sink, G: Gate>(
    rt: &R,
    alloc: Global,
    words: &[String],
    source: &mut S,
    out: &mut K,
    err: &mut E,
    gate: &G,
) -> u8
    // After `run` and the status of an outcome, `out` has the report of a lawful order of steps.
    ensures headline { Headline (call (command_of (map string_bytes words.now))
        S.sight source.old source.new K.sight out.old out.new E.sight err.old err.new result) }

    // All else: what each other command writes, what each status means, and that lawful words and a valid input are served.
    ensures promises { asks_live (map string_bytes words.now) ≡ false → Promises (call (command_of (map string_bytes words.now))
        S.sight source.old source.new K.sight out.old out.new E.sight err.old err.new result) }

    // After the words `debug --live` the answers to the lines stand on `out`, line by line, in the order of the lines.
    ensures live { asks_live (map string_bytes words.now) ≡ true → live.Promises (seen
        S.sight source.old source.new K.sight out.old out.new E.sight err.old err.new) result }
{
    law_one_input();
    law_one_flow();
    if asks_live(words) {
        live_debug(alloc, source, out, err)
    } else {
        carry_out(rt, alloc, words, source, out, err, gate)
    }
}

// Carries out the command, and says on `err` how it ended.
fn carry_out<R: Threads + Clock + Sync, S: Source, K: Sink, E: Sink, G: Gate>(
    rt: &R,
    alloc: Global,
    words: &[String],
    source: &mut S,
    out: &mut K,
    err: &mut E,
    gate: &G,
) -> u8
    ensures { Ended (call (command_of (map string_bytes words.now))
        S.sight source.old source.new K.sight out.old out.new E.sight err.old err.new result) }
{
    let answer = dispatch(rt, alloc, command_in(words), source, out, gate);
    conclude(err, answer)
}

pub(crate) fn dispatch<R: Threads + Clock + Sync, S: Source, K: Sink, G: Gate>(
    rt: &R,
    alloc: Global,
    command: Option<Command>,
    source: &mut S,
    out: &mut K,
    gate: &G,
) -> Answer
    ensures { Answered command
        (source_seen S.sight source.old source.new)
        (sink_seen K.sight out.old out.new)
        result }
{
    match command {
        None => Err(Failure::Use),
        Some(command) => dispatch_command(rt, alloc, command, source, out, gate),
    }
}

fn dispatch_command<R: Threads + Clock + Sync, S: Source, K: Sink, G: Gate>(
    rt: &R,
    alloc: Global,
    command: Command,
    source: &mut S,
    out: &mut K,
    gate: &G,
) -> Answer
    ensures { Performed command
        (source_seen S.sight source.old source.new)
        (sink_seen K.sight out.old out.new)
        result }
{
    match command {
        Command::Alone(command) => obey_alone(rt, alloc, command, out, gate),
        Command::Reads(command) => with_input(rt, alloc, command, source, out, gate),
    }
}

fn with_input<R: Threads + Clock + Sync, S: Source, K: Sink, G: Gate>(
    rt: &R,
    alloc: Global,
    command: ReadingCommand,
    source: &mut S,
    out: &mut K,
    gate: &G,
) -> Answer
    ensures { Performed (Reads command)
        (source_seen S.sight source.old source.new)
        (sink_seen K.sight out.old out.new)
        result }
{
    match input_of(alloc, source) {
        Ok(input) => run_command(rt, alloc, command, input, out, gate),
        Err(failure) => Err(failure),
    }
}

// The whole input, or why it was not read.
fn input_of<S: Source>(alloc: Global, source: &mut S) -> Result<Vec<u8>, Failure>
    ensures short { IfOk result (λ input. length input.items ≤ limit) }
    ensures whole { IfOk result (λ input.
        ReadsWhole (source_seen S.sight source.old source.new) input.items) }
    ensures front { TakesFront (S.sight source.old) (S.sight source.new) }
    ensures cause { IfErr result
        (NotRead (source_seen S.sight source.old source.new)) }
{
    match read_all(alloc, source, MAX_TEXT as u64) {
        Ok(input) => Ok(input),
        Err(ReadRefusal::Fault) => Err(Failure::ReadFault),
        Err(ReadRefusal::TooLong) => Err(Failure::TooLong),
        Err(ReadRefusal::Memory) => Err(Failure::Memory),
    }
}
