//! The program: each command over sinks that gather what is put, and the status once all is handed on.
ghost use Rattle.std.specs.Prelude.{◌≡◌, true, false, [], Option, map, string_bytes};
ghost use Rattle.raw_io.specs.Sights.{Sight};
ghost use Rattle.raw_shell.specs.Seen.{SourceSeen, seen};
ghost use Rattle.raw_shell.specs.Gathering.{gathering, HoldsNothing, Tells};
ghost use Rattle.raw_shell.specs.Gathered.{behind, told, IsFirst};
ghost use Rattle.raw_shell.specs.Call.{call};
ghost use Rattle.raw_debug_live.specs.Words.{asks_live};
ghost use Rattle.raw_debug_live.specs.Promises as live;
ghost use Rattle.raw_command_line.specs.declared.arguments.Command.{Command};
ghost use Rattle.raw_command_line.specs.Arguments.{command_of};
ghost use Rattle.raw_commands.specs.Ended.{Answered, Ended};
ghost use Rattle.raw_commands.specs.Program.{has_put, IsHandedOn, SaysWriteFault};
ghost use Rattle.raw_commands.specs.Promises.{Headline, Promises};

use crate::top::dispatch;
use raw_command_line::command_in;
use raw_debug_live::{asks_live, live_debug};
use raw_inputs::{Failure, InputFlaw, law_one_input};
use raw_io::{Sink, Source};
use raw_owed::{Answer, law_one_flow};
use raw_shell::{Gathered, conclude_gathered};
use raw_workers::Gate;
use std::alloc::Global;
use std::rt::Clock;
use std::thread::Threads;

// Whether a command with this answer has put its output whole, so that what is gathered of it is to be handed on.
fn has_put(answer: Answer) -> bool
    ensures { result ≡ has_put answer }
{
    match answer {
        Ok(_) | Err(Failure::Refused(InputFlaw::PastEnd(_))) => true,
        Err(_) => false,
    }
}

// Hands on what was put: where that fails the answer is a write fault.
fn hand_on<K: Sink>(answer: Answer, out: &mut Gathered<K>) -> Answer
    ensures { (command : Option Command) (source : SourceSeen) (start : Sight) → HoldsNothing start →
        Answered command source (record { old = gathering start []; new = told K.sight out.old }) answer →
        IsHandedOn command source (record { old = start; new = behind K.sight out.new }) result }
{
    if !has_put(answer) {
        return answer;
    }
    match out.flush() {
        Ok(()) => answer,
        Err(_) => Err(Failure::WriteFault),
    }
}

// Carries out the command, hands on what it has put, and says on `err` how it ended.
fn carry_on<R: Threads + Clock + Sync, S: Source, K: Sink, E: Sink, G: Gate>(
    rt: &R,
    alloc: Global,
    words: &[String],
    source: &mut S,
    out: &mut Gathered<K>,
    err: &mut Gathered<E>,
    gate: &G,
) -> u8
    requires out { IsFirst K.sight out.old }
    requires err { IsFirst E.sight err.old }
    ensures ended { (result ≡ 8 → Tells (behind K.sight out.old)) → Ended (call (command_of (map string_bytes words.now))
        S.sight source.old source.new (behind K.sight) out.old out.new (behind E.sight) err.old err.new result) }
    ensures fault { result ≡ 8 → SaysWriteFault (call (command_of (map string_bytes words.now))
        S.sight source.old source.new (behind K.sight) out.old out.new (behind E.sight) err.old err.new result) }
{
    let answer = dispatch(rt, alloc, command_in(words), source, out, gate);
    let answer = hand_on(answer, out);
    conclude_gathered(err, answer)
}

/// Carries out the command that the words are, as `raw_main` does, with an `out` and an `err` that gather what is put, and
/// hands it on before it answers: the status is that of the program. What the contract says of `out` and `err` it says of
/// the sinks behind these, on which nothing was put before.
///
/// Where the last of the output cannot be handed on the status is 8. What was not handed on then is still gathered. The
/// answers of `debug --live` are put on the sinks behind at once.
pub fn raw_program<R: Threads + Clock + Sync, S: Source, K: Sink, E: Sink, G: Gate>(
    rt: &R,
    alloc: Global,
    words: &[String],
    source: &mut S,
    out: &mut Gathered<K>,
    err: &mut Gathered<E>,
    gate: &G,
) -> u8
    requires out { IsFirst K.sight out.old }
    requires err { IsFirst E.sight err.old }
    // After `run` and the status of an outcome, the sink behind `out` has the report of a lawful order of steps.
    ensures headline { Headline (call (command_of (map string_bytes words.now))
        S.sight source.old source.new (behind K.sight) out.old out.new (behind E.sight) err.old err.new result) }

    // All else that is promised of a call of a command; of status 8 only where the sink behind `out` tells its bytes.
    ensures promises { asks_live (map string_bytes words.now) ≡ false → (result ≡ 8 → Tells (behind K.sight out.old)) → Promises (call (command_of (map string_bytes words.now))
        S.sight source.old source.new (behind K.sight) out.old out.new (behind E.sight) err.old err.new result) }

    // Of any sink status 8 says that a call of it failed, and so does the line on `err`.
    ensures fault { result ≡ 8 → SaysWriteFault (call (command_of (map string_bytes words.now))
        S.sight source.old source.new (behind K.sight) out.old out.new (behind E.sight) err.old err.new result) }

    // After the words `debug --live` the answers to the lines stand on the sink behind `out`, line by line, in their order.
    ensures live { asks_live (map string_bytes words.now) ≡ true → live.Promises (seen
        S.sight source.old source.new (behind K.sight) out.old out.new (behind E.sight) err.old err.new) result }
{
    law_one_input();
    law_one_flow();
    if asks_live(words) {
        // What is gathered would come too late.
        live_debug(alloc, source, &mut out.behind, &mut err.behind)
    } else {
        carry_on(rt, alloc, words, source, out, err, gate)
    }
}
