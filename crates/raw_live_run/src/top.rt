//! The top call: all that the program does.
ghost use Rattle.std.specs.Prelude.{◌≡◌, map, string_bytes, IfOk, IfErr};
ghost use Rattle.raw_io.specs.Writing.{Writes};
ghost use Rattle.raw_shell.specs.declared.failure.Failure.TheVariants.{WriteFault};
ghost use Rattle.raw_shell.specs.Seen.{source_seen, sink_seen};
ghost use Rattle.raw_shell.specs.Call.{call};
ghost use Rattle.raw_live_run.specs.Arguments.{command_of};
ghost use Rattle.raw_live_run.specs.Answers.{fixed_text_of, help_text, version_text, answer_of};
ghost use Rattle.raw_live_run.specs.Promises.{Headline, Promises};
ghost use Rattle.raw_live_run.specs.Serving.{IsReady, FedOn, Feeds, Serves, Ended};

use crate::answer::{Answer, as_program_answer};
use crate::arguments::{Command, command_in};
use raw_io::{Sink, Source, put_all};
use raw_live::{Engine, Halt, Runner, Tail, feed_live, intake_of, law_due, law_gots};
use raw_live_head::{Begun, Failure, begin, failure_of};
use raw_live_text::{PIECE, law_heads};
use raw_model::Ending;
use raw_set_text::law_one_answer;
use raw_shell::{FixedText, conclude};
use raw_text::MAX_TEXT;
use raw_workers::{Gate, Parallelism};
use std::alloc::Global;
use std::rt::Clock;
use std::sync::Wait;
use std::thread::Threads;

#[tactic(auto, unfolding(crate::specs::Answers::help_text))]
fn help() -> &'static [u8]
    ensures { result.now ≡ help_text }
{
    b"\
    rawlive: feeds a grid of tiles and switches from input that is still open\n\
    \n\
    rawlive              reads a set, feeds it, and writes what its sinks receive\n\
    rawlive --help       writes this text\n\
    rawlive --version    writes the version\n\
    \n\
    --workers N          the grid is run by N threads, 1 to 64; else by 1 to 4\n\
    \n\
    Standard input has the text of a set (as rawgrid reads it), a line\n\
    \x20   live\n\
    and then lines that each give a source a word, which may come at any time:\n\
    \x20   put NET X Y SIDE W\n\
    After each word the grid runs to rest. What sink P received is handed on to be\n\
    written before the next word is taken, and at the end how the grid came to rest:\n\
    \x20   got P W              P in decimal, W as eight hexadecimal digits\n\
    \x20   rest OUTCOME         done, deadlock, stuck, trapped or limit\n\
    An example:\n\
    \x20   rawlive < examples/two-words.live\n\
    \n\
    status  0 done                            6 the limit of instructions\n\
    \x20       2 refused words or input          7 standard input failed\n\
    \x20       3 deadlock: a cycle of waits      8 standard output failed\n\
    \x20       4 stuck: waits for one that       9 no memory\n\
    \x20         has stopped                    10 input over 33,554,432 bytes\n\
    \x20       5 trapped\n\
    On 2 and 7 to 10 standard error has one line, of a faulty line of input\n\
    \x20   refused line L: KIND\n\
    \n\
    docs/HANDBOOK.md has a lesson, docs/rawlive.1 all kinds of faults.\n"
}

#[tactic(auto, unfolding(crate::specs::Answers::version_text))]
fn version() -> &'static [u8]
    ensures { result.now ≡ version_text }
{
    b"rawlive 0.2.0\n"
}

fn words_of(text: FixedText) -> &'static [u8]
    ensures { result.now ≡ fixed_text_of text }
{
    text.of(help(), version())
}

// What a halt of live input is as an answer.
fn answer_of(lived: Result<Ending, Halt>) -> Answer
    ensures { result ≡ answer_of lived }
{
    match lived {
        Ok(ending) => Ok(ending),
        Err(Halt::Stopped(stop)) => Err(failure_of(stop)),
        Err(Halt::Write) => Err(Failure::WriteFault),
        Err(Halt::Memory) => Err(Failure::Memory),
    }
}

// Feeds the grid of a set from the lines behind `live`.
fn feed_on<R: Threads + Clock + Wait + Sync, S: Source + Send, K: Sink + Send, G: Gate>(
    rt: &R,
    alloc: Global,
    begun: Begun,
    runner: &Runner<'_, G>,
    source: &mut S,
    out: &mut K,
) -> Answer
    requires { IsReady begun }
    ensures { FedOn
        (source_seen S.sight source.old source.new) (sink_seen K.sight out.old out.new)
        begun result }
{
    let Ok(intake) = intake_of(alloc, &begun.set, begun.line) else {
        return Err(Failure::Memory);
    };
    let Ok(engine) = Engine::open(alloc, begun.set) else {
        return Err(Failure::Memory);
    };
    let tail = Tail {
        intake: &intake,
        rest: &begun.rest,
        most: MAX_TEXT - begun.given,
    };
    let lived = feed_live(rt, alloc, tail, engine, runner, source, out);
    answer_of(lived)
}

// Reads the head of live input, and then feeds the grid of its set.
fn feed<R: Threads + Clock + Wait + Sync, S: Source + Send, K: Sink + Send, G: Gate>(
    rt: &R,
    alloc: Global,
    runner: &Runner<'_, G>,
    source: &mut S,
    out: &mut K,
) -> Answer
    ensures { Feeds
        (source_seen S.sight source.old source.new) (sink_seen K.sight out.old out.new) result }
{
    match begin(alloc, b"live", PIECE, source) {
        Ok(begun) => feed_on(rt, alloc, begun, runner, source, out),
        Err(failure) => Err(failure),
    }
}

// Writes a fixed text.
fn show<K: Sink>(text: FixedText, out: &mut K) -> Answer
    ensures writes { Writes (K.sight out.old) (K.sight out.new) (fixed_text_of text) result }
    ensures done { IfOk result (λ ending. ending ≡ Ending.Done) }
    ensures failed { IfErr result (λ failure. failure ≡ WriteFault) }
{
    match put_all(out, words_of(text)) {
        Ok(()) => Ok(Ending::Done),
        Err(_) => Err(Failure::WriteFault),
    }
}

// Does what the words say.
fn serve<R: Threads + Clock + Wait + Sync, S: Source + Send, K: Sink + Send, G: Gate>(
    rt: &R,
    alloc: Global,
    command: Option<Command>,
    source: &mut S,
    out: &mut K,
    gate: &G,
) -> Answer
    ensures { Serves command
        (source_seen S.sight source.old source.new) (sink_seen K.sight out.old out.new) result }
{
    match command {
        None => Err(Failure::Use),
        Some(Command::Fixed(text)) => show(text, out),
        Some(Command::Feed { workers }) => {
            let parallelism = Parallelism::of(workers);
            feed(rt, alloc, &Runner { parallelism, gate }, source, out)
        }
    }
}

/// Does all that the program does. It reads a set from `source` and feeds it the words of the lines behind `live`
/// as they come. It writes what its sinks receive to `out`, each word when it is there, and in the end how the grid
/// came to rest. On a failure `err` has one line. It answers the status.
///
/// The reader, the grid and the writer run beside each other, in threads where these can be made. What is said here is
/// said of a call that returns.
pub fn live_main<
    R: Threads + Clock + Wait + Sync,
    S: Source + Send,
    K: Sink + Send,
    E: Sink,
    G: Gate,
>(rt: &R, alloc: Global, words: &[String], source: &mut S, out: &mut K, err: &mut E, gate: &G) -> u8
    // After live input that was fed to its end: which words came out, and how the grid came to rest.
    ensures headline { Headline (call (command_of (map string_bytes words.now))
        S.sight source.old source.new K.sight out.old out.new E.sight err.old err.new result) }

    // All else: what was written whatever the status, what was read, what each status means, and that valid input is served.
    ensures promises { Promises (call (command_of (map string_bytes words.now))
        S.sight source.old source.new K.sight out.old out.new E.sight err.old err.new result) }
{
    law_heads();
    law_due();
    law_gots();
    law_one_answer();
    carry_out(rt, alloc, words, source, out, err, gate)
}

// Does what the words say, and says on `err` how it ended.
fn carry_out<R: Threads + Clock + Wait + Sync, S: Source + Send, K: Sink + Send, E: Sink, G: Gate>(
    rt: &R,
    alloc: Global,
    words: &[String],
    source: &mut S,
    out: &mut K,
    err: &mut E,
    gate: &G,
) -> u8
    ensures { Ended (call (command_of (map string_bytes words.now))
        S.sight source.old source.new K.sight out.old out.new E.sight err.old err.new result) }
{
    let answer = as_program_answer(serve(rt, alloc, command_in(words), source, out, gate));
    conclude(err, answer)
}
