//! Live input behind its head: two queues, the three threads between them, and the last line.
//!
//! The claims over the three are made when the queues are closed, since before that no contract compares what was put
//! with what was taken.
ghost use Rattle.std.specs.Prelude.{◌≡◌};
ghost use Rattle.raw_serial.specs.Taken.{made_of};
ghost use Rattle.raw_model.specs.Outcomes.{outcome, ending_of};
ghost use Rattle.raw_live.specs.Engine.{AreAtRest};
ghost use Rattle.raw_live.specs.Running.{Starts};
ghost use Rattle.raw_live.specs.Judging.{IsIntakeOf};
ghost use Rattle.raw_live.specs.Joining.{halt_of, Joined, RestsWhereEnded, Finished};
ghost use Rattle.raw_live.specs.Lives.{Lives};
ghost use Rattle.raw_live.specs.Meeting.{IsFresh};

use crate::channel::Channel;
use crate::channels::Channels;
use crate::ending::rest_line;
use crate::engine::{Engine, Runner};
use crate::fed::Fed;
use crate::tail::Tail;
use crate::together::{Answers, Ends, run_beside};
use crate::writer::Finish;
use raw_io::{Failed, Sink, Source};
use raw_live_text::Stop;
use raw_model::Ending;
use raw_outcome::outcome;
use raw_queue::{Receiver, Sender};
use raw_serial::Machine;
use raw_state_text::put_line;
use raw_workers::Gate;
use std::alloc::Global;
use std::rt::Clock;
use std::sync::Wait;
use std::thread::Threads;

/// Why live input was not fed to its end, or not all of its output was written.
#[derive(Clone, Copy, PartialEq, Eq)]
pub enum Halt {
    /// The reading stopped for this cause, which is not want of memory.
    Stopped(Stop),
    /// A call of the sink failed.
    Write,
    /// Want of memory.
    Memory,
}

// Why not all was done, by what the three answered: want of memory first, then what the reader met, then the sink.
fn halt_of(answers: Answers) -> Option<Halt>
    ensures { result ≡ halt_of answers.read answers.ran answers.wrote }
{
    if answers.ran != Ok(Finish::Ended) || answers.wrote == Ok(Finish::HungUp) {
        return Some(Halt::Memory);
    }
    match answers.read {
        Err(Stop::Memory) => Some(Halt::Memory),
        Err(stop) => Some(Halt::Stopped(stop)),
        Ok(()) => match answers.wrote {
            Err(Failed) => Some(Halt::Write),
            Ok(_) => None,
        },
    }
}

// How the grid of a machine at rest ended.
fn ending_at_rest(engine: Engine) -> Ending
    requires { AreAtRest engine.set engine.parts }
    ensures { result ≡ ending_of (outcome engine.set (made_of engine.set engine.parts).state) }
{
    let Engine {
        set,
        parts,
        sent: _,
    } = engine;
    let machine = Machine::from_parts(&set, parts);
    outcome(&machine).ending()
}

// Runs the three, and then closes the queues.
fn run_and_close<R: Threads + Clock + Wait + Sync, S: Source + Send, K: Sink + Send, G: Gate>(
    rt: &R,
    alloc: Global,
    tail: Tail<'_>,
    channels: Channels,
    engine: &mut Engine,
    runner: &Runner<'_, G>,
    source: &mut S,
    out: &mut K,
) -> Answers
    requires words_in { IsFresh channels.words_in }
    requires words_out { IsFresh channels.words_out }
    requires starts { Starts engine.old }
    requires intake { IsIntakeOf engine.old.set tail.intake.now }
    ensures { Joined (S.sight source.old) (S.sight source.new) (K.sight out.old) (K.sight out.new)
        tail.entry.intake.now tail.entry.rest.now tail.entry.most engine.old.set engine.new result.read result.ran result.wrote }
{
    let Channels {
        words_in,
        words_out,
    } = channels;
    let Channel {
        queue: queue_in,
        put: put_in,
        take: take_in,
    } = words_in;
    let Channel {
        queue: queue_out,
        put: put_out,
        take: take_out,
    } = words_out;
    let mut ends = Ends {
        read: Sender::new(&queue_in, put_in),
        fed: Fed::new(&queue_in, take_in),
        got: Sender::new(&queue_out, put_out),
        written: Receiver::new(&queue_out, take_out),
    };
    let answers = run_beside(rt, alloc, tail, &mut ends, engine, runner, source, out);
    let Ends {
        read,
        fed,
        got,
        written,
    } = ends;
    let put_in = read.into_end();
    let take_in = fed.into_end();
    let put_out = got.into_end();
    let take_out = written.into_end();
    queue_in.close(rt, put_in, take_in);
    queue_out.close(rt, put_out, take_out);
    answers
}

// Writes the last line, where all went well.
fn finish<K: Sink>(engine: Engine, answers: Answers, out: &mut K) -> Result<Ending, Halt>
    requires { RestsWhereEnded engine answers.ran }
    ensures { Finished (K.sight out.old) (K.sight out.new)
        engine (halt_of answers.read answers.ran answers.wrote) result }
{
    if let Some(halt) = halt_of(answers) {
        return Err(halt);
    }
    let ending = ending_at_rest(engine);
    match put_line(&rest_line(ending), out) {
        Ok(()) => Ok(ending),
        Err(_) => Err(Halt::Write),
    }
}

/// Reads the lines behind `live` from a source that may still be open, and feeds each word to the machine when it
/// comes. It runs the machine to rest and writes what its sinks then have more, each word as a line, and at last
/// how the machine came to rest.
///
/// The reader goes on to the end of its input also where the sink failed. Want of memory is answered before a fault of the
/// input, and that before a failure of the sink.
pub fn feed_live<R: Threads + Clock + Wait + Sync, S: Source + Send, K: Sink + Send, G: Gate>(
    rt: &R,
    alloc: Global,
    tail: Tail<'_>,
    engine: Engine,
    runner: &Runner<'_, G>,
    source: &mut S,
    out: &mut K,
) -> Result<Ending, Halt>
    requires starts { Starts engine }
    requires intake { IsIntakeOf engine.set tail.intake.now }
    ensures { Lives (S.sight source.old) (S.sight source.new) (K.sight out.old) (K.sight out.new)
        tail.entry.intake.now tail.entry.rest.now tail.entry.most engine.set result }
{
    let Ok(channels) = Channels::open(rt, alloc) else {
        return Err(Halt::Memory);
    };
    let mut engine = engine;
    let answers = run_and_close(rt, alloc, tail, channels, &mut engine, runner, source, out);
    finish(engine, answers, out)
}
