//! The reader, the engine and the writer, beside each other.
ghost use Rattle.std.specs.Prelude.{◌≡◌, ◌+◌, ◌^◌, ◌<◌, ◌≤◌, [], length};
ghost use Rattle.raw_text.specs.declared.limits.TheConstants.{MAX_TEXT};
ghost use Rattle.raw_live_text.specs.Feeding.{ReadsAll};
ghost use Rattle.raw_live.specs.Meeting.{AreFresh, BelongAs};
ghost use Rattle.raw_live.specs.Written.{Wrote};
ghost use Rattle.raw_live.specs.Running.{Starts, Runs};

use crate::engine::{Engine, Runner, run};
use crate::fed::Fed;
use crate::tail::Tail;
use crate::writer::{Finish, write_words};
use raw_io::{Failed, Sink, Source};
use raw_live_text::{Stop, read_puts};
use raw_queue::{Receiver, Sender};
use raw_workers::Gate;
use std::alloc::{AllocError, Global};
use std::rt::Clock;
use std::sync::Wait;
use std::thread::{Threads, join_mut};

/// What the three answered.
#[derive(Clone, Copy, PartialEq, Eq)]
pub(crate) struct Answers {
    pub(crate) read: Result<(), Stop>,
    pub(crate) ran: Result<Finish, AllocError>,
    pub(crate) wrote: Result<Finish, Failed>,
}

/// Where the three meet: the ends of the queue of words that go in and of the queue of words that come out.
#[derive(Drop)]
pub(crate) struct Ends<'q> {
    /// Here the reader puts the words of lines.
    pub(crate) read: Sender<'q>,
    /// Here the engine takes them.
    pub(crate) fed: Fed<'q>,
    /// Here it puts what sinks have taken out.
    pub(crate) got: Sender<'q>,
    /// Here the writer takes that.
    pub(crate) written: Receiver<'q>,
}

// Runs the engine and the writer beside each other.
fn engine_and_writer<R: Threads + Clock + Wait + Sync, K: Sink + Send, G: Gate>(
    rt: &R,
    alloc: Global,
    fed: &mut Fed<'_>,
    got: &mut Sender<'_>,
    written: &mut Receiver<'_>,
    engine: &mut Engine,
    runner: &Runner<'_, G>,
    out: &mut K,
) -> (Result<Finish, Failed>, Result<Finish, AllocError>)
    requires fresh { (fed.old.items ≡ []) × (got.old.items ≡ []) × (written.old.items ≡ []) }
    requires starts { Starts engine.old }
    ensures queues { (fed.new.queue ≡ fed.old.queue) × (got.new.queue ≡ got.old.queue) × (written.new.queue ≡ written.old.queue) }
    ensures ran { Runs engine.old.set engine.new fed.new.items got.new.items result.1 }
    ensures wrote { Wrote (K.sight out.old) (K.sight out.new) written.new.items result.0 }
{
    join_mut(
        rt,
        &mut || -> Result<Finish, Failed>
            requires { written.now.items ≡ [] }
            ensures queue { written.exit.now.queue ≡ written.entry.now.queue }
            ensures wrote { Wrote (K.sight out.entry.now) (K.sight out.exit.now)
                written.exit.now.items result }
        { write_words(rt, written, out) },
        &mut || -> Result<Finish, AllocError>
            requires fresh { (fed.now.items ≡ []) × (got.now.items ≡ []) }
            requires starts { Starts engine.now }
            ensures queues { (fed.exit.now.queue ≡ fed.entry.now.queue) × (got.exit.now.queue ≡ got.entry.now.queue) }
            ensures ran { Runs engine.entry.now.set engine.exit.now fed.exit.now.items got.exit.now.items result }
        { run(rt, alloc, fed, got, engine, runner) },
    )
}

/// Runs the reader, the engine and the writer beside each other: the reader puts words on the first queue, the engine
/// takes them and puts those that come out on the second, and the writer takes these.
///
/// Where no thread can be made, the last of the calls that are joined runs first. So the reader stands last, and none of
/// them waits for a later one.
pub(crate) fn run_beside<
    R: Threads + Clock + Wait + Sync,
    S: Source + Send,
    K: Sink + Send,
    G: Gate,
>(
    rt: &R,
    alloc: Global,
    tail: Tail<'_>,
    ends: &mut Ends<'_>,
    engine: &mut Engine,
    runner: &Runner<'_, G>,
    source: &mut S,
    out: &mut K,
) -> Answers
    requires fresh { AreFresh ends.old }
    requires starts { Starts engine.old }
    ensures queues { BelongAs ends.old ends.new }
    ensures read { ReadsAll (S.sight source.old) (S.sight source.new)
        tail.entry.intake.now tail.entry.rest.now tail.entry.most ends.new.read.items result.read }
    ensures ran { Runs engine.old.set engine.new ends.new.fed.items ends.new.got.items result.ran }
    ensures wrote { Wrote (K.sight out.old) (K.sight out.new) ends.new.written.items result.wrote }
{
    let Tail { intake, rest, most } = tail;
    let Ends {
        read: to,
        fed,
        got,
        written,
    } = ends;
    let ((wrote, ran), read) = join_mut(
        rt,
        &mut || -> (Result<Finish, Failed>, Result<Finish, AllocError>)
            requires fresh { (fed.now.items ≡ []) × (got.now.items ≡ []) × (written.now.items ≡ []) }
            requires starts { Starts engine.now }
            ensures queues { (fed.exit.now.queue ≡ fed.entry.now.queue) × (got.exit.now.queue ≡ got.entry.now.queue) × (written.exit.now.queue ≡ written.entry.now.queue) }
            ensures ran { Runs engine.entry.now.set engine.exit.now fed.exit.now.items got.exit.now.items result.1 }
            ensures wrote { Wrote (K.sight out.entry.now) (K.sight out.exit.now)
                written.exit.now.items result.0 }
        { engine_and_writer(rt, alloc, fed, got, written, engine, runner, out) },
        &mut || -> Result<(), Stop>
            requires most { length rest.now + most ≤ MAX_TEXT }
            requires line { intake.now.line + length rest.now + most + 1 < 2 ^ 32 }
            requires fresh { to.now.items ≡ [] }
            ensures queue { to.exit.now.queue ≡ to.entry.now.queue }
            ensures read { ReadsAll (S.sight source.entry.now) (S.sight source.exit.now)
                intake.entry.now rest.entry.now most to.exit.now.items result }
        { read_puts(rt, alloc, intake, rest, most, to, source) },
    );
    Answers { read, ran, wrote }
}
