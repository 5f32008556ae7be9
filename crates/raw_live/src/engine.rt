//! The engine: each word that comes is fed to the machine, which then runs to rest, and what its sinks have more is
//! handed on.
//!
//! After each word the engine takes up to 65,536 steps on its own thread. Only a machine that is not at rest then goes
//! to `work`: by N workers in each round with `--workers N`, else by as many as help, at most four. Most words need a
//! few steps, and threads that begin for each of them take far longer than those. The grid is at rest before the next
//! word is fed, whoever ran it, and what a sink has more is handed on once, at that rest: so no word is written twice
//! where both had a part.
//!
//! The engine keeps the parts of its machine, since a word changes the set that a machine borrows. The machine is made
//! of them and taken apart once for each word. That moves vectors and copies none of them; what the grid alone decides
//! is made once and kept in the parts.
ghost use Rattle.std.specs.Prelude.{◌≡◌, [], IfOk, OnOk, OnErr, slice_index};
ghost use Rattle.raw_grid.specs.Topology.{proc_count};
ghost use Rattle.raw_model.specs.Program.{IsSet};
ghost use Rattle.raw_model.specs.Rest.{IsQuiet};
ghost use Rattle.raw_model.specs.MoreWords.{AreAlikeButMoreWords};
ghost use Rattle.raw_serial.specs.Leading.{Leads};
ghost use Rattle.raw_serial.specs.Taken.{made_of, IsWhole};
ghost use Rattle.raw_live.specs.Engine.{got_at, with_put, AreAtRest, PutsItems};
ghost use Rattle.raw_live.specs.Due.{rest_of, words_behind, new_words};
ghost use Rattle.raw_live.specs.Running.{FedWith, Starts, HasSentSome, Rests, RunsAs, EndedAs, Runs};

use crate::fed::Fed;
use crate::sending::put_all_new;
use crate::writer::Finish;
use raw_model::Set;
use raw_queue::{Item, Sender};
use raw_serial::{Machine, Parts};
use raw_workers::{Gate, Parallelism, work};
use std::alloc::{AllocError, Global};
use std::mem;
use std::rt::Clock;
use std::sync::Wait;
use std::thread::Threads;

// How many steps the engine takes by itself after a word. A word mostly needs far fewer; where workers in threads have a
// part, so many steps take about as long as their threads need to begin.
const STEPS_ALONE: u64 = 1 << 16;

/// A set, the parts of its machine, and of each processor how many of its words were handed on.
#[derive(Drop)]
pub struct Engine {
    pub(crate) set: Set,
    pub(crate) parts: Parts,
    pub(crate) sent: Vec<usize>,
}

/// Who runs a machine that a word keeps going for long, and who is told of its steps on a fabric.
#[derive(Drop)]
pub struct Runner<'g, G> {
    /// By how many workers.
    pub parallelism: Parallelism,
    /// Who is told.
    pub gate: &'g G,
}

// A machine without parts, which stands for none.
fn no_parts(alloc: Global) -> Parts {
    Parts {
        ends: Vec::new(alloc),
        processors: Vec::new(alloc),
        wires: Vec::new(alloc),
    }
}

// Runs a machine to rest: so many steps on this thread, and where it goes on then, by workers.
fn run_to_rest<'s, R: Threads + Clock + Sync, G: Gate>(
    rt: &R,
    alloc: Global,
    machine: Machine<'s>,
    runner: &Runner<'_, G>,
) -> Machine<'s>
    ensures set { result.set ≡ machine.entry.set }
    ensures quiet { IsQuiet result.set result.state }
    ensures led { Leads machine.entry.set machine.entry.state result.state }
{
    let mut machine = machine;
    if machine.run_for(STEPS_ALONE).rests {
        return machine;
    }
    work(rt, alloc, machine, runner.parallelism, runner.gate)
}

// Runs the machine to rest.
fn settle<R: Threads + Clock + Sync, G: Gate>(
    rt: &R,
    alloc: Global,
    engine: &mut Engine,
    runner: &Runner<'_, G>,
)
    requires whole { IsWhole engine.old.set engine.old.parts }
    ensures set { engine.new.set ≡ engine.old.set }
    ensures sent { engine.new.sent ≡ engine.old.sent }
    ensures rest { AreAtRest engine.new.set engine.new.parts }
    ensures led { Leads engine.old.set
        (made_of engine.old.set engine.old.parts).state
        (made_of engine.new.set engine.new.parts).state }
{
    let parts = mem::replace(&mut engine.parts, no_parts(alloc));
    let machine = Machine::from_parts(&engine.set, parts);
    let machine = run_to_rest(rt, alloc, machine, runner);
    engine.parts = machine.into_parts();
}

// How many processors the grid of a set has.
fn procs_of(set: &Set) -> u32
    ensures value { result ≡ proc_count set.now.topo }
    ensures valid { IsSet set.now }
{
    set.topo.procs()
}

// Gives the source that is the port with this processor number a word more.
fn give(set: &mut Set, port: u32, word: u32) -> Result<(), AllocError>
    ensures added { OnOk result (set.new ≡ with_put set.old port word) }
    ensures more { OnOk result (AreAlikeButMoreWords set.old set.new) }
    ensures memory { OnErr result (set.new ≡ set.old) }
{
    let first = 2 * set.topo.tiles();
    match set.add_word(port.saturating_sub(first), word) {
        Ok(()) => Ok(()),
        Err(_) => Err(AllocError),
    }
}

// Gives a source a word more, and runs the machine to rest.
fn feed<R: Threads + Clock + Sync, G: Gate>(
    rt: &R,
    alloc: Global,
    engine: &mut Engine,
    port: u32,
    word: u32,
    runner: &Runner<'_, G>,
) -> Result<(), AllocError>
    requires whole { IsWhole engine.old.set engine.old.parts }
    ensures fed { OnOk result (FedWith engine.old engine.new port word) }
    ensures memory { OnErr result (engine.new ≡ engine.old) }
{
    if let Err(memory) = give(&mut engine.set, port, word) {
        return Err(memory);
    }
    settle(rt, alloc, engine, runner);
    Ok(())
}

// Hands on what the sinks have more.
fn hand_on<R: Wait>(rt: &R, to: &mut Sender<'_>, engine: &mut Engine) -> Result<(), AllocError>
    requires sent { HasSentSome engine.old }
    ensures queue { to.new.queue ≡ to.old.queue }
    ensures same { (engine.new.set ≡ engine.old.set) × (engine.new.parts ≡ engine.old.parts) }
    ensures items { PutsItems
        (words_behind (proc_count engine.old.set.topo) (λ p. slice_index engine.old.sent.items p) (got_at (rest_of engine.old.set)))
        to.old.items to.new.items result }
    ensures rests { OnOk result (Rests engine.new) }
{
    let procs = procs_of(&engine.set);
    put_all_new(rt, to, procs, &engine.parts.processors, &mut engine.sent)
}

// Feeds a word, and hands on what the sinks then have more.
fn step<R: Threads + Clock + Wait + Sync, G: Gate>(
    rt: &R,
    alloc: Global,
    port: u32,
    word: u32,
    to: &mut Sender<'_>,
    engine: &mut Engine,
    runner: &Runner<'_, G>,
) -> Result<(), AllocError>
    requires rests { Rests engine.old }
    ensures queue { to.new.queue ≡ to.old.queue }
    ensures set { OnOk result (engine.new.set ≡ with_put engine.old.set port word) }
    ensures items { PutsItems (new_words engine.old.set (with_put engine.old.set port word)) to.old.items to.new.items result }
    ensures rests { OnOk result (Rests engine.new) }
{
    if let Err(memory) = feed(rt, alloc, engine, port, word, runner) {
        return Err(memory);
    }
    hand_on(rt, to, engine)
}

// Runs the machine to rest, and then feeds it each word that comes, up to the end.
fn run_words<R: Threads + Clock + Wait + Sync, G: Gate>(
    rt: &R,
    alloc: Global,
    words_in: &mut Fed<'_>,
    words_out: &mut Sender<'_>,
    engine: &mut Engine,
    runner: &Runner<'_, G>,
) -> Result<Finish, AllocError>
    requires fresh { (words_in.old.items ≡ []) × (words_out.old.items ≡ []) }
    requires starts { Starts engine.old }
    ensures queues { (words_in.new.queue ≡ words_in.old.queue) × (words_out.new.queue ≡ words_out.old.queue) }
    ensures ran { RunsAs engine.old.set engine.new words_in.new.items words_out.new.items result }
{
    settle(rt, alloc, engine, runner);
    if let Err(memory) = hand_on(rt, words_out, engine) {
        return Err(memory);
    }
    for _ in rt.forever() {
        match words_in.take_due(rt, words_out, engine) {
            None => return Ok(Finish::HungUp),
            Some(Item::End) => return Ok(Finish::Ended),
            Some(Item::Word { port, word }) => {
                if let Err(memory) = step(rt, alloc, port, word, words_out, engine, runner) {
                    return Err(memory);
                }
            }
        }
    }
    unreachable!()
}

// Puts the end where it was taken, and memory is there for it.
fn put_end<R: Wait>(
    rt: &R,
    to: &mut Sender<'_>,
    ran: Result<Finish, AllocError>,
) -> Result<Finish, AllocError>
    ensures queue { to.new.queue ≡ to.old.queue }
    ensures ended { EndedAs to.old.items to.new.items ran result }
{
    if ran == Ok(Finish::Ended) && to.put(rt, Item::End).is_err() {
        return Err(AllocError);
    }
    ran
}

/// Feeds the machine each word that comes, one at a time, and hands on what its sinks then have more, up to the end,
/// which it hands on too. Then it hangs its queue up. It takes no word before all that is due of the words before it was
/// handed on (`Fed::take_due`).
///
/// A word for a port that is no source, or past the limit of words, is answered as want of memory.
pub fn run<R: Threads + Clock + Wait + Sync, G: Gate>(
    rt: &R,
    alloc: Global,
    words_in: &mut Fed<'_>,
    words_out: &mut Sender<'_>,
    engine: &mut Engine,
    runner: &Runner<'_, G>,
) -> Result<Finish, AllocError>
    requires fresh { (words_in.old.items ≡ []) × (words_out.old.items ≡ []) }
    requires starts { Starts engine.old }
    ensures queues { (words_in.new.queue ≡ words_in.old.queue) × (words_out.new.queue ≡ words_out.old.queue) }
    ensures ran { Runs engine.old.set engine.new words_in.new.items words_out.new.items result }
{
    let ran = run_words(rt, alloc, words_in, words_out, engine, runner);
    let ended = put_end(rt, words_out, ran);
    words_out.hang_up();
    ended
}

impl Engine {
    /// The machine of a set before it has done anything.
    pub fn open(alloc: Global, set: Set) -> Result<Engine, AllocError>
        ensures { IfOk result (λ engine. (engine.set ≡ set) × Starts engine) }
    {
        let machine = Machine::open(alloc, &set)?;
        let parts = machine.into_parts();
        let sent = vec![in alloc; 0; parts.processors.len()]?;
        Ok(Engine { set, parts, sent })
    }
}
