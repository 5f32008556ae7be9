//! What each worker does with its pass, and all of them in threads.
//!
//! A worker's loop has two measures, and they are two loops. The inner one goes on until a step was taken or two turns
//! in a row found nothing. In it the stall turns that its processors owe grow fewer. The outer one goes on until the
//! log is full, and the log grows longer. So no bound on what a step may cost comes into it.
//!
//! A worker that finds nothing looks again, and gives up its core between two looks. Its neighbours' steps reach it a
//! little later than they are taken. A worker that has ended its part is missed for the rest of the round, which then
//! ends early too. So a turn goes over the processors again and again until one of them takes a step or a stall turn. A
//! worker that only paused between two looks held up the one that it waited for, wherever the system had put the two on
//! one core. This cause was inferred: a copy of the workers in plain Rust got as slow by pauses, and not by giving up
//! the core.
//!
//! Beside other workers a processor goes on while it can, at most 128 turns in a row. Where it then waits for another
//! one of the same worker, that one goes on, and then it again, at most 128 such rows in all. What passes between two
//! cores costs more than a step: a status word that the other core has looked at has to be taken back before it can be
//! stored. A tile and its switch hand each other value after value, so several pass for one look at the switches
//! beside.
ghost use Rattle.std.specs.Prelude.{◌≡◌, ◌%◌, ◌<◌, true, length, vec_len};
ghost use Rattle.atomic_table.specs.Seated.{TableId};
ghost use Rattle.raw_fabric_rule.specs.Views.{About};
ghost use Rattle.raw_fabric.specs.Opened.{about_of, id_of, IsOpen, IsPostOf, IsPass, ArePasses, Holds, CallStands};
ghost use Rattle.raw_workers.specs.Swept.{IsPassOf, IsSweptPass};

use crate::activity::{Activity, MANY_LOOKS};
use crate::pace::time;
use crate::swept::{Swept, swept_by};
use raw_fabric::{Fabric, FabricTurn, Gate, MAX_WORKERS, Pass, Post};
use raw_grid::{ProcId, Topo, WireId};
use std::rt::Clock;
use std::thread;
use std::thread::Threads;

/// How many steps each worker has taken on earlier fabrics.
pub(crate) type StepCounts = [u64; MAX_WORKERS as usize];

// The most turns that a processor has in a row, and the most such rows of it and its partners.
const TURNS: u32 = 128;

// Gives a processor of the pass turns until one of them is no step or it had enough of them, and tells the gate of each
// step. Says what they came to, and what the last one was.
fn take_row<G: Gate>(
    fabric: &Fabric<'_>,
    pass: &mut Pass,
    post: &Post<'_>,
    told: u64,
    gate: &G,
) -> (Swept, FabricTurn)
    requires stands { CallStands fabric.now pass.old post.now.p }
    requires post { IsPostOf fabric.now post.now }
    ensures { IsSweptPass fabric.now result.0 pass.old pass.new }
{
    let before = pass.log().steps.len();
    let turn = fabric.take_turns(pass, post, TURNS, told, gate);
    let after = pass.log().steps.len();
    (swept_by(turn, before, after), turn)
}

// Gives a processor of the pass its turns as long as it takes steps or stall turns, and tells the gate of each step. The wire
// is that for which it then waits.
fn turns<G: Gate>(
    fabric: &Fabric<'_>,
    pass: &mut Pass,
    p: ProcId,
    told: u64,
    gate: &G,
) -> (Swept, Option<WireId>)
    requires { CallStands fabric.now pass.old p.0 }
    ensures { IsSweptPass fabric.now result.0 pass.old pass.new }
{
    let post = fabric.post(p);
    let mut swept = Swept::Idle;
    for _row in 0..TURNS {
        let (next, turn) = take_row(fabric, pass, &post, told, gate);
        swept = swept.then(next);
        match turn {
            FabricTurn::Stalled => {}
            FabricTurn::Waits { wire, .. } => return (swept, Some(wire)),
            FabricTurn::Fired | FabricTurn::Stopped | FabricTurn::LogFull => return (swept, None),
        }
    }
    (swept, None)
}

// The processor at the other end of a wire of `p`, where it is one of the pass, and else `p`.
fn partner(topo: &Topo, pass: &Pass, p: ProcId, wire: Option<WireId>) -> ProcId
    requires pass { (about : About) × (id : TableId) × IsPass about id pass.now.log.worker pass.now }
    ensures holds { (about : About) (id : TableId) → IsPass about id pass.now.log.worker pass.now →
        Holds about pass.now p.0 → Holds about pass.now result.0 }
{
    let Some(wire) = wire else { return p };
    if wire.0 >= topo.wires() {
        return p;
    }
    let producer = topo.producer(wire);
    let other = if producer == p {
        topo.consumer(wire)
    } else {
        producer
    };
    if pass.holds(other) { other } else { p }
}

// Gives a processor of the pass its turns. Where it then waits for another one of the pass, that one has its turns, and then
// the first again, and so on while they step: so several values pass between the two before others are looked at.
fn visit<G: Gate>(
    topo: &Topo,
    fabric: &Fabric<'_>,
    pass: &mut Pass,
    p: ProcId,
    told: u64,
    gate: &G,
) -> Swept
    requires { CallStands fabric.now pass.old p.0 }
    ensures { IsSweptPass fabric.now result pass.old pass.new }
{
    let mut swept = Swept::Idle;
    let mut q = p;
    for _row in 0..TURNS {
        let (next, wire) = turns(fabric, pass, q, told, gate);
        swept = swept.then(next);
        let other = if q == p {
            partner(topo, pass, p, wire)
        } else {
            p
        };
        if other == q || (next == Swept::Idle && q != p) {
            return swept;
        }
        q = other;
    }
    swept
}

// Gives each processor of the pass its turns.
fn sweep<G: Gate>(topo: &Topo, fabric: &Fabric<'_>, pass: &mut Pass, told: u64, gate: &G) -> Swept
    requires { IsPassOf fabric.now pass.old }
    ensures { IsSweptPass fabric.now result pass.old pass.new }
{
    let workers = fabric.workers();
    let procs = fabric.procs();
    let mut swept = Swept::Idle;
    let mut p = pass.worker();
    'processors: while p < procs {
        let next = visit(topo, fabric, pass, ProcId(p), told, gate);
        swept = swept.then(next);
        p += workers;
    }
    swept
}

// A turn over the processors of the pass: gives each its turns, and where none took a step or a stall turn, again, as often
// as the activity says, so that values and room may come from other workers. Between two looks it gives up its core: there
// may be more workers than cores, and a worker that looks on and on would hold up the one that it waits for.
fn take_turn<R: Clock, G: Gate>(
    rt: &R,
    topo: &Topo,
    fabric: &Fabric<'_>,
    pass: &mut Pass,
    activity: &Activity,
    rests: bool,
    told: u64,
    gate: &G,
) -> Swept
    requires { IsPassOf fabric.now pass.old }
    ensures { IsSweptPass fabric.now result pass.old pass.new }
{
    for look in 0..MANY_LOOKS {
        let swept = sweep(topo, fabric, pass, told, gate);
        if swept != Swept::Idle || activity.looks(fabric.workers(), rests) <= look + 1 {
            return swept;
        }
        activity.note_time(time(rt));
        thread::yield_now();
    }
    Swept::Idle
}

// Goes over the processors of the pass until one has taken a step, or two turns over them in a row found none that
// took a step or a stall turn. Says whether a step was taken.
fn advance<R: Clock, G: Gate>(
    rt: &R,
    topo: &Topo,
    fabric: &Fabric<'_>,
    pass: &mut Pass,
    activity: &Activity,
    told: u64,
    gate: &G,
) -> bool
    requires { IsPassOf fabric.now pass.old }
    ensures pass { IsPass (about_of fabric.now) (id_of fabric.now) pass.old.log.worker pass.new }
    ensures longer { result ≡ true → vec_len pass.old.log.steps < vec_len pass.new.log.steps }
{
    let mut rests = false;
    'turns: loop {
        let swept = take_turn(rt, topo, fabric, pass, activity, rests, told, gate);
        if swept == Swept::Idle {
            if rests {
                return false;
            }
            activity.rest();
        } else {
            if rests {
                activity.resume();
            }
            if swept == Swept::Fired {
                return true;
            }
        }
        rests = swept == Swept::Idle;
    }
}

// Goes over the processors of the pass until its log is full, or two turns over them in a row found none that took a
// step or a stall turn, or the round is called off.
fn drive<R: Clock, G: Gate>(
    rt: &R,
    topo: &Topo,
    fabric: &Fabric<'_>,
    pass: &mut Pass,
    activity: &Activity,
    told: &StepCounts,
    gate: &G,
)
    requires { IsPassOf fabric.now pass.old }
    ensures { IsPass (about_of fabric.now) (id_of fabric.now) pass.old.log.worker pass.new }
{
    let told = told.get(pass.worker() as usize).copied().unwrap_or(0);
    let room = pass.room() as usize;
    activity.begin();
    'steps: while pass.log().steps.len() < room
        && !activity.is_over()
        && advance(rt, topo, fabric, pass, activity, told, gate)
    {
        activity.note_time(time(rt));
    }
    activity.end(pass.log().steps.len() >= room);
}

/// Drives each pass, in a thread of its own where one can be made. The round is called off after the deadline.
pub(crate) fn drive_all<R: Threads + Clock + Sync, G: Gate>(
    rt: &R,
    topo: &Topo,
    fabric: &Fabric<'_>,
    passes: &mut [Pass],
    activity: &Activity,
    told: &StepCounts,
    deadline: u64,
    gate: &G,
)
    requires fabric { IsOpen fabric.now }
    requires passes { ArePasses (about_of fabric.now) (id_of fabric.now) passes.old }
    ensures { ArePasses (about_of fabric.now) (id_of fabric.now) passes.new }
{
    let workers = passes.len();
    activity.reset(deadline);
    thread::for_each_mut(
        rt,
        passes,
        workers,
        &|worker: usize, pass: &mut Pass|
            requires { IsOpen fabric.now × IsPass (about_of fabric.now) (id_of fabric.now) worker pass.now }
            ensures { IsPass (about_of fabric.entry.now) (id_of fabric.entry.now) worker pass.exit.now }
        { drive(rt, topo, fabric, pass, activity, told, gate) },
    );
}
