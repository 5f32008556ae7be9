//! The fabric.
//!
//! The fabric keeps no seat. A seat may go to another thread and may not be shared, so the last pass gets the seat that
//! opened the table.
ghost use Rattle.std.specs.Prelude.{◌≡◌, ◌≢◌, ℕ, ◌/◌, ◌%◌, ◌<◌, ◌≤◌, Some, [], length, slice_get, vec_len, vec_capacity, IfOk, IfErr};
ghost use Rattle.raw_grid.specs.Topology.{kind_at};
ghost use Rattle.raw_processor.specs.declared.processor.Processor.{Processor};
ghost use Rattle.raw_fabric_rule.specs.ByEnds.{procs};
ghost use Rattle.raw_fabric.specs.Opened.{about_before, about_of, id_of, IsOpen, IsPostOf, IsPass, ArePasses, AreFreshPasses, CallStands};
ghost use Rattle.raw_fabric.specs.Supplies.{AreSupplies};
ghost use Rattle.raw_fabric.specs.Closed.{IsClosedTo, AreHeld};
ghost use Rattle.raw_fabric.specs.Answers.{log_after, IsTurnOf};
ghost use Rattle.raw_fabric.specs.Early.{AreAllEarly, AreNewPasses, IsEarlyTurn};
ghost use Rattle.raw_fabric.specs.Owing.{owing, IsOwingAfter};
ghost use Rattle.raw_fabric.specs.InRow.{AreTurns};
ghost use Rattle.raw_steps.specs.Taking.{numbers};

use crate::answer::{FabricTurn, has_fired};
use crate::deal::deal;
use crate::gate::Gate;
use crate::gather::gather;
use crate::lay::lay_words;
use crate::pass::Pass;
use crate::place::place_of;
use crate::read::read_wires;
use crate::rooms::{Room, make_rooms};
use crate::rows::take_turns;
use crate::sides::all_sides;
use crate::units::turn_unit;
use raw_fabric_rule::{FabricTable, MAX_WORKERS, SIDES, Start, Workers, close_table, open_table};
use raw_fabric_step::{Post, Side};
use raw_grid::{MAX_PROCS, ProcId, ProcKind};
use raw_model::Set;
use raw_serial::{Machine, Parts};
use raw_steps::PassLog;
use std::alloc::{AllocError, Global};

/// The wires of a grid as words of one table, at which the passes of its workers take steps.
///
/// It is made of a machine, and a machine is made of it and of its passes again.
#[derive(Drop)]
pub struct Fabric<'s> {
    pub(crate) set: &'s Set,
    pub(crate) table: FabricTable<'s>,
    pub(crate) workers: Workers,
    // What stands at the other sides of the ends of each processor.
    pub(crate) sides: Vec<[Side; SIDES]>,
    // The wires at the ends of each processor, and memory for the machine that is made at the end.
    pub(crate) parts: Parts,
    // Memory for the logs at the end.
    pub(crate) logs: Vec<PassLog>,
}

// All memory of a fabric but that of its table.
#[derive(Drop)]
struct Supplies {
    words: Vec<u64>,
    sides: Vec<[Side; SIDES]>,
    rooms: Vec<Room>,
    passes: Vec<Pass>,
    logs: Vec<PassLog>,
}

// So many logs without steps.
fn empty_logs(alloc: Global, workers: u32) -> Result<Vec<PassLog>, AllocError>
    ensures { IfOk result (λ logs. vec_len logs ≡ workers) }
{
    let mut logs = Vec::with_capacity(alloc, workers as usize)?;
    for worker in 0..workers {
        logs.push_reserved(PassLog {
            worker,
            steps: Vec::new(alloc),
        });
    }
    Ok(logs)
}

// All memory but that of the table. Logs are made in the memory of old ones, as far as these have room.
fn supply(
    alloc: Global,
    machine: &Machine<'_>,
    workers: Workers,
    log_steps: u32,
    old: Vec<PassLog>,
) -> Result<Supplies, AllocError>
    ensures { IfOk result (AreSupplies machine.now workers log_steps) }
{
    let count = workers.count();
    let words = lay_words(alloc, machine)?;
    let sides = all_sides(alloc, machine)?;
    let rooms = make_rooms(alloc, machine, workers, log_steps, words.as_slice(), old)?;
    let passes = Vec::with_capacity(alloc, count as usize)?;
    let logs = empty_logs(alloc, count)?;
    Ok(Supplies {
        words,
        sides,
        rooms,
        passes,
        logs,
    })
}

impl<'s> Fabric<'s> {
    /// Takes a machine apart for so many workers: its wires become words of a table, and each worker gets a pass, in
    /// order, with an empty log that has room for `log_steps` steps. Of `n` workers, the pass of worker `k` holds the
    /// processors whose number is `k` modulo `n`.
    ///
    /// All memory is taken before the machine is touched: where there is none, the machine comes back as it was. The logs
    /// are made in the memory of old ones, as far as these have room.
    pub fn open(
        alloc: Global,
        machine: Machine<'s>,
        workers: Workers,
        log_steps: u32,
        old: Vec<PassLog>,
    ) -> Result<(Fabric<'s>, Vec<Pass>), (Machine<'s>, AllocError)>
        ensures fabric { IfOk result (λ r. IsOpen r.0) }
        ensures opened { IfOk result (λ r. about_of r.0 ≡ about_before machine.entry workers) }
        ensures passes { IfOk result (λ r. ArePasses (about_of r.0) (id_of r.0) r.1.items) }
        ensures fresh { IfOk result (λ r. AreFreshPasses machine.entry workers log_steps r.1.items) }
        ensures early { IfOk result (λ r. AreAllEarly (about_of r.0) r.1.items) }
        ensures refused { IfErr result (λ e. e.0 ≡ machine.entry) }
    {
        match supply(alloc, &machine, workers, log_steps, old) {
            Err(_) => Err((machine, AllocError)),
            Ok(supplies) => Fabric::with(alloc, machine, workers, log_steps, supplies),
        }
    }

    // Opens the table with the memory of all else at hand.
    fn with(
        alloc: Global,
        machine: Machine<'s>,
        workers: Workers,
        log_steps: u32,
        supplies: Supplies,
    ) -> Result<(Fabric<'s>, Vec<Pass>), (Machine<'s>, AllocError)>
        requires supplies { AreSupplies machine workers log_steps supplies }
        ensures fabric { IfOk result (λ r. IsOpen r.0) }
        ensures opened { IfOk result (λ r. about_of r.0 ≡ about_before machine.entry workers) }
        ensures passes { IfOk result (λ r. ArePasses (about_of r.0) (id_of r.0) r.1.items) }
        ensures new { IfOk result (λ r. AreNewPasses machine.entry workers log_steps r.0 r.1.items) }
        ensures refused { IfErr result (λ e. e.0 ≡ machine.entry) }
    {
        let Supplies {
            words,
            sides,
            rooms,
            passes,
            logs,
        } = supplies;
        let set = machine.set();
        let start = Start { machine, workers };
        match open_table(alloc, words.as_slice(), &start) {
            Err(_) => Err((start.machine, AllocError)),
            Ok((table, seat)) => {
                let Start {
                    machine,
                    workers: _,
                } = start;
                let Parts {
                    ends,
                    mut processors,
                    wires,
                } = machine.into_parts();
                let passes = deal(
                    alloc,
                    &table.shared,
                    seat,
                    rooms,
                    passes,
                    workers,
                    log_steps,
                    processors.as_mut_slice(),
                );
                let parts = Parts {
                    ends,
                    processors,
                    wires,
                };
                let fabric = Fabric {
                    set,
                    table,
                    workers,
                    sides,
                    parts,
                    logs,
                };
                Ok((fabric, passes))
            }
        }
    }

    /// Closes the fabric with its passes, in order of worker: the machine is what a lawful list of steps leads to from
    /// the one that was opened, which is joined from the logs. This takes no memory.
    pub fn close(self, passes: Vec<Pass>) -> (Machine<'s>, Vec<PassLog>)
        requires fabric { IsOpen self }
        requires passes { ArePasses (about_of self) (id_of self) passes.items }
        ensures set { result.0.set ≡ (about_of self.entry).set }
        ensures closed { IsClosedTo (about_of self.entry) result.0 result.1.items }
        ensures kept { AreHeld (about_of self.entry).workers passes.items result.0 result.1.items }
    {
        let Fabric {
            set,
            table,
            workers: _,
            sides: _,
            parts,
            mut logs,
        } = self;
        let Parts {
            ends,
            mut processors,
            mut wires,
        } = parts;
        let seat = gather(
            &table.shared,
            passes,
            processors.as_mut_slice(),
            logs.as_mut_slice(),
        );
        let closed = close_table(table, seat);
        read_wires(&closed, set, wires.as_mut_slice());
        closed.free();
        let parts = Parts {
            ends,
            processors,
            wires,
        };
        (Machine::from_parts(set, parts), logs)
    }
}

impl Fabric<'_> {
    /// For how many workers it was opened: it has so many passes.
    pub fn workers(&self) -> u32
        requires fabric { IsOpen self.now }
        ensures workers { result ≡ (about_of self.now).workers }
        ensures some { 0 < result }
        ensures few { result ≤ MAX_WORKERS }
    {
        self.workers.count()
    }

    /// How many processors there are: tiles, switches and ports.
    pub fn procs(&self) -> u32
        requires fabric { IsOpen self.now }
        ensures procs { result ≡ procs (about_of self.now).set }
        ensures few { result ≤ MAX_PROCS }
    {
        let set: &Set = self.set;
        set.topo.procs()
    }

    /// The post of a processor: what a turn looks up of it, which no step changes.
    pub fn post(&self, p: ProcId) -> Post<'_>
        requires fabric { IsOpen self.now }
        requires there { p.0 < procs (about_of self.now).set }
        ensures post { IsPostOf self.now result }
        ensures number { result.p ≡ p.0 }
    {
        let set: &Set = self.set;
        let i = p.0 as usize;
        Post {
            p: p.0,
            index: place_of(p.0, self.workers) as usize,
            processors: set.topo.procs(),
            depth: u64::from(set.depth),
            ends: &self.parts.ends[i],
            sides: &self.sides[i],
        }
    }

    /// Gives a processor of the pass its turn: a stall turn where it owes one, and else a step if it can take one.
    /// The step takes effect with one store.
    ///
    /// It waits for no other pass, and takes no memory.
    #[inline(always)]
    pub fn try_fire(&self, pass: &mut Pass, p: ProcId) -> FabricTurn
        requires stands { CallStands self.now pass.old p.0 }
        ensures pass { IsPass (about_of self.now) (id_of self.now) pass.old.log.worker pass.new }
        ensures log { numbers pass.new.log.steps.items ≡ log_after result p.0 (numbers pass.old.log.steps.items) }
        ensures turn { IsTurnOf (about_of self.now) p.0 result pass.old pass.new }
        ensures owing { IsOwingAfter result (owing pass.old) (owing pass.new) }
        // A processor that was enabled at the opening and has taken no step since does not wait.
        ensures early { IsEarlyTurn (about_of self.now) p.0 result pass.old pass.new }
    {
        self.try_fire_at(pass, &self.post(p))
    }

    /// Gives the processor of a post its turn, as `try_fire` does: for a row of turns of one processor, which is looked up
    /// once.
    #[inline(always)]
    pub fn try_fire_at(&self, pass: &mut Pass, post: &Post<'_>) -> FabricTurn
        requires stands { CallStands self.now pass.old post.now.p }
        requires post { IsPostOf self.now post.now }
        ensures pass { IsPass (about_of self.now) (id_of self.now) pass.old.log.worker pass.new }
        ensures log { numbers pass.new.log.steps.items ≡ log_after result post.now.p (numbers pass.old.log.steps.items) }
        ensures turn { IsTurnOf (about_of self.now) post.now.p result pass.old pass.new }
        ensures owing { IsOwingAfter result (owing pass.old) (owing pass.new) }
    {
        let set: &Set = self.set;
        let p = ProcId(post.p);
        let i = post.index;
        if pass.processors[i].is_stopped(set, p) {
            return FabricTurn::Stopped;
        }
        if pass.log.steps.len() == pass.room as usize {
            return FabricTurn::LogFull;
        }
        let kind = set.topo.kind_of(p);
        let turn = turn_unit(
            set,
            &self.table.shared,
            &mut pass.seat,
            post,
            kind,
            &mut pass.statuses[i],
            &mut pass.processors[i],
        );
        if has_fired(turn) {
            pass.log.steps.push_reserved(p);
        }
        turn
    }

    /// Gives the processor of a post turns until one of them is no step or so many steps were taken, and tells the gate
    /// of each step right after it. The answer is the last turn. The worker has taken `told` steps on earlier fabrics.
    pub fn take_turns<G: Gate>(
        &self,
        pass: &mut Pass,
        post: &Post<'_>,
        most: u32,
        told: u64,
        gate: &G,
    ) -> FabricTurn
        requires stands { CallStands self.now pass.old post.now.p }
        requires post { IsPostOf self.now post.now }
        requires some { 0 < most }
        ensures pass { IsPass (about_of self.now) (id_of self.now) pass.old.log.worker pass.new }
        ensures turns { AreTurns result pass.old.log pass.new.log (owing pass.old) (owing pass.new) }
    {
        let set: &Set = self.set;
        // Each kind has a loop of its own.
        match set.topo.kind_of(ProcId(post.p)) {
            ProcKind::Tile => self.turns_as(pass, post, ProcKind::Tile, most, told, gate),
            ProcKind::Switch => self.turns_as(pass, post, ProcKind::Switch, most, told, gate),
            ProcKind::Source => self.turns_as(pass, post, ProcKind::Source, most, told, gate),
            ProcKind::Sink => self.turns_as(pass, post, ProcKind::Sink, most, told, gate),
        }
    }

    // The same of a processor of this kind.
    #[inline(always)]
    fn turns_as<G: Gate>(
        &self,
        pass: &mut Pass,
        post: &Post<'_>,
        kind: ProcKind,
        most: u32,
        told: u64,
        gate: &G,
    ) -> FabricTurn
        requires stands { CallStands self.now pass.old post.now.p }
        requires post { IsPostOf self.now post.now }
        requires kind { kind_at (about_of self.now).set.topo post.now.p ≡ Some kind }
        requires some { 0 < most }
        ensures pass { IsPass (about_of self.now) (id_of self.now) pass.old.log.worker pass.new }
        ensures turns { AreTurns result pass.old.log pass.new.log (owing pass.old) (owing pass.new) }
    {
        let at = post.index;
        let room = pass.room;
        let mut status = pass.statuses[at];
        let turn = take_turns(
            self.set,
            &self.table.shared,
            &mut pass.seat,
            post,
            kind,
            &mut status,
            &mut pass.processors[at],
            &mut pass.log,
            room,
            most,
            told,
            gate,
        );
        pass.statuses[at] = status;
        turn
    }
}
