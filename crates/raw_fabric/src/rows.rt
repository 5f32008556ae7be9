//! Several turns of one processor of a pass in a row.
//!
//! What no step changes of a processor is looked up once for a row of turns (`Fabric::post`): its place in its pass,
//! the wires at its ends and their other sides. The row is one loop of the fabric (`Fabric::take_turns`), with a copy
//! for each kind of processor, in which the compiler leaves the arm of that kind alone. It ends at the first turn that
//! is no step. Each step in it is one of its own: it takes effect with one store, it goes into the log, and the gate is
//! told of it right after. So the trait `Gate` stands where that loop does.
ghost use Rattle.std.specs.Prelude.{◌≡◌, ◌<◌, Some};
ghost use Rattle.raw_grid.specs.Topology.{kind_at};
ghost use Rattle.raw_processor.specs.Processor.{owed_of};
ghost use Rattle.raw_fabric_step.specs.Units.{mine};
ghost use Rattle.raw_fabric.specs.Holding.{IsUnitOf};
ghost use Rattle.raw_fabric.specs.Answers.{UnitLeft};
ghost use Rattle.raw_fabric.specs.InRow.{LeavesOthers, RowStands, IsLogOf, AreTurns};

use crate::answer::FabricTurn;
use crate::gate::Gate;
use crate::units::turn_unit;
use raw_fabric_rule::{PassSeat, Words};
use raw_fabric_step::Post;
use raw_grid::{ProcId, ProcKind};
use raw_model::Set;
use raw_processor::Processor;
use raw_steps::PassLog;

/// Gives a processor of this kind turns until one of them is no step or so many steps were taken, and tells the gate of
/// each step right after it. The answer is the last turn. `status` is the processor's status word, the log has room for
/// `room` steps, and the worker has taken `told` steps on earlier fabrics.
#[inline(always)]
pub(crate) fn take_turns<G: Gate>(
    set: &Set,
    words: &Words<'_>,
    seat: &mut PassSeat,
    post: &Post<'_>,
    kind: ProcKind,
    status: &mut u64,
    processor: &mut Processor,
    log: &mut PassLog,
    room: u32,
    most: u32,
    told: u64,
    gate: &G,
) -> FabricTurn
    requires set { set.now ≡ words.now.key.set }
    requires kind { kind_at words.now.key.set.topo post.now.p ≡ Some kind }
    requires stands { RowStands words.now.key words.now.table_id seat.old post.now status.old processor.old }
    requires log { IsLogOf seat.old.me.0 room log.old }
    requires some { 0 < most }
    ensures left { UnitLeft words.now.key post.now status.new seat.old seat.new }
    ensures unit { IsUnitOf words.now.key post.now.p processor.new (mine seat.new.me.0 post.now.index) }
    ensures others { LeavesOthers words.now.key post.now.p seat.old.me.0 seat.new.me.0 }
    ensures log { IsLogOf seat.new.me.0 room log.new }
    ensures worker { log.new.worker ≡ log.old.worker }
    ensures turns { AreTurns result log.old log.new (owed_of processor.old) (owed_of processor.new) }
{
    let p = ProcId(post.p);
    for _turn in 0..most {
        if processor.is_stopped(set, p) {
            return FabricTurn::Stopped;
        }
        if log.steps.len() == room as usize {
            return FabricTurn::LogFull;
        }
        match turn_unit(set, words, seat, post, kind, status, processor) {
            FabricTurn::Fired => {
                log.steps.push_reserved(p);
                let count = told.saturating_add(log.steps.len() as u64);
                gate.fired(log.worker, count);
            }
            turn => return turn,
        }
    }
    FabricTurn::Fired
}
