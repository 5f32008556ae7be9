//! The turn of one processor of a pass.
//!
//! A turn is written out in the loop that gives it (`inline(always)` from `turn_unit` down to `see_ends`). It is a
//! sequence of small calls, each with its own contract, which need not be calls of the machine.
ghost use Rattle.std.specs.Prelude.{◌≡◌, Some};
ghost use Rattle.raw_grid.specs.Topology.{kind_at};
ghost use Rattle.raw_processor.specs.declared.processor.Processor.TheVariants as a;
ghost use Rattle.raw_fabric_step.specs.Units.{mine};
ghost use Rattle.raw_fabric.specs.Holding.{IsUnitOf};
ghost use Rattle.raw_fabric.specs.Answers.{IsUnitTurn, UnitStands, UnitLeft};

use crate::answer::FabricTurn;
use raw_fabric_rule::{PassSeat, Words};
use raw_fabric_step::{Post, Unmet, step_sink, step_source, step_switch, step_tile};
use raw_grid::{ProcId, ProcKind, WireId};
use raw_model::Set;
use raw_processor::{PortState, Processor, SwitchUnit, TileUnit, touch, words_of};

// A wait, with what was seen.
fn waits(unmet: Unmet) -> FabricTurn
    ensures { result ≡ FabricTurn.Waits (record { 0 = unmet.wire }) unmet.seen }
{
    FabricTurn::Waits {
        wire: WireId(unmet.wire),
        seen: unmet.seen,
    }
}

// Gives a tile that is not stopped its turn. `status` is its status word.
#[inline(always)]
fn turn_tile(
    set: &Set,
    words: &Words<'_>,
    seat: &mut PassSeat,
    post: &Post<'_>,
    status: &mut u64,
    tile: &mut TileUnit,
) -> FabricTurn
    requires set { set.now ≡ words.now.key.set }
    requires stands { UnitStands words.now.key words.now.table_id seat.old post.now status.old (a.Tile tile.old) }
    ensures left { UnitLeft words.now.key post.now status.new seat.old seat.new }
    ensures unit { IsUnitOf words.now.key post.now.p (a.Tile tile.new) (mine seat.new.me.0 post.now.index) }
    ensures turn { IsUnitTurn words.now.key post.now.p post.now.index result seat.old.me.0 seat.new.me.0 (a.Tile tile.old) (a.Tile tile.new) }
{
    if tile.owed > 0 {
        tile.owed -= 1;
        return FabricTurn::Stalled;
    }
    match step_tile(words, seat, post, *status, &tile.code, &mut tile.state) {
        Err(unmet) => waits(unmet),
        Ok((after, touched)) => {
            *status = after;
            touch(tile, touched, set, post.p as usize);
            FabricTurn::Fired
        }
    }
}

// Gives a switch that is not stopped its turn.
#[inline(always)]
fn turn_switch(
    words: &Words<'_>,
    seat: &mut PassSeat,
    post: &Post<'_>,
    status: &mut u64,
    switch: &mut SwitchUnit,
) -> FabricTurn
    requires stands { UnitStands words.now.key words.now.table_id seat.old post.now status.old (a.Switch switch.old) }
    ensures left { UnitLeft words.now.key post.now status.new seat.old seat.new }
    ensures unit { IsUnitOf words.now.key post.now.p (a.Switch switch.new) (mine seat.new.me.0 post.now.index) }
    ensures turn { IsUnitTurn words.now.key post.now.p post.now.index result seat.old.me.0 seat.new.me.0 (a.Switch switch.old) (a.Switch switch.new) }
{
    match step_switch(words, seat, post, *status, &switch.code, &mut switch.state) {
        Err(unmet) => waits(unmet),
        Ok(after) => {
            *status = after;
            FabricTurn::Fired
        }
    }
}

// Gives a source that has words left its turn.
#[inline(always)]
fn turn_source(
    set: &Set,
    words: &Words<'_>,
    seat: &mut PassSeat,
    post: &Post<'_>,
    status: &mut u64,
    port: &mut PortState,
) -> FabricTurn
    requires set { set.now ≡ words.now.key.set }
    requires stands { UnitStands words.now.key words.now.table_id seat.old post.now status.old (a.Source port.old) }
    ensures left { UnitLeft words.now.key post.now status.new seat.old seat.new }
    ensures unit { IsUnitOf words.now.key post.now.p (a.Source port.new) (mine seat.new.me.0 post.now.index) }
    ensures turn { IsUnitTurn words.now.key post.now.p post.now.index result seat.old.me.0 seat.new.me.0 (a.Source port.old) (a.Source port.new) }
{
    let given = words_of(set, ProcId(post.p));
    match step_source(words, seat, post, *status, port, given) {
        Err(unmet) => waits(unmet),
        Ok(after) => {
            *status = after;
            FabricTurn::Fired
        }
    }
}

// Gives a sink that is not full its turn.
#[inline(always)]
fn turn_sink(
    words: &Words<'_>,
    seat: &mut PassSeat,
    post: &Post<'_>,
    status: &mut u64,
    port: &mut PortState,
) -> FabricTurn
    requires stands { UnitStands words.now.key words.now.table_id seat.old post.now status.old (a.Sink port.old) }
    ensures left { UnitLeft words.now.key post.now status.new seat.old seat.new }
    ensures unit { IsUnitOf words.now.key post.now.p (a.Sink port.new) (mine seat.new.me.0 post.now.index) }
    ensures turn { IsUnitTurn words.now.key post.now.p post.now.index result seat.old.me.0 seat.new.me.0 (a.Sink port.old) (a.Sink port.new) }
{
    match step_sink(words, seat, post, *status, port) {
        Err(unmet) => waits(unmet),
        Ok(after) => {
            *status = after;
            FabricTurn::Fired
        }
    }
}

/// Gives a processor of this kind that is not stopped its turn: a stall turn where it owes one, and else a step if it can
/// take one. `status` is its status word. Where a caller names the kind, the compiler leaves one of the arms.
#[inline(always)]
pub(crate) fn turn_unit(
    set: &Set,
    words: &Words<'_>,
    seat: &mut PassSeat,
    post: &Post<'_>,
    kind: ProcKind,
    status: &mut u64,
    processor: &mut Processor,
) -> FabricTurn
    requires set { set.now ≡ words.now.key.set }
    requires kind { kind_at words.now.key.set.topo post.now.p ≡ Some kind }
    requires stands { UnitStands words.now.key words.now.table_id seat.old post.now status.old processor.old }
    ensures left { UnitLeft words.now.key post.now status.new seat.old seat.new }
    ensures unit { IsUnitOf words.now.key post.now.p processor.new (mine seat.new.me.0 post.now.index) }
    ensures turn { IsUnitTurn words.now.key post.now.p post.now.index result seat.old.me.0 seat.new.me.0 processor.old processor.new }
{
    match (kind, processor) {
        (ProcKind::Tile, Processor::Tile(tile)) => turn_tile(set, words, seat, post, status, tile),
        (ProcKind::Switch, Processor::Switch(switch)) => {
            turn_switch(words, seat, post, status, switch)
        }
        (ProcKind::Source, Processor::Source(port)) => {
            turn_source(set, words, seat, post, status, port)
        }
        (ProcKind::Sink, Processor::Sink(port)) => turn_sink(words, seat, post, status, port),
        _ => unreachable!(),
    }
}
