//! What stands at the other sides of the ends of each processor.
ghost use Rattle.std.specs.Prelude.{◌≡◌, ℕ, ◌<◌, IfOk};
ghost use Rattle.raw_model.specs.Program.{ProgramSet, IsSet};
ghost use Rattle.raw_processor.specs.Ends.{AreEndsOf};
ghost use Rattle.raw_fabric_rule.specs.declared.layout.TheConstants.{SIDES};
ghost use Rattle.raw_fabric_rule.specs.ByEnds.{wires, wire_at};
ghost use Rattle.raw_fabric_step.specs.Posts.{IsSide};
ghost use Rattle.raw_fabric.specs.Opened.{AreSides, AreAllSides};

use raw_fabric_rule::{END_COUNT, SIDES};
use raw_fabric_step::Side;
use raw_grid::{ProcId, Topo, WireId};
use raw_model::Set;
use raw_processor::EndWires;
use raw_serial::Machine;
use std::alloc::{AllocError, Global};

// What stands in the place of an end that has no wire.
fn no_side() -> Side {
    Side {
        wire: 0,
        other: 0,
        end: 0,
    }
}

// What stands at the other side of an end with this number, where it has a wire.
fn side_at(set: &Set, ends: &EndWires, end: usize) -> Side
    requires valid { IsSet set.now }
    requires ends { (p : ℕ) × AreEndsOf set.now.topo p ends.now }
    requires end { end < SIDES }
    ensures { (p : ℕ) → AreEndsOf set.now.topo p ends.now → wire_at set.now p end < wires set.now → IsSide set.now p end result }
{
    let topo: &Topo = &set.topo;
    if end < END_COUNT {
        match ends.inputs[end] {
            Some(wire) => Side {
                wire,
                other: topo.producer(WireId(wire)).0,
                end: END_COUNT as u8 + topo.producer_end(WireId(wire)),
            },
            None => no_side(),
        }
    } else {
        match ends.outputs[end - END_COUNT] {
            Some(wire) => Side {
                wire,
                other: topo.consumer(WireId(wire)).0,
                end: topo.consumer_end(WireId(wire)),
            },
            None => no_side(),
        }
    }
}

// The other sides of the ends of a processor.
fn sides_of(set: &Set, ends: &EndWires) -> [Side; SIDES]
    requires valid { IsSet set.now }
    requires ends { (p : ℕ) × AreEndsOf set.now.topo p ends.now }
    ensures { (p : ℕ) → AreEndsOf set.now.topo p ends.now → AreSides set.now p result }
{
    let mut sides = [no_side(); SIDES];
    for end in 0..SIDES {
        sides[end] = side_at(set, ends, end);
    }
    sides
}

/// The other sides of the ends of each processor of a machine.
pub(crate) fn all_sides(
    alloc: Global,
    machine: &Machine<'_>,
) -> Result<Vec<[Side; SIDES]>, AllocError>
    ensures { IfOk result (λ sides. AreAllSides machine.now.set sides.items) }
{
    let set = machine.set();
    let procs = machine.procs();
    let mut sides = Vec::with_capacity(alloc, procs as usize)?;
    for p in 0..procs {
        sides.push_reserved(sides_of(set, machine.ends(ProcId(p))));
    }
    Ok(sides)
}
