//! The waits: an arrow for each processor that waits, to the one that it waits for.
ghost use Rattle.std.specs.Prelude.{◌≡◌, ◌<◌, ◌≤◌, length};
ghost use Rattle.raw_io.specs.Writing.{Writes};
ghost use Rattle.raw_grid.specs.Topology.{proc_count};
ghost use Rattle.raw_grid.specs.Wires.{wires_of};
ghost use Rattle.raw_picture.specs.Places.{IsCourse};
ghost use Rattle.raw_picture.specs.Flows.{wire_tag, wait_arrow, wait_group, wait_drawn};

use crate::course::{Course, wait_course};
use crate::drawn::Drawn;
use crate::forms::{CLOSE, OPEN, arrow, tag, title};
use crate::names::wait_text;
use crate::told::is_told;
use raw_grid::{ProcId, Topo, WireId};
use raw_io::{Failed, Sink, put_each};

// Puts the arrow of a wait: that of one which is told has a tag.
#[tactic(auto, unfolding(crate::specs::Flows::wait_arrow, crate::specs::Flows::wire_tag))]
fn put_wait_arrow<K: Sink>(
    course: Course,
    wire: WireId,
    on: bool,
    out: &mut K,
) -> Result<(), Failed>
    requires { IsCourse course }
    ensures { Writes (K.sight out.old) (K.sight out.new) (wait_arrow course wire.0 on) result }
{
    if !on {
        let thin = arrow(b"thin", course, 2);
        return put_each(out, &[thin.as_bytes()]);
    }
    let arrow = arrow(b"wait", course, 2);
    let tag = tag(course, wire.0);
    put_each(
        out,
        &[arrow.as_bytes(), tag.area.as_bytes(), tag.text.as_bytes()],
    )
}

// Puts the group of the wait of processor `p` on a wire.
#[tactic(auto, unfolding(crate::specs::Flows::wait_group), using(raw_io::proofs::Chains::chained))]
fn put_wait_group<K: Sink>(
    topo: &Topo,
    p: ProcId,
    wire: WireId,
    on: bool,
    out: &mut K,
) -> Result<(), Failed>
    requires there { p.0 < proc_count topo.now }
    requires wire { wire.0 < length (wires_of topo.now) }
    ensures { Writes (K.sight out.old) (K.sight out.new)
        (wait_group topo.now p.0 wire.0 on) result }
{
    let title = title(wait_text(topo, p, wire).as_bytes());
    put_each(out, &[OPEN, title.as_bytes()])?;
    put_wait_arrow(wait_course(topo, p, wire), wire, on, out)?;
    put_each(out, &[CLOSE])
}

/// Puts what is drawn of a processor's wait: nothing where it waits for none.
#[tactic(auto, unfolding(crate::specs::Flows::wait_drawn))]
pub(crate) fn put_wait<K: Sink>(drawn: &Drawn<'_, '_>, p: ProcId, out: &mut K) -> Result<(), Failed>
    requires { p.0 < proc_count drawn.now.machine.now.set.topo }
    ensures { Writes (K.sight out.old) (K.sight out.new)
        (wait_drawn drawn.now.machine.now.set drawn.now.machine.now.state p.0) result }
{
    match drawn.machine.first_wait(p) {
        None => Ok(()),
        Some(wait) => {
            let on = is_told(drawn, p);
            put_wait_group(&drawn.machine.set().topo, p, wait.wire, on, out)
        }
    }
}
