//! The boxes of tiles and switches.
ghost use Rattle.std.specs.Prelude.{◌≡◌, ◌+◌, ◌<◌, ◌≤◌, ◌++◌, length};
ghost use Rattle.raw_io.specs.Writing.{Writes};
ghost use Rattle.raw_grid.specs.Topology.{tile_count, proc_count};
ghost use Rattle.raw_picture.specs.Boxes.{box_class, box_title, box_with, box_of, switch_corner, boxes};

use crate::course::{Point, cell};
use crate::drawn::Drawn;
use crate::forms::{CLOSE, OPEN, labelled, push_labelled, rect, text, title};
use crate::layout::{BOX_HEIGHT, SWITCH_LEFT, SWITCH_TOP, SWITCH_WIDTH, TILE_WIDTH};
use crate::names::{Progress, first_word, no_code, no_switch_code, progress_of, shown_mark};
use crate::told::is_told;
use raw_grid::{ProcId, Topo};
use raw_io::{Failed, Sink, put_each};
use raw_names::push_processor_name;
use raw_serial::Machine;
use raw_state_text::Line;

/// The class of a box, by the mark that it shows and whether its processor is told.
#[tactic(auto, unfolding(crate::specs::Boxes::box_class))]
pub(crate) fn box_class(mark: &[u8], on: bool) -> Line
    requires { length mark.now ≤ 26 }
    ensures class { result ≡ box_class mark.now on }
    ensures len { length result ≤ 33 }
{
    let mut line = Line::new();
    line.push_text(b"box ");
    line.push_text(first_word(mark));
    line.push_text(if on { b" on" } else { b"" });
    line
}

// What the title of the box of a tile or a switch says.
#[tactic(auto, unfolding(crate::specs::Boxes::box_title))]
fn box_title(topo: &Topo, p: ProcId, mark: &[u8], far: Progress) -> Line
    requires there { p.0 < proc_count topo.now }
    requires mark { length mark.now ≤ 26 }
    ensures text { result ≡ box_title topo.now p.0 mark.now far }
    ensures len { length result ≤ 165 }
{
    let mut line = Line::new();
    push_processor_name(&mut line, topo, p);
    push_labelled(&mut line, b", processor ", p.0);
    line.push_text(b": ");
    line.push_text(mark);
    line.push_text(b", count ");
    line.push_number(far.count);
    push_labelled(&mut line, b", pc ", far.pc);
    line
}

// What a box shows of its processor.
#[derive(Clone, Copy)]
struct Shown<'l> {
    mark: &'l [u8],
    on: bool,
    far: Progress,
}

// Puts the box of a tile or a switch at a point, as wide as this.
#[tactic(auto, unfolding(crate::specs::Boxes::box_with))]
fn put_box_with<K: Sink>(
    topo: &Topo,
    p: ProcId,
    at: Point,
    width: u32,
    shown: Shown<'_>,
    out: &mut K,
) -> Result<(), Failed>
    requires there { p.0 < proc_count topo.now }
    requires right { at.x ≤ 200000 }
    requires below { at.y ≤ 200000 }
    requires wide { 8 ≤ width }
    requires narrow { width ≤ SWITCH_WIDTH }
    requires mark { length shown.mark.now ≤ 26 }
    ensures { Writes (K.sight out.old) (K.sight out.new)
        (box_with topo.now p.0 at width shown.entry.mark.now shown.entry.on shown.entry.far) result }
{
    let title = title(box_title(topo, p, shown.mark, shown.far).as_bytes());
    let class = box_class(shown.mark, shown.on);
    let area = rect(class.as_bytes(), at.x, at.y, width, BOX_HEIGHT, 4);
    let mut name = Line::new();
    push_processor_name(&mut name, topo, p);
    let name = text(b"name", at.x + 8, at.y + 20, name.as_bytes());
    let number = labelled(b"#", u64::from(p.0));
    let number = text(b"soft end", at.x + width - 8, at.y + 20, number.as_bytes());
    let mark = text(b"mark", at.x + 8, at.y + 39, shown.mark);
    let count = labelled(b"count ", shown.far.count);
    let count = text(b"plain", at.x + 8, at.y + 57, count.as_bytes());
    let pc = labelled(b"pc ", u64::from(shown.far.pc));
    let pc = text(b"plain", at.x + 8, at.y + 74, pc.as_bytes());
    let lines = [
        OPEN,
        title.as_bytes(),
        area.as_bytes(),
        name.as_bytes(),
        number.as_bytes(),
        mark.as_bytes(),
        count.as_bytes(),
        pc.as_bytes(),
        CLOSE,
    ];
    put_each(out, &lines)
}

// Puts the box of processor `p`, a tile or a switch.
#[tactic(auto, unfolding(crate::specs::Boxes::box_of))]
fn put_box<K: Sink>(
    drawn: &Drawn<'_, '_>,
    p: ProcId,
    empty: bool,
    at: Point,
    width: u32,
    out: &mut K,
) -> Result<(), Failed>
    requires there { p.0 < proc_count drawn.now.machine.now.set.topo }
    requires right { at.x ≤ 200000 }
    requires below { at.y ≤ 200000 }
    requires wide { 8 ≤ width }
    requires narrow { width ≤ SWITCH_WIDTH }
    ensures { Writes (K.sight out.old) (K.sight out.new)
        (box_of drawn.now.machine.now.set drawn.now.machine.now.state p.0 empty at width) result }
{
    let mark = shown_mark(drawn.machine, p, empty);
    let shown = Shown {
        mark: mark.as_bytes(),
        on: is_told(drawn, p),
        far: progress_of(drawn.machine, p),
    };
    put_box_with(&drawn.machine.set().topo, p, at, width, shown, out)
}

/// Puts the box of a tile, and that of its switch.
#[tactic(auto, unfolding(crate::specs::Boxes::boxes), using(raw_io::proofs::Chains::chained))]
pub(crate) fn put_boxes<K: Sink>(drawn: &Drawn<'_, '_>, t: u32, out: &mut K) -> Result<(), Failed>
    requires { t < tile_count drawn.now.machine.now.set.topo }
    ensures { Writes (K.sight out.old) (K.sight out.new) (boxes drawn.now.machine.now.set drawn.now.machine.now.state t) result }
{
    let set = drawn.machine.set();
    let c = cell(&set.topo, t);
    let beside = Point {
        x: c.x + SWITCH_LEFT,
        y: c.y + SWITCH_TOP,
    };
    let switch = ProcId(set.topo.tiles() + t);
    put_box(drawn, ProcId(t), no_code(set, t), c, TILE_WIDTH, out)?;
    put_box(
        drawn,
        switch,
        no_switch_code(set, t),
        beside,
        SWITCH_WIDTH,
        out,
    )
}
