//! The boxes of ports.
ghost use Rattle.std.specs.Prelude.{◌≡◌, ◌+◌, ◌*◌, ◌<◌, ◌≤◌, ◌++◌, Some, length, slice_get};
ghost use Rattle.raw_io.specs.Writing.{Writes};
ghost use Rattle.raw_grid.specs.Topology.{tile_count, proc_count};
ghost use Rattle.raw_picture.specs.Places.{corner_at, port_lane};
ghost use Rattle.raw_picture.specs.Boxes.{port_corner, done_word, most_at, port_title, port_text, port_texts, port_box_with, port_box};

use crate::boxes::box_class;
use crate::course::{Point, corner_at};
use crate::drawn::Drawn;
use crate::forms::{CLOSE, OPEN, labelled, push_labelled, rect, text, title};
use crate::ground::port_lane;
use crate::layout::{
    EAST_PORT, LANE, LANES_TOP, NORTH_PORT, PORT_HEIGHT, PORT_LEFT, PORT_WIDTH, SOUTH_PORT,
    WEST_PORT,
};
use crate::names::progress_of;
use crate::told::is_told;
use raw_grid::{PortKind, PortPlace, ProcId, Side, Topo};
use raw_io::{Failed, Sink, put_each};
use raw_model::Set;
use raw_names::push_processor_name;
use raw_state_text::Line;

// Where the box of the port at this place stands.
fn port_corner(place: PortPlace) -> Point
    ensures value { result ≡ port_corner place.side (corner_at place.x place.y) (port_lane place) }
    ensures right { result.x ≤ 200000 }
    ensures below { result.y ≤ 200000 }
{
    let c = corner_at(u32::from(place.x), u32::from(place.y));
    let k = port_lane(place);
    let (x, y) = match place.side {
        Side::W => (c.x - WEST_PORT, c.y + LANES_TOP + LANE * k),
        Side::E => (c.x + EAST_PORT, c.y + LANES_TOP + LANE * k),
        Side::N => (c.x - PORT_LEFT + LANE * k, c.y - (NORTH_PORT + LANE * k)),
        Side::S => (c.x - PORT_LEFT + LANE * k, c.y + SOUTH_PORT + LANE * k),
    };
    Point { x, y }
}

// The word for what a port of this kind has done.
fn done_word(kind: PortKind) -> &'static [u8]
    ensures text { result.now ≡ done_word kind }
    ensures short { length result.now ≤ 4 }
{
    match kind {
        PortKind::Source => b"sent",
        PortKind::Sink => b"got",
    }
}

// How many words a port puts in or takes out at most.
fn most_at(set: &Set, i: u32, kind: PortKind) -> u64
    requires { i < length set.now.topo.places }
    ensures { result ≡ most_at kind (slice_get set.now.ports i) }
{
    let port = &set.ports[i as usize];
    match kind {
        PortKind::Source => port.words.len() as u64,
        PortKind::Sink => u64::from(port.capacity),
    }
}

// How far a port is: what it has done, and how much that may get.
#[derive(Clone, Copy)]
struct Done {
    count: u64,
    most: u64,
}

// What the title of the box of a port says.
#[tactic(auto, unfolding(crate::specs::Boxes::port_title))]
fn port_title(topo: &Topo, p: ProcId, place: PortPlace, mark: &[u8], done: Done) -> Line
    requires there { p.0 < proc_count topo.now }
    requires mark { length mark.now ≤ 26 }
    ensures text { result ≡ port_title topo.now p.0 place mark.now done.count done.most }
    ensures len { length result ≤ 165 }
{
    let mut line = Line::new();
    push_processor_name(&mut line, topo, p);
    push_labelled(&mut line, b", processor ", p.0);
    line.push_text(b": ");
    line.push_text(mark);
    line.push_text(b", ");
    line.push_text(done_word(place.kind));
    line.push_text(b" ");
    line.push_number(done.count);
    line.push_text(b" of ");
    line.push_number(done.most);
    line
}

// What the box of a port shows.
#[tactic(auto, unfolding(crate::specs::Boxes::port_text))]
fn port_text(place: PortPlace, done: Done) -> Line
    ensures text { result ≡ port_text place done.count done.most }
    ensures len { length result ≤ 51 }
{
    let mut line = Line::new();
    line.push_text(place.kind.text().as_bytes());
    line.push_text(b" ");
    line.push_text(place.net.text().as_bytes());
    line.push_text(b": ");
    line.push_number(done.count);
    line.push_text(b"/");
    line.push_number(done.most);
    line
}

// Puts what the box of a port at a point shows, and its number.
fn put_port_texts<K: Sink>(
    side: Side,
    at: Point,
    p: ProcId,
    shown: &[u8],
    out: &mut K,
) -> Result<(), Failed>
    requires right { at.x ≤ 200000 }
    requires below { at.y ≤ 200000 }
    requires short { length shown.now ≤ 51 }
    ensures { Writes (K.sight out.old) (K.sight out.new) (port_texts side at p.0 shown.now) result }
{
    let number = labelled(b"#", u64::from(p.0));
    let (left, right) = match side {
        Side::E => (
            text(b"plain", at.x + 6, at.y + 12, shown),
            text(b"soft end", at.x + 190, at.y + 12, number.as_bytes()),
        ),
        Side::N | Side::S | Side::W => (
            text(b"soft", at.x + 6, at.y + 12, number.as_bytes()),
            text(b"plain end", at.x + 190, at.y + 12, shown),
        ),
    };
    put_each(out, &[left.as_bytes(), right.as_bytes()])
}

// What the box of a port shows of it.
#[derive(Clone, Copy)]
struct Shown<'l> {
    mark: &'l [u8],
    on: bool,
    done: Done,
}

// Puts the box of the port that is processor `p` and stands at this place.
#[tactic(auto, unfolding(crate::specs::Boxes::port_box_with), using(raw_io::proofs::Chains::chained))]
fn put_port_box_with<K: Sink>(
    topo: &Topo,
    p: ProcId,
    place: PortPlace,
    shown: Shown<'_>,
    out: &mut K,
) -> Result<(), Failed>
    requires there { p.0 < proc_count topo.now }
    requires mark { length shown.mark.now ≤ 26 }
    ensures { Writes (K.sight out.old) (K.sight out.new)
        (port_box_with topo.now p.0 place shown.entry.mark.now shown.entry.on shown.entry.done.count shown.entry.done.most) result }
{
    let at = port_corner(place);
    let title = title(port_title(topo, p, place, shown.mark, shown.done).as_bytes());
    let class = box_class(shown.mark, shown.on);
    let area = rect(class.as_bytes(), at.x, at.y, PORT_WIDTH, PORT_HEIGHT, 3);
    let text = port_text(place, shown.done);
    put_each(out, &[OPEN, title.as_bytes(), area.as_bytes()])?;
    put_port_texts(place.side, at, p, text.as_bytes(), out)?;
    put_each(out, &[CLOSE])
}

/// Puts the box of the port at this place, by its number in the list of ports.
#[tactic(auto, unfolding(crate::specs::Boxes::port_box))]
pub(crate) fn put_port_box<K: Sink>(
    drawn: &Drawn<'_, '_>,
    i: u32,
    place: PortPlace,
    out: &mut K,
) -> Result<(), Failed>
    requires { i < length drawn.now.machine.now.set.topo.places }
    ensures { Writes (K.sight out.old) (K.sight out.new)
        (port_box drawn.now.machine.now.set drawn.now.machine.now.state i place) result }
{
    let m = drawn.machine;
    let set = m.set();
    // Ports are the last processors.
    let p = ProcId(set.topo.procs() - set.topo.ports() + i);
    let mut mark = Line::new();
    mark.push_mark(m, p);
    let done = Done {
        count: progress_of(m, p).count,
        most: most_at(set, i, place.kind),
    };
    let shown = Shown {
        mark: mark.as_bytes(),
        on: is_told(drawn, p),
        done,
    };
    put_port_box_with(&set.topo, p, place, shown, out)
}
