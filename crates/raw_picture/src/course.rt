//! Where the pieces of a picture stand: cells, channels, and the courses of wires and waits.
ghost use Rattle.std.specs.Prelude.{◌≡◌, ◌+◌, ◌-◌, ◌*◌, ◌<◌, ◌≤◌, length};
ghost use Rattle.raw_grid.specs.Topology.{tile_count, proc_count};
ghost use Rattle.raw_grid.specs.Wires.{wires_of};
ghost use Rattle.raw_picture.specs.Places.{corner_at, cell, lane, IsCorner, IsChannel, IsCourse, channel_at, along, net_at, side_at, place_of, run_of, wire_course, wait_way, wait_track, wait_course, ends_of};

use crate::layout::{
    BOX_HEIGHT, COLUMN, DOWN_LEFT, FIRST_X, FIRST_Y, LANE, LONG, NETWORK, NORTH_GAP, NORTH_LENGTH,
    NORTH_START, ROW, SHORT, SOUTH_LEFT, SWITCH_BOTTOM, SWITCH_RIGHT, SWITCH_TOP, WAIT_TRACK,
    WEST_START, WIRE_TRACK,
};
use raw_grid::{MAX_PROCS, Net, ProcId, Side, Topo, WireId, law_wires};

/// A point of the picture: how far it lies to the right of and below the origin.
#[derive(Clone, Copy)]
pub(crate) struct Point {
    pub(crate) x: u32,
    pub(crate) y: u32,
}

/// A channel: its upper left corner, and how long it is. It has four lanes.
#[derive(Clone, Copy)]
pub(crate) struct Channel {
    pub(crate) x: u32,
    pub(crate) y: u32,
    pub(crate) length: u32,
}

/// What a channel joins to the switch of a cell: the tile, the neighbour at a side, or a port there.
#[derive(Clone, Copy)]
pub(crate) enum Beside {
    Tile,
    Neighbour(Side),
    Port(Side),
}

/// Where a wire lies: in which cell, between its switch and what, and the side that it leads to.
#[derive(Clone, Copy)]
pub(crate) struct WirePlace {
    pub(crate) tile: u32,
    pub(crate) beside: Beside,
    pub(crate) way: Side,
}

/// Where an arrow runs: its channel, the side that it points to, and how far it lies from the edge of the
/// channel.
#[derive(Clone, Copy)]
pub(crate) struct Course {
    pub(crate) channel: Channel,
    pub(crate) way: Side,
    pub(crate) track: u32,
}

/// How a wire runs: its channel, the side that it leads to, and its network.
#[derive(Clone, Copy)]
pub(crate) struct Run {
    pub(crate) channel: Channel,
    pub(crate) way: Side,
    pub(crate) net: Net,
}

/// The two ends of a wire: its producer and the index of the output there, its consumer and the index of the
/// input.
#[derive(Clone, Copy)]
pub(crate) struct WireEnds {
    pub(crate) from: u32,
    pub(crate) output: u8,
    pub(crate) to: u32,
    pub(crate) input: u8,
}

// The corner of the cell in a column and a row.
pub(crate) fn corner_at(x: u32, y: u32) -> Point
    requires column { x ≤ MAX_PROCS }
    requires row { y ≤ MAX_PROCS }
    ensures value { result ≡ corner_at x y }
    ensures corner { IsCorner result }
{
    Point {
        x: FIRST_X + COLUMN * x,
        y: FIRST_Y + ROW * y,
    }
}

// The corner of the cell of a tile.
pub(crate) fn cell(topo: &Topo, tile: u32) -> Point
    requires { tile ≤ MAX_PROCS }
    ensures value { result ≡ cell topo.now tile }
    ensures corner { IsCorner result }
{
    let cols = u32::from(topo.cols());
    corner_at(tile % cols, tile / cols)
}

// The lane of a wire of this network that leads this way, 0 to 3.
pub(crate) fn lane(net: Net, way: Side) -> u32
    ensures value { result ≡ lane net way }
    ensures few { result ≤ 3 }
{
    let back = match way {
        Side::N | Side::W => 1,
        Side::E | Side::S => 0,
    };
    2 * (u32::from(net.number()) - 1) + back
}

// The channel between the switch of a cell and what is beside it, by the lane of its wire.
fn channel_at(c: Point, beside: Beside, lane: u32) -> Channel
    requires corner { IsCorner c }
    requires lane { lane ≤ 3 }
    ensures value { result ≡ channel_at c beside lane }
    ensures channel { IsChannel result }
{
    let (x, y, length) = match beside {
        Beside::Tile => (c.x + DOWN_LEFT, c.y + BOX_HEIGHT, SHORT),
        Beside::Neighbour(Side::E) | Beside::Port(Side::E) => {
            (c.x + SWITCH_RIGHT, c.y + SWITCH_TOP, SHORT)
        }
        Beside::Neighbour(Side::W) | Beside::Port(Side::W) => {
            (c.x - WEST_START, c.y + SWITCH_TOP, SHORT)
        }
        Beside::Neighbour(Side::N) => (c.x + SOUTH_LEFT, c.y - NORTH_START, LONG),
        Beside::Neighbour(Side::S) => (c.x + SOUTH_LEFT, c.y + SWITCH_BOTTOM, LONG),
        Beside::Port(Side::N) => (
            c.x + SOUTH_LEFT,
            c.y - (NORTH_GAP + LANE * lane),
            NORTH_LENGTH + LANE * lane,
        ),
        Beside::Port(Side::S) => (c.x + SOUTH_LEFT, c.y + SWITCH_BOTTOM, SHORT + LANE * lane),
    };
    Channel { x, y, length }
}

// The point of a course at this distance from its beginning.
pub(crate) fn along(course: Course, d: u32) -> Point
    requires course { IsCourse course }
    requires within { d ≤ course.channel.length }
    ensures { result ≡ along course d }
{
    let channel = course.channel;
    let (x, y) = match course.way {
        Side::E => (channel.x + d, channel.y + course.track),
        Side::W => (channel.x + channel.length - d, channel.y + course.track),
        Side::S => (channel.x + course.track, channel.y + d),
        Side::N => (channel.x + course.track, channel.y + channel.length - d),
    };
    Point { x, y }
}

// The network of an end with this index.
fn net_at(index: u8) -> Net
    ensures { result ≡ net_at index }
{
    if index < 5 { Net::One } else { Net::Two }
}

// The side of a switch at which its end with this index is.
fn side_at(index: u8) -> Side
    ensures { result ≡ side_at index }
{
    match index % 5 {
        0 => Side::N,
        1 => Side::E,
        2 => Side::S,
        _ => Side::W,
    }
}

// Where the wire with these ends lies.
#[tactic(auto, unfolding(crate::specs::Places::place_of))]
fn place_of(topo: &Topo, ends: WireEnds) -> WirePlace
    requires from { ends.from < MAX_PROCS }
    requires to { ends.to < MAX_PROCS }
    ensures value { result ≡ place_of topo.now ends }
    ensures there { result.tile ≤ MAX_PROCS }
{
    let tiles = topo.tiles();
    if ends.from < tiles {
        return WirePlace {
            tile: ends.from,
            beside: Beside::Tile,
            way: Side::S,
        };
    }
    if ends.to < tiles {
        return WirePlace {
            tile: ends.to,
            beside: Beside::Tile,
            way: Side::N,
        };
    }
    if ends.from < 2 * tiles {
        let side = side_at(ends.output);
        let beside = if 2 * tiles <= ends.to {
            Beside::Port(side)
        } else {
            Beside::Neighbour(side)
        };
        return WirePlace {
            tile: ends.from - tiles,
            beside,
            way: side,
        };
    }
    let side = side_at(ends.input);
    WirePlace {
        tile: ends.to - tiles,
        beside: Beside::Port(side),
        way: side.opposite(),
    }
}

// How the wire with these ends runs.
#[tactic(auto, unfolding(crate::specs::Places::run_of))]
pub(crate) fn run_of(topo: &Topo, ends: WireEnds) -> Run
    requires from { ends.from < MAX_PROCS }
    requires to { ends.to < MAX_PROCS }
    ensures value { result ≡ run_of topo.now ends }
    ensures channel { IsChannel result.channel }
{
    let place = place_of(topo, ends);
    let net = net_at(ends.output);
    let corner = cell(topo, place.tile);
    Run {
        channel: channel_at(corner, place.beside, lane(net, place.way)),
        way: place.way,
        net,
    }
}

// The ends of a wire.
pub(crate) fn ends_of(topo: &Topo, wire: WireId) -> WireEnds
    requires { wire.0 < length (wires_of topo.now) }
    ensures value { result ≡ ends_of topo.now wire.0 }
    ensures from { result.from < proc_count topo.now }
    ensures to { result.to < proc_count topo.now }
    ensures few { proc_count topo.now ≤ MAX_PROCS }
{
    law_wires();
    let _procs = topo.procs();
    WireEnds {
        from: topo.producer(wire).0,
        output: topo.producer_end(wire),
        to: topo.consumer(wire).0,
        input: topo.consumer_end(wire),
    }
}

// The course of the arrow of a wire that runs so.
pub(crate) fn wire_course(run: Run) -> Course
    requires { IsChannel run.channel }
    ensures value { result ≡ wire_course run }
    ensures course { IsCourse result }
{
    Course {
        channel: run.channel,
        way: run.way,
        track: WIRE_TRACK + LANE * lane(run.net, run.way),
    }
}

// The side that a wait of processor `p` on a wire points to: that to which the wire leads where `p` is its
// producer, and else the opposite one.
fn wait_way(ends: WireEnds, p: ProcId, run: Run) -> Side
    ensures { result ≡ wait_way ends p.0 run }
{
    if ends.from == p.0 {
        run.way
    } else {
        run.way.opposite()
    }
}

// The track of a wait of processor `p` on a wire.
fn wait_track(topo: &Topo, ends: WireEnds, p: ProcId, run: Run) -> u32
    ensures value { result ≡ wait_track topo.now ends p.0 run }
    ensures few { result ≤ 79 }
{
    let tiles = topo.tiles();
    if ends.from < tiles || ends.to < tiles {
        let first = if p.0 < tiles {
            WAIT_TRACK
        } else {
            WAIT_TRACK + LANE
        };
        first + NETWORK * (u32::from(run.net.number()) - 1)
    } else {
        WAIT_TRACK + LANE * lane(run.net, run.way)
    }
}

// The course of the arrow of a wait of processor `p` on a wire.
#[tactic(auto, unfolding(crate::specs::Places::wait_course))]
pub(crate) fn wait_course(topo: &Topo, p: ProcId, wire: WireId) -> Course
    requires { wire.0 < length (wires_of topo.now) }
    ensures value { result ≡ wait_course topo.now p.0 wire.0 }
    ensures course { IsCourse result }
{
    let ends = ends_of(topo, wire);
    let run = run_of(topo, ends);
    Course {
        channel: run.channel,
        way: wait_way(ends, p, run),
        track: wait_track(topo, ends, p, run),
    }
}
