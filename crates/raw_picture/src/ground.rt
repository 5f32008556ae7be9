//! The ground of a picture: the cells of the tiles, and the channels in which wires run.
ghost use Rattle.std.specs.Prelude.{◌≡◌, ◌<◌, ◌≤◌};
ghost use Rattle.raw_io.specs.Writing.{Writes};
ghost use Rattle.raw_grid.specs.Topology.{tile_count};
ghost use Rattle.raw_picture.specs.Places.{port_lane};
ghost use Rattle.raw_picture.specs.Ground.{cell_ground, channel_ground, neighbour_ground, link_ground, lane_ground};

use crate::course::{cell, corner_at, lane};
use crate::forms::rect;
use crate::layout::{
    BOX_HEIGHT, CELL_EDGE, CELL_HEIGHT, CELL_WIDTH, CHANNEL, DOWN_LEFT, LANE, LANES_LEFT,
    LANES_TOP, LONG, NORTH_GAP, NORTH_LENGTH, PORT_HEIGHT, SHORT, SOUTH_LEFT, SWITCH_BOTTOM,
    SWITCH_RIGHT, SWITCH_TOP, WEST_START,
};
use raw_grid::{MAX_PROCS, PortKind, PortPlace, Side, Topo};
use raw_io::{Failed, Sink, put_each};
use raw_state_text::Line;

/// The ground of a tile.
#[tactic(auto, unfolding(crate::specs::Ground::cell_ground))]
pub(crate) fn cell_ground(topo: &Topo, t: u32) -> Line
    requires { t ≤ MAX_PROCS }
    ensures { result ≡ cell_ground topo.now t }
{
    let c = cell(topo, t);
    rect(
        b"cell",
        c.x - CELL_EDGE,
        c.y - CELL_EDGE,
        CELL_WIDTH,
        CELL_HEIGHT,
        6,
    )
}

// The ground of a channel.
fn channel_ground(x: u32, y: u32, width: u32, height: u32) -> Line
    ensures { result ≡ channel_ground x y width height }
{
    rect(b"link", x, y, width, height, 0)
}

// The ground of the channel to a neighbour, where there is one.
fn neighbour_ground(there: bool, x: u32, y: u32, width: u32, height: u32) -> Line
    ensures { result ≡ neighbour_ground there x y width height }
{
    if there {
        channel_ground(x, y, width, height)
    } else {
        Line::new()
    }
}

/// Puts the channels of a tile.
#[tactic(auto, unfolding(crate::specs::Ground::link_ground))]
pub(crate) fn put_links<K: Sink>(topo: &Topo, t: u32, out: &mut K) -> Result<(), Failed>
    requires { t ≤ MAX_PROCS }
    ensures { Writes (K.sight out.old) (K.sight out.new) (link_ground topo.now t) result }
{
    let cols = u32::from(topo.cols());
    let c = cell(topo, t);
    let own = channel_ground(c.x + DOWN_LEFT, c.y + BOX_HEIGHT, CHANNEL, SHORT);
    let east = neighbour_ground(
        t % cols + 1 < cols,
        c.x + SWITCH_RIGHT,
        c.y + SWITCH_TOP,
        SHORT,
        CHANNEL,
    );
    let south = neighbour_ground(
        t / cols + 1 < u32::from(topo.rows()),
        c.x + SOUTH_LEFT,
        c.y + SWITCH_BOTTOM,
        CHANNEL,
        LONG,
    );
    let lines = [own.as_bytes(), east.as_bytes(), south.as_bytes()];
    put_each(out, &lines)
}

/// The lane of the wire of a port, 0 to 3.
pub(crate) fn port_lane(place: PortPlace) -> u32
    ensures value { result ≡ port_lane place }
    ensures few { result ≤ 3 }
{
    let way = match place.kind {
        PortKind::Source => place.side.opposite(),
        PortKind::Sink => place.side,
    };
    lane(place.net, way)
}

/// The ground of the lane of the port at this place.
#[tactic(auto, unfolding(crate::specs::Ground::lane_ground))]
pub(crate) fn lane_ground(place: PortPlace) -> Line
    ensures { result ≡ lane_ground place }
{
    let c = corner_at(u32::from(place.x), u32::from(place.y));
    let k = port_lane(place);
    match place.side {
        Side::W => channel_ground(
            c.x - WEST_START,
            c.y + LANES_TOP + LANE * k,
            SHORT,
            PORT_HEIGHT,
        ),
        Side::E => channel_ground(
            c.x + SWITCH_RIGHT,
            c.y + LANES_TOP + LANE * k,
            SHORT,
            PORT_HEIGHT,
        ),
        Side::N => {
            channel_ground(
                c.x + LANES_LEFT + LANE * k,
                c.y - (NORTH_GAP + LANE * k),
                PORT_HEIGHT,
                NORTH_LENGTH + LANE * k,
            )
        }
        Side::S => channel_ground(
            c.x + LANES_LEFT + LANE * k,
            c.y + SWITCH_BOTTOM,
            PORT_HEIGHT,
            SHORT + LANE * k,
        ),
    }
}
