//! The frame of a picture: its edges.
ghost use Rattle.std.specs.Prelude.{◌≡◌, ◌≤◌};
ghost use Rattle.raw_picture.specs.Frame.{is_at, has_port, frame_of, width, height, IsFrame};

use crate::layout::{
    COLUMN, FIRST_X, FIRST_Y, LEAST_WIDTH, NO_EAST, NO_NORTH, NO_SOUTH, NO_WEST, ROW, TO_EAST,
    TO_SOUTH,
};
use raw_grid::{PortPlace, Side, Topo};

/// The edges of a picture.
#[derive(Clone, Copy)]
pub(crate) struct Frame {
    pub(crate) left: u32,
    pub(crate) top: u32,
    pub(crate) right: u32,
    pub(crate) bottom: u32,
}

impl Frame {
    /// How wide the picture is.
    pub(crate) fn width(self) -> u32
        requires { IsFrame self }
        ensures { result ≡ width self }
    {
        (self.right - self.left).max(LEAST_WIDTH)
    }

    /// How high the picture is.
    pub(crate) fn height(self) -> u32
        requires { IsFrame self }
        ensures { result ≡ height self }
    {
        self.bottom - self.top
    }
}

// Whether a port stands at this side.
fn is_at(side: Side, place: PortPlace) -> bool
    ensures { result ≡ is_at side place }
{
    place.side.number() == side.number()
}

// Whether some port is at this side.
#[tactic(auto, unfolding(crate::specs::Frame::has_port))]
fn has_port(topo: &Topo, side: Side) -> bool
    ensures { result ≡ has_port topo.now side }
{
    for i in 0..topo.ports() {
        if is_at(side, topo.place_of(i)) {
            return true;
        }
    }
    false
}

/// The edges of the picture of a grid.
#[tactic(auto, unfolding(crate::specs::Frame::frame_of))]
pub(crate) fn frame_of(topo: &Topo) -> Frame
    ensures value { result ≡ frame_of topo.now }
    ensures bounds { IsFrame result }
{
    let left = if has_port(topo, Side::W) { 0 } else { NO_WEST };
    let top = if has_port(topo, Side::N) { 0 } else { NO_NORTH };
    let east = if has_port(topo, Side::E) {
        TO_EAST
    } else {
        NO_EAST
    };
    let south = if has_port(topo, Side::S) {
        TO_SOUTH
    } else {
        NO_SOUTH
    };
    Frame {
        left,
        top,
        right: FIRST_X + COLUMN * u32::from(topo.cols()) + east,
        bottom: FIRST_Y + ROW * u32::from(topo.rows()) + south,
    }
}
