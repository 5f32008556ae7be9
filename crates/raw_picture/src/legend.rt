//! The legend: an arrow of each kind, and what it means.
ghost use Rattle.std.specs.Prelude.{◌≡◌, ◌≤◌, length};
ghost use Rattle.raw_io.specs.Writing.{Writes};
ghost use Rattle.raw_picture.specs.Places.{IsCourse};
ghost use Rattle.raw_picture.specs.Frame.{frame_of};
ghost use Rattle.raw_picture.specs.Legend.{legend_course, legend_text, wire_meaning, wire_row, wait_rows, legend};

use crate::course::{Channel, Course, along};
use crate::forms::{arrow, tag, text};
use crate::frame::frame_of;
use crate::layout::{LEGEND_HEIGHT, LEGEND_LEFT, LEGEND_TEXT, SHORT};
use crate::wires::{arrow_class, number_class};
use raw_grid::{Net, Side, Topo};
use raw_io::{Failed, Sink, put_each};
use raw_state_text::Line;

// The course of a line of the legend with this track.
fn legend_course(topo: &Topo, track: u32) -> Course
    requires { track ≤ 60 }
    ensures value { result ≡ legend_course (frame_of topo.now) track }
    ensures course { IsCourse result }
{
    let f = frame_of(topo);
    Course {
        channel: Channel {
            x: f.left + LEGEND_LEFT,
            y: f.bottom - LEGEND_HEIGHT,
            length: SHORT,
        },
        way: Side::E,
        track,
    }
}

// What a line of the legend says.
#[tactic(auto, unfolding(crate::specs::Legend::legend_text))]
fn legend_text(topo: &Topo, track: u32, shown: &[u8]) -> Line
    requires track { track ≤ 60 }
    requires shown { length shown.now ≤ 105 }
    ensures { result ≡ legend_text (frame_of topo.now) track shown.now }
{
    let f = frame_of(topo);
    text(
        b"soft",
        f.left + LEGEND_TEXT,
        f.bottom - LEGEND_HEIGHT + track + 4,
        shown,
    )
}

// What the row of a wire of this network says.
fn wire_meaning(net: Net) -> &'static [u8]
    ensures text { result.now ≡ wire_meaning net }
    ensures short { length result.now ≤ 105 }
{
    match net {
        Net::One => b"a wire of network 1 that holds 3 values",
        Net::Two => b"a wire of network 2 that holds 3 values",
    }
}

// Puts the row of a wire of this network: that of network 2 stands 20 below that of network 1.
#[tactic(auto, unfolding(crate::specs::Legend::wire_row))]
fn put_wire_row<K: Sink>(topo: &Topo, net: Net, out: &mut K) -> Result<(), Failed>
    ensures { Writes (K.sight out.old) (K.sight out.new) (wire_row (frame_of topo.now) net) result }
{
    let track = 20 * (u32::from(net.number()) - 1);
    let course = legend_course(topo, track);
    let arrow = arrow(arrow_class(net), course, 15);
    let at = along(course, 8);
    let number = text(number_class(net), at.x, at.y + 4, b"3");
    let said = legend_text(topo, track, wire_meaning(net));
    put_each(out, &[arrow.as_bytes(), number.as_bytes(), said.as_bytes()])
}

// Puts the rows of the waits.
#[tactic(auto, unfolding(crate::specs::Legend::wait_rows))]
fn put_wait_rows<K: Sink>(topo: &Topo, out: &mut K) -> Result<(), Failed>
    ensures { Writes (K.sight out.old) (K.sight out.new) (wait_rows (frame_of topo.now)) result }
{
    let told = legend_course(topo, 40);
    let told_arrow = arrow(b"wait", told, 2);
    let tag = tag(told, 8);
    let told_text = legend_text(topo, 40, b"a wait of the cycle or chain, on wire 8");
    let thin_arrow = arrow(b"thin", legend_course(topo, 60), 2);
    let thin_text = legend_text(topo, 60, b"another wait; each points to who is waited for");
    let lines = [
        told_arrow.as_bytes(),
        tag.area.as_bytes(),
        tag.text.as_bytes(),
        told_text.as_bytes(),
        thin_arrow.as_bytes(),
        thin_text.as_bytes(),
    ];
    put_each(out, &lines)
}

/// Puts the legend and the last line.
#[tactic(auto, unfolding(crate::specs::Legend::legend), using(raw_io::proofs::Chains::chained))]
pub(crate) fn put_legend<K: Sink>(topo: &Topo, out: &mut K) -> Result<(), Failed>
    ensures { Writes (K.sight out.old) (K.sight out.new) (legend (frame_of topo.now)) result }
{
    put_wire_row(topo, Net::One, out)?;
    put_wire_row(topo, Net::Two, out)?;
    put_wait_rows(topo, out)?;
    put_each(out, &[b"</svg>\n"])
}
