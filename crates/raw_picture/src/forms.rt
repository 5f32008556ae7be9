//! The forms of which a picture is made, each a line that is built in place.
ghost use Rattle.std.specs.Prelude.{◌≡◌, ◌+◌, ◌≤◌, ◌++◌, length, codes, decimal};
ghost use Rattle.raw_picture.specs.Places.{IsCourse};
ghost use Rattle.raw_picture.specs.Forms.{rect, text_head, text, turned, title, stroke, arrow, tag_box, tag_text, labelled};

use crate::course::{Course, along};
use crate::layout::{MIDDLE, TAG_BEFORE, TAG_BESIDE, TAG_LENGTH, TAG_WIDTH};
use raw_grid::Side;
use raw_state_text::{LINE_SIZE, Line};

/// What stands before and behind the pieces of a group.
pub(crate) const OPEN: &[u8] = b"<g>\n";

pub(crate) const CLOSE: &[u8] = b"</g>\n";

/// Appends a text and the number behind it.
pub(crate) fn push_labelled(line: &mut Line, label: &[u8], n: u32)
    requires { length line.old + length label.now + 20 ≤ LINE_SIZE }
    ensures text { line.new ≡ line.old ++ label.now ++ decimal n }
    ensures len { length line.new ≤ length line.old + length label.now + 20 }
{
    line.push_text(label);
    line.push_number(u64::from(n));
}

// A rectangle of this class, by its corner, its width and its height, and the radius of its corners.
#[tactic(auto, unfolding(crate::specs::Forms::rect))]
pub(crate) fn rect(class: &[u8], x: u32, y: u32, width: u32, height: u32, radius: u32) -> Line
    requires { length class.now ≤ 40 }
    ensures { result ≡ rect class.now x y width height radius }
{
    let mut line = Line::new();
    line.push_text(b"<rect class=\"");
    line.push_text(class);
    push_labelled(&mut line, b"\" x=\"", x);
    push_labelled(&mut line, b"\" y=\"", y);
    push_labelled(&mut line, b"\" width=\"", width);
    push_labelled(&mut line, b"\" height=\"", height);
    push_labelled(&mut line, b"\" rx=\"", radius);
    line.push_text(b"\"/>\n");
    line
}

// What stands before a text of this class at this point, without the end of its tag.
#[tactic(auto, unfolding(crate::specs::Forms::text_head))]
pub(crate) fn text_head(class: &[u8], x: u32, y: u32) -> Line
    requires { length class.now ≤ 14 }
    ensures head { result ≡ text_head class.now x y }
    ensures len { length result ≤ 77 }
{
    let mut line = Line::new();
    line.push_text(b"<text class=\"");
    line.push_text(class);
    push_labelled(&mut line, b"\" x=\"", x);
    push_labelled(&mut line, b"\" y=\"", y);
    line
}

// A text of this class at this point.
#[tactic(auto, unfolding(crate::specs::Forms::text))]
pub(crate) fn text(class: &[u8], x: u32, y: u32, shown: &[u8]) -> Line
    requires class { length class.now ≤ 14 }
    requires shown { length shown.now ≤ 105 }
    ensures { result ≡ text class.now x y shown.now }
{
    let mut line = text_head(class, x, y);
    line.push_text(b"\">");
    line.push_text(shown);
    line.push_text(b"</text>\n");
    line
}

// The text of a tag that runs upwards.
#[tactic(auto, unfolding(crate::specs::Forms::turned))]
fn turned(x: u32, y: u32, shown: &[u8]) -> Line
    requires { length shown.now ≤ 30 }
    ensures { result ≡ turned x y shown.now }
{
    let mut line = text_head(b"tagged mid", x, y);
    push_labelled(&mut line, b"\" transform=\"rotate(-90 ", x);
    push_labelled(&mut line, b" ", y);
    line.push_text(b")\">");
    line.push_text(shown);
    line.push_text(b"</text>\n");
    line
}

// A title.
#[tactic(auto, unfolding(crate::specs::Forms::title))]
pub(crate) fn title(shown: &[u8]) -> Line
    requires { length shown.now ≤ 176 }
    ensures { result ≡ title shown.now }
{
    let mut line = Line::new();
    line.push_text(b"<title>");
    line.push_text(shown);
    line.push_text(b"</title>\n");
    line
}

// The stroke of a line that leads this way, before its length.
fn stroke(way: Side) -> &'static [u8]
    ensures text { result.now ≡ stroke way }
    ensures short { length result.now ≤ 2 }
{
    match way {
        Side::N => b"v-",
        Side::E => b"h",
        Side::S => b"v",
        Side::W => b"h-",
    }
}

// An arrow of this class along a course, from this distance on.
#[tactic(auto, unfolding(crate::specs::Forms::arrow))]
pub(crate) fn arrow(class: &[u8], course: Course, d: u32) -> Line
    requires class { length class.now ≤ 4 }
    requires course { IsCourse course }
    requires near { d ≤ MIDDLE }
    ensures { result ≡ arrow class.now course d }
{
    let from = along(course, d);
    let mut line = Line::new();
    line.push_text(b"<path class=\"");
    line.push_text(class);
    push_labelled(&mut line, b"\" d=\"M", from.x);
    push_labelled(&mut line, b" ", from.y);
    push_labelled(&mut line, stroke(course.way), course.channel.length - d - 9);
    line.push_text(b"\"/>\n");
    line
}

/// A tag in the middle of a course: its box and its text.
#[derive(Drop)]
pub(crate) struct TagLines {
    pub(crate) area: Line,
    pub(crate) text: Line,
}

/// The tag that names this wire.
#[tactic(auto, unfolding(crate::specs::Forms::tag_box, crate::specs::Forms::tag_text))]
pub(crate) fn tag(course: Course, wire: u32) -> TagLines
    requires { IsCourse course }
    ensures area { result.area ≡ tag_box course }
    ensures text { result.text ≡ tag_text course (labelled (codes "wire ") wire) }
{
    let at = along(course, MIDDLE);
    let label = labelled(b"wire ", u64::from(wire));
    match course.way {
        Side::E | Side::W => TagLines {
            area: rect(
                b"tag",
                at.x - TAG_BEFORE,
                at.y - TAG_BESIDE,
                TAG_LENGTH,
                TAG_WIDTH,
                3,
            ),
            text: text(b"tagged mid", at.x, at.y + 4, label.as_bytes()),
        },
        Side::N | Side::S => TagLines {
            area: rect(
                b"tag",
                at.x - TAG_BESIDE,
                at.y - TAG_BEFORE,
                TAG_WIDTH,
                TAG_LENGTH,
                3,
            ),
            text: turned(at.x + 4, at.y, label.as_bytes()),
        },
    }
}

// A number behind a word.
#[tactic(auto, unfolding(crate::specs::Forms::labelled))]
pub(crate) fn labelled(label: &[u8], n: u64) -> Line
    requires { length label.now ≤ 10 }
    ensures text { result ≡ labelled label.now n }
    ensures len { length result ≤ 30 }
{
    let mut line = Line::new();
    line.push_text(label);
    line.push_number(n);
    line
}
