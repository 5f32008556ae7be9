//! The lines of the text, each made in place from the numbers that it shows.
ghost use Rattle.std.specs.Prelude.{◌≡◌, ◌+◌, ◌≤◌, ◌++◌, length};
ghost use Rattle.raw_path.specs.Text.{path_line, on_line, wait_text, from_line};

use crate::stretch::{Stretch, WaitedFor};
use raw_state_text::{LINE_SIZE, Line};

/// The line of what the path is made of.
#[tactic(auto, unfolding(crate::specs::Text::path_line))]
pub(crate) fn path_line(fired: u64, stalled: u64, own: u64, values: u64, room: u64) -> Line
    ensures { result ≡ path_line fired stalled own values room }
{
    let mut line = Line::new();
    line.push_text(b"path fired ");
    line.push_number(fired);
    line.push_text(b" stalled ");
    line.push_number(stalled);
    line.push_text(b" own ");
    line.push_number(own);
    line.push_text(b" values ");
    line.push_number(values);
    line.push_text(b" room ");
    line.push_number(room);
    line.push_text(b"\n");
    line
}

/// The line of how many turns of the path a processor takes; it has no bytes where it takes none.
#[tactic(auto, unfolding(crate::specs::Text::on_line))]
pub(crate) fn on_line(p: u64, turns: u64) -> Line
    ensures { result ≡ on_line p turns }
{
    let mut line = Line::new();
    if turns != 0 {
        line.push_text(b"on ");
        line.push_number(p);
        line.push_text(b" turns ");
        line.push_number(turns);
        line.push_text(b"\n");
    }
    line
}

// Appends what a stretch waited for.
fn push_wait(line: &mut Line, wait: WaitedFor)
    requires { length line.old + 30 ≤ LINE_SIZE }
    ensures text { line.new ≡ line.old ++ wait_text wait }
    ensures len { length line.new ≤ length line.old + 30 }
{
    match wait {
        WaitedFor::Nothing => {}
        WaitedFor::Value(wire) => {
            line.push_text(b" value ");
            line.push_number(u64::from(wire));
        }
        WaitedFor::Room(wire) => {
            line.push_text(b" room ");
            line.push_number(u64::from(wire));
        }
    }
}

/// The line of a stretch.
#[tactic(auto, unfolding(crate::specs::Text::from_line))]
pub(crate) fn from_line(stretch: Stretch) -> Line
    ensures { result ≡ from_line stretch }
{
    let mut line = Line::new();
    line.push_text(b"from ");
    line.push_number(stretch.from);
    line.push_text(b" turns ");
    line.push_number(stretch.turns);
    line.push_text(b" of ");
    line.push_number(u64::from(stretch.p));
    line.push_text(b" pc ");
    line.push_number(u64::from(stretch.first));
    line.push_text(b" to ");
    line.push_number(u64::from(stretch.last));
    push_wait(&mut line, stretch.wait);
    line.push_text(b"\n");
    line
}
