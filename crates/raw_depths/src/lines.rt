//! The lines of the text, each made in place from the numbers that it shows.
ghost use Rattle.std.specs.Prelude.{◌≡◌, ◌++◌, codes, decimal};
ghost use Rattle.raw_depths.specs.Text.{depth_line, same_line, fastest_line};
ghost use Rattle.raw_outcome.specs.Told.{word_of};

use crate::found::AtDepth;
use raw_state_text::Line;

/// The line of a depth, at which a set came to rest so.
#[tactic(auto, unfolding(crate::specs::Text::depth_line))]
pub(crate) fn depth_line(depth: u64, rest: AtDepth) -> Line
    ensures { result ≡ depth_line depth (word_of rest.outcome) rest.steps rest.cycles }
{
    let mut line = Line::new();
    line.push_text(b"depth ");
    line.push_number(depth);
    line.push_text(b" ");
    line.push_text(rest.outcome.word());
    line.push_text(b" steps ");
    line.push_number(rest.steps);
    line.push_text(b" cycles ");
    line.push_number(rest.cycles);
    line.push_text(b"\n");
    line
}

/// The line of the least depth from which all greater ones have the same report.
#[tactic(auto, unfolding(crate::specs::Text::same_line))]
pub(crate) fn same_line(depth: u8) -> Line
    ensures { result ≡ same_line depth }
{
    let mut line = Line::new();
    line.push_text(b"same from ");
    line.push_number(u64::from(depth));
    line.push_text(b"\n");
    line
}

/// The line of the least depth at which the set has the fewest cycles.
#[tactic(auto, unfolding(crate::specs::Text::fastest_line))]
pub(crate) fn fastest_line(depth: u8) -> Line
    ensures { result ≡ fastest_line depth }
{
    let mut line = Line::new();
    line.push_text(b"fastest from ");
    line.push_number(u64::from(depth));
    line.push_text(b"\n");
    line
}

/// The verdict that a set is done from a depth on.
pub(crate) fn done_line(depth: u8) -> Line
    ensures { result ≡ codes "done from " ++ decimal depth ++ codes "\n" }
{
    let mut line = Line::new();
    line.push_text(b"done from ");
    line.push_number(u64::from(depth));
    line.push_text(b"\n");
    line
}

/// The first line of the verdict that it is never done.
pub(crate) fn never_line(depth: u8) -> Line
    ensures { result ≡ codes "never done, deadlock from " ++ decimal depth ++ codes "\n" }
{
    let mut line = Line::new();
    line.push_text(b"never done, deadlock from ");
    line.push_number(u64::from(depth));
    line.push_text(b"\n");
    line
}

/// The verdict that it is done at no depth that a set may have.
pub(crate) fn not_done_line() -> Line
    ensures { result ≡ codes "not done up to 7\n" }
{
    let mut line = Line::new();
    line.push_text(b"not done up to 7\n");
    line
}
