//! The lines of lost cycles, each made in place in two pieces.
ghost use Rattle.std.specs.Prelude.{◌≡◌};
ghost use Rattle.raw_lost.specs.Text.{is_none_lost, firing_part, resting_part};

use crate::lost::Lost;
use raw_state_text::Line;

/// Whether no cycle was lost.
pub(crate) fn is_none_lost(lost: Lost) -> bool
    ensures { result ≡ is_none_lost lost }
{
    lost.tiles == 0
        && lost.switches == 0
        && lost.ports == 0
        && lost.stalled == 0
        && lost.stopped == 0
        && lost.ring == 0
}

/// The first piece of the line of processor p, of the roots that took a step.
#[tactic(auto, unfolding(crate::specs::Text::firing_part))]
pub(crate) fn firing_part(p: u32, lost: Lost) -> Line
    ensures { result ≡ firing_part p lost }
{
    let mut line = Line::new();
    line.push_text(b"lost ");
    line.push_number(u64::from(p));
    line.push_text(b" tiles ");
    line.push_number(lost.tiles);
    line.push_text(b" switches ");
    line.push_number(lost.switches);
    line.push_text(b" ports ");
    line.push_number(lost.ports);
    line
}

/// The other piece, of the others.
#[tactic(auto, unfolding(crate::specs::Text::resting_part))]
pub(crate) fn resting_part(lost: Lost) -> Line
    ensures { result ≡ resting_part lost }
{
    let mut line = Line::new();
    line.push_text(b" stalled ");
    line.push_number(lost.stalled);
    line.push_text(b" stopped ");
    line.push_number(lost.stopped);
    line.push_text(b" ring ");
    line.push_number(lost.ring);
    line.push_text(b"\n");
    line
}
