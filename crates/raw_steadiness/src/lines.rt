//! The line of `steady`, made in place from the numbers that it shows.
ghost use Rattle.std.specs.Prelude.{◌≡◌};
ghost use Rattle.raw_steadiness.specs.Text.{steady_line, unsteady_line, too_many_line, steadiness_text};

use crate::steadying::Steadiness;
use raw_grid::ProcId;
use raw_state_text::Line;

// The line of a set that is steady.
#[tactic(auto, unfolding(crate::specs::Text::steady_line))]
fn steady_line(cycles: u64) -> Line
    ensures { result ≡ steady_line cycles }
{
    let mut line = Line::new();
    line.push_text(b"steady cycles ");
    line.push_number(cycles);
    line.push_text(b"\n");
    line
}

// The line of a step that wants a word of an input.
#[tactic(auto, unfolding(crate::specs::Text::unsteady_line))]
fn unsteady_line(step: u64, p: ProcId) -> Line
    ensures { result ≡ unsteady_line step p.0 }
{
    let mut line = Line::new();
    line.push_text(b"unsteady at ");
    line.push_number(step);
    line.push_text(b": ");
    line.push_number(u64::from(p.0));
    line.push_text(b" hangs on an input\n");
    line
}

// The line of a run that needs too many terms.
#[tactic(auto, unfolding(crate::specs::Text::too_many_line))]
fn too_many_line() -> Line
    ensures { result ≡ too_many_line }
{
    let mut line = Line::new();
    line.push_text(b"unsteady: too many terms\n");
    line
}

/// The line of what a run with terms says of the time of a set.
pub(crate) fn steadiness_line(steadiness: Steadiness) -> Line
    ensures { result ≡ steadiness_text steadiness }
{
    match steadiness {
        Steadiness::Steady(cycles) => steady_line(cycles),
        Steadiness::Hangs { step, p } => unsteady_line(step, p),
        Steadiness::TooMany => too_many_line(),
    }
}
