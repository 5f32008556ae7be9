//! The last line of live output, which says how the grid came to rest.
ghost use Rattle.std.specs.Prelude.{◌≡◌};
ghost use Rattle.raw_live.specs.Ending.{rest_text};

use raw_model::Ending;
use raw_state_text::Line;

/// The last line of live output.
pub fn rest_line(ending: Ending) -> Line
    ensures { result ≡ rest_text ending }
{
    let mut line = Line::new();
    line.push_text(b"rest ");
    line.push_text(ending.word());
    line.push_text(b"\n");
    line
}
