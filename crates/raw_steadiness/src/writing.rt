//! Writing what is said of the time of a set.
ghost use Rattle.std.specs.Prelude.{◌≡◌};
ghost use Rattle.raw_io.specs.Writing.{Writes};
ghost use Rattle.raw_steadiness.specs.Text.{steadiness_text};

use crate::lines::steadiness_line;
use crate::steadying::Steadiness;
use raw_io::{Failed, Sink};
use raw_state_text::put_line;

/// Writes what a run with terms says of the time of a set: one line. It takes no memory.
///
/// After `Failed` a front of the line is appended, never all of it.
pub fn write_steadiness<K: Sink>(steadiness: Steadiness, out: &mut K) -> Result<(), Failed>
    ensures { Writes (K.sight out.old) (K.sight out.new) (steadiness_text steadiness) result }
{
    put_line(&steadiness_line(steadiness), out)
}
