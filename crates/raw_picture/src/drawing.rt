//! The picture of a machine at rest.
ghost use Rattle.std.specs.Prelude.{◌≡◌, ℕ, List};
ghost use Rattle.raw_io.specs.Writing.{Writes};
ghost use Rattle.raw_model.specs.Rest.{IsQuiet, IsRun};
ghost use Rattle.raw_model.specs.Waits.{waits_for};
ghost use Rattle.raw_model.specs.Outcomes.{outcome};
ghost use Rattle.raw_outcome.specs.Told.{told};
ghost use Rattle.raw_picture.specs.Told.{AnswerFits};
ghost use Rattle.raw_picture.specs.Picture.{picture, picture_of};

use crate::drawn::Drawn;
use crate::layers::{put_figures, put_ground};
use crate::legend::put_legend;
use crate::opening::put_front;
use crate::told::tell;
use raw_io::{Failed, Sink};
use raw_outcome::{Outcome, outcome};
use raw_serial::Machine;

// Puts the picture of a machine, part by part.
#[tactic(auto, unfolding(crate::specs::Picture::picture_of), using(raw_io::proofs::Chains::chained))]
fn put_picture<K: Sink>(m: &Machine<'_>, o: Outcome, out: &mut K) -> Result<(), Failed>
    requires fits { AnswerFits m.now.set m.now.state o }
    requires outcome { told (waits_for m.now.set m.now.state) o ≡ outcome m.now.set m.now.state }
    ensures { Writes (K.sight out.old) (K.sight out.new) (picture_of m.now.set m.now.state) result }
{
    let drawn = Drawn {
        machine: m,
        answer: o,
        listed: tell(m, o),
    };
    put_front(&drawn, out)?;
    put_ground(&drawn, out)?;
    put_figures(&drawn, out)?;
    put_legend(&m.set().topo, out)
}

/// Writes the picture of a machine at rest as an SVG document. It takes no memory.
///
/// Whatever order its processors step in, the picture is the same. After `Failed` a front of it is
/// appended, never all of it.
pub fn write_picture<K: Sink>(m: &Machine<'_>, out: &mut K) -> Result<(), Failed>
    requires { IsQuiet m.now.set m.now.state }
    ensures { (steps : List ℕ) → IsRun m.now.set steps → Writes (K.sight out.old) (K.sight out.new)
        (picture m.now.set steps) result }
{
    // The set is asked for so that it is known that steps led to the machine's state.
    let _set = m.set();
    put_picture(m, outcome(m), out)
}
