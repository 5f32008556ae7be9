//! The whole text.
ghost use Rattle.std.specs.Prelude.{◌≡◌};
ghost use Rattle.raw_io.specs.Writing.{Writes};
ghost use Rattle.raw_names.specs.Names.{processor_lines, wire_lines, names_text};

use crate::lines::{processor_line, wire_line};
use raw_grid::{ProcId, Topo, WireId};
use raw_io::{Failed, Sink};
use raw_model::Set;
use raw_state_text::put_line;

// Puts the lines of the processors, by rising number.
fn put_processors<K: Sink>(set: &Set, out: &mut K) -> Result<(), Failed>
    ensures { Writes (K.sight out.old) (K.sight out.new) (processor_lines set.now) result }
{
    for p in 0..set.topo.procs() {
        put_line(&processor_line(set, ProcId(p)), out)?;
    }
    Ok(())
}

// Puts the lines of the wires, by rising number.
fn put_wires<K: Sink>(topo: &Topo, out: &mut K) -> Result<(), Failed>
    ensures { Writes (K.sight out.old) (K.sight out.new) (wire_lines topo.now) result }
{
    for w in 0..topo.wires() {
        put_line(&wire_line(topo, WireId(w)), out)?;
    }
    Ok(())
}

/// Writes the names of the processors and of the wires of a set. It takes no memory.
///
/// After `Failed` a front of the text is appended.
pub fn write_names<K: Sink>(set: &Set, out: &mut K) -> Result<(), Failed>
    ensures { Writes (K.sight out.old) (K.sight out.new) (names_text set.now) result }
{
    put_processors(set, out)?;
    put_wires(&set.topo, out)
}
