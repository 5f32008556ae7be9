//! The report of a machine at rest.
ghost use Rattle.std.specs.Prelude.{◌≡◌, ℕ, List, ◌++◌};
ghost use Rattle.raw_io.specs.Writing.{Writes};
ghost use Rattle.raw_model.specs.Rest.{IsQuiet, IsRun};
ghost use Rattle.raw_model.specs.Waits.{waits_for};
ghost use Rattle.raw_model.specs.Outcomes.{outcome};
ghost use Rattle.raw_outcome.specs.Told.{told};
ghost use Rattle.raw_report.specs.Report.{report, outcome_lines, port_lines, tile_lines, show_lines, switch_lines, wire_lines, stall_lines};

use crate::machine::{put_shows, put_stalls, put_switches, put_tiles, put_wires};
use crate::outcome::put_outcome;
use crate::ports::put_ports;
use raw_io::{Failed, Sink};
use raw_outcome::Outcome;
use raw_serial::Machine;

// Puts the switches, the wires and the stalls of a machine.
#[tactic(auto, using(raw_io::proofs::Chains::chained))]
fn put_rest<K: Sink>(m: &Machine<'_>, out: &mut K) -> Result<(), Failed>
    ensures { Writes (K.sight out.old) (K.sight out.new)
        (switch_lines m.now.set m.now.state ++ (wire_lines m.now.set m.now.state ++ stall_lines m.now.set m.now.missed)) result }
{
    put_switches(m, out)?;
    put_wires(m, out)?;
    put_stalls(m, out)
}

// Puts the tiles and all that comes after them.
#[tactic(auto, using(raw_io::proofs::Chains::chained))]
fn put_grid<K: Sink>(m: &Machine<'_>, out: &mut K) -> Result<(), Failed>
    ensures { Writes (K.sight out.old) (K.sight out.new)
        (tile_lines m.now.set m.now.state ++ (show_lines m.now.set m.now.state ++ (switch_lines m.now.set m.now.state ++ (wire_lines m.now.set m.now.state ++ stall_lines m.now.set m.now.missed)))) result }
{
    put_tiles(m, out)?;
    put_shows(m, out)?;
    put_rest(m, out)
}

// Puts the outcome of a machine, its ports and all that comes after them.
#[tactic(auto, using(raw_io::proofs::Chains::chained))]
fn put_parts<K: Sink>(m: &Machine<'_>, o: Outcome, out: &mut K) -> Result<(), Failed>
    requires { told (waits_for m.now.set m.now.state) o ≡ outcome m.now.set m.now.state }
    ensures { Writes (K.sight out.old) (K.sight out.new)
        (outcome_lines m.now.set m.now.state (outcome m.now.set m.now.state) ++ (port_lines m.now.set m.now.state ++
        (tile_lines m.now.set m.now.state ++ (show_lines m.now.set m.now.state ++ (switch_lines m.now.set m.now.state ++ (wire_lines m.now.set m.now.state ++ stall_lines m.now.set m.now.missed)))))) result }
{
    put_outcome(m, o, out)?;
    put_ports(m, out)?;
    put_grid(m, out)
}

/// Writes the report of a machine at rest, which came to rest as the outcome says. It takes no memory.
///
/// Whatever order its processors step in, the report is the same. After `Failed` a front of it is
/// appended, never all of it.
pub fn write_report<K: Sink>(m: &Machine<'_>, o: Outcome, out: &mut K) -> Result<(), Failed>
    requires quiet { IsQuiet m.now.set m.now.state }
    requires outcome { told (waits_for m.now.set m.now.state) o ≡ outcome m.now.set m.now.state }
    ensures { (steps : List ℕ) → IsRun m.now.set steps → Writes (K.sight out.old) (K.sight out.new)
        (report m.now.set steps) result }
{
    // The set is asked for so that it is known that steps led to the machine's state.
    let _set = m.set();
    put_parts(m, o, out)
}
