//! The whole text, and the two parts of it.
ghost use Rattle.std.specs.Prelude.{◌≡◌, ◌++◌};
ghost use Rattle.raw_io.specs.Writing.{Writes};
ghost use Rattle.raw_model.specs.Waits.{waits_for};
ghost use Rattle.raw_model.specs.Outcomes.{outcome};
ghost use Rattle.raw_outcome.specs.Told.{told};
ghost use Rattle.raw_report.specs.Report.{outcome_lines};
ghost use Rattle.raw_clock.specs.Clock.{machine_at, clock};
ghost use Rattle.raw_clock.specs.Counted.{IsCounted};
ghost use Rattle.raw_clock_text.specs.Text.{tile_lines, switch_lines, port_lines, spending_text, waiting_text, cycles_text};

use crate::counted::CountedRun;
use crate::parts::{put_cycles, put_ports, put_switches, put_tiles, put_wires};
use crate::waits::put_waits;
use raw_clock::Cycles;
use raw_io::{Failed, Sink};
use raw_outcome::Outcome;
use raw_report::put_outcome;
use raw_serial::Machine;

// Puts how a set came to rest.
fn put_rest<K: Sink>(run: &CountedRun<'_, '_>, o: Outcome, out: &mut K) -> Result<(), Failed>
    requires { told (waits_for run.now.machine.now.set run.now.machine.now.state) o ≡ outcome run.now.machine.now.set run.now.machine.now.state }
    ensures { Writes (K.sight out.old) (K.sight out.new)
        (outcome_lines run.now.machine.now.set (machine_at (clock run.now.machine.now.set run.now.counts.now.cycles)) (outcome run.now.machine.now.set (machine_at (clock run.now.machine.now.set run.now.counts.now.cycles)))) result }
{
    put_outcome(run.machine, o, out)
}

// Puts how tiles, switches and ports spent the cycles.
#[tactic(auto, using(raw_io::proofs::Chains::chained))]
fn put_spent<K: Sink>(run: &CountedRun<'_, '_>, out: &mut K) -> Result<(), Failed>
    ensures { Writes (K.sight out.old) (K.sight out.new)
        (tile_lines run.now.machine.now.set run.now.counts.now.cycles
        ++ switch_lines run.now.machine.now.set run.now.counts.now.cycles
        ++ port_lines run.now.machine.now.set run.now.counts.now.cycles) result }
{
    put_tiles(run, out)?;
    put_switches(run, out)?;
    put_ports(run, out)
}

/// Writes the first part of the text, up to how the ports spent the cycles: whatever stands between the two parts comes
/// behind it.
///
/// After `Failed` a front of it is appended.
#[tactic(auto, using(raw_io::proofs::Chains::chained), unfolding(crate::specs::Text::spending_text))]
pub fn write_spending<K: Sink>(
    m: &Machine<'_>,
    o: Outcome,
    ran: &Cycles,
    out: &mut K,
) -> Result<(), Failed>
    requires outcome { told (waits_for m.now.set m.now.state) o ≡ outcome m.now.set m.now.state }
    requires counted { IsCounted m.now ran.now }
    ensures { Writes (K.sight out.old) (K.sight out.new)
        (spending_text m.now.set ran.now.cycles) result }
{
    let run = CountedRun {
        machine: m,
        counts: ran,
    };
    put_rest(&run, o, out)?;
    put_cycles(&run, out)?;
    put_spent(&run, out)
}

/// Writes the second part of the text, of waits and of what passed on wires.
///
/// After `Failed` a front of it is appended.
#[tactic(auto, using(raw_io::proofs::Chains::chained), unfolding(crate::specs::Text::waiting_text))]
pub fn write_waiting<K: Sink>(m: &Machine<'_>, ran: &Cycles, out: &mut K) -> Result<(), Failed>
    requires { IsCounted m.now ran.now }
    ensures { Writes (K.sight out.old) (K.sight out.new)
        (waiting_text m.now.set ran.now.cycles) result }
{
    let run = CountedRun {
        machine: m,
        counts: ran,
    };
    put_waits(&run, out)?;
    put_wires(&run, out)
}

/// Writes the text of the clock of a set, whose machine came to rest by it and as the outcome says: the first lines of the
/// report, then `cycles`, and what was counted of tiles, switches, ports, waits and wires. It takes no memory.
///
/// After `Failed` a front of the text is appended.
#[tactic(auto, using(raw_io::proofs::Chains::chained), unfolding(crate::specs::Text::cycles_text))]
pub fn write_cycles<K: Sink>(
    m: &Machine<'_>,
    o: Outcome,
    ran: &Cycles,
    out: &mut K,
) -> Result<(), Failed>
    requires outcome { told (waits_for m.now.set m.now.state) o ≡ outcome m.now.set m.now.state }
    requires counted { IsCounted m.now ran.now }
    ensures { Writes (K.sight out.old) (K.sight out.new)
        (cycles_text m.now.set ran.now.cycles) result }
{
    write_spending(m, o, ran, out)?;
    write_waiting(m, ran, out)
}
