//! The text of the clock with the lines of lost cycles.
ghost use Rattle.std.specs.Prelude.{◌≡◌, ◌++◌};
ghost use Rattle.raw_io.specs.Writing.{Writes};
ghost use Rattle.raw_model.specs.Waits.{waits_for};
ghost use Rattle.raw_model.specs.Outcomes.{outcome};
ghost use Rattle.raw_outcome.specs.Told.{told};
ghost use Rattle.raw_clock.specs.Counted.{IsCounted};
ghost use Rattle.raw_clock_text.specs.Text.{waiting_text};
ghost use Rattle.raw_lost.specs.Known.{AreLost};
ghost use Rattle.raw_lost.specs.Text.{firing_part, resting_part, lost_line, lost_lines, lost_text};

use crate::lines::{firing_part, is_none_lost, resting_part};
use crate::lost::Lost;
use raw_clock::Cycles;
use raw_clock_text::{write_spending, write_waiting};
use raw_io::{Failed, Sink};
use raw_outcome::Outcome;
use raw_serial::Machine;
use raw_state_text::put_line;

// Puts both pieces of the line of a processor.
#[tactic(auto, using(raw_io::proofs::Chains::chained))]
fn put_parts<K: Sink>(p: u32, lost: Lost, out: &mut K) -> Result<(), Failed>
    ensures { Writes (K.sight out.old) (K.sight out.new) (firing_part p lost ++ resting_part lost) result }
{
    put_line(&firing_part(p, lost), out)?;
    put_line(&resting_part(lost), out)
}

// Puts the line of a processor, where it lost a cycle.
fn put_processor<K: Sink>(p: u32, lost: Lost, out: &mut K) -> Result<(), Failed>
    ensures { Writes (K.sight out.old) (K.sight out.new) (lost_line p lost) result }
{
    if is_none_lost(lost) {
        return Ok(());
    }
    put_parts(p, lost, out)
}

// Puts the lines of the processors that lost cycles, by rising number.
fn put_lost<K: Sink>(
    m: &Machine<'_>,
    ran: &Cycles,
    lost: &[Lost],
    out: &mut K,
) -> Result<(), Failed>
    requires { AreLost m.now.set ran.now.cycles lost.now }
    ensures { Writes (K.sight out.old) (K.sight out.new)
        (lost_lines m.now.set ran.now.cycles) result }
{
    'all: for p in 0..m.procs() {
        let one = lost[p as usize];
        put_processor(p, one, out)?;
    }
    Ok(())
}

/// Writes the text of the clock of a set, whose machine came to rest by it and as the outcome says, with a line for each
/// processor that lost cycles. It takes no memory.
///
/// After `Failed` a front of the text is appended.
#[tactic(auto, using(raw_io::proofs::Chains::chained), unfolding(crate::specs::Text::lost_text))]
pub fn write_lost<K: Sink>(
    m: &Machine<'_>,
    o: Outcome,
    ran: &Cycles,
    lost: &[Lost],
    out: &mut K,
) -> Result<(), Failed>
    requires outcome { told (waits_for m.now.set m.now.state) o ≡ outcome m.now.set m.now.state }
    requires counted { IsCounted m.now ran.now }
    requires lost { AreLost m.now.set ran.now.cycles lost.now }
    ensures { Writes (K.sight out.old) (K.sight out.new)
        (lost_text m.now.set ran.now.cycles) result }
{
    write_spending(m, o, ran, out)?;
    put_lost(m, ran, lost, out)?;
    write_waiting(m, ran, out)
}
