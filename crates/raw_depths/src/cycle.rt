//! The waits of a cycle, where each is for a value.
ghost use Rattle.std.specs.Prelude.{◌≡◌, ℕ, ◌+◌, ◌<◌, true, false, Some, MatchOption, IfOk, length};
ghost use Rattle.std.specs.List.{flat_map, list_all};
ghost use Rattle.raw_cycle.specs.Chains.{stretch};
ghost use Rattle.raw_cycle.specs.Cycles.{others_of};
ghost use Rattle.raw_grid.specs.Topology.{proc_count};
ghost use Rattle.raw_model.specs.Waits.{waits_for};
ghost use Rattle.raw_model.specs.Outcomes.{outcome};
ghost use Rattle.raw_model.specs.StateTexts.{wait_line};
ghost use Rattle.raw_outcome.specs.Told.{told};
ghost use Rattle.raw_depth.specs.Depth.{waits_for_value, all_for_values};
ghost use Rattle.raw_depth.specs.Verdicts.{waits_for_values};
ghost use Rattle.raw_depths.specs.Text.{cycle_lines};

use raw_grid::ProcId;
use raw_outcome::Outcome;
use raw_serial::Machine;
use raw_state_text::wait_line;
use std::alloc::{AllocError, Global};

// Whether a processor, and each that the one before it waits for, of at most so many, waits for a value.
fn all_for_values(m: &Machine<'_>, first: ProcId, count: u32) -> bool
    requires { first.0 < proc_count m.now.set.topo }
    ensures { result ≡ all_for_values m.now.set m.now.state (stretch (waits_for m.now.set m.now.state) count (Some first.0)) }
{
    let topo = &m.set().topo;
    let mut p = first;
    for _step in 0..count {
        let Some(wait) = m.first_wait(p) else {
            return false;
        };
        if topo.consumer(wait.wire) != p {
            return false;
        }
        p = wait.on;
    }
    true
}

// The lines of the waits of a processor, and of each that the one before it waits for, of at most so many.
fn wait_lines(
    alloc: Global,
    m: &Machine<'_>,
    first: ProcId,
    count: u32,
) -> Result<Vec<u8>, AllocError>
    requires { first.0 < proc_count m.now.set.topo }
    ensures { IfOk result (λ lines. lines.items
        ≡ flat_map (wait_line m.now.set m.now.state) (stretch (waits_for m.now.set m.now.state) count (Some first.0))) }
{
    let mut lines = Vec::new(alloc);
    let mut p = first;
    for _step in 0..count {
        match m.first_wait(p) {
            // It waits for none, and has no line.
            None => return Ok(lines),
            Some(wait) => {
                let line = wait_line(m, p);
                lines.extend_from_slice(line.as_bytes())?;
                p = wait.on;
            }
        }
    }
    Ok(lines)
}

/// The lines of the waits of the cycle that the outcome tells, where each of them is for a value; else none.
pub(crate) fn value_waits(
    alloc: Global,
    m: &Machine<'_>,
    o: Outcome,
) -> Result<Option<Vec<u8>>, AllocError>
    requires { told (waits_for m.now.set m.now.state) o ≡ outcome m.now.set m.now.state }
    ensures { IfOk result (λ waits. MatchOption waits (waits_for_values m.now.set m.now.state ≡ false)
        (λ lines. (waits_for_values m.now.set m.now.state ≡ true)
        × (lines.items ≡ cycle_lines m.now.set m.now.state))) }
{
    let _set = m.set();
    let Outcome::Deadlock { least, length } = o else {
        return Ok(None);
    };
    if !all_for_values(m, least, length) {
        return Ok(None);
    }
    let lines = wait_lines(alloc, m, least, length)?;
    Ok(Some(lines))
}
