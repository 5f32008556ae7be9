//! The words of a fresh table.
ghost use Rattle.std.specs.Prelude.{◌≡◌, ℕ, ◌+◌, ◌-◌, ◌*◌, ◌/◌, ◌%◌, ◌<◌, ◌≤◌, IfOk};
ghost use Rattle.raw_processor.specs.Ends.{AreEndsOf};
ghost use Rattle.raw_fabric_rule.specs.declared.layout.TheConstants.{STRIDE, SIDES};
ghost use Rattle.raw_fabric_rule.specs.ByEnds.{procs, wires};
ghost use Rattle.raw_fabric_rule.specs.Opening.{sent_before};
ghost use Rattle.raw_fabric.specs.Laying.{status_before, first_word, value_before, HasWords};

use raw_fabric_rule::{END_COUNT, PLACES, SIDES, STRIDE};
use raw_grid::{ProcId, WireId};
use raw_serial::Machine;
use std::alloc::{AllocError, Global};

// How many values processor `p` has sent at an end with this number: as many as its wire holds, and none at an input.
fn sent_at(machine: &Machine<'_>, p: u32, end: usize) -> u64
    requires there { p < procs machine.now.set }
    requires end { end < SIDES }
    ensures { result ≡ sent_before machine.now.set machine.now.state p end }
{
    if end < END_COUNT {
        return 0;
    }
    let ends = machine.ends(ProcId(p));
    match ends.outputs[end - END_COUNT] {
        Some(wire) => machine.wire(WireId(wire)).len() as u64,
        None => 0,
    }
}

// The status word of a processor.
fn status_of(machine: &Machine<'_>, p: u32) -> u64
    requires { p < procs machine.now.set }
    ensures { result ≡ status_before machine.now.set machine.now.state p }
{
    let mut word = 0;
    let mut end = SIDES;
    'ends: while end > 0 {
        end -= 1;
        word = sent_at(machine, p, end) % PLACES + PLACES * word;
    }
    word
}

// Word `i` of those before the data words: each `STRIDE`-th is a status word, and the others are not used.
fn first_word(machine: &Machine<'_>, i: u32) -> u64
    requires { i < STRIDE * procs machine.now.set }
    ensures { result ≡ first_word machine.now.set machine.now.state i }
{
    if i % STRIDE == 0 {
        status_of(machine, i / STRIDE)
    } else {
        0
    }
}

// Word `i` of those from the data words on, `STRIDE` for each wire: the value in that place, where the wire holds one.
fn value_of(machine: &Machine<'_>, i: u32) -> u64
    requires { i < STRIDE * wires machine.now.set }
    ensures { result ≡ value_before machine.now.state i }
{
    let values = machine.wire(WireId(i / STRIDE));
    let k = (i % STRIDE) as usize;
    if k < values.len() {
        u64::from(values[k])
    } else {
        0
    }
}

/// The words of a fresh table for a machine.
pub(crate) fn lay_words(alloc: Global, machine: &Machine<'_>) -> Result<Vec<u64>, AllocError>
    ensures { IfOk result (λ words. HasWords machine.now.set machine.now.state words.items) }
{
    let set = machine.set();
    let statuses = STRIDE * machine.procs();
    let values = STRIDE * set.topo.wires();
    let mut words = Vec::with_capacity(alloc, statuses as usize + values as usize)?;
    'statuses: for i in 0..statuses {
        words.push_reserved(first_word(machine, i));
    }
    'values: for i in 0..values {
        words.push_reserved(value_of(machine, i));
    }
    Ok(words)
}
