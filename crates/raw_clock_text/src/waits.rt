//! In how many cycles processors waited for wires, put line by line.
ghost use Rattle.std.specs.Prelude.{◌≡◌, ℕ, ◌<◌, None, IfSome, length, slice_index_or};
ghost use Rattle.std.specs.List.{flat_map, range_with_len};
ghost use Rattle.raw_io.specs.Writing.{Writes};
ghost use Rattle.raw_grid.specs.Topology.{proc_count};
ghost use Rattle.raw_grid.specs.Wires.{wires_of};
ghost use Rattle.raw_model.specs.Waits.{inputs_at, outputs_at, other_end};
ghost use Rattle.raw_clock_text.specs.Text.{wire_waits, waits_of, wait_lines};
ghost use Rattle.raw_clock_text.specs.Waits.{waits_at};

use crate::counted::CountedRun;
use crate::lines::wait_line;
use raw_grid::{ProcId, Topo, WireId};
use raw_io::{Failed, Sink};
use raw_state_text::put_line;

// The processor at the other end of a wire at a processor.
fn other_end(topo: &Topo, p: ProcId, wire: WireId) -> ProcId
    requires { wire.0 < length (wires_of topo.now) }
    ensures { result.0 ≡ other_end topo.now p.0 wire.0 }
{
    let consumer = topo.consumer(wire);
    if consumer == p {
        topo.producer(wire)
    } else {
        consumer
    }
}

// Puts the line of the waits of a processor for the wire at one of its ends, where it is there and the processor waited
// for it.
fn put_wait<K: Sink>(
    topo: &Topo,
    p: ProcId,
    wire: Option<u32>,
    waits: &[u64],
    out: &mut K,
) -> Result<(), Failed>
    requires { IfSome wire (λ w. (w < length (wires_of topo.now)) × (w < length waits.now)) }
    ensures { Writes (K.sight out.old) (K.sight out.new)
        (waits_at topo.now p.0 waits.now wire) result }
{
    match wire {
        Some(w) => {
            let other = other_end(topo, p, WireId(w));
            put_line(&wait_line(p, WireId(w), other, waits[w as usize]), out)
        }
        None => Ok(()),
    }
}

// Puts the lines of the waits of a processor for the wires at its ends, by the ends.
fn put_ends<K: Sink>(
    topo: &Topo,
    p: ProcId,
    wires: &[Option<u32>; 10],
    waits: &[u64],
    out: &mut K,
) -> Result<(), Failed>
    requires { (end : ℕ) → end < 10 →
        IfSome (slice_index_or wires.now end None) (λ w. (w < length (wires_of topo.now)) × (w < length waits.now)) }
    ensures { Writes (K.sight out.old) (K.sight out.new)
        (flat_map (λ end. waits_at topo.now p.0 waits.now (slice_index_or wires.now end None)) (range_with_len 0 10)) result }
{
    for end in 0..10 {
        put_wait(topo, p, wires[end], waits, out)?;
    }
    Ok(())
}

// Puts the lines of the waits of a processor for its inputs.
fn put_inputs<K: Sink>(run: &CountedRun<'_, '_>, p: ProcId, out: &mut K) -> Result<(), Failed>
    requires { p.0 < proc_count run.now.machine.now.set.topo }
    ensures { Writes (K.sight out.old) (K.sight out.new)
        (flat_map (wire_waits run.now.machine.now.set run.now.counts.now.cycles p.0) (inputs_at run.now.machine.now.set.topo p.0)) result }
{
    let topo = &run.machine.set().topo;
    put_ends(
        topo,
        p,
        &run.machine.ends(p).inputs,
        &run.counts.tally.inputs,
        out,
    )
}

// Puts the lines of the waits of a processor for its outputs.
fn put_outputs<K: Sink>(run: &CountedRun<'_, '_>, p: ProcId, out: &mut K) -> Result<(), Failed>
    requires { p.0 < proc_count run.now.machine.now.set.topo }
    ensures { Writes (K.sight out.old) (K.sight out.new)
        (flat_map (wire_waits run.now.machine.now.set run.now.counts.now.cycles p.0) (outputs_at run.now.machine.now.set.topo p.0)) result }
{
    let topo = &run.machine.set().topo;
    put_ends(
        topo,
        p,
        &run.machine.ends(p).outputs,
        &run.counts.tally.outputs,
        out,
    )
}

// Puts the lines of the waits of a processor, for its inputs and then for its outputs.
#[tactic(auto, using(raw_io::proofs::Chains::chained))]
fn put_processor<K: Sink>(run: &CountedRun<'_, '_>, p: ProcId, out: &mut K) -> Result<(), Failed>
    requires { p.0 < proc_count run.now.machine.now.set.topo }
    ensures { Writes (K.sight out.old) (K.sight out.new)
        (waits_of run.now.machine.now.set run.now.counts.now.cycles p.0) result }
{
    put_inputs(run, p, out)?;
    put_outputs(run, p, out)
}

/// Puts the lines of all waits, by the processors.
pub(crate) fn put_waits<K: Sink>(run: &CountedRun<'_, '_>, out: &mut K) -> Result<(), Failed>
    ensures { Writes (K.sight out.old) (K.sight out.new)
        (wait_lines run.now.machine.now.set run.now.counts.now.cycles) result }
{
    for p in 0..run.machine.procs() {
        put_processor(run, ProcId(p), out)?;
    }
    Ok(())
}
