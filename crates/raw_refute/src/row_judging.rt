//! What a run of a set says of a stream.
ghost use Rattle.std.specs.Prelude.{◌≡◌, ◌+◌, ◌<◌, ◌^◌, length, All, IfOk};
ghost use Rattle.std.specs.List.{flat_map};
ghost use Rattle.raw_model.specs.Program.{IsSet};
ghost use Rattle.raw_model.specs.Rest.{IsQuiet};
ghost use Rattle.raw_stream.specs.Unrolled.{all_rows};
ghost use Rattle.raw_stream.specs.Streams.{due_to};
ghost use Rattle.raw_row_terms.specs.RowClaims.{got_at, got_in, due_in, HasRows};
ghost use Rattle.raw_refute.specs.RowJudged.{AreCounted, first_miscount, of_ports, IsRowsFaultOf, IsRowsJudged};
ghost use Rattle.raw_row_terms.specs.RowClaims.{IsClaimOf};

use crate::fault::Fault;
use crate::judging::{Ran, first_other, steps_of};
use crate::seeing::got_by;
use raw_grid::ProcId;
use raw_model::Set;
use raw_outcome::{Outcome, outcome};
use raw_serial::Machine;
use raw_stream::StreamFlow;
use raw_unroll::direct_sink;
use std::alloc::{AllocError, Global};

// What a port of the set of a machine has received; nothing where there is no such port.
fn got_at<'m>(machine: &'m Machine<'_>, port: u32) -> &'m [u32]
    ensures { result.now ≡ got_at machine.now.set machine.now.state port }
{
    let procs = machine.procs();
    let first = 2 * machine.set().topo.tiles();
    if port >= procs - first {
        return &[];
    }
    got_by(machine.processor(ProcId(first + port)))
}

// The first port that has received more or fewer words than it is due of all rows.
fn first_miscount(machine: &Machine<'_>, stream: &StreamFlow) -> Option<u32>
    requires { HasRows stream.now }
    ensures { result ≡ first_miscount machine.now.set stream.now (got_at machine.now.set machine.now.state) }
{
    for port in 0..machine.set().topo.ports() {
        let got = got_at(machine, port).len() as u64;
        if got != stream.due_of(port as usize) {
            return Some(port);
        }
    }
    None
}

// What these ports have received, one behind the other.
fn got_in(alloc: Global, machine: &Machine<'_>, order: &[u32]) -> Result<Vec<u32>, AllocError>
    ensures { IfOk result (λ got. got.items ≡ flat_map (got_at machine.now.set machine.now.state) order.now) }
{
    let mut got = Vec::new(alloc);
    for port in order {
        got.extend_from_slice(got_at(machine, *port))?;
    }
    Ok(got)
}

// What these ports are due of all rows, one behind the other, where the sources have these words.
fn due_in(
    alloc: Global,
    stream: &StreamFlow,
    words: &[u32],
    order: &[u32],
) -> Result<Vec<u32>, AllocError>
    requires rows { HasRows stream.now }
    requires words { AreCounted stream.now words.now }
    ensures { IfOk result (λ due. due.items ≡ due_in stream.now order.now (all_rows stream.now words.now)) }
{
    let mut all = Vec::new(alloc);
    for port in order {
        let due = direct_sink(alloc, stream, words, *port as usize)?;
        all.extend_from_slice(&due)?;
    }
    Ok(all)
}

// How a machine that is done differs from a stream: first by the counts of its ports, and then by the words.
fn done_fault(
    alloc: Global,
    machine: &Machine<'_>,
    stream: &StreamFlow,
    order: &[u32],
    words: &[u32],
) -> Result<Option<Fault>, AllocError>
    requires claim { IsClaimOf machine.now.set stream.now order.now }
    requires words { AreCounted stream.now words.now }
    ensures { IfOk result (λ fault. fault ≡
        of_ports (first_miscount machine.now.set stream.now (got_at machine.now.set machine.now.state)) stream.now order.now
        (due_in stream.now order.now (all_rows stream.now words.now)) (got_at machine.now.set machine.now.state)) }
{
    match first_miscount(machine, stream) {
        Some(port) => Ok(Some(Fault::Words {
            received: got_at(machine, port).len(),
            outs: stream.due_of(port as usize) as usize,
        })),
        None => {
            let got = got_in(alloc, machine, order)?;
            let due = due_in(alloc, stream, words, order)?;
            Ok(first_other(&got, &due))
        }
    }
}

// How a machine at rest differs from a stream, where the sources have these words.
fn fault_of(
    alloc: Global,
    machine: &Machine<'_>,
    stream: &StreamFlow,
    order: &[u32],
    words: &[u32],
) -> Result<Option<Fault>, AllocError>
    requires quiet { IsQuiet machine.now.set machine.now.state }
    requires claim { IsClaimOf machine.now.set stream.now order.now }
    requires words { AreCounted stream.now words.now }
    ensures { IfOk result (IsRowsFaultOf machine.now.set stream.now order.now words.now machine.now.state) }
{
    let how = outcome(machine);
    match how {
        Outcome::Done => done_fault(alloc, machine, stream, order, words),
        _ => Ok(Some(Fault::Ends(how))),
    }
}

/// Runs a set once, and says how its rest differs from a stream whose ports are numbered as those of the set, and whose
/// sources have these words.
///
/// What it says holds of each run of the set, in whatever order. Beside the machine the call takes memory for what the
/// sinks are due and have received.
pub fn judge_rows(
    alloc: Global,
    set: &Set,
    stream: &StreamFlow,
    order: &[u32],
    words: &[u32],
) -> Result<Ran, AllocError>
    requires claim { IsClaimOf set.now stream.now order.now }
    requires words { AreCounted stream.now words.now }
    ensures judged { IfOk result (λ ran. IsRowsJudged set.now stream.now order.now words.now ran.fault) }
    ensures valid { IsSet set.now }
    ensures words { All (λ word. word < 2 ^ 32) words.now }
{
    // The set is read so that its rules are known.
    let _limit = set.limit;
    let mut machine = Machine::open(alloc, set)?;
    machine.run();
    let fault = fault_of(alloc, &machine, stream, order, words)?;
    Ok(Ran {
        fault,
        steps: steps_of(&machine),
    })
}
