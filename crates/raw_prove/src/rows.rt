//! Streams against sets: the verdict of a claim of rows.
ghost use Rattle.std.specs.Prelude.{◌≡◌, ℕ, ◌+◌, ◌*◌, ◌<◌, ◌^◌, None, IfOk};
ghost use Rattle.raw_grid.specs.Topology.{tile_count};
ghost use Rattle.raw_model.specs.Program.{IsSet};
ghost use Rattle.raw_stream.specs.Unrolled.{unrolled};
ghost use Rattle.raw_term.specs.Claims.{Meets};
ghost use Rattle.raw_row_terms.specs.RowClaims.{has_words, misfed, got_at, misgot, got_in, IsOfRows, IsOfRowCounts, IsOfRowsAtRest, IsRowsVerdictOfRun, IsRowsVerdict, HasRows, IsClaimOf};
ghost use Rattle.raw_prove.specs.RowRuns.{FitsOneRun};
ghost use Rattle.raw_prove.specs.Units.{state_of};
ghost use Rattle.raw_prove.specs.Runs.{RestsAt, IsOutcomeOf};

use crate::comparing::compare_terms;
use crate::machine::Machine;
use crate::opening::open;
use crate::proof::{Difference, Proof};
use crate::proving::nodes_of;
use crate::running::End;
use raw_model::Set;
use raw_outcome::Outcome;
use raw_row_terms::{claim_rows, law_rows_proved};
use raw_stream::StreamFlow;
use raw_term::{TermRefusal, Verdict, law_runs};
use std::alloc::{AllocError, Global};

/// The first port of a set that has more or fewer words than all rows take.
pub fn misfed(set: &Set, stream: &StreamFlow) -> Option<usize>
    requires { HasRows stream.now }
    ensures { result ≡ misfed set.now stream.now }
{
    for port in 0..set.ports.len() {
        let words = set.ports[port].words.len() as u64;
        if words != stream.taken_of(port) {
            return Some(port);
        }
    }
    None
}

/// How many words a port has; none where there is no such port.
pub fn words_at(set: &Set, port: usize) -> usize
    ensures { result ≡ has_words set.now port }
{
    match set.ports.get(port) {
        Some(program) => program.words.len(),
        None => 0,
    }
}

// The number of the processor at a port.
fn proc_of(set: &Set, port: usize) -> usize
    requires { port < 2 ^ 32 }
    ensures { result ≡ 2 * tile_count set.now.topo + port }
{
    2 * set.topo.tiles() as usize + port
}

impl Machine {
    // What a port has received.
    fn got_at_port(&self, set: &Set, port: usize) -> &[u32]
        requires { port < 2 ^ 32 }
        ensures { result.now ≡ got_at set.now (state_of self.now).state port }
    {
        self.got_at(proc_of(set, port))
    }

    // The first port that has received more or fewer words than it is due of all rows.
    fn misgot(&self, set: &Set, stream: &StreamFlow) -> Option<usize>
        requires { HasRows stream.now }
        ensures { result ≡ misgot set.now stream.now (state_of self.now).state }
    {
        for port in 0..set.topo.ports() as usize {
            let got = self.got_at_port(set, port).len() as u64;
            if got != stream.due_of(port) {
                return Some(port);
            }
        }
        None
    }

    // What these ports have received, one behind the other.
    fn got_in(&self, alloc: Global, set: &Set, order: &[u32]) -> Result<Vec<u32>, AllocError>
        ensures { IfOk result (λ got. got.items ≡ got_in set.now order.now (state_of self.now).state) }
    {
        let mut got = Vec::new(alloc);
        for port in order {
            got.extend_from_slice(self.got_at_port(set, *port as usize))?;
        }
        Ok(got)
    }
}

// What the terms that the sinks of a machine have received say of a stream, where each has as many as it is due.
fn compare_words(
    alloc: Global,
    set: &Set,
    machine: &mut Machine,
    stream: &StreamFlow,
    order: &[u32],
) -> Result<Verdict, AllocError>
    requires fits { FitsOneRun set.now stream.now order.now }
    requires counts { misgot set.now stream.now (state_of machine.old).state ≡ None }
    ensures { IfOk result (IsOfRows set.now stream.now order.now (state_of machine.old)) }
{
    let got = machine.got_in(alloc, set, order)?;
    match claim_rows(alloc, &mut machine.table, stream, order) {
        Ok(due) => compare_terms(alloc, &mut machine.table, &got, &due),
        Err(TermRefusal::TooMany) => Ok(Verdict::TooMany),
        Err(TermRefusal::Memory) => Err(AllocError),
    }
}

// What a machine at rest says of a stream, where all is done.
fn compare(
    alloc: Global,
    set: &Set,
    machine: &mut Machine,
    stream: &StreamFlow,
    order: &[u32],
) -> Result<Verdict, AllocError>
    requires { FitsOneRun set.now stream.now order.now }
    ensures { IfOk result (IsOfRowCounts (misgot set.now stream.now (state_of machine.old).state)
        set.now stream.now order.now (state_of machine.old)) }
{
    match machine.misgot(set, stream) {
        Some(port) => Ok(Verdict::Words {
            received: machine.got_at_port(set, port).len(),
            outs: stream.due_of(port) as usize,
        }),
        None => compare_words(alloc, set, machine, stream, order),
    }
}

// What a machine at rest says of a stream, where each run of the set comes to rest so.
fn rested(
    alloc: Global,
    set: &Set,
    machine: &mut Machine,
    stream: &StreamFlow,
    order: &[u32],
    how: Outcome,
) -> Result<Verdict, AllocError>
    requires fits { FitsOneRun set.now stream.now order.now }
    requires rests { RestsAt set.now machine.old }
    requires outcome { IsOutcomeOf set.now how }
    ensures { IfOk result (IsOfRowsAtRest set.now stream.now order.now (state_of machine.old)) }
{
    law_runs();
    match how {
        Outcome::Done => compare(alloc, set, machine, stream, order),
        _ => Ok(Verdict::Rests(how)),
    }
}

// What is left to look at behind a verdict: terms that should be the same, where some are not seen to be.
fn difference(
    alloc: Global,
    set: &Set,
    mut machine: Machine,
    stream: &StreamFlow,
    order: &[u32],
    verdict: Verdict,
) -> Result<Option<Difference>, AllocError>
    requires { FitsOneRun set.now stream.now order.now }
{
    if !matches!(verdict, Verdict::Differs(_)) {
        return Ok(None);
    }
    let received = machine.got_in(alloc, set, order)?;
    let Ok(claimed) = claim_rows(alloc, &mut machine.table, stream, order) else {
        return Err(AllocError);
    };
    let nodes = nodes_of(alloc, &machine.table)?;
    Ok(Some(Difference {
        nodes,
        received,
        claimed,
    }))
}

// A verdict behind which there is nothing to look at.
fn plain(verdict: Verdict) -> Proof
    ensures { result.verdict ≡ verdict }
{
    Proof {
        verdict,
        difference: None,
    }
}

// What the run of a set with terms says of a stream, where each run of the set comes to rest so.
fn run_rows(
    alloc: Global,
    set: &Set,
    stream: &StreamFlow,
    order: &[u32],
    how: Outcome,
) -> Result<Proof, AllocError>
    requires fits { FitsOneRun set.now stream.now order.now }
    requires outcome { IsOutcomeOf set.now how }
    ensures { IfOk result (λ proof. IsRowsVerdictOfRun set.now stream.now order.now proof.verdict) }
{
    let mut machine = match open(alloc, set) {
        Ok(machine) => machine,
        Err(TermRefusal::TooMany) => return Ok(plain(Verdict::TooMany)),
        Err(TermRefusal::Memory) => return Err(AllocError),
    };
    match machine.run(set)? {
        End::Rests => {
            let verdict = rested(alloc, set, &mut machine, stream, order, how)?;
            let difference = difference(alloc, set, machine, stream, order, verdict)?;
            Ok(Proof {
                verdict,
                difference,
            })
        }
        End::Hangs { step, p } => Ok(plain(Verdict::Hangs { step, p })),
        End::TooMany => Ok(plain(Verdict::TooMany)),
    }
}

// The same, where first the words of each port are counted.
fn judge(
    alloc: Global,
    set: &Set,
    stream: &StreamFlow,
    order: &[u32],
    how: Outcome,
) -> Result<Proof, AllocError>
    requires valid { IsSet set.now }
    requires claim { IsClaimOf set.now stream.now order.now }
    requires outcome { IsOutcomeOf set.now how }
    ensures { IfOk result (λ proof. IsRowsVerdict set.now stream.now order.now proof.verdict) }
{
    match misfed(set, stream) {
        Some(port) => Ok(plain(Verdict::Inputs {
            inputs: stream.taken_of(port) as usize,
            words: words_at(set, port),
        })),
        None => run_rows(alloc, set, stream, order, how),
    }
}

/// Runs a set once with terms in the place of the words of its sources, in the serial order, and says what that shows of
/// a stream whose ports are numbered as those of the set, in its inputs and in its outs. What sinks receive is compared
/// port by port in this order, and row by row.
///
/// `Proved` says that the set meets the flow that the stream is when it is unrolled (`Meets`): with any words in its
/// sources, each run of it, in whatever order, ends done with the values of the outs received. The other verdicts are
/// those of the definition (`IsRowsVerdict`); `Inputs` and `Words` are of the first port whose counts differ.
///
/// `how` is how each run of the set comes to rest, as `outcome_of` finds. Beside the machine the call takes memory for
/// the table of terms, up to `MAX_TERMS` of them, and for what the sinks are due, but not for the nodes of all rows.
pub fn prove_rows(
    alloc: Global,
    set: &Set,
    stream: &StreamFlow,
    order: &[u32],
    how: Outcome,
) -> Result<Proof, AllocError>
    requires claim { IsClaimOf set.now stream.now order.now }
    requires outcome { IsOutcomeOf set.now how }
    ensures verdict { IfOk result (λ proof. IsRowsVerdict set.now stream.now order.now proof.verdict) }
    ensures meets { IfOk result (λ proof. (n : ℕ) → proof.verdict ≡ Verdict.Proved n → Meets set.now (unrolled stream.now)) }
{
    law_rows_proved();
    // The set is read so that its rules are known.
    let _limit = set.limit;
    judge(alloc, set, stream, order, how)
}
