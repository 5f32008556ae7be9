//! Whether there is a proof for every number of rows.
ghost use Rattle.std.specs.Prelude.{◌≡◌, ℕ, ◌<◌, ◌+◌, true, map, slice_index_or, [], IfOk, IfSome};
ghost use Rattle.raw_rows.specs.Kernels.{IsLiveProof, Leads, IsSteady, RestsSeeing, start_cut, known, unknown};
ghost use Rattle.raw_cut.specs.Cuts.{cut_of, proof_of};

use crate::cut::Cut;
use crate::fitting::set_seeing;
use crate::leading::{leads, rests};
use crate::nodes::{are_nodes, known, open_inputs};
use crate::proof::LiveProof;
use crate::standing::cut_at;
use crate::widths::widths_of;
use raw_model::Set;
use raw_prove::open;
use raw_stream::StreamFlow;
use raw_term::TermRefusal;
use std::alloc::{AllocError, Global};

/// The start of a set, as a cut that sees no row.
pub fn start_of(alloc: Global, set: &Set, stream: &StreamFlow) -> Result<Option<Cut>, AllocError>
    ensures { IfOk result (λ found. IfSome found (λ cut. cut_of cut ≡ start_cut set.now)) }
{
    let Some(seen) = set_seeing(alloc, set, stream, 1, &[], 0)? else {
        return Ok(None);
    };
    match open(alloc, &seen) {
        Ok(machine) => Ok(Some(cut_at(alloc, &seen, &machine, 0)?)),
        Err(TermRefusal::TooMany) => Ok(None),
        Err(TermRefusal::Memory) => Err(AllocError),
    }
}

/// Whether a list of steps leads from the start of a set to a cut, so many rows later.
pub fn opens(
    alloc: Global,
    set: &Set,
    stream: &StreamFlow,
    limit: u32,
    steps: &[u32],
    later: u32,
    to: &Cut,
) -> Result<bool, AllocError>
    ensures { IfOk result (λ yes. yes ≡ true →
        Leads set.now stream.now limit (known stream.now) (start_cut set.now) steps.now later (cut_of to.now)) }
{
    let Some(start) = start_of(alloc, set, stream)? else {
        return Ok(false);
    };
    let carried = known(alloc, &stream.nodes)?;
    leads(
        alloc, set, stream, limit, &carried, &start, steps, later, to,
    )
}

/// Whether steps lead from the cut to itself.
pub(crate) fn is_steady(
    alloc: Global,
    set: &Set,
    stream: &StreamFlow,
    proof: &LiveProof,
) -> Result<bool, AllocError>
    ensures { IfOk result (λ yes. yes ≡ true → IsSteady set.now stream.now proof.now.limit
        (cut_of proof.now.cut) proof.now.kernel.items proof.now.rows) }
{
    let Some(widths) = widths_of(stream) else {
        return Ok(false);
    };
    let carried = open_inputs(alloc, widths.carried)?;
    leads(
        alloc,
        set,
        stream,
        proof.limit,
        &carried,
        &proof.cut,
        &proof.kernel,
        proof.rows,
        &proof.cut,
    )
}

// Whether steps come to rest, for each number of rows below those of the kernel.
fn all_rest(
    alloc: Global,
    set: &Set,
    stream: &StreamFlow,
    proof: &LiveProof,
) -> Result<bool, AllocError>
    ensures { IfOk result (λ yes. yes ≡ true → (i : ℕ) → i < proof.now.rows →
        RestsSeeing set.now stream.now proof.now.last_limit (unknown stream.now) (cut_of proof.now.cut)
        (slice_index_or (map (λ steps. steps.items) proof.now.endings.items) i []) proof.now.lacks.items (proof.now.cut.window + i)) }
{
    if proof.endings.len() != proof.rows as usize {
        return Ok(false);
    }
    for i in 0..proof.rows {
        let Some(many) = proof.cut.window.checked_add(i) else {
            return Ok(false);
        };
        if !rests(
            alloc,
            set,
            stream,
            proof.last_limit,
            &proof.cut,
            &proof.endings[i as usize],
            &proof.lacks,
            many,
        )? {
            return Ok(false);
        }
    }
    Ok(true)
}

/// Whether this is a proof that a set meets a stream for every number of rows. It is found false also where a part of it
/// needs more terms than a table holds, or rows of which there is no set.
///
/// Beside a copy of the set, the machine and the table of terms, of which there is one at a time, the call takes memory for
/// the terms of the rows that a part of the proof sees.
pub fn is_live_proof(
    alloc: Global,
    set: &Set,
    stream: &StreamFlow,
    proof: &LiveProof,
) -> Result<bool, AllocError>
    ensures { IfOk result (λ yes. yes ≡ true → IsLiveProof set.now stream.now (proof_of proof.now)) }
{
    if !are_nodes(&proof.cut.nodes) {
        return Ok(false);
    }
    if !opens(
        alloc,
        set,
        stream,
        proof.first_limit,
        &proof.opening,
        proof.first_rows,
        &proof.cut,
    )? {
        return Ok(false);
    }
    if !is_steady(alloc, set, stream, proof)? {
        return Ok(false);
    }
    all_rest(alloc, set, stream, proof)
}
