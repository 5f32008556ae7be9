//! Whether a set computes all rows of a stream, by a proof that is looked for.
ghost use Rattle.std.specs.Prelude.{◌≡◌, ℕ, ◌+◌, ◌*◌, ◌<◌, ◌≤◌, None, true, length, slice_get, IfOk, IfSome};
ghost use Rattle.raw_model.specs.Machine.{capacity_of};
ghost use Rattle.raw_stream.specs.Kept.{due_count};
ghost use Rattle.raw_stream.specs.Unrolled.{unrolled};
ghost use Rattle.raw_term.specs.Claims.{Meets};
ghost use Rattle.raw_row_terms.specs.RowClaims.{HasRows, HasPortsOf, misfed};
ghost use Rattle.raw_row_terms.specs.Right.{MeetsRows};
ghost use Rattle.raw_rows.specs.Lengths.{IsLengthProof};
ghost use Rattle.raw_lengths.specs.Proofs.{proof_of};

use crate::deciding::is_length_proof;
use crate::proof::LengthProof;
use crate::seeking::find_length_proof;
use raw_model::{PortProg, Set};
use raw_rows::law_lengths;
use raw_stream::StreamFlow;
use std::alloc::{AllocError, Global};

// Whether a port has room for so many words.
fn has_room(port: &PortProg, due: u64) -> bool
    ensures { result ≡ true → due ≤ port.now.capacity }
{
    due <= u64::from(port.capacity)
}

// Whether the ports of a set have room for what they are due of all rows.
fn have_room(set: &Set, stream: &StreamFlow) -> bool
    requires { HasRows stream.now }
    ensures { result ≡ true → (q : ℕ) → q < length set.now.ports →
        due_count stream.now q ≤ capacity_of (slice_get set.now.ports q) }
{
    for port in 0..set.ports.len() {
        if !has_room(&set.ports[port], stream.due_of(port)) {
            return false;
        }
    }
    true
}

// Whether a proof takes no more steps than a limit allows.
fn has_steps(limit: u32, proof: &LengthProof) -> bool
    ensures { result ≡ true →
        proof.now.first_limit + proof.now.kernels * proof.now.limit + proof.now.last_limit ≤ limit }
{
    let kernels = u64::from(proof.kernels) * u64::from(proof.limit);
    let Some(first) = kernels.checked_add(u64::from(proof.first_limit)) else {
        return false;
    };
    match first.checked_add(u64::from(proof.last_limit)) {
        Some(steps) => steps <= u64::from(limit),
        None => false,
    }
}

/// Whether a set is proved to compute all rows of a stream, with any words in its sources, by one kernel for all times that
/// its loops go round. The set has to have as many words as all rows take.
pub fn prove_length(alloc: Global, set: &Set, stream: &StreamFlow) -> Result<bool, AllocError>
    requires rows { HasRows stream.now }
    requires ports { HasPortsOf set.now stream.now }
    requires counts { misfed set.now stream.now ≡ None }
    ensures meets { IfOk result (λ yes. yes ≡ true → MeetsRows set.now stream.now) }
    // So it meets the flow that the stream is when it is unrolled.
    ensures unrolled { IfOk result (λ yes. yes ≡ true → Meets set.now (unrolled stream.now)) }
{
    let limit = set.limit;
    if !have_room(set, stream) {
        return Ok(false);
    }
    let Some(proof) = find_length_proof(alloc, set, stream, limit)? else {
        return Ok(false);
    };
    if !has_steps(limit, &proof) {
        return Ok(false);
    }
    law_lengths();
    is_length_proof(alloc, set, stream, &proof)
}
