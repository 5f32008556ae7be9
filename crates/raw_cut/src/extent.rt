//! For which numbers of rows a set is proved.
ghost use Rattle.std.specs.Prelude.{◌≡◌, ℕ, ◌+◌, ◌*◌, ◌<◌, ◌≤◌, true, length, sum_by, slice_get, Some, IfOk, IfSome};
ghost use Rattle.std.specs.List.{range_with_len};
ghost use Rattle.raw_grid.specs.declared.parts.PortKind.TheVariants as kind;
ghost use Rattle.raw_grid.specs.declared.parts.PortPlace.{PortPlace};
ghost use Rattle.raw_model.specs.declared.limits.TheConstants.{MAX_ALL_WORDS};
ghost use Rattle.raw_model.specs.Machine.{capacity_of};
ghost use Rattle.raw_stream.specs.Streams.{AreNamed, due_at};
ghost use Rattle.raw_stream.specs.Unrolled.{takes, width};
ghost use Rattle.raw_cut.specs.Cuts.{proof_of};
ghost use Rattle.raw_cut.specs.Live.{IsMetFrom, HasPlaces, HasSteps};

use crate::deciding::is_live_proof;
use crate::ports::due_at;
use crate::proof::LiveProof;
use crate::searching::find_live_proof;
use raw_grid::{PortKind, Topo};
use raw_model::Set;
use raw_model::limits::MAX_ALL_WORDS;
use raw_rows::law_live;
use raw_stream::{RowNode, StreamFlow};
use std::alloc::{AllocError, Global};

/// For which numbers of rows a set is proved.
#[derive(Drop)]
pub struct Extent {
    /// For so many rows at least. Of fewer nothing is known.
    pub least: u32,
    /// For so many rows at most.
    pub most: u32,
    /// So many of the words that it is due each port lacks at most, the last ones, by its number.
    pub lacks: Vec<u32>,
}

// Whether a node takes a word of this port.
fn takes(node: RowNode, port: u32) -> usize
    ensures { result ≡ takes port node }
{
    match node {
        RowNode::Input { port: own } => { if own == port { 1 } else { 0 } }
        RowNode::Const { .. } => 0,
        RowNode::Apply { .. } => 0,
        RowNode::Pre { .. } => 0,
    }
}

// How many words a port gives of a row.
pub(crate) fn width_at(row: &[RowNode], port: u32) -> usize
    ensures value { result ≡ sum_by (takes port) row.now }
    ensures few { result ≤ length row.now }
{
    let mut count = 0;
    for place in 0..row.len() {
        count += takes(row[place], port);
    }
    count
}

// Whether a port of this kind may give so many words of a row.
fn may_give(kind: PortKind, width: usize) -> bool
    ensures { result ≡ true → kind ≡ PortKind.Sink → width ≡ 0 }
{
    match kind {
        PortKind::Source => true,
        PortKind::Sink => width == 0,
    }
}

// How many words all ports give of a row. None where a sink gives some, or a set may not have so many.
fn widths_at(topo: &Topo, stream: &StreamFlow) -> Option<u32>
    ensures total { IfSome result (λ total. total ≡ sum_by (width stream.now) (range_with_len 0 (length topo.now.places))) }
    ensures few { IfSome result (λ total. total ≤ MAX_ALL_WORDS) }
    ensures sinks { IfSome result (λ total. (q : ℕ) (place : PortPlace) →
        slice_get topo.now.places q ≡ Some place → place.kind ≡ kind.Sink → width stream.now q ≡ 0) }
{
    let mut total = 0;
    for port in 0..topo.ports() {
        let width = width_at(&stream.nodes, port);
        if !may_give(topo.place_of(port).kind, width) || width > (MAX_ALL_WORDS - total) as usize {
            return None;
        }
        total += width as u32;
    }
    Some(total)
}

// Whether so many times so much is within a limit.
fn is_within(most: u32, each: usize, limit: u32) -> bool
    ensures { result ≡ true → most * each ≤ limit }
{
    each <= limit as usize && u64::from(most) * each as u64 <= u64::from(limit)
}

// Whether the ports of a set have room for what they are due of so many rows.
fn have_room(alloc: Global, set: &Set, stream: &StreamFlow, most: u32) -> Result<bool, AllocError>
    ensures { IfOk result (λ yes. yes ≡ true → (q : ℕ) → q < length set.now.ports →
        most * length (due_at stream.now q) ≤ capacity_of (slice_get set.now.ports q)) }
{
    for port in 0..set.ports.len() {
        let Ok(number) = u32::try_from(port) else {
            return Ok(false);
        };
        let need = due_at(alloc, stream, number)?.len();
        if !is_within(most, need, set.ports[port].capacity) {
            return Ok(false);
        }
    }
    Ok(true)
}

// So many rows, or as many as the ports of a set have room for with a place more in each. Nothing is said of it.
fn room_rows(alloc: Global, set: &Set, stream: &StreamFlow, bound: u32) -> Result<u32, AllocError> {
    let mut most = bound;
    for port in 0..set.ports.len() {
        let Ok(number) = u32::try_from(port) else {
            return Ok(0);
        };
        let need = due_at(alloc, stream, number)?.len();
        let room = set.ports[port].capacity.saturating_sub(1) as usize;
        if let Some(rows) = room.checked_div(need) {
            most = most.min(u32::try_from(rows).unwrap_or(u32::MAX));
        }
    }
    Ok(most)
}

// The most rows for which the sources of a set may have words and its sinks room for what they are due, with a place more
// in each. None where it has ports of another kind than the stream.
fn rows_with_room(alloc: Global, set: &Set, stream: &StreamFlow) -> Result<Option<u32>, AllocError>
    requires named { AreNamed stream.now }
    requires sinks { length stream.now.sinks ≤ length set.now.ports }
    ensures { IfOk result (λ found. IfSome found (λ most. HasPlaces set.now stream.now most)) }
{
    let Some(total) = widths_at(&set.topo, stream) else {
        return Ok(None);
    };
    let most = room_rows(alloc, set, stream, MAX_ALL_WORDS / total.max(1))?;
    if !is_within(most, total as usize, MAX_ALL_WORDS) || !have_room(alloc, set, stream, most)? {
        return Ok(None);
    }
    // The set is read so that its rules are known.
    let _limit = set.limit;
    Ok(Some(most))
}

// The most rows for which a proof takes no more than so many steps. Nothing is said of it.
fn most_in(limit: u32, proof: &LiveProof, least: u32) -> u32 {
    let left = limit
        .saturating_sub(1)
        .saturating_sub(proof.first_limit)
        .saturating_sub(proof.last_limit);
    let kernels = left / proof.limit.max(1);
    least
        .saturating_add(kernels.saturating_mul(proof.rows))
        .saturating_add(proof.rows.saturating_sub(1))
}

// The least number of rows of which a proof tells. None where it is too great.
fn least_rows(proof: &LiveProof) -> Option<u32>
    ensures { IfSome result (λ least. least ≡ proof.now.first_rows + proof.now.cut.window) }
{
    proof.first_rows.checked_add(proof.cut.window)
}

// Whether a proof takes no more than so many steps for so many rows, from the least number on, and these have room.
fn is_enough(limit: u32, proof: &LiveProof, least: u32, room: u32, most: u32) -> bool
    requires least { least ≡ proof.now.first_rows + proof.now.cut.window }
    ensures rows { result ≡ true → 1 ≤ proof.now.rows }
    ensures room { result ≡ true → most ≤ room }
    ensures steps { result ≡ true → HasSteps limit (proof_of proof.now) most }
{
    if proof.rows == 0 || most > room {
        return false;
    }
    let kernels = most.saturating_sub(least) / proof.rows;
    let Some(steps) = kernels.checked_mul(proof.limit) else {
        return false;
    };
    let both = u64::from(proof.first_limit) + u64::from(proof.last_limit);
    both + u64::from(steps) <= u64::from(limit)
}

/// For which numbers of rows a set is proved against a stream with the ports of the set: with any words, fed with so many
/// rows, it comes to rest, and each sink has what it is due but for the last words. Words of the set are not looked at; its
/// limit and the room of its sinks are. None where no proof is found, or one for no number of rows.
pub fn prove_live(
    alloc: Global,
    set: &Set,
    stream: &StreamFlow,
) -> Result<Option<Extent>, AllocError>
    requires named { AreNamed stream.now }
    requires sources { length stream.now.sources ≤ length set.now.ports }
    requires sinks { length stream.now.sinks ≤ length set.now.ports }
    ensures { IfOk result (λ found. IfSome found (λ extent.
        IsMetFrom set.now stream.now extent.least extent.most extent.lacks.items)) }
{
    let limit = set.limit;
    let Some(room) = rows_with_room(alloc, set, stream)? else {
        return Ok(None);
    };
    let Some(proof) = find_live_proof(alloc, set, stream, limit)? else {
        return Ok(None);
    };
    let Some(least) = least_rows(&proof) else {
        return Ok(None);
    };
    let most = room.min(most_in(limit, &proof, least));
    if most < least || !is_enough(limit, &proof, least, room, most) {
        return Ok(None);
    }
    if !is_live_proof(alloc, set, stream, &proof)? {
        return Ok(None);
    }
    law_live();
    let LiveProof { lacks, .. } = proof;
    Ok(Some(Extent { least, most, lacks }))
}
