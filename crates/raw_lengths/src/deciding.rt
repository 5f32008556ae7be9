//! Whether there is a proof for all rows of a stream.
ghost use Rattle.std.specs.Prelude.{◌≡◌, ℕ, ◌+◌, ◌*◌, ◌<◌, ◌≤◌, ◌++◌, [], true, length, map, replicate, IfOk, IfSome};
ghost use Rattle.std.specs.List.{filter_map};
ghost use Rattle.raw_flow.specs.declared.node.Node.TheVariants as node;
ghost use Rattle.raw_flow.specs.Flows.{AreNodes};
ghost use Rattle.raw_stream.specs.Streams.{Stream, IsRowNode, AreRowNodes, plain, first_of, first_words};
ghost use Rattle.raw_rows.specs.Lengths.{with_counters, IsLengthProof, IsSteadyNoting, EndsDone, counted};
ghost use Rattle.raw_cut.specs.Cuts.{cut_of};
ghost use Rattle.raw_lengths.specs.Proofs.{proof_of, AreCounted};

use crate::closing::ends;
use crate::counters::{counted_on, first_words as words_of, values_of};
use crate::extended::with_counters;
use crate::looking::are_some;
use crate::proof::LengthProof;
use crate::steady::steady_places;
use raw_cut::{are_nodes, carried_count, open_inputs, opens};
use raw_flow::Node;
use raw_model::Set;
use raw_row_terms::plain_nodes;
use raw_stream::{RowNode, StreamFlow};
use std::alloc::{AllocError, Global};

// Whether a node of so many, at this place, takes no word and names nodes that there are.
fn is_counter(node: RowNode, place: usize, nodes: usize) -> bool
    ensures { result ≡ true → IsRowNode 0 nodes place node }
{
    match node {
        RowNode::Input { .. } => false,
        RowNode::Const { .. } => true,
        RowNode::Apply { a, b, .. } => (a as usize) < place && (b as usize) < place,
        RowNode::Pre { a, .. } => (a as usize) < nodes,
    }
}

// Whether nodes take no words and name each other alone.
fn are_counters(nodes: &[RowNode]) -> bool
    ensures { result ≡ true → AreRowNodes 0 nodes.now }
{
    for place in 0..nodes.len() {
        if !is_counter(nodes[place], place, nodes.len()) {
            return false;
        }
    }
    true
}

// Whether a proof passes all rows of a stream, and its end sees no fewer than its cut.
fn passes_all(count: u32, proof: &LengthProof) -> bool
    ensures count { result ≡ true → proof.now.first_rows + proof.now.kernels * proof.now.rows + proof.now.last_rows ≡ count }
    ensures window { result ≡ true → proof.now.cut.window ≤ proof.now.last_rows }
{
    let kernels = u64::from(proof.kernels) * u64::from(proof.rows);
    let Some(first) = kernels.checked_add(u64::from(proof.first_rows)) else {
        return false;
    };
    let Some(all) = first.checked_add(u64::from(proof.last_rows)) else {
        return false;
    };
    all == u64::from(count) && proof.cut.window <= proof.last_rows
}

// What counters are behind so many kernels, each of so many rows, where they are these before the first. None where one of
// the values of nodes over them, at these places, is 0 in one of the kernels.
fn pass_kernels(
    alloc: Global,
    counters: &[RowNode],
    nodes: &[Node],
    looks: &[Node],
    places: &[u32],
    words: Vec<u32>,
    rows: u32,
    kernels: u32,
) -> Result<Option<Vec<u32>>, AllocError>
    requires { nodes.now ≡ map plain counters.now }
    ensures { IfOk result (λ found. IfSome found (λ last. (first : ℕ) → ((s : Stream) → words.items ≡ counted s counters.now first)
        → AreCounted counters.now looks.now places.now first rows kernels
        × ((s : Stream) → last.items ≡ counted s counters.now (first + kernels * rows)))) }
{
    let mut now = words;
    for _k in 0..kernels {
        let values = values_of(alloc, &now, looks)?;
        if !are_some(&values, places) {
            return Ok(None);
        }
        now = counted_on(alloc, counters, nodes, now, rows)?;
    }
    Ok(Some(now))
}

// What counters are behind all kernels of a proof, where in none of them a look at these places is 0.
fn counted_last(
    alloc: Global,
    proof: &LengthProof,
    places: &[u32],
) -> Result<Option<Vec<u32>>, AllocError>
    ensures { IfOk result (λ found. IfSome found (λ last.
        AreCounted proof.now.counters.items proof.now.looks.items places.now proof.now.first_rows proof.now.rows proof.now.kernels
        × ((s : Stream) → last.items ≡ counted s proof.now.counters.items (proof.now.first_rows + proof.now.kernels * proof.now.rows)))) }
{
    let counters: &[RowNode] = &proof.counters;
    let plain = plain_nodes(alloc, counters)?;
    let first = words_of(alloc, counters)?;
    let words = counted_on(alloc, counters, &plain, first, proof.first_rows)?;
    pass_kernels(
        alloc,
        counters,
        &plain,
        &proof.looks,
        places,
        words,
        proof.rows,
        proof.kernels,
    )
}

/// So many inputs, and behind them words.
pub(crate) fn last_carried(alloc: Global, own: u32, words: &[u32]) -> Result<Vec<Node>, AllocError>
    ensures { IfOk result (λ nodes. nodes.items ≡ replicate own node.Input ++ map (λ (word : ℕ). node.Const word) words.now) }
{
    let mut nodes = open_inputs(alloc, own)?;
    for word in words {
        nodes.push(Node::Const { word: *word })?;
    }
    Ok(nodes)
}

// How many words of its own a stream carries, and how many counters.
#[derive(Clone, Copy, Drop)]
struct Counts {
    own: u32,
    counters: u32,
}

// The counts of a stream and counters. None where there are too many.
fn counts_of(stream: &StreamFlow, counters: &[RowNode]) -> Option<Counts>
    ensures own { IfSome result (λ counts. counts.own ≡ length (first_words stream.now)) }
    ensures counters { IfSome result (λ counts. counts.counters ≡ length (filter_map first_of counters.now)) }
{
    let own = carried_count(&stream.nodes);
    let many = carried_count(counters);
    if own > u32::MAX as usize || many > u32::MAX as usize {
        return None;
    }
    Some(Counts {
        own: own as u32,
        counters: many as u32,
    })
}

// Whether the kernels and the end of a proof are as they should be.
fn passes_on(
    alloc: Global,
    set: &Set,
    stream: &StreamFlow,
    extended: &StreamFlow,
    proof: &LengthProof,
) -> Result<bool, AllocError>
    requires extended { extended.now ≡ with_counters stream.now proof.now.counters.items }
    ensures { IfOk result (λ yes. yes ≡ true →
        IsSteadyNoting set.now stream.now (proof_of proof.now) × EndsDone set.now stream.now (proof_of proof.now)) }
{
    let Some(counts) = counts_of(stream, &proof.counters) else {
        return Ok(false);
    };
    let Some(places) = steady_places(
        alloc,
        set,
        extended,
        proof.limit,
        &proof.cut,
        &proof.kernel,
        proof.rows,
        counts.own,
        counts.counters,
        &proof.looks,
    )?
    else {
        return Ok(false);
    };
    let Some(last) = counted_last(alloc, proof, &places)? else {
        return Ok(false);
    };
    let carried = last_carried(alloc, counts.own, &last)?;
    ends(
        alloc,
        set,
        extended,
        proof.last_limit,
        &carried,
        &proof.cut,
        &proof.ending,
        proof.last_rows,
    )
}

/// Whether this is a proof that a set computes all rows of a stream. It is found false also where a part of it needs more
/// terms than a table holds, or rows of which there is no set.
///
/// Beside a copy of the set, the machine and the table of terms, of which there is one at a time, the call takes memory for
/// the terms of the rows that a part of the proof sees.
pub fn is_length_proof(
    alloc: Global,
    set: &Set,
    stream: &StreamFlow,
    proof: &LengthProof,
) -> Result<bool, AllocError>
    ensures { IfOk result (λ yes. yes ≡ true → IsLengthProof set.now stream.now (proof_of proof.now)) }
{
    if !are_counters(&proof.counters) {
        return Ok(false);
    }
    if !are_nodes(&proof.cut.nodes) {
        return Ok(false);
    }
    if !are_nodes(&proof.looks) {
        return Ok(false);
    }
    if !passes_all(stream.count, proof) {
        return Ok(false);
    }
    let Some(extended) = with_counters(alloc, stream, &proof.counters)? else {
        return Ok(false);
    };
    if !opens(
        alloc,
        set,
        &extended,
        proof.first_limit,
        &proof.opening,
        proof.first_rows,
        &proof.cut,
    )? {
        return Ok(false);
    }
    passes_on(alloc, set, stream, &extended, proof)
}
