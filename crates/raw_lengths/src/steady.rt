//! Runs with terms from a cut to itself that count.
ghost use Rattle.std.specs.Prelude.{◌≡◌, ◌+◌, ◌≤◌, true, length, IfOk, IfSome};
ghost use Rattle.raw_stream.specs.Streams.{first_words};
ghost use Rattle.raw_rows.specs.Kernels.{unknown};
ghost use Rattle.raw_cut.specs.Cuts.{cut_of};
ghost use Rattle.raw_lengths.specs.Proofs.{IsSteadySeen};

use crate::looking::places_of;
use crate::noting::go_noting;
use raw_cut::{Begun, Cut, arrives, begin_seeing, numbers_from, open_inputs, place_all, widths_of};
use raw_flow::Node;
use raw_model::Set;
use raw_stream::StreamFlow;
use std::alloc::{AllocError, Global};

/// Whether a list of steps leads from a cut to itself, so many rows later, where behind its own words
/// a stream carries so many counters: the places, among nodes over these, of the terms on which it branches. None where it does not.
pub(crate) fn steady_places(
    alloc: Global,
    set: &Set,
    stream: &StreamFlow,
    limit: u32,
    cut: &Cut,
    steps: &[u32],
    later: u32,
    own: u32,
    counters: u32,
    looks: &[Node],
) -> Result<Option<Vec<u32>>, AllocError>
    ensures { IfOk result (λ found. IfSome found (λ places.
        IsSteadySeen set.now stream.now limit (cut_of cut.now) steps.now later own counters looks.now places.items)) }
{
    let Some(widths) = widths_of(stream) else {
        return Ok(None);
    };
    let Some(many) = later.checked_add(cut.window) else {
        return Ok(None);
    };
    if u64::from(own) + u64::from(counters) > u64::from(widths.carried) {
        return Ok(None);
    }
    let carried = open_inputs(alloc, widths.carried)?;
    let Some(start) = begin_seeing(alloc, set, stream, limit, &carried, cut, many)? else {
        return Ok(None);
    };
    let Begun {
        set: seen,
        mut machine,
        rows,
        ..
    } = start;
    let ins = numbers_from(alloc, 1 + own, counters)?;
    let Some(numbers) = place_all(alloc, &mut machine.table, &ins, looks)? else {
        return Ok(None);
    };
    let Some(terms) = go_noting(alloc, &seen, &mut machine, steps)? else {
        return Ok(None);
    };
    let Some(places) = places_of(alloc, &numbers, &terms)? else {
        return Ok(None);
    };
    if !arrives(
        alloc, &seen, stream, widths, &carried, machine, &rows, later, cut,
    )? {
        return Ok(None);
    }
    Ok(Some(places))
}
