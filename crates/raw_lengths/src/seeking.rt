//! The search for a proof for all rows. What it finds is checked as any other.
ghost use Rattle.std.specs.Prelude.{◌≡◌, true, IfOk};
ghost use Rattle.raw_cut.specs.Kept.{IsKept};

use crate::counters::{counted_on, first_words, values_of as values_at};
use crate::deciding::last_carried;
use crate::extended::with_counters;
use crate::looking::are_some;
use crate::noting::go_noting;
use crate::proof::LengthProof;
use crate::searching::{Recurrence, Search};
use crate::steady::steady_places;
use crate::telling::{Group, counters_for, groups_of, looks_of, tell};
use raw_cut::{
    Begun, Cut, begin_seeing, carried_count, cut_from, go_along, known, most_by_one, open_inputs,
    port_widths, run_to_rest, start_of, values_of,
};
use raw_flow::Node;
use raw_model::Set;
use raw_prove::Machine;
use raw_row_terms::plain_nodes;
use raw_stream::{RowNode, StreamFlow};
use std::alloc::{AllocError, Global};

/// So many rows a run sees in which the control should recur, at first and each time that this does not suffice.
const ROWS: [u32; 4] = [64, 256, 1_024, 4_096];

/// So many rows further back the words of a cut are told from, the first that suffice.
const BACK: [u64; 12] = [0, 1, 2, 3, 4, 6, 8, 16, 32, 64, 128, 256];

// What is looked for: a set whose processors execute at most so many instructions, a stream, and so many rows that runs see.
#[derive(Clone, Copy)]
struct Bounds {
    limit: u32,
    many: u32,
}

// Where the control recurs in a run, and the steps of that.
#[derive(Drop)]
struct Course {
    steps: Vec<u32>,
    found: Vec<Recurrence>,
}

// Runs a set with terms, and notes where its control recurs.
fn course_of(
    alloc: Global,
    set: &Set,
    stream: &StreamFlow,
    bounds: Bounds,
) -> Result<Option<Course>, AllocError> {
    let nodes = known(alloc, &stream.nodes)?;
    let Some(start) = start_of(alloc, set, stream)? else {
        return Ok(None);
    };
    let begins = begin_seeing(
        alloc,
        set,
        stream,
        bounds.limit,
        &nodes,
        &start,
        bounds.many,
    )?;
    let Some(
        Begun {
            set: seen,
            machine,
            ..
        },
    ) = begins
    else {
        return Ok(None);
    };
    let widths = port_widths(alloc, &seen, stream)?;
    let mut search = Search::begin(alloc, &seen, &machine, widths)?;
    search.recur(alloc, &seen, machine)?;
    let Search { steps, found, .. } = search;
    Ok(Some(Course { steps, found }))
}

// Goes along a list of steps, each a processor's. Where it does not, the machine is not used again.
fn go_to(set: &Set, machine: &mut Machine, steps: &[u32]) -> Result<bool, AllocError>
    requires { IsKept set.now machine.old }
    ensures { IfOk result (λ goes. goes ≡ true → IsKept set.now machine.new) }
{
    go_along(set, machine, steps)
}

// A cut that is told by counters, behind so many rows.
#[derive(Drop)]
struct Told {
    cut: Cut,
    first_rows: u32,
}

// The cut to which steps lead, where registers that count are told by counters: so many for each group.
fn cut_at(
    alloc: Global,
    set: &Set,
    stream: &StreamFlow,
    bounds: Bounds,
    steps: &[u32],
    recurrence: &Recurrence,
    groups: &[Group],
) -> Result<Option<Told>, AllocError> {
    let strangers = counters_for(alloc, groups, recurrence.rows, 0, true)?;
    let Some(extended) = with_counters(alloc, stream, &strangers)? else {
        return Ok(None);
    };
    let nodes = known(alloc, &extended.nodes)?;
    let Some(start) = start_of(alloc, set, &extended)? else {
        return Ok(None);
    };
    let begins = begin_seeing(
        alloc,
        set,
        &extended,
        bounds.limit,
        &nodes,
        &start,
        bounds.many,
    )?;
    let Some(
        Begun {
            set: seen,
            mut machine,
            rows,
            ..
        },
    ) = begins
    else {
        return Ok(None);
    };
    let Some(run) = values_of(alloc, &mut machine.table, &extended, &nodes, &rows)? else {
        return Ok(None);
    };
    if !go_to(&seen, &mut machine, steps)? {
        return Ok(None);
    }
    let widths = port_widths(alloc, &seen, stream)?;
    for back in BACK {
        let Some(base) = recurrence.whole.checked_sub(back) else {
            return Ok(None);
        };
        let (Ok(first_rows), Ok(window)) = (
            u32::try_from(base),
            u32::try_from(recurrence.begun.saturating_sub(base)),
        ) else {
            return Ok(None);
        };
        let found = cut_from(
            alloc, &seen, &extended, &run, &widths, &machine, first_rows, window,
        )?;
        if let Some(mut cut) = found {
            let first = first_counter(stream);
            tell(&mut cut, &recurrence.slots, groups, first, recurrence.rows)?;
            return Ok(Some(Told { cut, first_rows }));
        }
    }
    Ok(None)
}

// The number that the first counter has among the nodes of a cut.
fn first_counter(stream: &StreamFlow) -> u32 {
    u32::try_from(carried_count(&stream.nodes))
        .unwrap_or(0)
        .saturating_add(1)
}

// The terms on which a kernel branches, as nodes over the counters.
fn looks_in(
    alloc: Global,
    set: &Set,
    stream: &StreamFlow,
    extended: &StreamFlow,
    cut: &Cut,
    kernel: &[u32],
    limit: u32,
    rows: u32,
) -> Result<Option<Vec<Node>>, AllocError> {
    let all = u32::try_from(carried_count(&extended.nodes)).unwrap_or(0);
    let first = first_counter(stream);
    let carried = open_inputs(alloc, all)?;
    let many = rows.saturating_add(cut.window);
    let begins = begin_seeing(alloc, set, extended, limit, &carried, cut, many)?;
    let Some(
        Begun {
            set: seen,
            mut machine,
            ..
        },
    ) = begins
    else {
        return Ok(None);
    };
    let Some(terms) = go_noting(alloc, &seen, &mut machine, kernel)? else {
        return Ok(None);
    };
    let many = all.saturating_add(1).saturating_sub(first);
    looks_of(alloc, &machine.table, &terms, first, many)
}

// Lets counters fall by a kernel: so many of each group.
fn pass_kernel(now: &mut Vec<u32>, groups: &[Group], rows: u32) {
    for place in 0..now.len() {
        let behind = place.checked_div(rows as usize).unwrap_or(0);
        let Some(group) = groups.get(behind) else {
            return;
        };
        if let Some(word) = now.get_mut(place) {
            *word = word.wrapping_sub(group.step);
        }
    }
}

// How many kernels there are at most, up to so many, before one in which a look is 0, and the counters behind them, from
// what these are before the first.
fn count_kernels(
    alloc: Global,
    groups: &[Group],
    looks: &[Node],
    places: &[u32],
    first: Vec<u32>,
    rows: u32,
    most: u32,
) -> Result<(u32, Vec<u32>), AllocError> {
    let mut now = first;
    for kernel in 0..most {
        let values = values_at(alloc, &now, looks)?;
        if !are_some(&values, places) {
            return Ok((kernel, now));
        }
        pass_kernel(&mut now, groups, rows);
    }
    Ok((most, now))
}

// What counters are behind so many rows.
fn counters_at(alloc: Global, counters: &[RowNode], rows: u32) -> Result<Vec<u32>, AllocError> {
    let plain = plain_nodes(alloc, counters)?;
    let first = first_words(alloc, counters)?;
    counted_on(alloc, counters, &plain, first, rows)
}

// Runs from a cut to the end, and says by which steps. None where it does not come to rest.
fn ending_of(
    alloc: Global,
    set: &Set,
    extended: &StreamFlow,
    limit: u32,
    carried: &[Node],
    cut: &Cut,
    many: u32,
) -> Result<Option<Vec<u32>>, AllocError> {
    let begins = begin_seeing(alloc, set, extended, limit, carried, cut, many)?;
    let Some(
        Begun {
            set: seen,
            mut machine,
            ..
        },
    ) = begins
    else {
        return Ok(None);
    };
    let mut steps = Vec::new(alloc);
    if !run_to_rest(&seen, &mut machine, &mut steps)? {
        return Ok(None);
    }
    Ok(Some(steps))
}

// So many steps of a list, from one on.
fn steps_in(alloc: Global, steps: &[u32], from: usize, to: usize) -> Result<Vec<u32>, AllocError> {
    steps.get(from..to).unwrap_or(&[]).to_vec(alloc)
}

// A proof whose kernel is what lies between the last two times that the control stood so.
fn proof_at(
    alloc: Global,
    set: &Set,
    stream: &StreamFlow,
    bounds: Bounds,
    steps: &[u32],
    recurrence: &Recurrence,
) -> Result<Option<LengthProof>, AllocError> {
    let opening = steps_in(alloc, steps, 0, recurrence.steps)?;
    let kernel = steps_in(alloc, steps, recurrence.before, recurrence.steps)?;
    let groups = groups_of(alloc, &recurrence.slots)?;
    let told = cut_at(alloc, set, stream, bounds, &opening, recurrence, &groups)?;
    let Some(told) = told else {
        return Ok(None);
    };
    let counters = counters_for(alloc, &groups, recurrence.rows, told.first_rows, false)?;
    let Some(extended) = with_counters(alloc, stream, &counters)? else {
        return Ok(None);
    };
    let limit = bounds.limit;
    let rows = recurrence.rows;
    let looks = looks_in(
        alloc, set, stream, &extended, &told.cut, &kernel, limit, rows,
    )?;
    let Some(looks) = looks else {
        return Ok(None);
    };
    finish(
        alloc, set, stream, &extended, limit, rows, told, &groups, counters, looks, opening, kernel,
    )
}

// Finds how many kernels there are and how the set comes to its end.
fn finish(
    alloc: Global,
    set: &Set,
    stream: &StreamFlow,
    extended: &StreamFlow,
    limit: u32,
    rows: u32,
    told: Told,
    groups: &[Group],
    counters: Vec<RowNode>,
    looks: Vec<Node>,
    opening: Vec<u32>,
    kernel: Vec<u32>,
) -> Result<Option<LengthProof>, AllocError> {
    let many = u32::try_from(carried_count(&counters)).unwrap_or(0);
    let own = u32::try_from(carried_count(&stream.nodes)).unwrap_or(0);
    let places = steady_places(
        alloc, set, extended, limit, &told.cut, &kernel, rows, own, many, &looks,
    )?;
    let Some(places) = places else {
        return Ok(None);
    };
    let left = stream.count.saturating_sub(told.first_rows);
    let most = left
        .saturating_sub(told.cut.window)
        .checked_div(rows)
        .unwrap_or(0);
    let first = counters_at(alloc, &counters, told.first_rows)?;
    let (kernels, last) = count_kernels(alloc, groups, &looks, &places, first, rows, most)?;
    let carried = last_carried(alloc, own, &last)?;
    let last_rows = left.saturating_sub(kernels.saturating_mul(rows));
    let ending = ending_of(alloc, set, extended, limit, &carried, &told.cut, last_rows)?;
    let Some(ending) = ending else {
        return Ok(None);
    };
    let units = 2 * set.topo.tiles() as usize;
    let Told { cut, first_rows } = told;
    Ok(Some(LengthProof {
        counters,
        cut,
        first_rows,
        first_limit: most_by_one(alloc, units, &opening)?,
        opening,
        limit: most_by_one(alloc, units, &kernel)?,
        kernel,
        rows,
        kernels,
        looks,
        last_limit: most_by_one(alloc, units, &ending)?,
        ending,
        last_rows,
    }))
}

/// Looks for a proof that a set whose processors execute at most so many instructions computes all rows of a stream. None
/// where the search finds none. Nothing is said of what is found: `is_length_proof` checks it.
pub fn find_length_proof(
    alloc: Global,
    set: &Set,
    stream: &StreamFlow,
    limit: u32,
) -> Result<Option<LengthProof>, AllocError> {
    for rows in ROWS {
        let bounds = Bounds {
            limit,
            many: rows.min(stream.count),
        };
        if let Some(proof) = first_proof(alloc, set, stream, bounds)? {
            return Ok(Some(proof));
        }
        if stream.count <= rows {
            return Ok(None);
        }
    }
    Ok(None)
}

// The first proof from a place where the control recurs in a run that sees so many rows.
fn first_proof(
    alloc: Global,
    set: &Set,
    stream: &StreamFlow,
    bounds: Bounds,
) -> Result<Option<LengthProof>, AllocError> {
    let Some(course) = course_of(alloc, set, stream, bounds)? else {
        return Ok(None);
    };
    for recurrence in &course.found {
        let found = proof_at(alloc, set, stream, bounds, &course.steps, recurrence)?;
        if let Some(proof) = found {
            return Ok(Some(proof));
        }
    }
    Ok(None)
}
