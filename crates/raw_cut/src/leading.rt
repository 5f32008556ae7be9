//! Runs with terms from a cut.
ghost use Rattle.std.specs.Prelude.{◌≡◌, ◌+◌, ◌*◌, true, length, map, take, drop, IfOk, IfSome};
ghost use Rattle.raw_grid.specs.Topology.{tile_count};
ghost use Rattle.raw_model.specs.Program.{IsSet};
ghost use Rattle.raw_flow.specs.declared.node.Node.TheVariants as node;
ghost use Rattle.raw_stream.specs.Streams.{first_words};
ghost use Rattle.raw_rows.specs.Given.{row_width};
ghost use Rattle.raw_rows.specs.Kernels.{open_rows, carried_in, begun, run_set, roomy_set, Leads, Arrives, HasDue, RestsSeeing, passed, placed_cut, unknown};
ghost use Rattle.raw_prove.specs.Units.{state_of};
ghost use Rattle.raw_cut.specs.Cuts.{cut_of};
ghost use Rattle.raw_cut.specs.Kept.{IsKept, IsKeptWith};
ghost use Rattle.raw_cut.specs.Seeing.{BeginsSeeing, ComesToRest};

use crate::arriving::{are_units_at, are_wires_at};
use crate::beginning::begin;
use crate::cut::Cut;
use crate::fitting::set_seeing;
use crate::nodes::{open_inputs, place_all};
use crate::numbers::numbers_from;
use crate::passing::{Passed, pass_rows};
use crate::resting::{have_due, is_quiet};
use crate::rows::{input_rows, push_joined};
use crate::stepping::go_along;
use crate::widths::{Widths, input_count, widths_of};
use raw_flow::Node;
use raw_model::Set;
use raw_prove::Machine;
use raw_stream::StreamFlow;
use raw_term::{TermRefusal, TermTable};
use std::alloc::{AllocError, Global};

/// The terms of what is carried, in a table.
pub(crate) fn carried_in(
    alloc: Global,
    table: &mut TermTable,
    stream: &StreamFlow,
    widths: Widths,
    carried: &[Node],
) -> Result<Option<Vec<u32>>, AllocError>
    requires many { widths.carried ≡ length (first_words stream.now) }
    ensures { IfOk result (λ found. IfSome found (λ numbers.
        carried_in stream.now table.old carried.now ≡ record { nodes = table.new; numbers = numbers.items })) }
{
    let ins = numbers_from(alloc, 1, widths.carried)?;
    place_all(alloc, table, &ins, carried)
}

/// The machine of a set that begins at a cut and sees these rows. None where no such machine stands at it.
pub(crate) fn begin_at(
    alloc: Global,
    set: &Set,
    stream: &StreamFlow,
    widths: Widths,
    carried: &[Node],
    from: &Cut,
    rows: &[Vec<u32>],
    count: u32,
) -> Result<Option<Machine>, AllocError>
    requires many { widths.carried ≡ length (first_words stream.now) }
    requires rows { map (λ row. row.items) rows.now ≡ open_rows stream.now (length rows.now) }
    requires count { count ≡ length (first_words stream.now) + length rows.now * row_width stream.now }
    ensures state { IfOk result (λ found. IfSome found (λ machine.
        state_of machine ≡ begun stream.now carried.now (length rows.now) (cut_of from.now))) }
    ensures kept { IfOk result (λ found. IfSome found (IsKeptWith set.now 1)) }
{
    let window = from.window as usize;
    if window > rows.len() {
        return Ok(None);
    }
    let mut table = match TermTable::open(alloc, count) {
        Ok(table) => table,
        Err(TermRefusal::TooMany) => return Ok(None),
        Err(TermRefusal::Memory) => return Err(AllocError),
    };
    let Some(mut ins) = carried_in(alloc, &mut table, stream, widths, carried)? else {
        return Ok(None);
    };
    push_joined(&mut ins, &rows[..window])?;
    let Some(numbers) = place_all(alloc, &mut table, &ins, &from.nodes)? else {
        return Ok(None);
    };
    begin(alloc, set, table, &numbers, from)
}

/// A machine at a cut and the set that it runs, with the numbers of the words of the rows that it sees, and their widths.
#[derive(Drop)]
pub struct Begun {
    pub set: Set,
    pub machine: Machine,
    pub rows: Vec<Vec<u32>>,
    pub widths: Widths,
}

/// The machine of a set that begins at a cut and sees so many rows. None where no such machine stands at it.
pub fn begin_seeing(
    alloc: Global,
    set: &Set,
    stream: &StreamFlow,
    limit: u32,
    carried: &[Node],
    from: &Cut,
    many: u32,
) -> Result<Option<Begun>, AllocError>
    ensures begins { IfOk result (λ found. IfSome found (
        BeginsSeeing set.now stream.now limit carried.now (cut_of from.now) many)) }
    ensures kept { IfOk result (λ found. IfSome found (λ begun. IsKept begun.set begun.machine)) }
{
    let Some(widths) = widths_of(stream) else {
        return Ok(None);
    };
    let Some(count) = input_count(widths, many) else {
        return Ok(None);
    };
    let rows = input_rows(alloc, 1 + widths.carried, widths.row, many)?;
    let Some(seen) = set_seeing(alloc, set, stream, limit, &rows, 0)? else {
        return Ok(None);
    };
    match begin_at(alloc, &seen, stream, widths, carried, from, &rows, count)? {
        Some(machine) => Ok(Some(Begun {
            set: seen,
            machine,
            rows,
            widths,
        })),
        None => Ok(None),
    }
}

/// Whether a machine that saw these rows stands at a cut, so many rows later.
pub fn arrives(
    alloc: Global,
    set: &Set,
    stream: &StreamFlow,
    widths: Widths,
    carried: &[Node],
    mut machine: Machine,
    rows: &[Vec<u32>],
    later: u32,
    to: &Cut,
) -> Result<bool, AllocError>
    requires kept { IsKept set.now machine }
    requires many { widths.carried ≡ length (first_words stream.now) }
    ensures { IfOk result (λ yes. yes ≡ true →
        Arrives set.now stream.now (take later (map (λ row. row.items) rows.now))
        (passed stream.now carried.now (state_of machine) (take later (map (λ row. row.items) rows.now))).values (state_of machine).state
        (placed_cut (passed stream.now carried.now (state_of machine) (take later (map (λ row. row.items) rows.now))).nodes
        (passed stream.now carried.now (state_of machine) (take later (map (λ row. row.items) rows.now))).carried
        (drop later (map (λ row. row.items) rows.now)) (cut_of to.now)).state) }
{
    let r = later as usize;
    if r > rows.len() || to.wires.len() != set.topo.wires() as usize {
        return Ok(false);
    }
    let Some(first) = carried_in(alloc, &mut machine.table, stream, widths, carried)? else {
        return Ok(false);
    };
    let Some(passed) = pass_rows(alloc, &mut machine.table, stream, first, &rows[..r])? else {
        return Ok(false);
    };
    let Passed {
        carried: mut ins,
        values,
    } = passed;
    push_joined(&mut ins, &rows[r..])?;
    let Some(numbers) = place_all(alloc, &mut machine.table, &ins, &to.nodes)? else {
        return Ok(false);
    };
    let tiles = set.topo.tiles();
    if !are_units_at(
        alloc,
        stream,
        tiles,
        &rows[..r],
        &values,
        &machine.units,
        &numbers,
        &to.locals,
    )? {
        return Ok(false);
    }
    are_wires_at(alloc, &machine.wires, &numbers, &to.wires)
}

/// Whether a list of steps leads from a cut to another, so many rows later.
pub(crate) fn leads(
    alloc: Global,
    set: &Set,
    stream: &StreamFlow,
    limit: u32,
    carried: &[Node],
    from: &Cut,
    steps: &[u32],
    later: u32,
    to: &Cut,
) -> Result<bool, AllocError>
    ensures { IfOk result (λ yes. yes ≡ true →
        Leads set.now stream.now limit carried.now (cut_of from.now) steps.now later (cut_of to.now)) }
{
    let Some(many) = later.checked_add(to.window) else {
        return Ok(false);
    };
    let Some(start) = begin_seeing(alloc, set, stream, limit, carried, from, many)? else {
        return Ok(false);
    };
    let Begun {
        set: seen,
        mut machine,
        rows,
        widths,
    } = start;
    if !go_along(&seen, &mut machine, steps)? {
        return Ok(false);
    }
    arrives(
        alloc, &seen, stream, widths, carried, machine, &rows, later, to,
    )
}

/// The machine with which a list of steps comes to rest from a cut that sees so many rows. None where it does not.
pub fn come_to_rest(
    alloc: Global,
    set: &Set,
    stream: &StreamFlow,
    limit: u32,
    carried: &[Node],
    from: &Cut,
    steps: &[u32],
    many: u32,
) -> Result<Option<Begun>, AllocError>
    ensures rests { IfOk result (λ found. IfSome found (
        ComesToRest set.now stream.now limit carried.now (cut_of from.now) steps.now many)) }
    ensures kept { IfOk result (λ found. IfSome found (λ last. IsKept last.set last.machine)) }
{
    let Some(start) = begin_seeing(alloc, set, stream, limit, carried, from, many)? else {
        return Ok(None);
    };
    let Begun {
        set: seen,
        mut machine,
        rows,
        widths,
    } = start;
    if !go_along(&seen, &mut machine, steps)? {
        return Ok(None);
    }
    let Some(more) = limit.checked_add(1) else {
        return Ok(None);
    };
    let Some(roomy) = set_seeing(alloc, set, stream, more, &rows, 1)? else {
        return Ok(None);
    };
    // The set is read so that its rules are known.
    let _limit = roomy.limit;
    if !is_quiet(&roomy, &mut machine)? {
        return Ok(None);
    }
    Ok(Some(Begun {
        set: roomy,
        machine,
        rows,
        widths,
    }))
}

/// Whether the sinks of a machine have what is due of all rows that it saw, but for the last words.
pub fn has_all_due(
    alloc: Global,
    set: &Set,
    stream: &StreamFlow,
    widths: Widths,
    carried: &[Node],
    mut machine: Machine,
    rows: &[Vec<u32>],
    lacks: &[u32],
) -> Result<bool, AllocError>
    requires kept { IsKept set.now machine }
    requires many { widths.carried ≡ length (first_words stream.now) }
    ensures { IfOk result (λ yes. yes ≡ true → HasDue stream.now (tile_count set.now.topo)
        (passed stream.now carried.now (state_of machine) (map (λ row. row.items) rows.now)).values lacks.now (state_of machine).state) }
{
    let Some(first) = carried_in(alloc, &mut machine.table, stream, widths, carried)? else {
        return Ok(false);
    };
    let Some(passed) = pass_rows(alloc, &mut machine.table, stream, first, rows)? else {
        return Ok(false);
    };
    have_due(
        alloc,
        stream,
        set.topo.tiles(),
        &passed.values,
        &machine.units,
        lacks,
    )
}

/// Whether a list of steps comes to rest from a cut that sees so many rows, with what is due of them but for the last
/// words.
pub(crate) fn rests(
    alloc: Global,
    set: &Set,
    stream: &StreamFlow,
    limit: u32,
    from: &Cut,
    steps: &[u32],
    lacks: &[u32],
    many: u32,
) -> Result<bool, AllocError>
    ensures { IfOk result (λ yes. yes ≡ true →
        RestsSeeing set.now stream.now limit (unknown stream.now) (cut_of from.now) steps.now lacks.now many) }
{
    let Some(widths) = widths_of(stream) else {
        return Ok(false);
    };
    let carried = open_inputs(alloc, widths.carried)?;
    let Some(last) = come_to_rest(alloc, set, stream, limit, &carried, from, steps, many)? else {
        return Ok(false);
    };
    let Begun {
        set: roomy,
        machine,
        rows,
        ..
    } = last;
    has_all_due(
        alloc, &roomy, stream, widths, &carried, machine, &rows, lacks,
    )
}
