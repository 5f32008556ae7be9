//! The search for a proof for every number of rows. What it finds is checked as any other.
ghost use Rattle.std.specs.Prelude.{◌≡◌, length, IfOk, IfSome};
ghost use Rattle.raw_grid.specs.Wires.{wires_of};
ghost use Rattle.raw_model.specs.Program.{IsSet};
ghost use Rattle.raw_cut.specs.Kept.{IsKept};

use crate::control::{Moment, moment_of, port_widths};
use crate::cut::Cut;
use crate::deciding::{is_steady, start_of};
use crate::leading::{Begun, begin_seeing, carried_in};
use crate::naming::{RowValues, cut_from};
use crate::nodes::{known, open_inputs};
use crate::passing::{Passed, pass_rows};
use crate::proof::LiveProof;
use crate::sweeping::{MOST_SWEEPS, most_by_one, run_to_rest, sweep};
use crate::widths::widths_of;
use raw_flow::Node;
use raw_model::Set;
use raw_prove::{Machine, Unit};
use raw_stream::StreamFlow;
use raw_term::TermTable;
use std::alloc::{AllocError, Global};

/// So many rows a run sees in which the control should recur, at first and after that.
const ROWS: [u32; 2] = [64, 1_024];

/// So many rows further back the words of a cut are told from, the first that suffice. Not none: what is carried into the
/// first row is unknown, and the row before says of it what is a constant, or twice the same.
const BACK: [u64; 11] = [1, 2, 3, 4, 6, 8, 16, 32, 64, 128, 256];

// The run of a search: the rows that it sees, what was found, and where it last stood as before.
#[derive(Drop)]
struct Search {
    run: RowValues,
    widths: Vec<u64>,
    steps: Vec<u32>,
    last: Moment,
    // How many times the control has recurred.
    times: u32,
    found: Vec<LiveProof>,
}

// So many steps of a list, from one on.
fn steps_from(alloc: Global, steps: &[u32], from: usize) -> Result<Vec<u32>, AllocError> {
    steps.get(from..).unwrap_or(&[]).to_vec(alloc)
}

impl Search {
    // The cut at which a machine stands now, and the row from which it is told.
    fn cut_now(
        &self,
        alloc: Global,
        set: &Set,
        stream: &StreamFlow,
        machine: &Machine,
        now: &Moment,
    ) -> Result<Option<(Cut, u32)>, AllocError>
        requires { length machine.now.wires ≡ length (wires_of set.now.topo) }
    {
        let (whole, begun) = now.rows_done(&self.widths);
        for back in BACK {
            let Some(base) = whole.checked_sub(back) else {
                return Ok(None);
            };
            let (Ok(from), Ok(window)) = (
                u32::try_from(base),
                u32::try_from(begun.saturating_sub(base)),
            ) else {
                return Ok(None);
            };
            if let Some(cut) = cut_from(
                alloc,
                set,
                stream,
                &self.run,
                &self.widths,
                machine,
                from,
                window,
            )? {
                return Ok(Some((cut, from)));
            }
        }
        Ok(None)
    }

    // Notes a proof whose kernel is what lies between the last moment and this one.
    fn note(
        &mut self,
        alloc: Global,
        set: &Set,
        stream: &StreamFlow,
        machine: &Machine,
        now: &Moment,
        rows: u32,
    ) -> Result<(), AllocError>
        requires { length machine.now.wires ≡ length (wires_of set.now.topo) }
    {
        let Some((cut, first_rows)) = self.cut_now(alloc, set, stream, machine, now)? else {
            return Ok(());
        };
        let units = 2 * set.topo.tiles() as usize;
        let kernel = steps_from(alloc, &self.steps, self.last.steps)?;
        self.found.push(LiveProof {
            cut,
            first_rows,
            first_limit: most_by_one(alloc, units, &self.steps)?,
            opening: self.steps.to_vec(alloc)?,
            rows,
            limit: most_by_one(alloc, units, &kernel)?,
            kernel,
            endings: Vec::new(alloc),
            last_limit: 1,
            lacks: Vec::new(alloc),
        })?;
        Ok(())
    }

    // Looks at where a machine stands after so many sweeps.
    fn look(
        &mut self,
        alloc: Global,
        set: &Set,
        stream: &StreamFlow,
        machine: &Machine,
        count: u32,
    ) -> Result<(), AllocError>
        requires { length machine.now.wires ≡ length (wires_of set.now.topo) }
    {
        let now = moment_of(alloc, set, machine, self.steps.len(), true)?;
        let Ok(rows) = u32::try_from(now.rows_since(&self.last, &self.widths)) else {
            return Ok(());
        };
        if rows > 0 {
            self.times = self.times.saturating_add(1);
            if self.times.is_power_of_two() {
                self.note(alloc, set, stream, machine, &now, rows)?;
            }
        }
        if rows > 0 || count.is_power_of_two() {
            self.last = now;
        }
        Ok(())
    }

    // Runs a machine to rest, and looks at where it stands after each sweep.
    fn recur(
        &mut self,
        alloc: Global,
        set: &Set,
        stream: &StreamFlow,
        mut machine: Machine,
    ) -> Result<(), AllocError>
        requires { IsKept set.now machine }
    {
        for count in 1..MOST_SWEEPS {
            match sweep(set, &mut machine, &mut self.steps)? {
                Some(true) => self.look(alloc, set, stream, &machine, count)?,
                _ => return Ok(()),
            }
        }
        Ok(())
    }
}

/// The terms of the rows that a run sees, from what is carried into the first on.
pub fn values_of(
    alloc: Global,
    table: &mut TermTable,
    stream: &StreamFlow,
    nodes: &[Node],
    rows: &[Vec<u32>],
) -> Result<Option<RowValues>, AllocError> {
    let Some(widths) = widths_of(stream) else {
        return Ok(None);
    };
    let Some(first) = carried_in(alloc, table, stream, widths, nodes)? else {
        return Ok(None);
    };
    let carried = first.to_vec(alloc)?;
    match pass_rows(alloc, table, stream, first, rows)? {
        Some(Passed { values, .. }) => Ok(Some(RowValues { carried, values })),
        None => Ok(None),
    }
}

// Looks for proofs in a run that sees so many rows.
#[tactic(auto, using(crate::proofs::Decided::kept_with_table))]
fn proofs_in(
    alloc: Global,
    set: &Set,
    stream: &StreamFlow,
    limit: u32,
    many: u32,
) -> Result<Vec<LiveProof>, AllocError> {
    let nodes = known(alloc, &stream.nodes)?;
    let Some(start) = start_of(alloc, set, stream)? else {
        return Ok(Vec::new(alloc));
    };
    let begins = begin_seeing(alloc, set, stream, limit, &nodes, &start, many)?;
    let Some(
        Begun {
            set: seen,
            mut machine,
            rows,
            ..
        },
    ) = begins
    else {
        return Ok(Vec::new(alloc));
    };
    let Some(run) = values_of(alloc, &mut machine.table, stream, &nodes, &rows)? else {
        return Ok(Vec::new(alloc));
    };
    let mut search = Search {
        run,
        widths: port_widths(alloc, &seen, stream)?,
        steps: Vec::new(alloc),
        last: moment_of(alloc, &seen, &machine, 0, true)?,
        times: 0,
        found: Vec::new(alloc),
    };
    search.recur(alloc, &seen, stream, machine)?;
    let Search { found, .. } = search;
    Ok(found)
}

// How many words each port that a run ends at lacks of what it is due of so many rows.
fn lacks_at(
    alloc: Global,
    set: &Set,
    stream: &StreamFlow,
    machine: &Machine,
    many: u32,
) -> Result<Vec<u32>, AllocError> {
    let widths = port_widths(alloc, set, stream)?;
    let mut lacks = Vec::new(alloc);
    for unit in &machine.units {
        match unit {
            Unit::Tile(_) | Unit::Switch(_) => {}
            Unit::Source(_) => lacks.push(0)?,
            Unit::Sink(port) => {
                let width = widths.get(lacks.len()).copied().unwrap_or(0);
                let lack = width
                    .saturating_mul(u64::from(many))
                    .saturating_sub(port.done);
                lacks.push(u32::try_from(lack).unwrap_or(u32::MAX))?;
            }
        }
    }
    Ok(lacks)
}

// The greater one of two numbers at each place.
fn raise(lacks: &mut Vec<u32>, others: &[u32]) -> Result<(), AllocError> {
    for port in 0..others.len() {
        match lacks.get_mut(port) {
            Some(lack) => *lack = others[port].max(*lack),
            None => lacks.push(others[port])?,
        }
    }
    Ok(())
}

// Runs from the cut of a proof to rest that sees so many rows, and notes the steps. Whether it comes to rest.
fn add_ending(
    alloc: Global,
    set: &Set,
    stream: &StreamFlow,
    limit: u32,
    many: u32,
    proof: &mut LiveProof,
) -> Result<bool, AllocError> {
    let Some(widths) = widths_of(stream) else {
        return Ok(false);
    };
    let carried = open_inputs(alloc, widths.carried)?;
    let begins = begin_seeing(alloc, set, stream, limit, &carried, &proof.cut, many)?;
    let Some(
        Begun {
            set: seen,
            mut machine,
            ..
        },
    ) = begins
    else {
        return Ok(false);
    };
    let mut steps = Vec::new(alloc);
    if !run_to_rest(&seen, &mut machine, &mut steps)? {
        return Ok(false);
    }
    let units = 2 * set.topo.tiles() as usize;
    proof.last_limit = proof.last_limit.max(most_by_one(alloc, units, &steps)?);
    raise(
        &mut proof.lacks,
        &lacks_at(alloc, set, stream, &machine, many)?,
    )?;
    proof.endings.push(steps)?;
    Ok(true)
}

// Notes how the cut of a proof comes to rest, for each number of rows below those of its kernel. Whether it always does.
fn add_endings(
    alloc: Global,
    set: &Set,
    stream: &StreamFlow,
    limit: u32,
    proof: &mut LiveProof,
) -> Result<bool, AllocError> {
    for i in 0..proof.rows {
        let many = proof.cut.window.saturating_add(i);
        if !add_ending(alloc, set, stream, limit, many, proof)? {
            return Ok(false);
        }
    }
    Ok(true)
}

// The first of these proofs whose kernel is steady and whose cut comes to rest.
fn first_steady(
    alloc: Global,
    set: &Set,
    stream: &StreamFlow,
    limit: u32,
    proofs: Vec<LiveProof>,
) -> Result<Option<LiveProof>, AllocError> {
    for mut proof in proofs {
        if is_steady(alloc, set, stream, &proof)?
            && add_endings(alloc, set, stream, limit, &mut proof)?
        {
            return Ok(Some(proof));
        }
    }
    Ok(None)
}

/// Looks for a proof that a set whose processors execute at most so many instructions meets a stream for every number of
/// rows. None where the search finds none. Nothing is said of what is found: `is_live_proof` checks it.
pub fn find_live_proof(
    alloc: Global,
    set: &Set,
    stream: &StreamFlow,
    limit: u32,
) -> Result<Option<LiveProof>, AllocError> {
    for many in ROWS {
        let proofs = proofs_in(alloc, set, stream, limit, many)?;
        if let Some(proof) = first_steady(alloc, set, stream, limit, proofs)? {
            return Ok(Some(proof));
        }
    }
    Ok(None)
}
