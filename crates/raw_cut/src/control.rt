//! Whether the control of a run stands as it stood before, whole rows earlier.
ghost use Rattle.std.specs.Prelude.{◌≡◌, length};
ghost use Rattle.raw_grid.specs.Wires.{wires_of};

use crate::extent::width_at;
use crate::ports::due_at;
use raw_flow::Node;
use raw_grid::PortKind;
use raw_model::Set;
use raw_prove::{Machine, Unit};
use raw_stream::StreamFlow;
use raw_term::TermTable;
use std::alloc::{AllocError, Global};

/// Where a run was.
#[derive(Drop)]
pub struct Moment {
    // Of each tile and switch its place and the words of its registers that are known, of each wire how many words it holds.
    control: Vec<u32>,
    /// How many words each port had put in or taken out.
    pub done: Vec<u64>,
    /// How many steps were taken.
    pub steps: usize,
}

// The numbers of terms, and u32::MAX in place of those that are no words.
fn push_known(
    table: &TermTable,
    numbers: &[u32],
    control: &mut Vec<u32>,
) -> Result<(), AllocError> {
    for number in numbers {
        match table.node(*number) {
            Some(Node::Const { .. }) => control.push(*number)?,
            _ => control.push(u32::MAX)?,
        }
    }
    Ok(())
}

// The control of a processor, behind that of others, and how much a port has done.
fn push_unit(
    table: &TermTable,
    unit: &Unit,
    with_words: bool,
    moment: &mut Moment,
) -> Result<(), AllocError> {
    match unit {
        Unit::Tile(unit) => {
            moment.control.push(unit.tile.state.pc)?;
            if with_words {
                push_known(table, &unit.tile.state.regs, &mut moment.control)?;
            }
        }
        Unit::Switch(unit) => {
            moment.control.push(unit.state.pc)?;
            if with_words {
                push_known(table, &unit.state.regs, &mut moment.control)?;
            }
        }
        Unit::Source(unit) => moment.done.push(unit.port.done)?,
        Unit::Sink(port) => moment.done.push(port.done)?,
    }
    Ok(())
}

/// Where a machine is after so many steps, by the words of its registers that are known, or without them.
pub fn moment_of(
    alloc: Global,
    set: &Set,
    machine: &Machine,
    steps: usize,
    with_words: bool,
) -> Result<Moment, AllocError>
    requires { length machine.now.wires ≡ length (wires_of set.now.topo) }
{
    let mut moment = Moment {
        control: Vec::new(alloc),
        done: Vec::new(alloc),
        steps,
    };
    for unit in &machine.units {
        push_unit(&machine.table, unit, with_words, &mut moment)?;
    }
    for w in 0..set.topo.wires() {
        let count = machine.wires.values(w).len();
        moment
            .control
            .push(u32::try_from(count).unwrap_or(u32::MAX))?;
    }
    Ok(moment)
}

/// How many words of a row each port of a set puts in or takes out.
pub fn port_widths(alloc: Global, set: &Set, stream: &StreamFlow) -> Result<Vec<u64>, AllocError> {
    let mut widths = Vec::new(alloc);
    for port in 0..set.topo.ports() {
        match set.topo.place_of(port).kind {
            PortKind::Source => widths.push(width_at(&stream.nodes, port) as u64)?,
            PortKind::Sink => widths.push(due_at(alloc, stream, port)?.len() as u64)?,
        }
    }
    Ok(widths)
}

// How many rows so many words are, where they are whole rows of so many.
fn whole_rows(width: u64, words: u64) -> Option<u64> {
    let rows = words.checked_div(width)?;
    if rows.saturating_mul(width) == words {
        Some(rows)
    } else {
        None
    }
}

impl Moment {
    /// How many rows stand between an earlier moment and this one, where the control is the same at both, and these are
    /// whole rows at each port; 0 where they are not.
    pub fn rows_since(&self, before: &Moment, widths: &[u64]) -> u64 {
        if self.control != before.control {
            return 0;
        }
        let mut all = None;
        for port in 0..widths.len() {
            let earlier = before.done.get(port).copied().unwrap_or(0);
            let now = self.done.get(port).copied().unwrap_or(0);
            let words = now.saturating_sub(earlier);
            if widths[port] == 0 && words == 0 {
                continue;
            }
            let rows = whole_rows(widths[port], words);
            if rows.is_none() || (all.is_some() && all != rows) {
                return 0;
            }
            all = rows;
        }
        all.unwrap_or(0)
    }

    /// How many whole rows all ports have done, and in how many rows some have put in or taken out words.
    pub fn rows_done(&self, widths: &[u64]) -> (u64, u64) {
        let mut whole = u64::MAX;
        let mut begun = 0;
        for port in 0..widths.len() {
            let done = self.done.get(port).copied().unwrap_or(0);
            if let Some(rows) = done.checked_div(widths[port]) {
                let is_whole = rows.saturating_mul(widths[port]) == done;
                whole = whole.min(rows);
                begun = begun.max(if is_whole {
                    rows
                } else {
                    rows.saturating_add(1)
                });
            }
        }
        (whole, begun)
    }
}
