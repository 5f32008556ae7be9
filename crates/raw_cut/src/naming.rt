//! The cut at which a run stands: a node for each word, over what is carried into a row and the words of some rows.
ghost use Rattle.std.specs.Prelude.{◌≡◌, length};
ghost use Rattle.raw_grid.specs.Wires.{wires_of};

use crate::cut::{Cut, CutLocal, CutPort};
use crate::nodes::carried_out;
use crate::numbers::numbers_from;
use crate::passing::{Passed, pass_rows};
use crate::ports::due_at;
use crate::rows::input_rows;
use crate::standing::{terms_in, units_at, wires_at};
use crate::widths::{input_count, widths_of};
use raw_flow::Node;
use raw_model::Set;
use raw_prove::Machine;
use raw_stream::StreamFlow;
use raw_term::{TermRefusal, TermTable};
use std::alloc::{AllocError, Global};

/// The terms of the rows of a run: what is carried into the first of them, and the values of each.
#[derive(Drop)]
pub struct RowValues {
    pub carried: Vec<u32>,
    pub values: Vec<Vec<u32>>,
}

impl RowValues {
    // What is carried into a row.
    fn carried_into(
        &self,
        alloc: Global,
        stream: &StreamFlow,
        row: usize,
    ) -> Result<Vec<u32>, AllocError> {
        match row.checked_sub(1) {
            None => self.carried.to_vec(alloc),
            Some(before) => match self.values.get(before) {
                Some(values) => carried_out(alloc, &stream.nodes, values),
                None => Ok(Vec::new(alloc)),
            },
        }
    }
}

// Nodes, and for each term of a run the number of the node that stands for it, where there is one.
#[derive(Drop)]
struct Names {
    nodes: Vec<Node>,
    found: Vec<Option<u32>>,
    /// The nodes of the values of the rows.
    values: Vec<Vec<u32>>,
}

impl Names {
    // The node that stands for a term.
    fn of(&self, term: u32) -> Option<u32> {
        match self.found.get(term as usize) {
            Some(found) => *found,
            None => None,
        }
    }

    // Notes that a node stands for a term, where no other does.
    fn note(&mut self, term: u32, node: u32) {
        if let Some(place) = self.found.get_mut(term as usize) {
            if place.is_none() {
                *place = Some(node);
            }
        }
    }

    // Notes the same of lists.
    fn note_all(&mut self, terms: &[u32], nodes: &[u32]) {
        for i in 0..terms.len() {
            if let Some(node) = nodes.get(i) {
                self.note(terms[i], *node);
            }
        }
    }

    // The node that a term is, where nodes stand for its parts.
    fn node_of(&self, term: Node) -> Option<Node> {
        match term {
            Node::Input => None,
            Node::Const { word } => Some(Node::Const { word }),
            Node::Apply { op, a, b } => match (self.of(a), self.of(b)) {
                (Some(a), Some(b)) => Some(Node::Apply { op, a, b }),
                _ => None,
            },
        }
    }

    // Makes a node for each term of a run whose parts have some.
    fn fill(&mut self, table: &TermTable) -> Result<(), AllocError> {
        for number in 0..table.len() {
            let Some(term) = table.node(number) else {
                continue;
            };
            if self.of(number).is_some() {
                continue;
            }
            if let Some(node) = self.node_of(term) {
                let Ok(next) = u32::try_from(self.nodes.len()) else {
                    return Ok(());
                };
                self.note(number, next);
                self.nodes.push(node)?;
            }
        }
        Ok(())
    }

    // Puts nodes in the place of terms. Whether there is one for each.
    fn rename(&self, numbers: &mut [u32]) -> bool {
        for number in numbers.iter_mut() {
            match self.of(*number) {
                Some(node) => *number = node,
                None => return false,
            }
        }
        true
    }

    // A port counted from behind so many words.
    fn rename_port(
        &self,
        alloc: Global,
        port: &CutPort,
        start: u64,
    ) -> Result<Option<CutPort>, AllocError> {
        let mut got = port.got.get(start as usize..).unwrap_or(&[]).to_vec(alloc)?;
        if !self.rename(&mut got) {
            return Ok(None);
        }
        Ok(Some(CutPort {
            done: port.done.saturating_sub(start),
            got,
        }))
    }

    // The same of a processor, whose words a port has so many of before the cut.
    fn rename_local(
        &self,
        alloc: Global,
        local: &mut CutLocal,
        start: u64,
    ) -> Result<bool, AllocError> {
        match local {
            CutLocal::Tile(tile) => Ok(
                self.rename(&mut tile.regs) && self.rename(&mut tile.memory),
            ),
            CutLocal::Switch(switch) => Ok(self.rename(&mut switch.regs)),
            CutLocal::Source(port) | CutLocal::Sink(port) => {
                match self.rename_port(alloc, port, start)? {
                    Some(renamed) => {
                        *port = renamed;
                        Ok(true)
                    }
                    None => Ok(false),
                }
            }
        }
    }

    // The same of all processors, where the words of each port begin so many rows behind the start, and the first port has this
    // number among the processors.
    fn rename_locals(
        &self,
        alloc: Global,
        locals: &mut [CutLocal],
        behind: usize,
        widths: &[u64],
        base: u64,
    ) -> Result<bool, AllocError> {
        let mut p: usize = 0;
        for local in locals.iter_mut() {
            let width = widths.get(p.saturating_sub(behind)).copied().unwrap_or(0);
            if !self.rename_local(alloc, local, width.saturating_mul(base))? {
                return Ok(false);
            }
            p = p.saturating_add(1);
        }
        Ok(true)
    }

    // What a sink got is told by the values of the rows, in its order: one word may be that of several nodes.
    fn tell_by_rows(&self, due: &[u32], port: &mut CutPort) {
        for place in 0..port.got.len() {
            let (Some(row), Some(at)) = (place.checked_div(due.len()), place.checked_rem(due.len()))
            else {
                return;
            };
            if let Some(values) = self.values.get(row) {
                if let Some(node) = due.get(at) {
                    if let Some(value) = values.get(*node as usize) {
                        port.got[place] = *value;
                    }
                }
            }
        }
    }

    // So is what all sinks got, where the first port has this number among the processors.
    fn tell_sinks(
        &self,
        alloc: Global,
        stream: &StreamFlow,
        locals: &mut [CutLocal],
        behind: usize,
    ) -> Result<(), AllocError> {
        let mut p: usize = 0;
        for local in locals.iter_mut() {
            if let CutLocal::Sink(port) = local {
                let number = u32::try_from(p.saturating_sub(behind)).unwrap_or(u32::MAX);
                let due = due_at(alloc, stream, number)?;
                self.tell_by_rows(&due, port);
            }
            p = p.saturating_add(1);
        }
        Ok(())
    }

    // The same of all wires.
    fn rename_wires(&self, wires: &mut [Vec<u32>]) -> bool {
        for wire in wires.iter_mut() {
            if !self.rename(wire) {
                return false;
            }
        }
        true
    }
}

// The nodes of what is carried into a row and of so many rows, and for which terms of a run they stand.
fn names_of(
    alloc: Global,
    stream: &StreamFlow,
    run: &RowValues,
    base: usize,
    window: u32,
    terms: u32,
) -> Result<Option<Names>, AllocError> {
    let Some(widths) = widths_of(stream) else {
        return Ok(None);
    };
    let Some(count) = input_count(widths, window) else {
        return Ok(None);
    };
    let mut table = match TermTable::open(alloc, count) {
        Ok(table) => table,
        Err(TermRefusal::TooMany) => return Ok(None),
        Err(TermRefusal::Memory) => return Err(AllocError),
    };
    let rows = input_rows(alloc, 1 + widths.carried, widths.row, window)?;
    let own = numbers_from(alloc, 1, widths.carried)?;
    let first = own.to_vec(alloc)?;
    let Some(passed) = pass_rows(alloc, &mut table, stream, first, &rows)? else {
        return Ok(None);
    };
    let Passed { values, .. } = passed;
    let mut found = Vec::new(alloc);
    found.resize(terms as usize, None)?;
    let mut names = Names {
        nodes: terms_in(alloc, &table)?,
        found,
        values: Vec::new(alloc),
    };
    names.note(0, 0);
    let carried = run.carried_into(alloc, stream, base)?;
    for row in 0..values.len() {
        let back = values.len() - 1 - row;
        if let Some(terms) = run.values.get(base.saturating_add(back)) {
            names.note_all(terms, &values[back]);
        }
    }
    names.note_all(&carried, &own);
    names.values = values;
    Ok(Some(names))
}

/// The cut at which a machine stands, by the words of so many rows of its run from one on. None where these do not
/// suffice.
pub fn cut_from(
    alloc: Global,
    set: &Set,
    stream: &StreamFlow,
    run: &RowValues,
    widths: &[u64],
    machine: &Machine,
    base: u32,
    window: u32,
) -> Result<Option<Cut>, AllocError>
    requires { length machine.now.wires ≡ length (wires_of set.now.topo) }
{
    let table = &machine.table;
    let Some(mut names) = names_of(alloc, stream, run, base as usize, window, table.len())? else {
        return Ok(None);
    };
    names.fill(table)?;
    let mut locals = units_at(alloc, &machine.units)?;
    let mut wires = wires_at(alloc, &machine.wires, set.topo.wires())?;
    let behind = set.topo.tiles() as usize * 2;
    if !names.rename_locals(alloc, &mut locals, behind, widths, u64::from(base))?
        || !names.rename_wires(&mut wires)
    {
        return Ok(None);
    }
    names.tell_sinks(alloc, stream, &mut locals, behind)?;
    let Names { nodes, .. } = names;
    Ok(Some(Cut {
        window,
        nodes,
        locals,
        wires,
    }))
}
