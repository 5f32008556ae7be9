//! The values that are needed.
use crate::folding::{Folded, fold};
use crate::graph::{Graph, Operand, Origin};
use crate::trees::as_trees;
use raw_flow::Flow;
use raw_frame::{Table, ValueId};
use raw_term::TermRefusal;
use std::alloc::{AllocError, Global};

// An operand is needed.
fn mark(needed: &mut Table<ValueId, bool>, value: Option<ValueId>) {
    if let Some(value) = value {
        needed.put(value, true);
    }
}

// Whether each value is needed by an out.
fn needed(
    alloc: Global,
    folded: &Folded,
    outs: &[u32],
) -> Result<Table<ValueId, bool>, AllocError> {
    let count = folded.origins.size();
    let mut needed = Table::new(alloc, count, false)?;
    for out in outs {
        mark(&mut needed, folded.meanings.at(*out as usize).value());
    }
    mark_all(&mut needed, folded);
    Ok(needed)
}

// What needed values are made of is needed.
fn mark_all(needed: &mut Table<ValueId, bool>, folded: &Folded) {
    for value in (0..folded.origins.size()).rev().map(ValueId) {
        if needed.at(value) {
            let [first, second] = folded.origins.at(value).values();
            mark(needed, first);
            mark(needed, second);
        }
    }
}

// An operand by the numbers of the values that are kept.
fn renamed(numbers: &Table<ValueId, Option<ValueId>>, operand: Operand) -> Operand {
    match operand {
        Operand::Word(word) => Operand::Word(word),
        Operand::Value(value) => match numbers.at(value) {
            Some(number) => Operand::Value(number),
            None => Operand::Word(0),
        },
    }
}

// The same of an origin.
fn origin_renamed(numbers: &Table<ValueId, Option<ValueId>>, origin: Origin) -> Origin {
    match origin {
        Origin::Input(place) => Origin::Input(place),
        Origin::Made { op, a, b } => Origin::Made {
            op,
            a: renamed(numbers, a),
            b: renamed(numbers, b),
        },
    }
}

// Keeps a value that is needed; an input is entered in any case.
fn keep(
    alloc: Global,
    graph: &mut Graph,
    numbers: &mut Table<ValueId, Option<ValueId>>,
    value: ValueId,
    origin: Origin,
    is_needed: bool,
) -> Result<(), AllocError> {
    if is_needed {
        let number = graph.add(alloc, origin_renamed(numbers, origin))?;
        numbers.put(value, Some(number));
    }
    if origin.is_input() {
        graph.add_input(numbers.at(value))?;
    }
    Ok(())
}

// The graph of what the outs of a flow need, where this is what its nodes mean.
fn kept(alloc: Global, flow: &Flow, folded: &Folded) -> Result<Graph, AllocError> {
    let needed = needed(alloc, folded, &flow.outs)?;
    let mut numbers = Table::new(alloc, folded.origins.size(), None)?;
    let mut graph = Graph::new(alloc);
    for value in (0..folded.origins.size()).map(ValueId) {
        let origin = folded.origins.at(value);
        keep(
            alloc,
            &mut graph,
            &mut numbers,
            value,
            origin,
            needed.at(value),
        )?;
    }
    for out in &flow.outs {
        graph.add_out(renamed(&numbers, folded.meanings.at(*out as usize)))?;
    }
    Ok(graph)
}

/// The graphs of what the outs of a flow need: with its operations as they stand, and, where that is another one, with
/// chains of one operation as trees. There is none of a flow of more terms than a table holds.
pub fn graphs_of(alloc: Global, flow: &Flow) -> Result<Vec<Graph>, AllocError> {
    let mut graphs = Vec::new(alloc);
    let folded = match fold(alloc, flow) {
        Ok(folded) => folded,
        Err(TermRefusal::TooMany) => return Ok(graphs),
        Err(TermRefusal::Memory) => return Err(AllocError),
    };
    graphs.push(kept(alloc, flow, &folded)?)?;
    let needed = needed(alloc, &folded, &flow.outs)?;
    if let Some(trees) = as_trees(alloc, &folded, &needed, &flow.outs)? {
        graphs.push(kept(alloc, flow, &trees)?)?;
    }
    Ok(graphs)
}
