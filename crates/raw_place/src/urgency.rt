//! How long the ways to and from values are, in cycles.
use raw_frame::{Part, Table, TileId, ValueId};
use raw_graph::{Graph, Origin};
use std::alloc::{AllocError, Global};

// How many cycles a word is on its way between two tiles; none where they are one.
pub(crate) fn way(part: Part, from: TileId, to: TileId) -> usize {
    if from == to {
        0
    } else {
        part.distance(from, to).saturating_add(2)
    }
}

// The longest way from a value to the sink, as one of the outs. The sink takes one a cycle, in their order.
fn way_out(graph: &Graph, part: Part, home: TileId, value: ValueId) -> usize {
    let mut most = 0;
    for out in graph.outs_of(value) {
        most = graph.outs().len().saturating_sub(out.0).max(most);
    }
    if most == 0 {
        0
    } else {
        most.saturating_add(part.distance(home, TileId::CORNER))
            .saturating_add(2)
    }
}

// The longest way from a value to an out.
fn longest(
    graph: &Graph,
    part: Part,
    homes: &Table<ValueId, TileId>,
    urgencies: &Table<ValueId, usize>,
    value: ValueId,
) -> usize {
    let home = homes.at(value);
    let mut most = way_out(graph, part, home, value);
    for user in graph.users(value) {
        let there = way(part, home, homes.at(*user));
        most = urgencies.at(*user).saturating_add(there).max(most);
    }
    most.saturating_add(1)
}

/// For each value how many cycles at least lie between its start and the last word to the sink, where values are made
/// at these tiles.
pub(crate) fn urgencies(
    alloc: Global,
    graph: &Graph,
    part: Part,
    homes: &Table<ValueId, TileId>,
) -> Result<Table<ValueId, usize>, AllocError> {
    let mut urgencies = Table::new(alloc, graph.count(), 0)?;
    for value in (0..graph.count()).rev().map(ValueId) {
        let most = longest(graph, part, homes, &urgencies, value);
        urgencies.put(value, most);
    }
    Ok(urgencies)
}

// When a value is there at the earliest, by when those are of which it is made.
fn start(graph: &Graph, starts: &Table<ValueId, usize>, value: ValueId) -> usize {
    let origin = graph.origin(value);
    match origin {
        Origin::Input(input) => input.0.saturating_add(2),
        Origin::Made { .. } => {
            let mut most: usize = 0;
            for operand in origin.values() {
                if let Some(operand) = operand {
                    most = starts.at(operand).max(most);
                }
            }
            most.saturating_add(1)
        }
    }
}

/// For each value the first cycle in which it can be there, with as many tiles as there are values.
pub(crate) fn starts(alloc: Global, graph: &Graph) -> Result<Table<ValueId, usize>, AllocError> {
    let mut starts = Table::new(alloc, graph.count(), 0)?;
    for value in (0..graph.count()).map(ValueId) {
        let first = start(graph, &starts, value);
        starts.put(value, first);
    }
    Ok(starts)
}
