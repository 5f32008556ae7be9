//! In which order values have their turns.
use crate::placing::by_urgency;
use crate::urgency::urgencies;
use raw_frame::{Part, Rank, Table, TileId, ValueId, Waiting};
use raw_graph::{Graph, Operand};
use std::alloc::{AllocError, Global};

/// Whose turn it is first.
#[derive(Clone, Copy, PartialEq, Eq)]
pub enum Rule {
    /// The value with the longest way to the outs.
    Urgent,
    /// The next value that an out needs, out by out. It keeps few values alive.
    OutByOut,
    /// The value that is defined first.
    AsDefined,
}

/// Values in the order in which the outs need them.
#[derive(Drop)]
struct Visit<'a> {
    graph: &'a Graph,
    /// How many values each is made of, each with those that it is made of.
    sizes: Table<ValueId, usize>,
    seen: Table<ValueId, bool>,
    /// What is to be visited, and whether that is for the second time.
    stack: Vec<(ValueId, bool)>,
    order: Vec<ValueId>,
}

// How many values a value is made of.
fn size(graph: &Graph, sizes: &Table<ValueId, usize>, value: ValueId) -> usize {
    let mut size: usize = 1;
    for operand in graph.origin(value).values() {
        if let Some(operand) = operand {
            size = size.saturating_add(sizes.at(operand));
        }
    }
    size
}

// The same of all values.
fn sizes(alloc: Global, graph: &Graph) -> Result<Table<ValueId, usize>, AllocError> {
    let mut sizes = Table::new(alloc, graph.count(), 0)?;
    for value in (0..graph.count()).map(ValueId) {
        let size = size(graph, &sizes, value);
        sizes.put(value, size);
    }
    Ok(sizes)
}

impl Visit<'_> {
    // Visits a value next, if it has not been seen.
    fn push(&mut self, value: Option<ValueId>) -> Result<(), AllocError> {
        if let Some(value) = value {
            if !self.seen.at(value) {
                self.stack.push((value, false))?;
            }
        }
        Ok(())
    }

    // What a value is made of, the larger first.
    fn push_operands(&mut self, value: ValueId) -> Result<(), AllocError> {
        let [first, second] = self.graph.origin(value).values();
        if self.size_of(first) > self.size_of(second) {
            self.push(second)?;
            self.push(first)
        } else {
            self.push(first)?;
            self.push(second)
        }
    }

    // How many values an operand is made of.
    fn size_of(&self, value: Option<ValueId>) -> usize {
        match value {
            Some(value) => self.sizes.at(value),
            None => 0,
        }
    }

    // A value for the first time, or behind what it is made of.
    fn visit(&mut self, value: ValueId, again: bool) -> Result<(), AllocError> {
        if self.seen.at(value) {
            return Ok(());
        }
        if again {
            self.seen.put(value, true);
            self.order.push(value)?;
            return Ok(());
        }
        self.stack.push((value, true))?;
        self.push_operands(value)
    }

    // All that an out needs.
    fn visit_out(&mut self, out: ValueId) -> Result<(), AllocError> {
        self.push(Some(out))?;
        for _ in 0..self.graph.count().saturating_mul(4) {
            let Some((value, again)) = self.stack.pop() else {
                break;
            };
            self.visit(value, again)?;
        }
        Ok(())
    }
}

// Values in the order in which the outs need them.
fn out_by_out(alloc: Global, graph: &Graph) -> Result<Vec<ValueId>, AllocError> {
    let mut visit = Visit {
        graph,
        sizes: sizes(alloc, graph)?,
        seen: Table::new(alloc, graph.count(), false)?,
        stack: Vec::new(alloc),
        order: Vec::new(alloc),
    };
    for out in graph.outs() {
        if let Operand::Value(value) = out {
            visit.visit_out(*value)?;
        }
    }
    Ok(visit.order)
}

// Values by falling urgency.
fn urgent(
    alloc: Global,
    graph: &Graph,
    part: Part,
    homes: &Table<ValueId, TileId>,
) -> Result<Vec<ValueId>, AllocError> {
    let urgencies = urgencies(alloc, graph, part, homes)?;
    let waits: Vec<Waiting> = by_urgency(alloc, graph, &urgencies)?;
    let mut order = Vec::new(alloc);
    for waiting in &waits {
        order.push(waiting.value)?;
    }
    Ok(order)
}

// Values by their numbers.
fn as_defined(alloc: Global, graph: &Graph) -> Result<Vec<ValueId>, AllocError> {
    let mut order = Vec::new(alloc);
    for value in (0..graph.count()).map(ValueId) {
        order.push(value)?;
    }
    Ok(order)
}

/// The rank of each value, 1 for the first.
pub fn ranks(
    alloc: Global,
    graph: &Graph,
    part: Part,
    homes: &Table<ValueId, TileId>,
    rule: Rule,
) -> Result<Table<ValueId, Rank>, AllocError> {
    let order = match rule {
        Rule::Urgent => urgent(alloc, graph, part, homes)?,
        Rule::OutByOut => out_by_out(alloc, graph)?,
        Rule::AsDefined => as_defined(alloc, graph)?,
    };
    let mut ranks = Table::new(alloc, graph.count(), Rank::LAST)?;
    for place in 0..order.len() {
        ranks.put(order[place], Rank(place.saturating_add(1)));
    }
    Ok(ranks)
}
