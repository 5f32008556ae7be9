//! Orders of the values of a body.
use crate::body::{Body, Position, RowValue};
use raw_frame::{Table, ValueId};
use std::alloc::{AllocError, Global};

/// What comes before what.
#[derive(Drop)]
pub struct Order {
    heights: Table<ValueId, usize>,
    turns: Table<ValueId, Option<usize>>,
}

// How many values of the same row each is needed by, one behind the other, at most.
fn heights(alloc: Global, body: &Body) -> Result<Table<ValueId, usize>, AllocError> {
    let mut heights = Table::new(alloc, body.count(), 0_usize)?;
    for value in (0..body.count()).rev().map(ValueId) {
        let mut height = 0;
        for used in body.uses(value) {
            if used.back == 0 {
                height = heights.at(used.user).saturating_add(1).max(height);
            }
        }
        heights.put(value, height);
    }
    Ok(heights)
}

// How many values of the same row each needs, one behind the other, at most.
fn depths(alloc: Global, body: &Body) -> Result<Table<ValueId, usize>, AllocError> {
    let mut depths = Table::new(alloc, body.count(), 0_usize)?;
    for value in (0..body.count()).map(ValueId) {
        let mut depth = 0;
        for position in Position::BOTH {
            if let Some(RowValue { value, back: 0 }) = body.origin(value).value(position) {
                depth = depths.at(value).saturating_add(1).max(depth);
            }
        }
        depths.put(value, depth);
    }
    Ok(depths)
}

/// Values in the order in which the outs need them.
#[derive(Drop)]
struct Visit<'a> {
    body: &'a Body,
    depths: Table<ValueId, usize>,
    turns: Table<ValueId, Option<usize>>,
    next: usize,
    /// What is to be visited, and whether that is for the second time.
    stack: Vec<(ValueId, bool)>,
}

impl Visit<'_> {
    // Whether a value has had its turn.
    fn is_done(&self, value: ValueId) -> bool {
        self.turns.at(value).is_some()
    }

    // The next turn is that of a value.
    fn finish(&mut self, value: ValueId) {
        if !self.is_done(value) {
            self.turns.put(value, Some(self.next));
            self.next = self.next.saturating_add(1);
        }
    }

    // An operand of a value in the same row that has had no turn.
    fn operand(&self, value: ValueId, position: Position) -> Option<ValueId> {
        match self.body.origin(value).value(position) {
            Some(RowValue { value, back: 0 }) if !self.is_done(value) => Some(value),
            _ => None,
        }
    }

    // Visits an operand next.
    fn push(&mut self, operand: Option<ValueId>) -> Result<(), AllocError> {
        if let Some(operand) = operand {
            self.stack.push((operand, false))?;
        }
        Ok(())
    }

    // How deep an operand is.
    fn depth(&self, operand: Option<ValueId>) -> usize {
        operand.map_or(0, |operand| self.depths.at(operand))
    }

    // The operands of a value, the deeper one first.
    fn push_operands(&mut self, value: ValueId) -> Result<(), AllocError> {
        let first = self.operand(value, Position::First);
        let second = self.operand(value, Position::Second);
        if self.depth(first) > self.depth(second) {
            self.push(second)?;
            self.push(first)
        } else {
            self.push(first)?;
            self.push(second)
        }
    }

    // A value for the first time, or behind its operands.
    fn visit(&mut self, value: ValueId, again: bool) -> Result<(), AllocError> {
        if again {
            self.finish(value);
            return Ok(());
        }
        if self.is_done(value) {
            return Ok(());
        }
        self.stack.push((value, true))?;
        self.push_operands(value)
    }

    // All that an out needs.
    fn visit_out(&mut self, out: ValueId) -> Result<(), AllocError> {
        self.stack.push((out, false))?;
        for _ in 0..usize::MAX {
            let Some((value, again)) = self.stack.pop() else {
                break;
            };
            self.visit(value, again)?;
        }
        Ok(())
    }
}

// The turns of values, as the outs need them; then those of all others.
fn turns(alloc: Global, body: &Body) -> Result<Table<ValueId, Option<usize>>, AllocError> {
    let mut visit = Visit {
        body,
        depths: depths(alloc, body)?,
        turns: Table::new(alloc, body.count(), None)?,
        next: 0,
        stack: Vec::new(alloc),
    };
    for out in &body.outs {
        visit.visit_out(out.value)?;
    }
    for value in (0..body.count()).map(ValueId) {
        visit.finish(value);
    }
    Ok(visit.turns)
}

impl Order {
    /// The orders of the values of a body.
    pub fn of(alloc: Global, body: &Body) -> Result<Order, AllocError> {
        Ok(Order {
            heights: heights(alloc, body)?,
            turns: turns(alloc, body)?,
        })
    }

    /// How many values of the same row need a value, one behind the other, at most.
    pub fn height(&self, value: ValueId) -> usize {
        self.heights.at(value)
    }

    /// The turn of a value where one out is made after the other, each with the deepest of its operands first.
    pub fn turn(&self, value: ValueId) -> usize {
        self.turns.at(value).unwrap_or(usize::MAX)
    }
}
