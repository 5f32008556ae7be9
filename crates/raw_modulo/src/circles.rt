//! Values that need one another.
use crate::making::Window;
use crate::schedule::Schedule;
use raw_body::Position;
use raw_frame::ValueId;
use std::alloc::{AllocError, Global};

// Values by falling heights: each behind those of the same row that it is made of.
fn by_height(
    alloc: Global,
    schedule: &Schedule<'_>,
    members: &[ValueId],
) -> Result<Vec<ValueId>, AllocError> {
    let mut pairs = Vec::new(alloc);
    for value in members {
        let height = schedule.task.order.height(*value);
        pairs.push((usize::MAX.saturating_sub(height), *value))?;
    }
    pairs.sort()?;
    let mut values = Vec::new(alloc);
    for (_, value) in &pairs {
        values.push(*value)?;
    }
    Ok(values)
}

/// So many starts are tried for a circle.
const MOST_STARTS: usize = 3;

impl Schedule<'_> {
    // Whether a use comes behind what it uses, where both have their times.
    fn is_behind(&self, value: ValueId, user: ValueId, back: usize) -> bool {
        match (self.made.at(value), self.made.at(user)) {
            (Some(made), Some(used)) => {
                used.saturating_add(back.saturating_mul(self.interval)) > made
            }
            _ => true,
        }
    }

    // Whether a value is done in time for each of its users, and behind its operands.
    fn fits(&self, value: ValueId) -> bool {
        for position in Position::BOTH {
            if let Some(operand) = self.task.body.origin(value).value(position) {
                let is_local = self.task.components.group(operand.value)
                    == self.task.components.group(value);
                if is_local && !self.is_behind(operand.value, value, operand.back) {
                    return false;
                }
            }
        }
        let task = self.task;
        let body = task.body;
        for used in body.uses(value) {
            let is_local = self.task.components.group(used.user)
                == self.task.components.group(value);
            if is_local && !self.is_behind(value, used.user, used.back) {
                return false;
            }
        }
        true
    }

    // Does an operation on a circle, not before a time.
    fn make_on_circle(&mut self, value: ValueId, start: usize) -> bool {
        let from = self.earliest(value).max(start);
        let window = Window {
            from,
            until: from.saturating_add(self.interval),
            due: None,
        };
        if !self.make(value, window) {
            return false;
        }
        if self.fits(value) {
            return true;
        }
        self.take_back(value);
        false
    }

    // Does all operations of a circle from a time on. False where one cannot be done; then none is.
    fn make_from(&mut self, values: &[ValueId], start: usize) -> bool {
        let mut done: usize = 0;
        for value in values {
            if !self.make_on_circle(*value, start) {
                break;
            }
            done = done.saturating_add(1);
        }
        if done == values.len() {
            return true;
        }
        self.take_all_back(values, done);
        false
    }

    /// Does all operations of a circle.
    pub(crate) fn make_circle(
        &mut self,
        alloc: Global,
        members: &[ValueId],
        start: usize,
    ) -> Result<bool, AllocError> {
        let values = by_height(alloc, self, members)?;
        for later in 0..self.interval.min(MOST_STARTS) {
            if self.left == 0 {
                return Ok(false);
            }
            if self.make_from(&values, start.saturating_add(later)) {
                return Ok(true);
            }
        }
        Ok(false)
    }
}
