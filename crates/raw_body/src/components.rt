//! Values that need one another: those on a circle through earlier rows.
use crate::body::{Body, Position};
use raw_frame::{Numbered, Table, ValueId};
use std::alloc::{AllocError, Global};

/// A group of values by its number.
#[derive(Clone, Copy, PartialEq, Eq, PartialOrd, Ord)]
pub struct GroupId(pub usize);

impl Numbered for GroupId {
    fn number(self) -> usize {
        self.0
    }
}

/// The values of a body in groups: two are in one group where each needs the other. A group that needs another has a
/// higher number.
#[derive(Drop)]
pub struct Components {
    of: Table<ValueId, Option<GroupId>>,
    members: Vec<Vec<ValueId>>,
}

/// A walk along uses, and back along operands.
#[derive(Drop)]
struct Walk<'a> {
    body: &'a Body,
    seen: Table<ValueId, bool>,
    /// Values, each with how many of its uses have been looked at.
    stack: Vec<(ValueId, usize)>,
    /// Values in the order in which all behind them had been seen.
    done: Vec<ValueId>,
}

impl Walk<'_> {
    // Begins with a value, if it has not been seen.
    fn enter(&mut self, value: ValueId) -> Result<(), AllocError> {
        if !self.seen.at(value) {
            self.seen.put(value, true);
            self.stack.push((value, 0))?;
        }
        Ok(())
    }

    // One step: to the user at a place of the uses of a value.
    fn step(&mut self, value: ValueId, place: usize) -> Result<(), AllocError> {
        match self.body.uses(value).get(place).copied() {
            Some(used) => {
                self.stack.push((value, place.saturating_add(1)))?;
                self.enter(used.user)
            }
            None => {
                self.done.push(value)?;
                Ok(())
            }
        }
    }

    // All that is behind a value.
    fn walk_from(&mut self, value: ValueId) -> Result<(), AllocError> {
        self.enter(value)?;
        for _ in 0..usize::MAX {
            let Some((value, place)) = self.stack.pop() else {
                break;
            };
            self.step(value, place)?;
        }
        Ok(())
    }
}

// The values of a body, each before all that it is needed for, but on circles.
fn walked(alloc: Global, body: &Body) -> Result<Vec<ValueId>, AllocError> {
    let mut walk = Walk {
        body,
        seen: Table::new(alloc, body.count(), false)?,
        stack: Vec::new(alloc),
        done: Vec::new(alloc),
    };
    for value in (0..body.count()).map(ValueId) {
        walk.walk_from(value)?;
    }
    Ok(walk.done)
}

impl Components {
    // A value is in a group, if it is in none yet.
    fn enter(
        &mut self,
        value: ValueId,
        group: GroupId,
        stack: &mut Vec<ValueId>,
    ) -> Result<(), AllocError> {
        if self.of.at(value).is_none() {
            self.of.put(value, Some(group));
            stack.push(value)?;
        }
        Ok(())
    }

    // The operands of a value are in its group, if they are in none yet.
    fn enter_operands(
        &mut self,
        body: &Body,
        value: ValueId,
        group: GroupId,
        stack: &mut Vec<ValueId>,
    ) -> Result<(), AllocError> {
        for position in Position::BOTH {
            if let Some(operand) = body.origin(value).value(position) {
                self.enter(operand.value, group, stack)?;
            }
        }
        Ok(())
    }

    // The group of a value, if it is in none yet.
    fn gather(&mut self, alloc: Global, body: &Body, value: ValueId) -> Result<(), AllocError> {
        let group = GroupId(self.members.len());
        let mut stack = Vec::new(alloc);
        let mut members = Vec::new(alloc);
        self.enter(value, group, &mut stack)?;
        for _ in 0..body.count() {
            let Some(value) = stack.pop() else {
                break;
            };
            members.push(value)?;
            self.enter_operands(body, value, group, &mut stack)?;
        }
        if !members.is_empty() {
            members.sort()?;
            self.members.push(members)?;
        }
        Ok(())
    }

    /// The groups of the values of a body.
    pub fn of(alloc: Global, body: &Body) -> Result<Components, AllocError> {
        let order = walked(alloc, body)?;
        let mut components = Components {
            of: Table::new(alloc, body.count(), None)?,
            members: Vec::new(alloc),
        };
        for value in order.iter().rev() {
            components.gather(alloc, body, *value)?;
        }
        Ok(components)
    }

    /// How many groups there are.
    pub fn count(&self) -> usize {
        self.members.len()
    }

    /// The group of a value; one behind all others of what is no value of the body.
    pub fn group(&self, value: ValueId) -> GroupId {
        let behind = GroupId(self.members.len());
        self.of.at(value).unwrap_or(behind)
    }

    /// The values of a group, by rising numbers.
    pub fn members(&self, group: GroupId) -> &[ValueId] {
        let members = self.members.get(group.0);
        members.map_or(&[], |members| members.as_slice())
    }

    /// Whether a value needs others that need it.
    pub fn is_on_circle(&self, value: ValueId) -> bool {
        self.members(self.group(value)).len() > 1
    }
}
