//! When operations are done.
use crate::schedule::Schedule;
use crate::sending::{Departure, Due};
use crate::task::{LocalId, OperandId, RowLocal, named, step};
use raw_body::Position;
use raw_frame::ValueId;

/// When an operation may be done, and where it makes an out, when that is due.
#[derive(Clone, Copy)]
pub(crate) struct Window {
    pub(crate) from: usize,
    pub(crate) until: usize,
    pub(crate) due: Option<Due>,
}

/// Which operands an operation takes from queues.
type Direct = [bool; 2];

/// The choices, the best first.
const CHOICES: [Direct; 4] = [[true, true], [true, false], [false, true], [false, false]];

// Whether an operand is among some.
fn is_among(direct: Direct, position: Position) -> bool {
    direct.get(position.index()).copied().unwrap_or(false)
}

impl Schedule<'_> {
    // Whether the only user of a local at its tile may take it from the queue.
    fn may_take(&self, value: ValueId, position: Position) -> bool {
        match self.task.operand(value, position) {
            Some(RowLocal { local, .. }) => {
                let is_used_once = self.task.locals.at(local).uses == 1;
                is_used_once && self.comings.at(local).is_some() && !self.task.in_memory.at(local)
            }
            None => false,
        }
    }

    // The operands that may be taken from queues.
    fn takable(&self, value: ValueId) -> Direct {
        let first = self.may_take(value, Position::First);
        [first, self.may_take(value, Position::Second)]
    }

    // When a local can be used, where it is taken from its queue or not.
    fn usable(&self, local: LocalId, is_direct: bool) -> usize {
        if let Some(coming) = self.comings.at(local) {
            if is_direct {
                return coming.arrival.saturating_add(1);
            }
        }
        if self.task.in_memory.at(local) {
            return match self.stored.at(local) {
                Some(stored) => stored.saturating_add(2),
                None => 0,
            };
        }
        match self.comings.at(local) {
            Some(coming) => coming.received.saturating_add(1),
            None => self.made_local(local),
        }
    }

    // When a local that is made at its tile can be used.
    fn made_local(&self, local: LocalId) -> usize {
        match self.made.at(self.task.locals.at(local).value) {
            Some(made) => made.saturating_add(1),
            None => 0,
        }
    }

    // When the operands of an operation can be used, where these are taken from queues.
    fn ready_with(&self, value: ValueId, direct: Direct) -> usize {
        let mut ready = 0;
        for position in Position::BOTH {
            if let Some(RowLocal { local, back }) = self.task.operand(value, position) {
                let earlier = back.saturating_mul(self.interval);
                let usable = self.usable(local, is_among(direct, position));
                ready = usable.saturating_sub(earlier).max(ready);
            }
        }
        ready
    }

    /// When an operation can be done at the earliest.
    pub(crate) fn earliest(&self, value: ValueId) -> usize {
        self.ready_with(value, self.takable(value))
    }

    // The half of a cycle in which an operation reads an operand.
    fn half(&self, value: ValueId, position: Position) -> usize {
        match step(self.task.body.origin(value)) {
            Some(step) => usize::from(step.first() != named(position)),
            None => 0,
        }
    }

    // Takes operands from their queues.
    fn take_operands(&mut self, value: ValueId, direct: Direct, time: usize) -> bool {
        for position in Position::BOTH {
            if is_among(direct, position) {
                if let Some(RowLocal { local, back }) = self.task.operand(value, position) {
                    let time = time.saturating_add(back.saturating_mul(self.interval));
                    let half = time
                        .saturating_mul(2)
                        .saturating_add(self.half(value, position));
                    if !self.take_directly(local, half) {
                        return false;
                    }
                }
            }
        }
        true
    }

    // Loads the constant of an operation, if that is not in a register.
    fn load_constant(&mut self, value: ValueId, time: usize) -> bool {
        if self.task.loaded_constant(value).is_none() {
            return true;
        }
        let tile = self.task.homes.at(value);
        let loaded = self.take_before(tile, time, 0);
        self.constants.put(value, loaded);
        loaded.is_some()
    }

    // Loads an operand from memory.
    fn load_operand(&mut self, value: ValueId, position: Position, time: usize) -> bool {
        let Some(RowLocal { local, back }) = self.task.operand(value, position) else {
            return true;
        };
        if !self.task.in_memory.at(local) {
            return true;
        }
        let Some(stored) = self.stored.at(local) else {
            return false;
        };
        let earlier = back.saturating_mul(self.interval);
        let least = stored.saturating_add(1).saturating_sub(earlier);
        let tile = self.task.homes.at(value);
        let loaded = self.take_before(tile, time, least);
        self.loaded.put(OperandId::of(value, position), loaded);
        loaded.is_some()
    }

    // Stores a value that is kept in memory at its home.
    fn store(&mut self, value: ValueId, time: usize) -> bool {
        let local = self.task.first_local(value);
        if !self.task.in_memory.at(local) || self.task.locals.at(local).comes {
            return true;
        }
        let tile = self.task.homes.at(value);
        let stored = self.take_behind(tile, time);
        self.stored.put(local, stored);
        stored.is_some()
    }

    // Sends what an operation makes in a cycle.
    fn send_made(&mut self, value: ValueId, time: usize, due: Option<Due>) -> bool {
        self.send(Departure {
            value,
            pushed: Some(time),
            from: time.saturating_add(1),
            until: time.saturating_add(self.interval),
            due,
        })
    }

    // Sends a value by an instruction of its own in a cycle, if that is free.
    fn try_to_send(&mut self, value: ValueId, time: usize) -> bool {
        let tile = self.task.homes.at(value);
        if !self.tiles.is_free(tile, time) {
            return false;
        }
        self.tiles.put(tile, time, true);
        self.sent.put(value, Some(time));
        if self.send_made(value, time, None) {
            return true;
        }
        self.sent.put(value, None);
        self.tiles.put(tile, time, false);
        false
    }

    // The same, as soon as may be.
    fn send_later(&mut self, value: ValueId, time: usize) -> bool {
        for step in 1..self.interval {
            if self.left == 0 {
                return false;
            }
            if self.try_to_send(value, time.saturating_add(step)) {
                return true;
            }
        }
        false
    }

    // Sends what an operation makes to all that need it elsewhere.
    fn pass_on(&mut self, value: ValueId, time: usize, due: Option<Due>) -> bool {
        if self.task.is_sent_at_once(value) {
            self.send_made(value, time, due)
        } else if self.task.is_brought(value) {
            self.send_later(value, time)
        } else {
            true
        }
    }

    // All that an operation in a cycle needs.
    fn provide(&mut self, value: ValueId, direct: Direct, time: usize, due: Option<Due>) -> bool {
        self.take_operands(value, direct, time)
            && self.load_constant(value, time)
            && self.load_operand(value, Position::First, time)
            && self.load_operand(value, Position::Second, time)
            && self.store(value, time)
            && self.pass_on(value, time, due)
    }

    // Does an operation in a cycle, if that is free and all that it needs.
    fn try_at(&mut self, value: ValueId, direct: Direct, time: usize, due: Option<Due>) -> bool {
        let tile = self.task.homes.at(value);
        self.left = self.left.saturating_sub(1);
        if !self.tiles.is_free(tile, time) {
            return false;
        }
        self.tiles.put(tile, time, true);
        self.made.put(value, Some(time));
        let is_done = self.provide(value, direct, time, due);
        if !is_done {
            self.unmake(value);
        }
        is_done
    }

    // What was loaded for an operand is loaded no more, and it is not taken from its queue.
    fn unload(&mut self, value: ValueId, position: Position) {
        let operand = OperandId::of(value, position);
        let (tile, loaded) = (self.task.homes.at(value), self.loaded.at(operand));
        self.give_back(tile, loaded);
        self.loaded.put(operand, None);
        if let Some(RowLocal { local, .. }) = self.task.operand(value, position) {
            if self.task.locals.at(local).uses == 1 {
                self.untake(local);
            }
        }
    }

    // What was stored of a value that is made is stored no more.
    fn unstore(&mut self, value: ValueId) {
        let local = self.task.first_local(value);
        if !self.task.locals.at(local).comes {
            let (tile, stored) = (self.task.homes.at(value), self.stored.at(local));
            self.give_back(tile, stored);
            self.stored.put(local, None);
        }
    }

    // An operation is not done. Words that it took from queues are in none.
    fn unmake(&mut self, value: ValueId) {
        let tile = self.task.homes.at(value);
        self.unsend(value);
        let sent = self.sent.at(value);
        self.give_back(tile, sent);
        self.sent.put(value, None);
        self.unstore(value);
        let loaded = self.constants.at(value);
        self.give_back(tile, loaded);
        self.constants.put(value, None);
        self.unload(value, Position::Second);
        self.unload(value, Position::First);
        let made = self.made.at(value);
        self.give_back(tile, made);
        self.made.put(value, None);
    }

    // Words that are to be taken from queues are received by instructions of their own, or are not any more.
    fn receive_operands(&mut self, value: ValueId, direct: Direct, is_received: bool) {
        for position in Position::BOTH {
            match self.task.operand(value, position) {
                Some(RowLocal { local, .. }) if is_among(direct, position) => {
                    if is_received {
                        self.restore(local);
                    } else {
                        self.release(local);
                    }
                }
                _ => {}
            }
        }
    }

    // Does an operation at the first cycle where it can be done with these operands from queues.
    fn make_with(&mut self, value: ValueId, direct: Direct, window: Window) -> bool {
        let first = self.ready_with(value, direct).max(window.from);
        let last = first.saturating_add(self.interval.saturating_mul(2));
        self.receive_operands(value, direct, false);
        for time in first..=last.min(window.until) {
            if self.left == 0 {
                break;
            }
            if self.try_at(value, direct, time, window.due) {
                return true;
            }
        }
        self.receive_operands(value, direct, true);
        false
    }

    /// Does an operation, with as many operands from queues as may be.
    pub(crate) fn make(&mut self, value: ValueId, window: Window) -> bool {
        let [first, second] = self.takable(value);
        for direct in CHOICES {
            let [one, two] = direct;
            if (first || !one) && (second || !two) && self.make_with(value, direct, window) {
                return true;
            }
        }
        false
    }

    // When an operand is taken from its queue, where it is.
    fn taken(&self, value: ValueId, position: Position) -> Option<usize> {
        let RowLocal { local, .. } = self.task.operand(value, position)?;
        self.comings.at(local)?.taken
    }

    /// An operation is not done. All is as it was before it.
    pub(crate) fn take_back(&mut self, value: ValueId) {
        let first = self.taken(value, Position::First).is_some();
        let second = self.taken(value, Position::Second).is_some();
        self.unmake(value);
        self.receive_operands(value, [first, second], true);
    }
}
