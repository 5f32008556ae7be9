//! A schedule with its registers, for a number of rows.
use crate::registers::Registers;
use raw_frame::ValueId;
use raw_modulo::{LocalId, Schedule, Task};

/// The rows that programs go through.
#[derive(Clone, Copy)]
pub(crate) struct Rows {
    /// How many there are; where they have no end, more than any run has.
    pub(crate) count: usize,
    pub(crate) are_endless: bool,
}

impl Rows {
    /// Those of a stream, or rows without end.
    pub(crate) fn new(count: u32, are_endless: bool) -> Rows {
        let count = if are_endless { u32::MAX } else { count };
        Rows {
            count: count as usize,
            are_endless,
        }
    }
}

/// What programs are made of. Steps count the rows of the body, each so many cycles behind the one before, from `lead`
/// before the first row on: operands of the first rows are of those.
#[derive(Drop)]
pub(crate) struct Plan<'a> {
    pub(crate) task: &'a Task<'a>,
    pub(crate) schedule: &'a Schedule<'a>,
    pub(crate) registers: &'a Registers,
    pub(crate) rows: Rows,
    pub(crate) lead: usize,
}

impl Plan<'_> {
    /// How many steps have all their rows.
    pub(crate) fn whole(&self) -> usize {
        let rows = self.task.body.rows;
        self.rows.count.checked_div(rows).unwrap_or(0)
    }

    /// How many steps have rows.
    pub(crate) fn all(&self) -> usize {
        let rows = self.task.body.rows;
        let more = self.rows.count.saturating_add(rows.saturating_sub(1));
        more.checked_div(rows).unwrap_or(0)
    }

    // How many cycles pass from the start of a step to its last operation.
    fn length(&self) -> usize {
        let mut last = 0;
        for value in (0..self.task.body.count()).map(ValueId) {
            last = self.schedule.made.at(value).unwrap_or(0).max(last);
        }
        last.saturating_sub(self.schedule.interval)
    }

    /// How many thousandths of a cycle a row takes, filling and draining among them: a turn of a loop has two cycles more.
    pub(crate) fn cost(&self) -> usize {
        let turn = 2_000_usize.checked_div(self.registers.rows).unwrap_or(0);
        let step = self
            .schedule
            .interval
            .saturating_mul(1_000)
            .saturating_add(turn);
        let steps = step.saturating_mul(self.all());
        let all = self.length().saturating_mul(1_000).saturating_add(steps);
        all.checked_div(self.rows.count).unwrap_or(usize::MAX)
    }

    /// The step behind the last one in which anything is done.
    pub(crate) fn end(&self) -> usize {
        self.all().saturating_add(self.lead.saturating_mul(2))
    }

    /// Whether a value has a row in a step.
    pub(crate) fn is_there(&self, value: ValueId, step: usize) -> bool {
        match step.checked_sub(self.lead) {
            Some(step) => {
                let body = self.task.body;
                let first = step.saturating_mul(body.rows);
                first.saturating_add(body.row_of(value)) < self.rows.count
            }
            None => false,
        }
    }

    /// What a value is taken for in a step before the first row.
    pub(crate) fn first_word(&self, value: ValueId, step: usize) -> Option<u32> {
        let times = self.lead.checked_sub(step)?;
        self.task.body.first_word(value, times)
    }

    // How many steps before its own a local is used at most.
    fn looked_back(&self, local: LocalId) -> usize {
        let local = self.task.locals.at(local);
        let mut most = 0;
        let task = self.task;
        let body = task.body;
        for used in body.uses(local.value) {
            if self.task.homes.at(used.user) == local.tile {
                most = used.back.max(most);
            }
        }
        most
    }

    /// What a local is taken for in a step before the first row, where it is used from there.
    pub(crate) fn first_of(&self, local: LocalId, step: usize) -> Option<u32> {
        if step.saturating_add(self.looked_back(local)) < self.lead || step >= self.lead {
            return None;
        }
        self.first_word(self.task.locals.at(local).value, step)
    }
}

/// The times from one on, up to another that is not among them.
#[derive(Clone, Copy)]
pub(crate) struct Times {
    pub(crate) from: usize,
    pub(crate) until: usize,
}

/// The first and the last cycle in which something is done in the first step.
#[derive(Clone, Copy)]
pub(crate) struct Span {
    pub(crate) first: usize,
    pub(crate) last: usize,
}

/// The span so far, widened to a time.
pub(crate) fn with_time(span: Option<Span>, time: usize) -> Span {
    match span {
        Some(Span { first, last }) => Span {
            first: time.min(first),
            last: time.max(last),
        },
        None => Span {
            first: time,
            last: time,
        },
    }
}

/// The first step of something that is done at a time, so that it is not done before another time.
pub(crate) fn first_step(time: usize, from: usize, interval: usize) -> usize {
    let missing = from.saturating_sub(time);
    let more = missing.saturating_add(interval.saturating_sub(1));
    more.checked_div(interval).unwrap_or(0)
}
