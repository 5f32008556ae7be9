//! The search for a schedule.
use crate::making::Window;
use crate::ready::{Ready, Turn};
use crate::schedule::Schedule;
use crate::sending::Departure;
use crate::task::Task;
use raw_body::{GroupId, SinkId, SourceId};
use raw_frame::{Table, TileId, ValueId};
use std::alloc::{AllocError, Global};

/// Which value gets its time first.
#[derive(Clone, Copy, PartialEq, Eq)]
pub enum Rule {
    /// The one that can be done first.
    Earliest,
    /// The one that is needed by most others, one behind the other.
    Highest,
    /// The next one that an out needs, out by out; no tile is far ahead of it. It keeps few values alive.
    OutByOut,
    /// The same, where tiles may be far ahead.
    Loose,
}

/// So many cycles before its use a word is loaded at most, where few values are to be alive.
const REACH: usize = 6;

/// A search that has come so far.
#[derive(Drop)]
struct Running<'a> {
    schedule: Schedule<'a>,
    rule: Rule,
    /// Whether the inputs are spread over the interval.
    is_even: bool,
    /// How many operands of each group have no time yet.
    pending: Table<GroupId, usize>,
    ready: Ready,
    /// The inputs, in their order, and how many have their times.
    inputs: Vec<ValueId>,
    next_input: usize,
    /// How many inputs of each source there are, how many have their times, and when the first and the last leave.
    totals: Table<SourceId, usize>,
    counts: Table<SourceId, usize>,
    first: Table<SourceId, Option<usize>>,
    last: Table<SourceId, Option<usize>>,
    /// When the last operation is done at each tile.
    latest: Table<TileId, usize>,
}

/// The next input that leaves its source.
#[derive(Clone, Copy)]
struct NextInput {
    value: ValueId,
    source: SourceId,
    /// When it may leave it.
    from: usize,
}

impl<'a> Running<'a> {
    // A search that has not begun.
    fn new(
        alloc: Global,
        schedule: Schedule<'a>,
        rule: Rule,
        is_even: bool,
    ) -> Result<Running<'a>, AllocError> {
        let task = schedule.task;
        let sources = task.site.sources.len();
        Ok(Running {
            schedule,
            rule,
            is_even,
            pending: Table::new(alloc, task.components.count(), 0)?,
            ready: Ready::new(alloc),
            inputs: Vec::new(alloc),
            next_input: 0,
            totals: task.body.given(alloc, sources)?,
            counts: Table::new(alloc, sources, 0)?,
            first: Table::new(alloc, sources, None)?,
            last: Table::new(alloc, sources, None)?,
            latest: Table::new(alloc, task.site.part.tiles(), 0)?,
        })
    }

    // The first member of a group.
    fn first_member(&self, group: GroupId) -> ValueId {
        let task = self.schedule.task;
        let members = task.components.members(group);
        members.first().copied().unwrap_or(ValueId(0))
    }

    // When all operations of a group can be done at the earliest.
    fn earliest(&self, group: GroupId) -> usize {
        let task = self.schedule.task;
        let mut earliest = self.schedule.interval;
        let components = task.components;
        for value in components.members(group) {
            earliest = self.schedule.earliest(*value).max(earliest);
        }
        earliest
    }

    // The greatest height in a group, from the top.
    fn rank(&self, group: GroupId) -> usize {
        let task = self.schedule.task;
        let mut height = 0;
        let components = task.components;
        for value in components.members(group) {
            height = task.order.height(*value).max(height);
        }
        usize::MAX.saturating_sub(height)
    }

    // The last turn in a group.
    fn turn(&self, group: GroupId) -> usize {
        let task = self.schedule.task;
        let mut turn = 0;
        let components = task.components;
        for value in components.members(group) {
            turn = task.order.turn(*value).max(turn);
        }
        turn
    }

    // A group whose operands have their times is ready; outs come last.
    fn add_ready(&mut self, group: GroupId) -> Result<(), AllocError> {
        let value = self.first_member(group);
        let body = self.schedule.task.body;
        if body.origin(value).is_input() || body.out_of(value).is_some() {
            return Ok(());
        }
        let earliest = self.earliest(group);
        let (first, second) = match self.rule {
            Rule::Earliest => (earliest, self.rank(group)),
            Rule::Highest => (self.rank(group), earliest),
            Rule::OutByOut | Rule::Loose => (self.turn(group), earliest),
        };
        self.ready.add(Turn {
            first,
            second,
            group,
        })
    }

    // What each group waits for.
    fn count_pending(&mut self, value: ValueId) {
        let task = self.schedule.task;
        let group = task.components.group(value);
        let body = task.body;
        for used in body.uses(value) {
            let other = task.components.group(used.user);
            if other != group {
                let pending = self.pending.at(other).saturating_add(1);
                self.pending.put(other, pending);
            }
        }
    }

    // Before the first step.
    fn begin(&mut self) -> Result<(), AllocError> {
        let task = self.schedule.task;
        for value in (0..task.body.count()).map(ValueId) {
            self.count_pending(value);
            if task.body.origin(value).is_input() {
                self.inputs.push(value)?;
            }
        }
        for group in (0..task.components.count()).map(GroupId) {
            if self.pending.at(group) == 0 {
                self.add_ready(group)?;
            }
        }
        Ok(())
    }

    // One operand of a group has its time.
    fn operand_done(&mut self, group: GroupId) -> Result<(), AllocError> {
        let pending = self.pending.at(group).saturating_sub(1);
        self.pending.put(group, pending);
        if pending == 0 {
            self.add_ready(group)?;
        }
        Ok(())
    }

    // A value has its time.
    fn value_done(&mut self, value: ValueId) -> Result<(), AllocError> {
        let task = self.schedule.task;
        let group = task.components.group(value);
        let body = task.body;
        for used in body.uses(value) {
            let other = task.components.group(used.user);
            if other != group {
                self.operand_done(other)?;
            }
        }
        Ok(())
    }

    // All values of a group have their times.
    fn group_done(&mut self, group: GroupId) -> Result<(), AllocError> {
        let task = self.schedule.task;
        let components = task.components;
        for value in components.members(group) {
            self.value_done(*value)?;
        }
        Ok(())
    }

    // When the next input may leave its source at the earliest.
    fn input_from(&self, source: SourceId) -> usize {
        let interval = self.schedule.interval;
        let count = self.counts.at(source);
        let pace = if self.is_even {
            let spread = count.saturating_mul(interval);
            spread.checked_div(self.totals.at(source)).unwrap_or(0)
        } else {
            count
        };
        let behind = match self.last.at(source) {
            Some(last) => last.saturating_add(1),
            None => 0,
        };
        interval.saturating_add(pace).max(behind)
    }

    // The next input.
    fn input(&self) -> Option<NextInput> {
        let value = self.inputs.get(self.next_input).copied()?;
        let source = self.schedule.task.body.origin(value).source()?;
        Some(NextInput {
            value,
            source,
            from: self.input_from(source),
        })
    }

    // An input leaves its source.
    fn take_input(&mut self, input: NextInput) -> Result<bool, AllocError> {
        let (value, source) = (input.value, input.source);
        let interval = self.schedule.interval;
        let latest = input.from.saturating_add(interval);
        let until = match self.first.at(source) {
            Some(first) => first.saturating_add(interval).saturating_sub(1).min(latest),
            None => latest,
        };
        let is_sent = self.schedule.send(Departure {
            value,
            pushed: None,
            from: input.from,
            until,
            due: None,
        });
        let Some(message) = self.schedule.messages.at(value) else {
            return Ok(false);
        };
        self.schedule.made.put(value, Some(message.first));
        self.next_input = self.next_input.saturating_add(1);
        self.counts
            .put(source, self.counts.at(source).saturating_add(1));
        self.first
            .put(source, self.first.at(source).or(Some(message.first)));
        self.last.put(source, Some(message.first));
        self.value_done(value)?;
        Ok(is_sent)
    }

    // An operation that needs no other one that needs it gets its time.
    fn take_single(&mut self, value: ValueId) -> bool {
        let interval = self.schedule.interval;
        let tile = self.schedule.task.homes.at(value);
        let earliest = self.schedule.earliest(value).max(interval);
        let from = match self.rule {
            Rule::OutByOut => earliest.max(self.latest.at(tile).saturating_sub(2)),
            _ => earliest,
        };
        let is_made = self.schedule.make(
            value,
            Window {
                from,
                until: from.saturating_add(interval.saturating_mul(3)),
                due: None,
            },
        );
        if let Some(made) = self.schedule.made.at(value) {
            self.latest.put(tile, made.max(self.latest.at(tile)));
        }
        is_made
    }

    // The operations of a group get their times.
    fn take_group(&mut self, alloc: Global, group: GroupId) -> Result<bool, AllocError> {
        let task = self.schedule.task;
        let members = task.components.members(group);
        let is_done = if members.len() > 1 {
            let start = self.earliest(group);
            self.schedule.make_circle(alloc, members, start)?
        } else {
            self.take_single(self.first_member(group))
        };
        if is_done {
            self.group_done(group)?;
        }
        Ok(is_done)
    }

    // Whether an input that may leave in this cycle comes before the group whose turn it is.
    fn is_input_first(&self, from: usize, turn: Option<Turn>) -> bool {
        match turn {
            Some(turn) => self.rule != Rule::Earliest || from <= turn.first,
            None => true,
        }
    }

    // One step: whether it could be done, or none where nothing is left.
    fn step(&mut self, alloc: Global) -> Result<Option<bool>, AllocError> {
        let turn = self.ready.next();
        if let Some(input) = self.input() {
            if self.is_input_first(input.from, turn) {
                return Ok(Some(self.take_input(input)?));
            }
        }
        match turn {
            Some(turn) => {
                self.ready.remove();
                Ok(Some(self.take_group(alloc, turn.group)?))
            }
            None => Ok(None),
        }
    }

    // All values but outs get their times; whether all could.
    fn run(&mut self, alloc: Global) -> Result<bool, AllocError> {
        let groups = self.schedule.task.components.count();
        for _ in 0..groups.saturating_add(1) {
            match self.step(alloc)? {
                Some(true) => {}
                Some(false) => return Ok(false),
                None => return Ok(true),
            }
        }
        Ok(true)
    }

    // The outs get their times; whether all could.
    fn run_outs(&mut self, alloc: Global) -> Result<bool, AllocError> {
        let task = self.schedule.task;
        let sinks = task.site.sinks;
        for sink in (0..sinks.len()).map(SinkId) {
            if !self.schedule.make_outs(alloc, sink)? {
                return Ok(false);
            }
        }
        Ok(true)
    }
}

/// A schedule of a task with so many cycles a row, or none; at most so many tries are made for it. `left` is how many
/// tries have not been made.
pub fn find_schedule<'a>(
    alloc: Global,
    task: &'a Task<'a>,
    interval: usize,
    rule: Rule,
    is_even: bool,
    left: &mut usize,
) -> Result<Option<Schedule<'a>>, AllocError> {
    let reach = match rule {
        Rule::OutByOut => interval.min(REACH),
        _ => interval,
    };
    let schedule = Schedule::new(alloc, task, interval, reach, *left)?;
    let mut running = Running::new(alloc, schedule, rule, is_even)?;
    running.begin()?;
    let is_done = running.run(alloc)? && running.run_outs(alloc)?;
    *left = running.schedule.left;
    if is_done {
        Ok(Some(running.schedule))
    } else {
        Ok(None)
    }
}
