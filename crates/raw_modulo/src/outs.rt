//! The outs, which come to their sinks in their order, all of some rows within one interval.
use crate::making::Window;
use crate::schedule::Schedule;
use crate::sending::Due;
use raw_body::SinkId;
use raw_frame::ValueId;
use std::alloc::{AllocError, Global};

/// So many starts are tried for the outs of a sink.
const MOST_TRIES: usize = 200;

// The values of the outs of a sink, in their order.
fn outs_of(
    alloc: Global,
    schedule: &Schedule<'_>,
    sink: SinkId,
) -> Result<Vec<ValueId>, AllocError> {
    let mut values = Vec::new(alloc);
    let task = schedule.task;
    let body = task.body;
    for out in &body.outs {
        if out.sink == sink {
            values.push(out.value)?;
        }
    }
    Ok(values)
}

impl Schedule<'_> {
    // How many links lie between the home of an out and its sink.
    fn way(&self, value: ValueId, sink: SinkId) -> usize {
        let tile = self.task.site.sink_tile(sink);
        self.task
            .site
            .part
            .distance(self.task.homes.at(value), tile)
    }

    // When an out can be done at the earliest.
    fn out_from(&self, value: ValueId) -> usize {
        self.earliest(value).max(self.interval)
    }

    // When an out can come to its sink at the earliest.
    fn out_ready(&self, value: ValueId, sink: SinkId) -> usize {
        let way = self.way(value, sink);
        self.out_from(value).saturating_add(1).saturating_add(way)
    }

    // When the first out of a sink comes there at the earliest, so that all can come within an interval.
    fn first_out(&self, values: &[ValueId], sink: SinkId) -> usize {
        let mut last = 0;
        for value in values {
            last = self.out_ready(*value, sink).max(last);
        }
        let first = match values.first() {
            Some(value) => self.out_ready(*value, sink),
            None => 0,
        };
        last.saturating_add(1)
            .saturating_sub(self.interval)
            .max(first)
    }

    // Does an out, so that it comes to its sink when it is due.
    fn make_out(&mut self, value: ValueId, sink: SinkId, due: Due) -> Option<usize> {
        let way = self.way(value, sink).saturating_add(3);
        let from = self.out_from(value).max(due.from.saturating_sub(way));
        let until = from.saturating_add(self.interval.saturating_mul(2));
        let due = Some(due);
        if self.make(value, Window { from, until, due }) {
            self.last_hop(value)
        } else {
            None
        }
    }

    // Does outs, the first so that it comes not before a time; when that comes, and whether all could be done. Where they
    // could not, none is.
    fn make_outs_from(
        &mut self,
        values: &[ValueId],
        sink: SinkId,
        start: usize,
    ) -> (Option<usize>, bool) {
        let (_, net) = self.task.site.sink_end(sink);
        let mut first = None;
        let mut due = Due {
            from: start,
            until: start.saturating_add(self.interval.saturating_mul(3)),
            net,
        };
        let mut done: usize = 0;
        for value in values {
            let Some(time) = self.make_out(*value, sink, due) else {
                break;
            };
            done = done.saturating_add(1);
            let begin = first.unwrap_or(time);
            first = Some(begin);
            due.from = time.saturating_add(1);
            due.until = begin.saturating_add(self.interval).saturating_sub(1);
        }
        if done < values.len() {
            self.take_all_back(values, done);
        }
        (first, done == values.len())
    }

    /// The first of some operations are not done.
    pub(crate) fn take_all_back(&mut self, values: &[ValueId], done: usize) {
        for place in (0..done).rev() {
            if let Some(value) = values.get(place) {
                self.take_back(*value);
            }
        }
    }

    /// Does the outs of a sink.
    pub(crate) fn make_outs(&mut self, alloc: Global, sink: SinkId) -> Result<bool, AllocError> {
        let values = outs_of(alloc, self, sink)?;
        let mut start = self.first_out(&values, sink);
        for _ in 0..self.interval.saturating_mul(2).min(MOST_TRIES) {
            if self.left == 0 {
                return Ok(false);
            }
            let (first, is_done) = self.make_outs_from(&values, sink, start);
            if is_done {
                return Ok(true);
            }
            start = match first {
                Some(first) => first.max(start).saturating_add(1),
                None => start.saturating_add(1),
            };
        }
        Ok(false)
    }
}
