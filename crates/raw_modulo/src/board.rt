//! What is taken in which cycle.
use raw_frame::{Numbered, Table};
use std::alloc::{AllocError, Global};
use std::marker::PhantomData;

/// Lanes, each of which is taken or free in each cycle; cycles that are a multiple of the interval away are one.
#[derive(Drop)]
pub(crate) struct Board<N: Numbered> {
    interval: usize,
    taken: Table<usize, bool>,
    by: PhantomData<N>,
}

/// A cycle modulo the interval.
pub(crate) fn slot(time: usize, interval: usize) -> usize {
    time.checked_rem(interval).unwrap_or(0)
}

impl<N: Numbered> Board<N> {
    /// So many lanes, all free.
    pub(crate) fn new(
        alloc: Global,
        lanes: usize,
        interval: usize,
    ) -> Result<Board<N>, AllocError> {
        Ok(Board {
            interval,
            taken: Table::new(alloc, lanes.saturating_mul(interval), false)?,
            by: PhantomData,
        })
    }

    // The place of a cycle of a lane.
    fn place(&self, lane: N, time: usize) -> usize {
        let first = lane.number().saturating_mul(self.interval);
        first.saturating_add(slot(time, self.interval))
    }

    /// Whether a lane is free in a cycle.
    pub(crate) fn is_free(&self, lane: N, time: usize) -> bool {
        !self.taken.at(self.place(lane, time))
    }

    /// Takes a lane in a cycle, or gives it back.
    pub(crate) fn put(&mut self, lane: N, time: usize, is_taken: bool) {
        let place = self.place(lane, time);
        self.taken.put(place, is_taken);
    }
}
