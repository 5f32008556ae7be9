//! Cycles that are marked.
use crate::board::slot;
use crate::schedule::Lane;
use raw_frame::Table;
use std::alloc::{AllocError, Global};

/// Lanes, in each of which cycles are marked; cycles that are a multiple of the interval away are one. The next mark is
/// found at once, however far away it is.
#[derive(Drop)]
pub(crate) struct Marks {
    interval: usize,
    /// 64 cycles in a word.
    words: Table<usize, u64>,
}

impl Marks {
    /// So many lanes without marks.
    pub(crate) fn new(alloc: Global, lanes: usize, interval: usize) -> Result<Marks, AllocError> {
        let count = (interval / 64).saturating_add(1).saturating_mul(lanes);
        Ok(Marks {
            interval,
            words: Table::new(alloc, count, 0)?,
        })
    }

    // How many words a lane has.
    fn length(&self) -> usize {
        (self.interval / 64).saturating_add(1)
    }

    /// Marks a cycle of a lane, or takes its mark away.
    pub(crate) fn put(&mut self, lane: Lane, time: usize, is_marked: bool) {
        let at = slot(time, self.interval);
        let place = lane.0.saturating_mul(self.length()).saturating_add(at / 64);
        let bit = 1 << (at % 64);
        let word = self.words.at(place);
        self.words
            .put(place, if is_marked { word | bit } else { word & !bit });
    }

    /// How many cycles behind a cycle the next one with a mark is, modulo the interval.
    pub(crate) fn next(&self, lane: Lane, time: usize) -> Option<usize> {
        let length = self.length();
        let first = lane.0.saturating_mul(length);
        let at = slot(time, self.interval);
        let mut mask = u64::MAX << (at % 64);
        let mut place = at / 64;
        for _ in 0..length.saturating_add(1) {
            let bits = self.words.at(first.saturating_add(place)) & mask;
            if bits != 0 {
                let found = place.saturating_mul(64);
                let found = found.saturating_add(bits.trailing_zeros() as usize);
                let behind = found.saturating_add(self.interval).saturating_sub(at);
                return Some(slot(behind, self.interval));
            }
            mask = u64::MAX;
            place = place.saturating_add(1);
            if place >= length {
                place = 0;
            }
        }
        None
    }
}
