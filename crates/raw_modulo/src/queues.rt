//! Words in queues.
use crate::board::slot;
use crate::marks::Marks;
use crate::schedule::Lane;
use raw_frame::Table;
use raw_model::limits::DEFAULT_DEPTH;
use std::alloc::{AllocError, Global};

/// The stay of a word in a queue, in half cycles: an instruction that takes two words takes its first operand in the
/// first half of its cycle. It comes at the start of a cycle.
#[derive(Clone, Copy, PartialEq, Eq)]
pub(crate) struct Stay {
    pub(crate) from: usize,
    pub(crate) until: usize,
}

/// Queues between tiles and switches, with the words of all rows.
#[derive(Drop)]
pub(crate) struct Queues {
    interval: usize,
    stays: Table<usize, Option<Stay>>,
    /// When words come to each queue, and the same backwards from the end of the interval.
    onward: Marks,
    backward: Marks,
    /// How many words are in each queue in each cycle, modulo the interval.
    loads: Table<usize, u8>,
}

/// So many intervals a word stays in a queue at most.
const LONGEST: usize = 6;

impl Stay {
    // How long it is.
    fn length(self) -> usize {
        self.until.saturating_sub(self.from)
    }

    // How long before a time it begins, in a round.
    fn before(self, time: usize, round: usize) -> usize {
        let ahead = round.saturating_mul(1_024);
        slot(time.saturating_add(ahead).saturating_sub(self.from), round)
    }
}

/// When a word may go that comes to a queue, so that the words of all rows go in the order in which they come.
#[derive(Clone, Copy)]
pub(crate) struct Bounds {
    pub(crate) least: usize,
    pub(crate) most: usize,
}

impl Queues {
    /// So many queues, all empty.
    pub(crate) fn new(alloc: Global, count: usize, interval: usize) -> Result<Queues, AllocError> {
        let places = count.saturating_mul(interval);
        Ok(Queues {
            interval,
            stays: Table::new(alloc, places, None)?,
            onward: Marks::new(alloc, count, interval)?,
            backward: Marks::new(alloc, count, interval)?,
            loads: Table::new(alloc, places, 0)?,
        })
    }

    // The place of a cycle of a queue.
    fn place(&self, queue: Lane, time: usize) -> usize {
        let first = queue.0.saturating_mul(self.interval);
        first.saturating_add(slot(time, self.interval))
    }

    // A cycle, counted backwards from the end of its interval.
    fn mirrored(&self, time: usize) -> usize {
        self.interval.saturating_sub(slot(time, self.interval))
    }

    // Marks a cycle in which a word comes to a queue, or takes the mark away.
    fn mark(&mut self, queue: Lane, time: usize, is_marked: bool) {
        let mirrored = self.mirrored(time);
        self.onward.put(queue, time, is_marked);
        self.backward.put(queue, mirrored, is_marked);
    }

    // The stay of the next word that comes to a queue from a cycle on, or before it.
    fn neighbour(&self, queue: Lane, time: usize, is_later: bool) -> Option<Stay> {
        let at = if is_later {
            time.saturating_add(self.onward.next(queue, time)?)
        } else {
            let step = self.backward.next(queue, self.mirrored(time))?;
            time.saturating_add(self.interval).saturating_sub(step)
        };
        self.stays.at(self.place(queue, at))
    }

    /// When a word may go that comes in a half cycle: behind the one that comes before it, and before the one that comes
    /// behind it. None where another one comes in this cycle.
    pub(crate) fn bounds(&self, queue: Lane, from: usize) -> Option<Bounds> {
        let round = self.interval.saturating_mul(2);
        let (Some(before), Some(behind)) = (
            self.neighbour(queue, from / 2, false),
            self.neighbour(queue, from / 2, true),
        ) else {
            return Some(Bounds {
                least: 0,
                most: usize::MAX,
            });
        };
        let since = before.before(from, round);
        if since == 0 {
            return None;
        }
        let ahead = round.saturating_sub(behind.before(from, round));
        let least = from.saturating_add(before.length()).saturating_add(1);
        let most = from.saturating_add(ahead).saturating_add(behind.length());
        Some(Bounds {
            least: least.saturating_sub(since),
            most: most.saturating_sub(1),
        })
    }

    // Whether a word keeps the order with all others.
    fn keeps_order(&self, queue: Lane, stay: Stay) -> bool {
        match self.bounds(queue, stay.from) {
            Some(bounds) => bounds.least <= stay.until && stay.until <= bounds.most,
            None => false,
        }
    }

    // Counts a word in each cycle of its stay, if there is room in all.
    fn count(&mut self, queue: Lane, stay: Stay) -> bool {
        for time in stay.from / 2..=stay.until / 2 {
            let place = self.place(queue, time);
            let load = self.loads.at(place).saturating_add(1);
            self.loads.put(place, load);
            if load > DEFAULT_DEPTH {
                let until = time.saturating_mul(2);
                self.discount(queue, Stay { until, ..stay });
                return false;
            }
        }
        true
    }

    // Counts it no more.
    fn discount(&mut self, queue: Lane, stay: Stay) {
        for time in stay.from / 2..=stay.until / 2 {
            let place = self.place(queue, time);
            let load = self.loads.at(place).saturating_sub(1);
            self.loads.put(place, load);
        }
    }

    // Whether a stay is no longer than any may be.
    fn is_short(&self, stay: Stay) -> bool {
        let longest = self
            .interval
            .saturating_mul(2_usize.saturating_mul(LONGEST));
        stay.until.saturating_sub(stay.from) <= longest
    }

    /// A word more, where order and room allow it.
    pub(crate) fn add(&mut self, queue: Lane, stay: Stay) -> bool {
        if !self.is_short(stay) || !self.keeps_order(queue, stay) {
            return false;
        }
        if !self.count(queue, stay) {
            return false;
        }
        let place = self.place(queue, stay.from / 2);
        self.stays.put(place, Some(stay));
        self.mark(queue, stay.from / 2, true);
        true
    }

    /// A word less.
    pub(crate) fn remove(&mut self, queue: Lane, stay: Stay) {
        self.discount(queue, stay);
        let place = self.place(queue, stay.from / 2);
        self.stays.put(place, None);
        self.mark(queue, stay.from / 2, false);
    }
}
