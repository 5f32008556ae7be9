//! How words come to tiles.
use crate::queues::Stay;
use crate::schedule::{Lane, Schedule};
use crate::task::LocalId;
use raw_grid::Net;

/// How a local comes from the network.
#[derive(Clone, Copy, PartialEq, Eq)]
pub struct Coming {
    pub net: Net,
    /// When it comes into the queue to the tile.
    pub arrival: usize,
    /// When an instruction of its own receives it.
    pub received: usize,
    /// When its user takes it from the queue, in half cycles, where that does so itself.
    pub taken: Option<usize>,
}

impl Coming {
    // Its stay in the queue.
    fn stay(self) -> Stay {
        let from = self.arrival.saturating_mul(2);
        let until = self.taken.unwrap_or(self.received.saturating_mul(2));
        Stay { from, until }
    }
}

impl Schedule<'_> {
    // A word stands in the queue, and is received.
    fn add_coming(&mut self, local: LocalId, coming: Coming) -> bool {
        let tile = self.task.locals.at(local).tile;
        if !self.tiles.is_free(tile, coming.received) {
            return false;
        }
        if !self.inward.add(Lane::of(tile, coming.net), coming.stay()) {
            return false;
        }
        self.tiles.put(tile, coming.received, true);
        self.comings.put(local, Some(coming));
        if self.task.in_memory.at(local) {
            self.stored.put(local, Some(coming.received));
        }
        true
    }

    /// A word that comes to a tile in a cycle is received as soon as may be.
    pub(crate) fn receive(&mut self, local: LocalId, net: Net, arrival: usize) -> bool {
        let tile = self.task.locals.at(local).tile;
        let queue = Lane::of(tile, net);
        let Some(bounds) = self.inward.bounds(queue, arrival.saturating_mul(2)) else {
            return false;
        };
        let first = arrival
            .saturating_add(1)
            .max(bounds.least.saturating_add(1) / 2);
        let last = arrival.saturating_add(self.interval).min(bounds.most / 2);
        // (where the queue has no room until the first free cycle of the tile, it has none until a later one)
        for received in first..=last {
            self.left = self.left.saturating_sub(1);
            if self.tiles.is_free(tile, received) {
                return self.add_coming(
                    local,
                    Coming {
                        net,
                        arrival,
                        received,
                        taken: None,
                    },
                );
            }
        }
        false
    }

    /// A word does not come.
    pub(crate) fn unreceive(&mut self, local: LocalId) {
        if let Some(coming) = self.comings.at(local) {
            self.release(local);
            self.comings.put(local, None);
            if self.task.locals.at(local).comes && coming.taken.is_none() {
                self.stored.put(local, None);
            }
        }
    }

    /// A word is not taken from its queue as it was.
    pub(crate) fn release(&mut self, local: LocalId) {
        if let Some(coming) = self.comings.at(local) {
            let tile = self.task.locals.at(local).tile;
            self.inward
                .remove(Lane::of(tile, coming.net), coming.stay());
            if coming.taken.is_none() {
                self.tiles.put(tile, coming.received, false);
            }
        }
    }

    /// A word is received by an instruction of its own, as it was at first.
    pub(crate) fn restore(&mut self, local: LocalId) {
        if let Some(mut coming) = self.comings.at(local) {
            coming.taken = None;
            self.add_coming(local, coming);
        }
    }

    /// The user of a word takes it from the queue in a half cycle. False where order or room do not allow it.
    pub(crate) fn take_directly(&mut self, local: LocalId, taken: usize) -> bool {
        let Some(mut coming) = self.comings.at(local) else {
            return false;
        };
        coming.taken = Some(taken);
        let tile = self.task.locals.at(local).tile;
        if taken / 2 <= coming.arrival
            || !self.inward.add(Lane::of(tile, coming.net), coming.stay())
        {
            return false;
        }
        self.comings.put(local, Some(coming));
        true
    }

    /// It does not.
    pub(crate) fn untake(&mut self, local: LocalId) {
        if let Some(mut coming) = self.comings.at(local) {
            if coming.taken.is_some() {
                self.release(local);
                coming.taken = None;
                self.comings.put(local, Some(coming));
            }
        }
    }
}
