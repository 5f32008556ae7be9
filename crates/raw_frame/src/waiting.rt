//! What waits for its turn at a tile.
use crate::numbers::ValueId;
use std::alloc::{AllocError, Global};

/// When a value has its turn: the least rank goes first. Words that go to the sink have rank 0.
#[derive(Clone, Copy, PartialEq, Eq, PartialOrd, Ord)]
pub struct Rank(pub usize);

impl Rank {
    /// That of words that go to the sink.
    pub const FIRST: Rank = Rank(0);

    /// Behind all others: that of what nothing waits for.
    pub const LAST: Rank = Rank(usize::MAX);
}

/// A value whose turn comes by its rank.
#[derive(Clone, Copy, PartialEq, Eq, PartialOrd, Ord)]
pub struct Waiting {
    pub rank: Rank,
    pub value: ValueId,
}

/// Values by rising ranks.
#[derive(Drop)]
pub struct ReadyList {
    items: Vec<Waiting>,
}

impl ReadyList {
    /// None.
    pub fn new(alloc: Global) -> ReadyList {
        ReadyList {
            items: Vec::new(alloc),
        }
    }

    /// One value more, behind those of its rank.
    pub fn add(&mut self, waiting: Waiting) -> Result<(), AllocError> {
        let place = self.items.partition_point(|item| item.rank <= waiting.rank);
        let place = place.min(self.items.len());
        self.items.insert(place, waiting)?;
        Ok(())
    }

    /// The value at a place of the order.
    pub fn at(&self, place: usize) -> Option<Waiting> {
        self.items.get(place).copied()
    }

    /// Whether a value with a rank is among them.
    pub fn has(&self, waiting: Waiting) -> bool {
        self.place_of(waiting).is_some()
    }

    /// A value is done.
    pub fn remove(&mut self, waiting: Waiting) {
        if let Some(place) = self.place_of(waiting) {
            if place < self.items.len() {
                self.items.remove(place);
            }
        }
    }

    // Where a value stands.
    fn place_of(&self, waiting: Waiting) -> Option<usize> {
        let first = self.items.partition_point(|item| item.rank < waiting.rank);
        for place in first..self.items.len() {
            let item = self.at(place)?;
            if item == waiting {
                return Some(place);
            }
            if item.rank > waiting.rank {
                return None;
            }
        }
        None
    }

    /// How many there are.
    pub fn size(&self) -> usize {
        self.items.len()
    }
}
