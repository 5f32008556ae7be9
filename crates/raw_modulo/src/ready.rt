//! Whose turn it is.
use raw_body::GroupId;
use std::alloc::{AllocError, Global};

/// The turn of a group of values: the least goes first.
#[derive(Clone, Copy, PartialEq, Eq, PartialOrd, Ord)]
pub(crate) struct Turn {
    pub(crate) first: usize,
    pub(crate) second: usize,
    pub(crate) group: GroupId,
}

/// Groups whose operands have their times, by their turns.
#[derive(Drop)]
pub(crate) struct Ready {
    turns: Vec<Turn>,
}

impl Ready {
    /// None.
    pub(crate) fn new(alloc: Global) -> Ready {
        Ready {
            turns: Vec::new(alloc),
        }
    }

    /// One more.
    pub(crate) fn add(&mut self, turn: Turn) -> Result<(), AllocError> {
        let place = self.turns.partition_point(|other| *other <= turn);
        let place = place.min(self.turns.len());
        self.turns.insert(place, turn)?;
        Ok(())
    }

    /// The next one.
    pub(crate) fn next(&self) -> Option<Turn> {
        self.turns.first().copied()
    }

    /// The next one has had its turn.
    pub(crate) fn remove(&mut self) {
        if !self.turns.is_empty() {
            self.turns.remove(0);
        }
    }
}
