//! The cycles of tiles in which an instruction is issued.
ghost use Rattle.std.specs.Prelude.{◌≤◌};

use crate::numbers::TileId;
use std::alloc::{AllocError, Global};

/// How many words of 64 cycles are kept of each tile.
const WORDS: usize = 256;

/// Which cycles of each tile are taken. Cycles from 16,384 on are always free.
#[derive(Drop)]
pub struct Slots {
    words: Vec<u64>,
}

// The bits of a word of cycles from a cycle on.
fn bits_from(word: usize, from: usize) -> u64 {
    if word > from / 64 {
        u64::MAX
    } else {
        u64::MAX << (from % 64)
    }
}

impl Slots {
    /// Those of so many tiles, all free.
    pub fn new(alloc: Global, tiles: usize) -> Result<Slots, AllocError> {
        let mut words = Vec::new(alloc);
        for _ in 0..tiles.saturating_mul(WORDS) {
            words.push(0)?;
        }
        Ok(Slots { words })
    }

    // The cycles of a word that are taken.
    fn word(&self, tile: TileId, word: usize) -> u64 {
        let place = tile.0.saturating_mul(WORDS).saturating_add(word);
        self.words.get(place).copied().unwrap_or(0)
    }

    /// The first free cycle of a tile from a cycle on.
    pub fn free_from(&self, tile: TileId, from: usize) -> usize
        ensures { from ≤ result }
    {
        for word in from / 64..WORDS {
            let free = !self.word(tile, word) & bits_from(word, from);
            if free != 0 {
                return from.max(64 * word + free.trailing_zeros() as usize);
            }
        }
        from
    }

    /// Takes a cycle of a tile.
    pub fn take(&mut self, tile: TileId, cycle: usize) {
        let word = cycle / 64;
        let place = tile.0.saturating_mul(WORDS).saturating_add(word);
        if word < WORDS {
            if let Some(bits) = self.words.get_mut(place) {
                *bits |= 1 << (cycle % 64);
            }
        }
    }

    /// Takes the first free cycle of a tile from a cycle on, and gives it.
    pub fn take_from(&mut self, tile: TileId, from: usize) -> usize
        ensures { from ≤ result }
    {
        let cycle = self.free_from(tile, from);
        self.take(tile, cycle);
        cycle
    }
}
