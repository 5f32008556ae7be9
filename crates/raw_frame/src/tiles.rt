//! Sets of tiles.
use crate::numbers::TileId;

/// Some of the first 64 tiles of a part, which are all that a grid can have.
#[derive(Clone, Copy, PartialEq, Eq)]
pub struct TileSet(u64);

impl TileSet {
    /// No tile.
    pub const NONE: TileSet = TileSet(0);

    /// These tiles and one more.
    pub fn with(self, tile: TileId) -> TileSet {
        if tile.0 < 64 {
            TileSet(self.0 | 1 << tile.0)
        } else {
            self
        }
    }

    /// The tiles that are in two sets.
    pub fn and(self, other: TileSet) -> TileSet {
        TileSet(self.0 & other.0)
    }

    /// The tiles that are in a set and not in another.
    pub fn without(self, other: TileSet) -> TileSet {
        TileSet(self.0 & !other.0)
    }

    /// Whether there is no tile.
    pub fn is_empty(self) -> bool {
        self.0 == 0
    }
}
