//! Parts of a grid.
use crate::numbers::TileId;
use crate::tiles::TileSet;
use raw_grid::{Dir, Net, Side};

/// The tiles of so many columns and rows, from that in the corner on.
#[derive(Clone, Copy, PartialEq, Eq)]
pub struct Part {
    pub cols: usize,
    pub rows: usize,
}

impl Part {
    /// How many tiles there are.
    pub fn tiles(self) -> usize {
        self.cols.saturating_mul(self.rows)
    }

    /// The column of a tile.
    pub fn column(self, tile: TileId) -> usize {
        tile.0.checked_rem(self.cols).unwrap_or(0)
    }

    /// The row of a tile.
    pub fn row(self, tile: TileId) -> usize {
        tile.0.checked_div(self.cols).unwrap_or(0)
    }

    /// The tile in a column and a row.
    pub fn tile_at(self, column: usize, row: usize) -> TileId {
        TileId(row.saturating_mul(self.cols).saturating_add(column))
    }

    /// How many links lie between two tiles.
    pub fn distance(self, p: TileId, q: TileId) -> usize {
        let columns = self.column(p).abs_diff(self.column(q));
        columns.saturating_add(self.row(p).abs_diff(self.row(q)))
    }

    /// The next larger part: twice the columns or the rows, whichever are fewer, as far as a grid goes.
    pub fn larger(self, grid: Part) -> Part {
        let Part { cols, rows } = self;
        if rows < grid.rows && (rows <= cols || cols >= grid.cols) {
            Part {
                cols,
                rows: rows.saturating_mul(2).min(grid.rows),
            }
        } else {
            Part {
                cols: cols.saturating_mul(2).min(grid.cols),
                rows,
            }
        }
    }

    /// The tile at a side of a tile.
    pub fn neighbour(self, tile: TileId, side: Side) -> Option<TileId> {
        let (x, y) = (self.column(tile), self.row(tile));
        let number = match side {
            Side::N if y > 0 => tile.0.checked_sub(self.cols)?,
            Side::E if x.saturating_add(1) < self.cols => tile.0.checked_add(1)?,
            Side::S if y.saturating_add(1) < self.rows => tile.0.checked_add(self.cols)?,
            Side::W if x > 0 => tile.0.checked_sub(1)?,
            _ => return None,
        };
        Some(TileId(number))
    }

    /// The tiles that lie in a direction of a tile: those of other columns to the east and to the west, those of other
    /// rows to the north and to the south, and the tile itself.
    pub fn tiles_towards(self, tile: TileId, dir: Dir) -> TileSet {
        let mut tiles = TileSet::NONE;
        for other in (0..self.tiles()).map(TileId) {
            if self.lies(other, tile, dir) {
                tiles = tiles.with(other);
            }
        }
        tiles
    }

    // Whether a tile lies in a direction of another.
    fn lies(self, other: TileId, tile: TileId, dir: Dir) -> bool {
        match dir {
            Dir::N => self.row(other) < self.row(tile),
            Dir::E => self.column(other) > self.column(tile),
            Dir::S => self.row(other) > self.row(tile),
            Dir::W => self.column(other) < self.column(tile),
            Dir::P => other == tile,
        }
    }

    /// The direction of the next tile on the way to the corner, by the west and then by the north. In the corner it is
    /// the west, where the ports stand.
    pub fn homewards(self, tile: TileId) -> Dir {
        if self.column(tile) == 0 && self.row(tile) > 0 {
            Dir::N
        } else {
            Dir::W
        }
    }

    /// The next tile on that way.
    pub fn next_homewards(self, tile: TileId) -> Option<TileId> {
        match self.homewards(tile) {
            Dir::N => self.neighbour(tile, Side::N),
            _ => self.neighbour(tile, Side::W),
        }
    }
}

/// The place of a network among both, from 0.
pub fn net_index(net: Net) -> usize {
    match net {
        Net::One => 0,
        Net::Two => 1,
    }
}
