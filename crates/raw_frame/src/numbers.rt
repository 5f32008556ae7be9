//! The numbers by which schedulers name tiles, values and outs.

/// What is numbered from 0 on, so that a table can have a place for each.
pub trait Numbered: Copy {
    /// Its number.
    fn number(self) -> usize;
}

/// A tile of a part of a grid. Tiles are numbered by rows.
#[derive(Clone, Copy, PartialEq, Eq, PartialOrd, Ord)]
pub struct TileId(pub usize);

impl TileId {
    /// The tile in the corner of a part, in its first column and row.
    pub const CORNER: TileId = TileId(0);
}

/// A value of a graph or of a body.
#[derive(Clone, Copy, PartialEq, Eq, PartialOrd, Ord)]
pub struct ValueId(pub usize);

/// One of the outs of a flow, by their order.
#[derive(Clone, Copy, PartialEq, Eq, PartialOrd, Ord)]
pub struct OutId(pub usize);

impl Numbered for TileId {
    fn number(self) -> usize {
        self.0
    }
}

impl Numbered for ValueId {
    fn number(self) -> usize {
        self.0
    }
}

impl Numbered for usize {
    fn number(self) -> usize {
        self
    }
}
