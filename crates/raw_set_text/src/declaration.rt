//! What one line of a set declares.
use raw_grid::{Net, Side};

/// A tile by its column and row, which need not be on the grid.
#[derive(Clone, Copy, PartialEq, Eq)]
pub struct Position {
    pub x: u32,
    pub y: u32,
}

/// A side of a tile on one network.
#[derive(Clone, Copy, PartialEq, Eq)]
pub struct Edge {
    pub net: Net,
    pub tile: Position,
    pub side: Side,
}

/// What a line outside sections declares that is no head of a section.
#[derive(Drop)]
pub enum Declaration {
    /// The columns and the rows.
    Grid(u32, u32),
    /// How many instructions a processor executes at most.
    Limit(u32),
    /// How many values a wire holds at most.
    Depth(u32),
    /// A source at an edge.
    Source(Edge),
    /// A sink at an edge, and how many words it holds at most.
    Sink(Edge, u32),
    /// Words for the source at an edge.
    Feed(Edge, Vec<u32>),
    /// Words in a tile's memory from an address on.
    Data(Position, u32, Vec<u32>),
    /// Numbers of a tile's miss stream.
    Misses(Position, Vec<u32>),
    /// Words of a tile's memory that the report shows: the address of the first, and how many.
    Show(Position, u32, u32),
}

/// What a line outside sections says.
#[derive(Drop)]
pub enum Line {
    /// No head of a section.
    Plain(Declaration),
    /// The head of the program of a tile.
    Tile(Position),
    /// The head of the program of the switch of a tile.
    Switch(Position),
}
