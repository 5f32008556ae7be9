//! The processors of a machine with terms.

use raw_processor::{PortState, SwitchUnit};
use raw_term::TermTile;
use raw_tile::TileStep;

/// A tile of a machine with terms.
#[derive(Drop)]
pub struct TileUnit {
    /// Its program, made for stepping. No step changes it.
    pub code: Vec<TileStep>,
    pub tile: TermTile,
}

/// A source of a machine with terms.
#[derive(Drop)]
pub struct SourceUnit {
    /// The number of the term of its first word. Those of the others follow.
    pub first: u32,
    pub port: PortState,
}

/// A processor of a machine with terms.
#[derive(Drop)]
pub enum Unit {
    Tile(TileUnit),
    Switch(SwitchUnit),
    Source(SourceUnit),
    Sink(PortState),
}
